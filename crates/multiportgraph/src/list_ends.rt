// What a listing answers and writes: numbers in a row, four for an end of a wire. The ends are read off the tables with no search.
// They stay numbers: the list is the caller's, as the move list is.
ghost use Rattle.std.specs.Prelude.{◌≡◌, ◌+◌, ◌-◌, ◌≤◌, length};
ghost use Rattle.std.proofs.lemmas.List.Edits.{sets};
ghost use Rattle.port_tables.specs.NodeTable.{meta_in};
ghost use Rattle.port_tables.specs.Limits.{node_slots};
ghost use Rattle.multi_tables.specs.Forms.{flag_at};
ghost use Rattle.multiportgraph.specs.ListScans.{shown_meta, first_of_meta, in_end, far_end};

use multi_tables::marks::flagged;
use multi_tables::wire_tables::WireTables;
use port_tables::index::NODE_SLOTS;
use port_tables::node_entry::{NodeMeta, NodeSlot};
use port_tables::node_table::meta_in;
use port_tables::numbers::wide;
use port_tables::tables::{far_in, owner_in};

// The list is too short and stayed as it was: it must have so many numbers.
#[derive(Clone, Copy)]
pub struct TooShort(pub usize);

// The tables that a listing reads, and how many slots of the node table have been used. That they fit stays a clause: the definitions read any tables, and the
// types of a listing would carry what MultiWf says once more; no plainer.
#[derive(Clone, Copy)]
pub(crate) struct ListTables<'a> {
    pub(crate) nodes: &'a [NodeSlot; NODE_SLOTS],
    pub(crate) wires: WireTables<'a>,
    pub(crate) len: usize,
}

// An end of a wire.
#[derive(Clone, Copy)]
pub struct WireEnd {
    pub port: u32,
    pub offset: u32,
    pub node: u32,
    // Its place among the ports of its side.
    pub position: u32,
}

// The first port of a node; 0 for a node that is not live, which no caller asks for.
fn first_of(nodes: &[NodeSlot; NODE_SLOTS], node: u32) -> u32
    ensures { result ≡ first_of_meta (meta_in nodes.now node) }
{
    meta_in(nodes, node).map_or(0, |meta| meta.first_port.0)
}

impl ListTables<'_> {
    // The meta data of a block; none for a hidden node and for no node.
    pub(crate) fn block(self, node: u32) -> Option<NodeMeta>
        ensures { result ≡ shown_meta (flag_at self.entry.wires.flags.now node_slots node) (meta_in self.entry.nodes.now node) }
    {
        if flagged(self.wires.flags, wide(node)) {
            return None;
        }
        meta_in(self.nodes, node)
    }

    // An incoming port of a block, with an offset.
    #[tactic(auto, unfolding(crate::specs::ListScans::in_end))]
    fn in_end(self, port: u32, offset: u32) -> WireEnd
        ensures { result ≡ in_end self.entry.nodes.now self.entry.wires.owners.now port offset }
    {
        let node = owner_in(self.wires.owners, port);
        WireEnd {
            port,
            offset,
            node,
            position: port.saturating_sub(first_of(self.nodes, node)),
        }
    }

    // The incoming end of a wire, by its inner port.
    #[tactic(auto, unfolding(crate::specs::ListScans::far_end))]
    pub(crate) fn far_end(self, inner: u32) -> WireEnd
        ensures { result ≡ far_end self.entry.nodes.now self.entry.wires.links.now self.entry.wires.owners.now self.entry.wires.flags.now inner }
    {
        let node = owner_in(self.wires.owners, inner);
        match meta_in(self.nodes, node) {
            Some(meta) if flagged(self.wires.flags, wide(node)) => {
                let first = meta.first_port.0;
                let main = far_in(self.wires.links, wide(first) + meta.incoming());
                self.in_end(main, inner.saturating_sub(first))
            }
            _ => self.in_end(inner, 0),
        }
    }
}

// Writes numbers at the front of a list.
#[tactic(auto, using(crate::specs::ListSteps::front_laid))]
pub(crate) fn put_front(list: &mut [u32], numbers: &[u32])
    requires { length numbers.now ≤ length list.old }
    ensures { list.new ≡ sets list.old 0 numbers.now }
{
    list[..numbers.len()].copy_from_slice(numbers);
}
