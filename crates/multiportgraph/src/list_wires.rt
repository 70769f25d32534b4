// All wires of a graph in one pass: block after block, the wires of its outgoing ports, as many of a split port as it has.
ghost use Rattle.std.specs.Prelude.{◌≡◌, ◌+◌, ◌*◌, ◌≤◌, ◌<◌, length};
ghost use Rattle.std.proofs.lemmas.List.Edits.{sets};
ghost use Rattle.port_tables.specs.Limits.{node_slots, node_ports};
ghost use Rattle.port_tables.specs.ResizeLinks.{BlockFits};
ghost use Rattle.multiportgraph.specs.Listed.{list_after, list_answer};
ghost use Rattle.multiportgraph.specs.ListScans.{slot_wire, split_wires, port_wires, side_wires, node_wires, table_wires, AllFit};

use crate::list_ends::{ListTables, TooShort, WireEnd, put_front};
use multi_tables::marks::flagged;
use port_tables::node_entry::NodeMeta;
use port_tables::node_table::meta_in;
use port_tables::numbers::wide;
use port_tables::tables::{at, far_in, owner_in};

impl ListTables<'_> {
    // Lists the wire at a slot of an outgoing end at a list's front, if there is one; answers how many numbers that took.
    #[tactic(auto, unfolding(crate::specs::ListScans::slot_wire, port_tables::specs::Tables::far_in))]
    fn list_slot(self, list: &mut [u32], from: WireEnd, slot: usize) -> usize
        requires { length (slot_wire self.nodes.now self.wires.links.now self.wires.owners.now self.wires.flags.now from slot) ≤ length list.old }
        ensures { (result ≡ length (slot_wire self.entry.nodes.now self.entry.wires.links.now self.entry.wires.owners.now self.entry.wires.flags.now from slot))
            × (list.new ≡ sets list.old 0 (slot_wire self.entry.nodes.now self.entry.wires.links.now self.entry.wires.owners.now self.entry.wires.flags.now from slot)) }
    {
        let Some(far) = at(self.wires.links, slot).checked_sub(1) else {
            return 0;
        };
        let to = self.far_end(far);
        put_front(
            list,
            &[
                from.port,
                from.offset,
                from.node,
                from.position,
                to.port,
                to.offset,
                to.node,
                to.position,
            ],
        );
        8
    }

    // Lists the wires of a split port, by its hidden node; answers how many numbers that took.
    // Stays a loop, as those below: each turn writes where the one before ended, and a closure would have to hold the list and that place; no plainer.
    #[tactic(auto, unfolding(crate::specs::ListScans::subport_wire), using(crate::specs::ListSteps::begun, crate::specs::ListSteps::items_written, crate::specs::ListSteps::split_is, crate::specs::ListSteps::item_fits, crate::specs::ListSteps::item_room))]
    fn list_split(self, list: &mut [u32], port: WireEnd, copy: NodeMeta) -> usize
        requires { length (split_wires self.nodes.now self.wires.links.now self.wires.owners.now self.wires.flags.now port.port port.node port.position copy) ≤ length list.old }
        ensures { (result ≡ length (split_wires self.entry.nodes.now self.entry.wires.links.now self.entry.wires.owners.now self.entry.wires.flags.now port.port port.node port.position copy))
            × (list.new ≡ sets list.old 0 (split_wires self.entry.nodes.now self.entry.wires.links.now self.entry.wires.owners.now self.entry.wires.flags.now port.port port.node port.position copy)) }
    {
        let first = copy.first() + copy.incoming();
        let count = copy.outgoing();
        let mut next: usize = 0;
        for offset in 0..count {
            let from = WireEnd {
                offset: offset as u32,
                ..port
            };
            next += self.list_slot(&mut list[next..], from, first + offset);
        }
        next
    }

    // Lists the wires of an outgoing port; answers how many numbers that took.
    #[tactic(auto, unfolding(crate::specs::ListScans::port_wires))]
    fn list_port(self, list: &mut [u32], from: WireEnd) -> usize
        requires { (from.offset ≡ 0) × (length (port_wires self.nodes.now self.wires.links.now self.wires.owners.now self.wires.marks.now self.wires.flags.now from.port from.node from.position) ≤ length list.old) }
        ensures { (result ≡ length (port_wires self.entry.nodes.now self.entry.wires.links.now self.entry.wires.owners.now self.entry.wires.marks.now self.entry.wires.flags.now from.port from.node from.position))
            × (list.new ≡ sets list.old 0 (port_wires self.entry.nodes.now self.entry.wires.links.now self.entry.wires.owners.now self.entry.wires.marks.now self.entry.wires.flags.now from.port from.node from.position)) }
    {
        let port = wide(from.port);
        if flagged(self.wires.marks, port) {
            let hidden = owner_in(self.wires.owners, far_in(self.wires.links, port));
            let Some(copy) = meta_in(self.nodes, hidden) else {
                return 0;
            };
            return self.list_split(list, from, copy);
        }
        self.list_slot(list, from, port)
    }

    // Lists the wires of a node's outgoing ports; answers how many numbers that took.
    #[tactic(auto, unfolding(crate::specs::ListScans::place_wires), using(crate::specs::ListSteps::begun, crate::specs::ListSteps::items_written, crate::specs::ListSteps::side_is, crate::specs::ListSteps::item_fits, crate::specs::ListSteps::item_room))]
    fn list_side(self, list: &mut [u32], node: u32, meta: NodeMeta) -> usize
        requires { BlockFits meta × (length (side_wires self.nodes.now self.wires.links.now self.wires.owners.now self.wires.marks.now self.wires.flags.now node meta) ≤ length list.old) }
        ensures { (result ≡ length (side_wires self.entry.nodes.now self.entry.wires.links.now self.entry.wires.owners.now self.entry.wires.marks.now self.entry.wires.flags.now node meta))
            × (list.new ≡ sets list.old 0 (side_wires self.entry.nodes.now self.entry.wires.links.now self.entry.wires.owners.now self.entry.wires.marks.now self.entry.wires.flags.now node meta)) }
    {
        let first = meta.first() + meta.incoming();
        let count = meta.outgoing();
        let mut next: usize = 0;
        for position in 0..count {
            let from = WireEnd {
                port: (first + position) as u32,
                offset: 0,
                node,
                position: position as u32,
            };
            next += self.list_port(&mut list[next..], from);
        }
        next
    }

    // Lists the wires of a node slot, if it has a block; answers how many numbers that took.
    #[tactic(auto, unfolding(crate::specs::ListScans::node_wires), using(crate::specs::ListSteps::block_none, crate::specs::ListSteps::block_some))]
    fn list_node(self, list: &mut [u32], node: u32) -> usize
        requires { AllFit self.nodes.now × (length (node_wires self.nodes.now self.wires.links.now self.wires.owners.now self.wires.marks.now self.wires.flags.now node) ≤ length list.old) }
        ensures { (result ≡ length (node_wires self.entry.nodes.now self.entry.wires.links.now self.entry.wires.owners.now self.entry.wires.marks.now self.entry.wires.flags.now node))
            × (list.new ≡ sets list.old 0 (node_wires self.entry.nodes.now self.entry.wires.links.now self.entry.wires.owners.now self.entry.wires.marks.now self.entry.wires.flags.now node)) }
    {
        let Some(meta) = self.block(node) else {
            return 0;
        };
        self.list_side(list, node, meta)
    }

    // Lists the wires of all used node slots, from the list's start on.
    #[tactic(auto, unfolding(crate::specs::ListScans::table_wires), using(crate::specs::ListSteps::begun, crate::specs::ListSteps::item_fits, crate::specs::ListSteps::item_room, crate::specs::ListSteps::items_written))]
    fn list_nodes(self, list: &mut [u32])
        requires { AllFit self.nodes.now × (self.len ≤ node_slots) × (length (table_wires self.nodes.now self.wires.links.now self.wires.owners.now self.wires.marks.now self.wires.flags.now self.len) ≤ length list.old) }
        ensures { list.new ≡ sets list.old 0 (table_wires self.entry.nodes.now self.entry.wires.links.now self.entry.wires.owners.now self.entry.wires.marks.now self.entry.wires.flags.now self.entry.len) }
    {
        let mut next: usize = 0;
        for node in 0..self.len {
            next += self.list_node(&mut list[next..], node as u32);
        }
    }

    // Lists all wires, which are so many; a list that is too short stays as it was. Stays beside list_blocks: what is written is each one's own.
    #[tactic(auto, using(crate::specs::ListSteps::short_told, crate::specs::ListSteps::short_kept, crate::specs::ListSteps::full_told, crate::specs::ListSteps::full_written))]
    pub(crate) fn list_wires(self, count: usize, list: &mut [u32]) -> Result<usize, TooShort>
        requires { AllFit self.nodes.now × (self.len ≤ node_slots) × (8 * count ≡ length (table_wires self.nodes.now self.wires.links.now self.wires.owners.now self.wires.marks.now self.wires.flags.now self.len)) × (count ≤ node_slots * node_ports) }
        ensures { (result ≡ list_answer count (table_wires self.entry.nodes.now self.entry.wires.links.now self.entry.wires.owners.now self.entry.wires.marks.now self.entry.wires.flags.now self.entry.len) list.old) × (list.new ≡ list_after (table_wires self.entry.nodes.now self.entry.wires.links.now self.entry.wires.owners.now self.entry.wires.marks.now self.entry.wires.flags.now self.entry.len) list.old) }
    {
        let needed = 8 * count;
        if list.len() < needed {
            return Err(TooShort(needed));
        }
        self.list_nodes(list);
        Ok(count)
    }
}
