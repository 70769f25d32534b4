// The single-link graph: its tables, lookups, counts and links.
ghost use Rattle.std.specs.Prelude.{◌≡◌, ◌+◌, ◌-◌, ◌*◌, ◌≤◌, ◌<◌, get_or, IfSome};
ghost use Rattle.port_tables.specs.Entries.{fresh_slot, meta_of_entry, port_entry_numbers};
ghost use Rattle.port_tables.specs.Tables.{at, cut, link_both, link_count};
ghost use Rattle.port_tables.specs.Limits.{node_slots, node_ports};
ghost use Rattle.portgraph.specs.Model.{Wf};
ghost use Rattle.portgraph.specs.Lookups.{meta_at, meta_numbers, port_at, port_direction, maybe_direction_numbers, port_node, maybe_node_numbers, port_offset, maybe_offset_numbers, port_index, maybe_port_numbers, port_link, port_link_numbers, num_ports, node_port_capacity, contains_node, contains_port, is_empty};
ghost use Rattle.portgraph.specs.Calls.{new_graph, with_links, link_ports, link_numbers, unlink_port};

use port_tables::direction::Direction;
use port_tables::index::{FREE_LISTS, NODE_SLOTS, NodeIndex, PORT_SLOTS, PortIndex, PortOffset};
use port_tables::node_entry::{NodeMeta, NodeSlot};
use port_tables::numbers::wide;
use port_tables::port_entry::PortEntry;
use port_tables::sides::{Sides, ports_from};
use port_tables::tables::{at, cut, link_both, without_link};

// A port graph. Wf stays a clause of the calls that need it: lookups know graphs of any content, and an invariant would ask it of them.
// Its tables stay apart, as the Rust portgraph's.
// They are arrays with the used lengths beside them: there is no heap. Their words, 0 for none, stay numbers: links and lists of free blocks run through one
// table, read and written by the same functions.
#[derive(Clone, Copy)]
pub struct PortGraph {
    // The nodes; free entries form a list.
    pub(crate) node_meta: [NodeSlot; NODE_SLOTS],
    // For each port the port that it is linked with, one higher than its number; 0 for none. The free blocks of each size
    // form a list that runs through the first slots of the blocks.
    pub(crate) port_link: [u32; PORT_SLOTS],
    // The owner of each port (port_entry).
    pub(crate) port_meta: [u32; PORT_SLOTS],
    // The first free block of each size, one higher than its first slot; 0 for none.
    pub(crate) port_free: [u32; FREE_LISTS],
    // The first free node entry, one higher than its number; 0 for none.
    pub(crate) node_free: u32,
    // How many slots of the node table, and of the port tables, have been used.
    pub(crate) node_len: usize,
    pub(crate) port_len: usize,
    pub(crate) node_count: usize,
    pub(crate) port_count: usize,
    pub(crate) link_count: usize,
}

// The port named is not live.
#[derive(Clone, Copy)]
pub struct NoSuchPort(pub PortIndex);

// Why two ports are not linked.
#[derive(Clone, Copy)]
pub enum LinkError {
    // The first port is not live.
    UnknownPort(PortIndex),
    // The second port is not live.
    UnknownSecondPort(PortIndex),
    // The ports have the same direction.
    IncompatibleDirections(PortIndex, PortIndex, Direction),
    AlreadyLinked(PortIndex),
}

// A struct of its own, as NodeAdded.
#[derive(Clone, Copy)]
pub struct PortsLinked {
    pub graph: PortGraph,
    pub answer: Result<(PortIndex, PortIndex), LinkError>,
}

// A struct of its own, as NodeAdded.
#[derive(Clone, Copy)]
pub struct PortUnlinked {
    pub graph: PortGraph,
    pub answer: Result<Option<PortIndex>, NoSuchPort>,
}

// The meta data of a node in the table of nodes, if it is live.
#[tactic(auto, using(crate::specs::LookupSteps::length_of_map, crate::specs::LookupSteps::node_outside))]
pub(crate) fn meta_of(nodes: &[NodeSlot; NODE_SLOTS], node: NodeIndex) -> Option<NodeMeta>
    ensures is { result ≡ meta_of_entry (get_or nodes.now node.0 fresh_slot).entry }
    ensures within { IfSome result (λ m. node.0 < node_slots) }
{
    nodes.get(wide(node.0)).copied()?.meta()
}

impl PortGraph {
    // The empty graph.
    pub fn new() -> Self
        ensures { result ≡ new_graph }
    {
        PortGraph {
            node_meta: [NodeSlot::new_free(0, 0); NODE_SLOTS],
            port_link: [0; PORT_SLOTS],
            port_meta: [0; PORT_SLOTS],
            port_free: [0; FREE_LISTS],
            node_free: 0,
            node_len: 0,
            port_len: 0,
            node_count: 0,
            port_count: 0,
            link_count: 0,
        }
    }

    // The meta data of a node, if it is live.
    pub fn node_meta_valid(&self, node: NodeIndex) -> Option<NodeMeta>
        ensures { (result ≡ meta_at self.now node.0) × (meta_numbers result ≡ meta_numbers (meta_at self.now node.0)) }
    {
        meta_of(&self.node_meta, node)
    }

    // The owner and direction of a port, if it is live.
    pub fn port_meta_valid(&self, port: PortIndex) -> PortEntry
        ensures { (result ≡ port_at self.now port.0) × (port_entry_numbers result ≡ port_entry_numbers (port_at self.now port.0)) }
    {
        PortEntry::read(at(&self.port_meta, wide(port.0)))
    }

    pub fn port_direction(&self, port: PortIndex) -> Option<Direction>
        ensures { (result ≡ port_direction self.now port.0) × (maybe_direction_numbers result ≡ maybe_direction_numbers (port_direction self.now port.0)) }
    {
        Some(self.port_meta_valid(port).meta()?.direction)
    }

    pub fn port_node(&self, port: PortIndex) -> Option<NodeIndex>
        ensures { (result ≡ port_node self.now port.0) × (maybe_node_numbers result ≡ maybe_node_numbers (port_node self.now port.0)) }
    {
        Some(self.port_meta_valid(port).meta()?.node)
    }

    // The side and position of a port.
    #[tactic(auto, using(crate::specs::LookupSteps::port_outside))]
    pub fn port_offset(&self, port: PortIndex) -> Option<PortOffset>
        ensures { (result ≡ port_offset self.now port.0) × (maybe_offset_numbers result ≡ maybe_offset_numbers (port_offset self.now port.0)) }
    {
        let owner = self.port_meta_valid(port).meta()?;
        let meta = self.node_meta_valid(owner.node)?;
        let first = ports_from(meta, Sides::One(owner.direction));
        Some(PortOffset::new(owner.direction, wide(port.0).saturating_sub(first) as u16))
    }

    // The port at a side and position of a node.
    pub fn port_index(&self, node: NodeIndex, offset: PortOffset) -> Option<PortIndex>
        requires { Wf self.now }
        ensures { (result ≡ port_index self.now node.0 offset) × (maybe_port_numbers result ≡ maybe_port_numbers (port_index self.now node.0 offset)) }
    {
        let meta = self.node_meta_valid(node)?;
        let index = usize::from(offset.index);
        if meta.num_ports(offset.direction) <= index {
            return None;
        }
        let first = ports_from(meta, Sides::One(offset.direction));
        Some(PortIndex((first + index) as u32))
    }

    // The port that a port is linked with.
    pub fn port_link(&self, port: PortIndex) -> Result<Option<PortIndex>, NoSuchPort>
        ensures { (result ≡ port_link self.now port.0) × (port_link_numbers result ≡ port_link_numbers (port_link self.now port.0)) }
    {
        self.port_meta_valid(port).meta().ok_or(NoSuchPort(port))?;
        let far = at(&self.port_link, wide(port.0));
        Ok(far.checked_sub(1).map(PortIndex))
    }

    // The number of ports of a node on one side; 0 for a node that is not live. Stays a number: the Rust portgraph answers 0 there.
    pub fn num_ports(&self, node: NodeIndex, direction: Direction) -> usize
        ensures { result ≡ num_ports self.now node.0 direction }
    {
        self.node_meta_valid(node)
            .map_or(0, |meta| meta.num_ports(direction))
    }

    // The slots of a node's block; 0 for a node that is not live. Stays a number: the Rust portgraph answers 0 there.
    pub fn node_port_capacity(&self, node: NodeIndex) -> usize
        ensures { result ≡ node_port_capacity self.now node.0 }
    {
        self.node_meta_valid(node).map_or(0, |meta| meta.capacity())
    }

    pub fn contains_node(&self, node: NodeIndex) -> bool
        ensures { result ≡ contains_node self.now node.0 }
    {
        self.node_meta_valid(node).is_some()
    }

    pub fn contains_port(&self, port: PortIndex) -> bool
        ensures { result ≡ contains_port self.now port.0 }
    {
        self.port_node(port).is_some()
    }

    pub fn is_empty(&self) -> bool
        ensures { result ≡ is_empty self.now }
    {
        self.node_count == 0 && self.port_count == 0
    }

    pub fn node_count(&self) -> usize
        ensures { result ≡ self.now.node_count }
    {
        self.node_count
    }

    pub fn port_count(&self) -> usize
        ensures { result ≡ self.now.port_count }
    {
        self.port_count
    }

    pub fn link_count(&self) -> usize
        ensures { result ≡ self.now.link_count }
    {
        self.link_count
    }

    // Links two ports of opposite directions that have no link yet.
    pub fn link_ports(mut self, port_a: PortIndex, port_b: PortIndex) -> PortsLinked
        requires { Wf self }
        ensures { (result ≡ link_ports self port_a.0 port_b.0) × (link_numbers result.answer ≡ link_numbers (link_ports self port_a.0 port_b.0).answer) }
    {
        let answer = self.link_ports_lent(port_a, port_b);
        PortsLinked {
            graph: self,
            answer,
        }
    }

    // The same in place.
    #[tactic(auto, unfolding(crate::specs::Calls::link_ports))]
    pub fn link_ports_lent(
        &mut self,
        port_a: PortIndex,
        port_b: PortIndex,
    ) -> Result<(PortIndex, PortIndex), LinkError>
        requires { Wf self.old }
        ensures { (self.new ≡ (link_ports self.old port_a.0 port_b.0).graph)
            × (result ≡ (link_ports self.old port_a.0 port_b.0).answer)
            × (link_numbers result ≡ link_numbers (link_ports self.old port_a.0 port_b.0).answer) }
    {
        let a = self
            .port_meta_valid(port_a)
            .meta()
            .ok_or(LinkError::UnknownPort(port_a))?;
        let b = self
            .port_meta_valid(port_b)
            .meta()
            .ok_or(LinkError::UnknownSecondPort(port_b))?;
        if a.direction == b.direction {
            return Err(LinkError::IncompatibleDirections(port_a, port_b, a.direction));
        }
        if at(&self.port_link, wide(port_a.0)) != 0 {
            return Err(LinkError::AlreadyLinked(port_a));
        }
        if at(&self.port_link, wide(port_b.0)) != 0 {
            return Err(LinkError::AlreadyLinked(port_b));
        }
        self.draw_link(port_a.0, port_b.0);
        Ok((port_a, port_b))
    }

    // Cuts the link of a port, and answers what it was linked with.
    pub fn unlink_port(mut self, port: PortIndex) -> PortUnlinked
        ensures { (result ≡ unlink_port self port.0) × (port_link_numbers result.answer ≡ port_link_numbers (unlink_port self port.0).answer) }
    {
        let answer = self.unlink_port_lent(port);
        PortUnlinked {
            graph: self,
            answer,
        }
    }

    // The same in place.
    #[tactic(auto, unfolding(crate::specs::Calls::unlink_port))]
    pub fn unlink_port_lent(&mut self, port: PortIndex) -> Result<Option<PortIndex>, NoSuchPort>
        ensures { (self.new ≡ (unlink_port self.old port.0).graph)
            × (result ≡ (unlink_port self.old port.0).answer)
            × (port_link_numbers result ≡ port_link_numbers (unlink_port self.old port.0).answer) }
    {
        self.port_meta_valid(port).meta().ok_or(NoSuchPort(port))?;
        let far = self.cut_link(port.0);
        Ok(far.checked_sub(1).map(PortIndex))
    }

    // Links two ports in place, and counts the link; whoever calls it has seen that it may be.
    pub fn draw_link(&mut self, a: u32, b: u32)
        requires { self.old.link_count ≤ node_slots * node_ports }
        ensures { self.new ≡ with_links self.old (link_both self.old.port_link a b) (self.old.link_count + 1) }
    {
        link_both(&mut self.port_link, a, b);
        self.link_count += 1;
    }

    // Cuts the link of a port in place, and counts it off; answers what the table held, one higher than the far port, 0 for none.
    // A table's word stays as it is held, as in `cut`, whose answer it is.
    pub fn cut_link(&mut self, port: u32) -> u32
        ensures { (result ≡ at self.old.port_link port)
            × (self.new ≡ with_links self.old (cut self.old.port_link port) (self.old.link_count - link_count (at self.old.port_link port))) }
    {
        let far = cut(&mut self.port_link, wide(port));
        self.link_count = without_link(self.link_count, far);
        far
    }
}
