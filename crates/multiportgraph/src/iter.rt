// Walks as cursors by value: a step takes the cursor and the present graph, and gives the item with the next cursor.
// A cursor holds what it gave last: a node or port one higher than its number, 0 at the start. These stay numbers: one past the last item is where a walk
// goes on, also from the start. Where an offset goes with the port, both are a Held.
// Cursors, no Iterator: the graph may change between two steps, so a walk borrows none.
use multi_tables::scans::Held;
use port_tables::index::{NodeIndex, PortIndex, PortRange};
use port_tables::sides::Sides;

// A walk over the blocks, by ascending number, from either end: the blocks given last from the front and from the back, each
// one higher, with 0 for none.
#[derive(Clone, Copy)]
pub struct Nodes {
    pub front: u32,
    pub back: u32,
}

// A walk over all ports of blocks, by ascending number, from either end.
#[derive(Clone, Copy)]
pub struct Ports {
    pub front: u32,
    pub back: u32,
}

// A walk over the ports of a block.
// Stays beside that of portgraph, as the walks below: each steps over its own graph. Their fields stay flat, as there.
#[derive(Clone, Copy)]
pub struct NodePorts {
    pub node: NodeIndex,
    pub sides: Sides,
    pub held: u32,
}

// A walk over the subports of a block.
#[derive(Clone, Copy)]
pub struct NodeSubports {
    pub node: NodeIndex,
    pub sides: Sides,
    pub held: Held,
}

// A walk over the links of a port, from either end: the offsets given last from the front and from the back, each one higher,
// with 0 for none.
// Numbers, as the ports held above.
#[derive(Clone, Copy)]
pub struct PortLinks {
    pub port: PortIndex,
    pub front: u32,
    pub back: u32,
}

// A walk over the links of a block; links to the ports of a range are left out.
#[derive(Clone, Copy)]
pub struct NodeLinks {
    pub node: NodeIndex,
    pub sides: Sides,
    pub skip: PortRange,
    pub held: Held,
}

// A walk over the neighbours of a block, one for each link; with the flag, links to outgoing ports of the block itself are
// left out.
#[derive(Clone, Copy)]
pub struct Neighbours {
    pub node: NodeIndex,
    pub sides: Sides,
    pub ignore_self: bool,
    pub held: Held,
}

// A walk over the links from one block's outgoing side to another block.
#[derive(Clone, Copy)]
pub struct NodeConnections {
    pub node: NodeIndex,
    pub target: NodeIndex,
    pub held: Held,
}

// A walk over all wires.
#[derive(Clone, Copy)]
pub struct Wires {
    pub held: Held,
}
