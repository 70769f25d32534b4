// How a port number is read.
use port_tables::direction::Direction;
use port_tables::index::NodeIndex;

// A port of a block, and its side. OnBlock stays a clause: it says of the graph too.
#[derive(Clone, Copy)]
pub struct SidedPort {
    pub port: u32,
    pub side: Direction,
}

// A port number, read.
// Three cases, and no Result: a second port that is not live is no refusal to `seen_pair`, and another one to `second_end`.
#[derive(Clone, Copy)]
pub enum SeenPort {
    // Not live.
    Dead,
    // Of a hidden node.
    Hidden,
    // Of a block: the node and the side.
    Visible(NodeIndex, Direction),
}
