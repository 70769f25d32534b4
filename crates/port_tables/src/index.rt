// Numbers of nodes, ports and port offsets, and the limits of the tables.
ghost use Rattle.std.specs.Prelude.{◌≡◌};
ghost use Rattle.port_tables.specs.Entries.{reversed};

use crate::direction::Direction;

// Slots of the node table.
pub const NODE_SLOTS: usize = 1024;
// Slots of each port table.
pub const PORT_SLOTS: usize = 3072;
// The most ports that a node may have, and the largest block.
pub const NODE_PORTS: usize = 1024;
// Numbers of a move list that no resize is refused with: three for each port of the largest node.
pub const MOVES: usize = 3 * NODE_PORTS;
// The most wires: each takes two port slots.
pub const MOST_WIRES: usize = PORT_SLOTS / 2;
// Free lists of blocks, one for each size from 0; that of size 0 stays empty.
pub const FREE_LISTS: usize = NODE_PORTS + 1;

// The number of a node.
#[derive(Clone, Copy, PartialEq, Eq)]
pub struct NodeIndex(pub u32);

// The number of a port.
#[derive(Clone, Copy, PartialEq, Eq)]
pub struct PortIndex(pub u32);

// Port numbers from one on, the end excluded. No Range of the library: a cursor that holds one is copied, and a Range is not.
#[derive(Clone, Copy)]
pub struct PortRange {
    pub from: u32,
    pub to: u32,
}

// A port's place within its node: the direction, and the position on that side.
#[derive(Clone, Copy)]
pub struct PortOffset {
    pub direction: Direction,
    pub index: u16,
}

impl PortOffset {
    pub fn new(direction: Direction, index: u16) -> Self
        ensures { (result.direction ≡ direction) × (result.index ≡ index) }
    {
        PortOffset { direction, index }
    }

    // Stays beside new_outgoing: portgraph has both names.
    pub fn new_incoming(index: u16) -> Self
        ensures { (result.direction ≡ Direction.Incoming) × (result.index ≡ index) }
    {
        Self::new(Direction::Incoming, index)
    }

    pub fn new_outgoing(index: u16) -> Self
        ensures { (result.direction ≡ Direction.Outgoing) × (result.index ≡ index) }
    {
        Self::new(Direction::Outgoing, index)
    }

    // The same position on the other side.
    pub fn opposite(self) -> Self
        ensures { (result.direction ≡ reversed self.direction) × (result.index ≡ self.index) }
    {
        PortOffset {
            direction: self.direction.reverse(),
            ..self
        }
    }
}
