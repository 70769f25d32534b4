// The direction of a port.
ghost use Rattle.std.specs.Prelude.{◌≡◌};
ghost use Rattle.port_tables.specs.Entries.{reversed, side_number};

#[derive(Clone, Copy, PartialEq, Eq)]
pub enum Direction {
    // Input to a node.
    Incoming,
    // Output from a node.
    Outgoing,
}

impl Direction {
    // The opposite direction. Stays a method: portgraph has it under this name.
    pub fn reverse(self) -> Direction
        ensures { (result ≡ reversed self) × (side_number result ≡ side_number (reversed self)) }
    {
        match self {
            Direction::Incoming => Direction::Outgoing,
            Direction::Outgoing => Direction::Incoming,
        }
    }

    // 0 for incoming, 1 for outgoing. Stays a method: portgraph has it under this name.
    pub fn index(self) -> u32
        ensures { result ≡ side_number self }
    {
        match self {
            Direction::Incoming => 0,
            Direction::Outgoing => 1,
        }
    }
}
