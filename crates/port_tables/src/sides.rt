// One side of a node, or both, and the ports of a node on them.
ghost use Rattle.std.specs.Prelude.{◌≡◌};
ghost use Rattle.port_tables.specs.Entries.{ports_from, ports_to};

use crate::direction::Direction;
use crate::node_entry::NodeMeta;

// One side of a node, or both, incoming first.
// No Option of a direction, in which none would stand for both; no plainer.
#[derive(Clone, Copy)]
pub enum Sides {
    One(Direction),
    Both,
}

// The first slot of a node's ports on these sides.
pub fn ports_from(meta: NodeMeta, sides: Sides) -> usize
    ensures { result ≡ ports_from meta sides }
{
    match sides {
        Sides::One(Direction::Outgoing) => meta.first() + meta.incoming(),
        Sides::One(Direction::Incoming) | Sides::Both => meta.first(),
    }
}

// The slot after a node's last port on these sides.
pub fn ports_to(meta: NodeMeta, sides: Sides) -> usize
    ensures { result ≡ ports_to meta sides }
{
    let end = meta.first() + meta.incoming();
    match sides {
        Sides::One(Direction::Incoming) => end,
        Sides::One(Direction::Outgoing) | Sides::Both => end + meta.outgoing(),
    }
}
