// What the table of port owners holds. An entry stays a number: owners and links are tables of one type, read and filled by the same functions.
// It is 0 for a free slot, else the node's number doubled, and 1 more for an incoming port, 2 for an outgoing one.
ghost use Rattle.std.specs.Prelude.{◌≡◌};
ghost use Rattle.port_tables.specs.Entries.{port_entry, port_entry_numbers, port_of_entry};

use crate::direction::Direction;
use crate::index::NodeIndex;

// Meta data of a valid port.
#[derive(Clone, Copy)]
pub struct PortMeta {
    // The node that has the port.
    pub node: NodeIndex,
    // The side that the port is on.
    pub direction: Direction,
}

// An entry, read. Stays an enum of its own: portgraph has it under these names, beside the node's entry.
#[derive(Clone, Copy)]
pub enum PortEntry {
    // No port is stored here.
    Free,
    // A port.
    Port(PortMeta),
}

impl PortEntry {
    // What an entry says. Stays a method: `PortEntry::read` says at its callers what is read, where `from` would not; no plainer.
    #[tactic(auto, unfolding(crate::specs::Entries::port_entry))]
    pub fn read(entry: u32) -> Self
        ensures { (result ≡ port_entry entry) × (port_entry_numbers result ≡ port_entry_numbers (port_entry entry)) }
    {
        let Some(code) = entry.checked_sub(1) else {
            return PortEntry::Free;
        };
        let node = NodeIndex(code / 2);
        let direction = if code % 2 == 0 {
            Direction::Incoming
        } else {
            Direction::Outgoing
        };
        PortEntry::Port(PortMeta { node, direction })
    }

    // The meta data of the port that is stored here, if one is.
    pub fn meta(self) -> Option<PortMeta>
        ensures { result ≡ port_of_entry self }
    {
        match self {
            PortEntry::Free => None,
            PortEntry::Port(meta) => Some(meta),
        }
    }
}
