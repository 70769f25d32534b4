// What the node table holds: a node with its block of slots, or a free entry with its two neighbours in the list of free entries.
ghost use Rattle.std.specs.Prelude.{◌≡◌, ◌+◌, ◌*◌, ◌≤◌};
ghost use Rattle.port_tables.specs.Limits.{port_slots, node_ports};
ghost use Rattle.port_tables.specs.Entries.{is_node, next_of, with_prev, free_slot_of, node_slot_of, meta_of, meta_of_entry, ports_on};

use crate::direction::Direction;
use crate::index::PortIndex;
use crate::numbers::wide;

// Meta data of a valid node. BlockFits stays a clause: a slot may hold any numbers, and lookups read them all.
#[derive(Clone, Copy)]
pub struct NodeMeta {
    // The first slot of the node's block; 0 for a node without a block.
    pub first_port: PortIndex,
    pub incoming: u16,
    pub outgoing: u16,
    // The slots of the block. Counts change within it without a new block.
    pub capacity: u16,
}

// A free entry's neighbours in the list of free entries, each one higher than its number; 0 for none.
// A table's word stays as it is held, one higher than the number, 0 for none: it is stored again as it is, and the definitions read it so.
// None is higher than the slots of the table, and these fit 16 bits (neighbours-fit in specs/Limits.antt).
#[derive(Clone, Copy)]
pub struct FreeNodeEntry {
    pub prev: u16,
    pub next: u16,
}

// What a slot holds. Stays an enum of its own, and no Result: portgraph has it under these names.
#[derive(Clone, Copy)]
pub enum NodeEntry {
    // No node is stored here.
    Free(FreeNodeEntry),
    // A node.
    Node(NodeMeta),
}

// An element of the node table. Stays a struct around the entry: the definitions and theorems speak of tables of slots, and would say the same of entries;
// no plainer.
#[derive(Clone, Copy)]
pub struct NodeSlot {
    pub entry: NodeEntry,
}

impl NodeMeta {
    // Those of a node with these counts, whose block starts at `first` and has so many slots.
    pub fn new(first: usize, incoming: usize, outgoing: usize, capacity: usize) -> Self
        requires { (incoming + outgoing ≤ node_ports) × (first ≤ port_slots) × (capacity ≤ node_ports) }
        ensures { result ≡ meta_of first incoming outgoing capacity }
    {
        NodeMeta {
            first_port: PortIndex(first as u32),
            incoming: incoming as u16,
            outgoing: outgoing as u16,
            capacity: capacity as u16,
        }
    }

    // The first slot of the block, as an index.
    pub fn first(self) -> usize
        ensures { result ≡ self.first_port.0 }
    {
        wide(self.first_port.0)
    }

    pub fn incoming(self) -> usize
        ensures { result ≡ self.incoming }
    {
        usize::from(self.incoming)
    }

    pub fn outgoing(self) -> usize
        ensures { result ≡ self.outgoing }
    {
        usize::from(self.outgoing)
    }

    pub fn capacity(self) -> usize
        ensures { result ≡ self.capacity }
    {
        usize::from(self.capacity)
    }

    // The number of ports on both sides.
    pub fn port_count(self) -> usize
        ensures { result ≡ self.incoming + self.outgoing }
    {
        self.incoming() + self.outgoing()
    }

    // The number of ports on one side.
    pub fn num_ports(self, direction: Direction) -> usize
        ensures { result ≡ ports_on self direction }
    {
        match direction {
            Direction::Incoming => self.incoming(),
            Direction::Outgoing => self.outgoing(),
        }
    }
}

impl NodeSlot {
    pub fn new_free(prev: u16, next: u16) -> Self
        ensures { result ≡ free_slot_of prev next }
    {
        NodeSlot {
            entry: NodeEntry::Free(FreeNodeEntry { prev, next }),
        }
    }

    // Stays a method, beside `new_free`: `from` would not say at its callers what is made; no plainer.
    pub fn new_node(meta: NodeMeta) -> Self
        ensures { result ≡ node_slot_of meta }
    {
        NodeSlot {
            entry: NodeEntry::Node(meta),
        }
    }

    // Whether a node is stored here.
    pub fn is_node(self) -> bool
        ensures { result ≡ is_node self.entry }
    {
        self.meta().is_some()
    }

    // The meta data of the node that is stored here, if one is.
    pub fn meta(self) -> Option<NodeMeta>
        ensures { result ≡ meta_of_entry self.entry }
    {
        match self.entry {
            NodeEntry::Free(_) => None,
            NodeEntry::Node(meta) => Some(meta),
        }
    }

    // The next free entry after this one; 0 for none, and for a node.
    // Stays a number, as the neighbours of an entry.
    pub fn next_free(self) -> u32
        ensures { result ≡ next_of self.entry }
    {
        match self.entry {
            NodeEntry::Free(free) => u32::from(free.next),
            NodeEntry::Node(_) => 0,
        }
    }

    // The entry with another neighbour before it. A node stays as it is.
    pub fn with_prev(self, prev: u16) -> Self
        ensures { result ≡ with_prev self prev }
    {
        match self.entry {
            NodeEntry::Free(free) => NodeSlot {
                entry: NodeEntry::Free(FreeNodeEntry { prev, ..free }),
            },
            NodeEntry::Node(_) => self,
        }
    }
}
