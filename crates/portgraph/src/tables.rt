// What the crates above read of a graph: its tables, and what it has besides them.
ghost use Rattle.std.specs.Prelude.{◌≡◌};
ghost use Rattle.portgraph.specs.Parts.{counts_of};

use crate::portgraph::PortGraph;
use port_tables::index::{FREE_LISTS, NODE_SLOTS, PORT_SLOTS};
use port_tables::node_entry::NodeSlot;

// What a graph has besides its tables.
#[derive(Clone, Copy, Default)]
pub struct Counts {
    // The first free node entry, one higher than its number; 0 for none.
    // Stays a number, as the graph holds it.
    pub node_free: u32,
    // How many slots of the node table, and of the port tables, have been used.
    pub node_len: usize,
    pub port_len: usize,
    pub node_count: usize,
    pub port_count: usize,
    pub link_count: usize,
}

impl PortGraph {
    // The node table.
    pub fn node_table(&self) -> &[NodeSlot; NODE_SLOTS]
        ensures { result.now ≡ self.now.node_meta }
    {
        &self.node_meta
    }

    // For each port the port that it is linked with, one higher than its number; 0 for none.
    pub fn link_table(&self) -> &[u32; PORT_SLOTS]
        ensures { result.now ≡ self.now.port_link }
    {
        &self.port_link
    }

    // The owner of each port.
    pub fn owner_table(&self) -> &[u32; PORT_SLOTS]
        ensures { result.now ≡ self.now.port_meta }
    {
        &self.port_meta
    }

    // The first free block of each size.
    pub fn head_table(&self) -> &[u32; FREE_LISTS]
        ensures { result.now ≡ self.now.port_free }
    {
        &self.port_free
    }

    // What it has besides its tables.
    pub fn counts(&self) -> Counts
        ensures { result ≡ counts_of self.now }
    {
        Counts {
            node_free: self.node_free,
            node_len: self.node_len,
            port_len: self.port_len,
            node_count: self.node_count,
            port_count: self.port_count,
            link_count: self.link_count,
        }
    }
}
