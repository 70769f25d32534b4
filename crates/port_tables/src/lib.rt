// Numbers, directions, entries, and leaves over the tables of a port graph, each of which takes one table: what both graphs and the
// sketch rest on. The modules follow the files of Quantinuum/portgraph.
#![tactic(auto)]

pub mod direction;
pub mod index;
pub mod node_entry;
pub mod node_table;
pub mod numbers;
pub mod port_entry;
pub mod release;
pub mod resize_links;
pub mod sides;
pub mod tables;
