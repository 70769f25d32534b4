// A port graph: nodes with incoming and outgoing ports, each port linked to at most one port of the other direction.
// The modules follow the files of Quantinuum/portgraph; its numbers, entries and tables stand in `port_tables`.
#![tactic(auto)]

pub mod alloc;
pub mod iter;
pub mod link_iter;
pub mod portgraph;
pub mod resize;
pub mod tables;
