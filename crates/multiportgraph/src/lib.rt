// A port graph in which several links may share a port, over the single-link graph.
#![tactic(auto)]

pub mod blocks;
pub mod calls;
pub mod copies;
pub mod ends;
pub mod fan_out;
pub mod iter;
pub mod link_walks;
pub mod links;
pub mod list_blocks;
pub mod list_ends;
pub mod list_wires;
pub mod listing;
pub mod lookups;
pub mod multiportgraph;
pub mod needs;
pub mod port_links;
pub mod prepare;
pub mod starts;
pub mod subports;
pub mod tidy;
pub mod walks;
pub mod wires;
