// Leaves over the tables of the multiport graph, which are lent: marks, what a port number is, the ends that calls name, scans over
// links, and the check of inputs. No function here takes a graph.
#![tactic(auto)]

pub mod answers;
pub mod inputs;
pub mod marks;
pub mod named;
pub mod reads;
pub mod scans;
pub mod seen;
pub mod wire_counts;
pub mod wire_tables;
