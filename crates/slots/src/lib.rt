// Every slot of the port table accounted for: the blocks of a graph, listed by their first slot.
#![tactic(auto)]

pub mod laying;
pub mod listing;
