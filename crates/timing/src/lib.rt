// Times along wires: the largest sum of times that comes to a block, a path that has it, and whether a proposed run order is right.
#![tactic(auto)]

// What is answered.
pub mod answers;

// Tables with an entry for each node slot, and listings of wires.
pub mod tables;

// Blocks settled one after the other.
pub mod settle;

// A path back from a block.
pub mod path;

// The largest sum and a path that has it, of a graph.
pub mod longest;

// Proposed run orders.
pub mod order;
