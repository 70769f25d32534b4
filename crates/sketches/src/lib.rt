// A sketch of a wiring: the same calls over a simple list of blocks and a list of wires. There are no hidden nodes and no slots; ends are
// named by place, and a block by how many adds were accepted before it.
#![tactic(auto)]

// Types: ports, ends, refusals and answers.
pub mod sketch;

// Rows of a table, and what they may be asked.
pub mod rows;
pub mod tests;

// The work on one table.
pub mod tables;

// What is read of a port.
pub mod offsets;
pub mod ports;

// A sketch: its tables, and the numbers beside them.
pub mod totals;

// The calls.
pub mod blocks;
pub mod counts;
pub mod cuts;
pub mod links;
pub mod sheet;
pub mod subport_links;
pub mod subports;

// Walks.
pub mod walks;
