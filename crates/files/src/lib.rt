// A wiring as a file: saving it, loading it, and two files as one.
#![tactic(auto)]

pub mod build;
pub mod bytes;
pub mod check;
mod file;
pub mod listing;
pub mod load;
pub mod merge;
mod ports;
pub mod ranks;
pub mod save;
pub mod units;
pub mod wires;
