// What the tablet's Rust or C calls on files, views and times, over lists of numbers alone.
#![tactic(auto)]

mod left;
pub mod loaded;
pub mod merged;
pub mod saved;
pub mod timed;
mod told;
pub mod viewed;
