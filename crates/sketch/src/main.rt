// A console for a sketch of a wiring: commands on standard input, one a line, from an empty sketch on; each is answered on standard output
// as soon as its line is read.
#![tactic(auto)]

mod blocks;
mod commands;
mod console;
mod cuts;
mod help;
mod items;
mod links;
mod listing;
mod orders;
mod replies;
mod sheet;

use crate::console::read_and_run;
use crate::help::show_usage;
use lines::arguments::{Asked, read_arguments};

// Stays in both consoles: what is run is each one's own.
fn main(rt: HostRuntime) {
    match read_arguments(&rt) {
        Asked::Run => read_and_run(&rt, false),
        Asked::Echo => read_and_run(&rt, true),
        Asked::Usage => show_usage(&rt),
    }
}
