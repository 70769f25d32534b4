// Parts of the console that need no sheet, no slots and no times: what a line asks for, answers and listings as lines, resizes with their
// moves, and files read, written and merged.
#![tactic(auto)]

pub mod cuts;
pub mod fetch;
pub mod listing;
pub mod merging;
pub mod orders;
pub mod replies;
pub mod resize;
pub mod store;
pub mod tidy;
pub mod whole;
