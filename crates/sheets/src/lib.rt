// A whole wiring sheet at once: a lent list of links, done in order, each with space for its answer.
#![tactic(auto)]

// Entries, the sheet's own answer, and the sheet over a lent list.
pub mod sheet;

// The same where the caller holds the entries by value.
pub mod held;
