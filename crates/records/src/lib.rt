// The one entry for the dealer tablet's Rust: runs a list of requests from an empty graph and writes the answers.
// The modules in reading order: each uses only those above it.
#![tactic(auto)]

// Words in bytes.
pub mod words;

// What a request asks.
pub mod requests;

// The words of an answer.
pub mod answers;

// One request on a graph.
pub mod ask;

// The run, and the entry.
pub mod run;
