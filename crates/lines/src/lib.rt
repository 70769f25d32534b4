// What the programs that people type at share: lines are read from standard input and taken apart into words and numbers, and answers are
// written as lines.
#![tactic(auto)]

// Lines, words and numbers in a text.
pub mod text;

// The input, cut into lines, and what is heard of it.
pub mod listening;
pub mod reading;

// What a line asks for, by a table of commands, and what can be wrong with it.
pub mod orders;
pub mod rows;
mod wrong;

// What a number of a line names.
pub mod named;

// A line of output, and the items of a walk.
pub mod show;
pub mod walks;

// The words after a program's name.
pub mod arguments;
