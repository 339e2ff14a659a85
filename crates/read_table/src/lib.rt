// The line table of a file: where each line of its header starts, in a list of numbers or in bytes, the low byte of an entry first.
#![tactic(auto)]

pub mod cells;
pub mod table;
