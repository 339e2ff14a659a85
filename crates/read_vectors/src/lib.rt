// Vectors in a descriptor: whether they are there, one of them, and a matrix of them by value.
#![tactic(auto)]

pub mod list;
pub mod vector;
pub mod words;
