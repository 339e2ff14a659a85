// Leaves on bytes: each answers one question about a text, by one equation with its definition.
#![tactic(auto)]

pub mod bytes;
pub mod escapes;
pub mod lines;
pub mod numbers;
pub mod words;
