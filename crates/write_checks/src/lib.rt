// What can be written: what a call to a writer asks for, its samples, and the refusals of both.
#![tactic(auto)]

pub mod asked;
pub mod check;
pub mod source;
