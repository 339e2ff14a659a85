// The place of the data, and the number of a sample.
#![tactic(auto)]

pub mod axes;
pub mod place;
