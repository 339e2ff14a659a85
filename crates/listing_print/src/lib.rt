// Texts printed to a lent buffer as far as they fit, and the lines of a reading.
#![tactic(auto)]

pub mod head;
pub mod put;
