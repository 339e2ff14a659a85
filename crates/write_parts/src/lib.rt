// Bytes, numbers and samples stored from a place of a lent buffer on. Each function returns the place after what it stored.
#![tactic(auto)]

pub mod bytes;
pub mod decimals;
pub mod names;
pub mod samples;
