// The reader: headers read, refused and tabled.
#![tactic(auto)]

pub mod read;
