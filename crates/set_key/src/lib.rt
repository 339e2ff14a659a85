// Setting a key in place: the buffer and the line table that are lent become those of the file with the key set.
#![tactic(auto)]

mod place;
mod plan;
pub mod set;
