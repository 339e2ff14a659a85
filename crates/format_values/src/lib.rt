// What the tables and numbers of the definitions say, as code, for every crate that asks for it.
#![tactic(auto)]

pub mod fields;
pub mod products;
pub mod refusals;
pub mod spaces;
pub mod types;
