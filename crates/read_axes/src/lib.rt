// What the fields of the axes say: the centring, the kind, the label and the unit of each axis.
// Nothing here knows a file: a descriptor is lent, and the places of strings are told from a byte that the caller names.
#![tactic(auto)]

pub mod codes;
pub mod strings;
