// The look-up of a key and of a field in a file: a second pass over the lines of its header, up to the names under LIST.
#![tactic(auto)]

pub mod axes;
pub mod descriptors;
pub mod keys;
mod places;
