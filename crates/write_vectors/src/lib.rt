// The text of components, vectors, directions, a frame and a space, stored from a place of a lent buffer on. Each function returns the place
// after what it stored.
#![tactic(auto)]

pub mod components;
pub mod spaces;
pub mod vectors;
