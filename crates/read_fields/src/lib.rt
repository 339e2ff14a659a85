// What a header's lines say: the judgement of one line, what is kept of the fields given so far, and the reading that they make.
#![tactic(auto)]

mod files;
pub mod judge;
pub mod state;
