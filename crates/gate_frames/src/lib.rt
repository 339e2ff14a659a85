// Framed input of the programs that run many cases: the parts of a frame, the input read piece by piece, and what is printed.
//
// A number is 4 bytes, low byte first, a wide number 8. A run is a number, its length in bytes, and so many bytes. A text is 0 where it is
// absent, else 1 more than its length, and so many bytes. A refusal is three numbers: its number, its line and its byte. The input has the
// number of groups, then the groups: a run of at most 256 bytes, the group's name; the number of cases, at least 1, then the cases, each a run.
// Each program says what its cases hold.
//
// Each group prints a line `NAME: RIGHT of ALL`; each case that is not right prints a line before it, with its number in the group (from 1)
// and the part that is wrong.
#![tactic(auto)]

pub mod fault;
pub mod frame;
mod input;
pub mod lent;
pub mod walk;
