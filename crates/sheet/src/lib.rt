// A sheet says of each of 1,024 terms whether it is out, in, or turned to the other sign.
// An open sheet is marked and undone; a set sheet is read by asks. Neither type has the other's calls.
#![tactic(auto)]

pub mod fault;
pub mod mark;
pub mod marked;
pub mod marks;
mod place;
pub mod sheet;
mod trail;
