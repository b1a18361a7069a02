// The terms of one text, in fixed memory.
#![tactic(auto)]

mod list;
mod special;

pub use list::{MOST_LIMBS, TermList};
pub use special::Special;
