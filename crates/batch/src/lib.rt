// Batches: what a term is, and the interface through which the terms of any batch are read.
#![tactic(auto)]

mod fault;
mod interface;
mod kind;
mod limits;

pub use fault::{BatchFault, RecordFault};
pub use interface::{Batch, regular_count};
pub use kind::Kind;
pub use limits::{FARTHEST_TOP, MOST_DIGITS, MOST_TERMS};
