// The terms of any batch, written as lines.
#![tactic(auto)]

mod buffer;
mod extent;
mod significand;
mod writing;

pub use buffer::{BufferTooShort, LEAST_BUFFER};
pub use writing::write_term;
