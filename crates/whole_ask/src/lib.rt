// The ask of all terms of a limb batch, rounded on a free grid, from the caller's records, limbs and numbers.
#![tactic(auto)]

mod asking;
mod fault;

pub use asking::ask_whole;
pub use fault::WholeFault;
