// Asks: the marked terms of a batch, summed exactly and rounded once to a grid.
#![tactic(auto)]

mod answer;
mod both;
mod checking;
mod compute;
mod fault;
mod single;

pub use answer::Answer;
pub use both::ask_both;
pub use fault::AskFault;
pub use single::ask;
