// What can be said of a sum before any number is added: which kinds of terms count, and whether a mark has no term.
#![tactic(auto)]

mod class;
mod kinds;
mod places;

pub use class::SumClass;
pub use kinds::{KindsCounted, counted_kind};
pub use places::lowest_marked_from;
