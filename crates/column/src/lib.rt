// Columns: how an exact sum is gathered column by column from the top, and how many columns settle what it rounds to.
#![tactic(auto)]

mod counted;
mod cursor;
mod parting;
mod run;
mod term;
mod theory;

pub use counted::CountedTerms;
pub use cursor::ColumnCursor;
pub use theory::{columns_stand, depths_stand, walk_stands};
