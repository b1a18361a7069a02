// One type over the free, floored and named grids, and the grids that a line asks for by width and floor, or by name.
#![tactic(auto)]

mod any;
mod asked;

pub use any::AnyGrid;
pub use asked::{of_name, of_width};
