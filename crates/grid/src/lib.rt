// Grids of numbers: their interface, the free, floored and named grids, and the theory of rounding to any grid.
#![tactic(auto)]

mod fault;
mod floored;
mod free;
mod interface;
mod mode;
mod named;
mod precision;
mod rounding;
mod theory;

pub use fault::GridFault;
pub use floored::FlooredGrid;
pub use free::FreeGrid;
pub use interface::{Grid, HIGHEST, LOWEST, nearest_end};
pub use mode::{Mode, NoSuchMode};
pub use named::{Format, NamedGrid};
pub use precision::precision_at;
pub use rounding::Rounding;
pub use theory::rounding_stands;
