// Rounding one end of a sum, from limbs to limbs, to any grid and in any mode.
#![tactic(auto)]

mod decision;
mod direction;
mod end;
mod rounded_end;
mod rounding;

pub use direction::Direction;
pub use end::End;
pub use rounded_end::{Extent, PlacedEnd, RoundedEnd};
pub use rounding::round_end;
