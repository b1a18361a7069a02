// The sum of many terms as far as one column, exactly, in a fixed amount of memory.
#![tactic(auto)]

pub mod end;
mod settling;
pub mod sum;
mod theory;

pub use end::WindowEnd;
pub use sum::PartialSum;
pub use sum::both_ends::Below;
pub use theory::ends_stand;
