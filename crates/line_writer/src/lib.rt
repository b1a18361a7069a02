// Lines of the bracket text, written into a buffer that the caller lends. Nothing is allocated.
//
// A writer is told the place at which to begin, and returns the place behind what it wrote. The writers are for
// the crates of this repository: each of them must see to it that there is room.
#![tactic(auto)]

mod answer;
mod bytes;
mod field;
mod limb;
mod line;
mod list;
mod refusal;

pub use answer::write_answer;
pub use field::Field;
pub use line::write_line;
pub use refusal::write_refusal;
