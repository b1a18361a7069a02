// The text call: a text of forms is read line by line, its terms are summed as its calls say, and the answers are
// written as lines.
#![tactic(auto)]

mod answering;
mod calls;
mod fault;
mod letters;
mod lines;
mod taking;

pub use answering::{LEAST_ROOM, LONGEST_TEXT, answer_any_text, answer_text};
pub use fault::TextFault;
