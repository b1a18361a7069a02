// A line read as a form, or the first byte at which no form can go on.
#![tactic(auto)]

mod alphabet;
mod decoded;
mod lexing;
mod parts;
mod reading;

pub use decoded::{Form, Term};
pub use lexing::Stuck;
pub use reading::{read_form, spellings_stand};
