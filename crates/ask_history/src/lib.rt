// Any list of calls, as data, asks among them, run on one new sheet: what each call got, and the sheet that it leads to.
#![tactic(auto)]

pub mod answered;
pub mod any_sheet;
mod asking;
pub mod call;
pub mod no_terms;
pub mod outcome;
pub mod run;
