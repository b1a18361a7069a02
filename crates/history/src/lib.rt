// Any list of calls, as data, run on one new sheet: what each call got, and the sheet that it leads to.
#![tactic(auto)]

pub mod any_sheet;
pub mod call;
pub mod outcome;
pub mod run;
