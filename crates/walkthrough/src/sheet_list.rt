// A list of a sheet's own calls, without asks.

use history::call::SheetCall;
use history::outcome::Outcome;
use history::run::run;
use sheet_lines::marks;
use std::io;

const CALLS: [SheetCall; 9] = [
    SheetCall::Mark(0, 1),
    SheetCall::Reopen,
    SheetCall::Mark(1, 2),
    SheetCall::Undo,
    SheetCall::Set,
    SheetCall::Mark(2, 1),
    SheetCall::Reopen,
    SheetCall::Undo,
    SheetCall::Mark(4, 1),
];

fn show(rt: &impl Print, call: SheetCall, outcome: Outcome) -> io::Result<()> {
    match outcome {
        Ok(()) => println!(rt; "  {call:?}: done"),
        Err(fault) => println!(rt; "  {call:?}: refused, {}", fault.number()),
    }
}

pub fn walk(rt: &impl Print) -> io::Result<()> {
    println!(rt; "a list of calls without asks")?;
    let mut outcomes = [Ok(()); 9];
    let sheet = run(&CALLS, &mut outcomes);
    for (call, outcome) in CALLS.iter().zip(outcomes.iter()) {
        show(rt, *call, *outcome)?;
    }
    marks(rt, &sheet)
}
