// An entry made as a list of calls, asks among them.

use crate::lines;
use ask_history::call::{Asking, Call};
use ask_history::outcome::Outcome;
use ask_history::run::run;
use grid::{FreeGrid, Mode};
use history::call::SheetCall;
use list_batch::{ListBatch, Scaled};
use sheet_lines::marks;
use std::io;

// The number of no mode.
const NO_MODE: u32 = 5;

// An ask about the first batch, with one limb for its answer. The mode is a number, since one ask of the list has a number that no mode has.
fn ask_in(mode: u32, grid: FreeGrid) -> Call<FreeGrid> {
    Call::Ask(Asking {
        batch: 0,
        grid,
        mode,
        limbs: 1,
    })
}

fn show_call(rt: &impl Print, call: Call<FreeGrid>) -> io::Result<()> {
    match call {
        Call::Sheet(SheetCall::Mark(place, mark)) => print!(rt; "  mark {place} {mark}: "),
        Call::Sheet(SheetCall::Undo) => print!(rt; "  undo: "),
        Call::Sheet(SheetCall::Set) => print!(rt; "  set: "),
        Call::Sheet(SheetCall::Reopen) => print!(rt; "  reopen: "),
        Call::Ask(asking) => print!(rt; "  ask in mode {}: ", asking.mode),
    }
}

fn show_outcome(rt: &impl Print, outcome: Outcome) -> io::Result<()> {
    match outcome {
        Ok(None) => println!(rt; "done"),
        Ok(Some(answered)) => lines::answer(rt, Ok(answered.answer), &answered.limbs),
        Err(fault) => println!(rt; "refused, {} at {}", fault.number(), fault.place()),
    }
}

fn show_all(rt: &impl Print, calls: &[Call<FreeGrid>], outcomes: &[Outcome]) -> io::Result<()> {
    for (call, outcome) in calls.iter().zip(outcomes.iter()) {
        show_call(rt, *call)?;
        show_outcome(rt, *outcome)?;
    }
    Ok(())
}

// Runs the calls about 3 and 2^-2000.
fn run_calls(rt: &impl Print, calls: &[Call<FreeGrid>]) -> io::Result<()> {
    let records = [Scaled::new(3, 0), Scaled::new(1, -2000)];
    let mut outcomes = [Ok(None); 8];
    match ListBatch::open(&records) {
        Ok(batch) => {
            let sheet = run(&[&batch], calls, &mut outcomes);
            show_all(rt, calls, &outcomes)?;
            marks(rt, &sheet)
        }
        Err(fault) => lines::refused_batch(rt, "batch", fault),
    }
}

// Marks, an ask out of turn, the two asks that enclose the sum, and one that is refused.
fn run_on(rt: &impl Print, grid: FreeGrid) -> io::Result<()> {
    let calls = [
        SheetCall::Mark(0, 1).into(),
        ask_in(Mode::Nearest as u32, grid),
        SheetCall::Mark(1, 2).into(),
        SheetCall::Set.into(),
        ask_in(Mode::Downward as u32, grid),
        ask_in(Mode::Upward as u32, grid),
        ask_in(NO_MODE, grid),
        SheetCall::Reopen.into(),
    ];
    run_calls(rt, &calls)
}

pub fn walk(rt: &impl Print) -> io::Result<()> {
    println!(rt; "fourth entry, as a list of calls: 3 - 2^-2000, two bits")?;
    match FreeGrid::new(2) {
        Ok(grid) => run_on(rt, grid),
        Err(fault) => lines::refused_grid(rt, "two bits", fault),
    }
}
