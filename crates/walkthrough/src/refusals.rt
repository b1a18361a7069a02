// What marking and undoing refuse, by calls on the sheets themselves.

use sheet::sheet::OpenSheet;
use sheet_lines::{lay, mark, marks, reopen, set, undo};
use std::io;

// A mark, a repeated mark, undos down to the empty trail, and numbers that no sheet has.
fn try_marks(rt: &impl Print, sheet: &mut OpenSheet) -> io::Result<()> {
    mark(rt, sheet, 3, 1)?;
    mark(rt, sheet, 3, 1)?;
    mark(rt, sheet, 7, 2)?;
    marks(rt, sheet)?;
    undo(rt, sheet)?;
    marks(rt, sheet)?;
    undo(rt, sheet)?;
    marks(rt, sheet)?;
    undo(rt, sheet)?;
    undo(rt, sheet)?;
    marks(rt, sheet)?;
    mark(rt, sheet, 1024, 1)?;
    mark(rt, sheet, 1023, 3)
}

// Marks until the trail is full.
fn fill_trail(rt: &impl Print, sheet: &mut OpenSheet) -> io::Result<()> {
    let done = (0..256u32)
        .filter(|place| sheet.mark(place % 2, 1).is_ok())
        .count();
    println!(rt; "  mark 0 1 and mark 1 1 in turn, 256 times: {done} done")?;
    mark(rt, sheet, 5, 2)?;
    undo(rt, sheet)?;
    mark(rt, sheet, 5, 2)
}

// From the laying of a sheet to the set sheet, reopened once.
fn refused_calls(rt: &impl Print) -> io::Result<()> {
    println!(rt; "what marking and undoing refuse")?;
    let mut sheet = lay(rt)?;
    try_marks(rt, &mut sheet)?;
    fill_trail(rt, &mut sheet)?;
    let set_sheet = set(rt, sheet)?;
    let mut reopened = reopen(rt, set_sheet)?;
    undo(rt, &mut reopened)?;
    mark(rt, &mut reopened, 0, 0)?;
    let _ = set(rt, reopened)?;
    Ok(())
}

// A sheet laid anew inherits nothing.
fn laid_anew(rt: &impl Print) -> io::Result<()> {
    println!(rt; "a sheet laid anew, which inherits nothing")?;
    let mut sheet = lay(rt)?;
    undo(rt, &mut sheet)?;
    mark(rt, &mut sheet, 1023, 2)?;
    let _ = set(rt, sheet)?;
    Ok(())
}

pub fn walk(rt: &impl Print) -> io::Result<()> {
    refused_calls(rt)?;
    laid_anew(rt)
}
