// Lines that programs print of a sheet, and of calls on it.
// No contract can say what is printed. What the calls leave is what the sheet's own calls leave.
#![tactic(auto)]

ghost use Rattle.std.specs.Prelude.{List, [], ◌∷◌, ◌++◌, IfOk};
ghost use Rattle.sheet.specs.Model.{History, marking, undoing, setting, reopening};
ghost use Rattle.sheet.specs.Reached.{Reached, ReachedSet};

use sheet::fault::SheetFault;
use sheet::mark::Mark;
use sheet::marked::MarkedSheet;
use sheet::sheet::{OpenSheet, SetSheet};
use std::io;

// How many places are looked at.
const PLACES: u32 = 1024;

// Prints the places that are not out, and how many they are.
pub fn marks<S: MarkedSheet>(rt: &impl Print, sheet: &S) -> io::Result<()> {
    print!(rt; "  marks:")?;
    let mut marked = 0u32;
    // By number: a sheet is read place by place, and its interface has no iterator.
    for place in 0..PLACES {
        let mark = sheet.mark_at(place);
        if mark != Mark::Out {
            marked = marked.saturating_add(1);
            print!(rt; " {place} {mark},")?;
        }
    }
    println!(rt; " {marked} of {PLACES} not out")
}

// Prints what a call got.
pub fn outcome(rt: &impl Print, returned: Result<(), SheetFault>) -> io::Result<()> {
    match returned {
        Ok(()) => println!(rt; "done"),
        Err(fault) => println!(rt; "refused, {}", fault.number()),
    }
}

// Lays a sheet, and prints it.
pub fn lay(rt: &impl Print) -> io::Result<OpenSheet>
    ensures { IfOk result (λ s. Reached [] s) }
{
    println!(rt; "  lay")?;
    let sheet = OpenSheet::new();
    marks(rt, &sheet)?;
    Ok(sheet)
}

// Gives a place a mark, and prints what came of it. Both are any numbers, as the sheet takes them.
pub fn mark(rt: &impl Print, sheet: &mut OpenSheet, place: u32, mark: u32) -> io::Result<()>
    ensures { IfOk result (λ _. (cs : History) → Reached cs sheet.old → Reached (cs ++ marking place mark ∷ []) sheet.new) }
{
    print!(rt; "  mark {place} {mark}: ")?;
    outcome(rt, sheet.mark(place, mark))
}

// Takes the latest marking back, and prints what came of it.
pub fn undo(rt: &impl Print, sheet: &mut OpenSheet) -> io::Result<()>
    ensures { IfOk result (λ _. (cs : History) → Reached cs sheet.old → Reached (cs ++ undoing ∷ []) sheet.new) }
{
    print!(rt; "  undo: ")?;
    outcome(rt, sheet.undo())
}

// Sets a sheet, and prints it.
pub fn set(rt: &impl Print, sheet: OpenSheet) -> io::Result<SetSheet>
    ensures { IfOk result (λ s. (cs : History) → Reached cs sheet → ReachedSet (cs ++ setting ∷ []) s) }
{
    println!(rt; "  set")?;
    let set = sheet.set();
    marks(rt, &set)?;
    Ok(set)
}

// Opens a set sheet again.
pub fn reopen(rt: &impl Print, sheet: SetSheet) -> io::Result<OpenSheet>
    ensures { IfOk result (λ s. (cs : History) → ReachedSet cs sheet → Reached (cs ++ reopening ∷ []) s) }
{
    println!(rt; "  reopen")?;
    Ok(sheet.reopen())
}
