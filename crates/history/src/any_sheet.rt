// A sheet in either state, which takes any call and answers 20 to one that does not fit its state.

ghost use Rattle.std.specs.Prelude.{◌≡◌, ℕ, true, List, [], ◌∷◌, ◌++◌, is_some};
ghost use Rattle.sheet.specs.Model.{History, mark_after};
ghost use Rattle.history.specs.Data.{call_of, outcome_tells};
ghost use Rattle.history.specs.Reaches.{Reaches, shown_on};
ghost use Rattle.history.specs.Turns.{told_after, fitting};

use crate::call::SheetCall;
use crate::outcome::{CallFault, Outcome};
use sheet::mark::Mark;
use sheet::marked::MarkedSheet;
use sheet::sheet::{OpenSheet, SetSheet};

#[derive(Drop)]
pub enum Sheet {
    Open(OpenSheet),
    Set(SetSheet),
}

fn call_open(mut sheet: OpenSheet, call: SheetCall) -> (Sheet, Outcome)
    ensures answers { (cs : History) → Reaches cs (Sheet.Open sheet) → outcome_tells result.1 ≡ told_after cs (call_of call) }
    ensures reaches { (cs : History) → Reaches cs (Sheet.Open sheet) → Reaches (cs ++ call_of call ∷ []) result.0 }
    ensures refused { is_some (outcome_tells result.1) ≡ true → result.0 ≡ Sheet.Open sheet }
{
    match call {
        SheetCall::Mark(place, mark) => {
            let outcome = sheet.mark(place, mark).map_err(CallFault::from);
            (Sheet::Open(sheet), outcome)
        }
        SheetCall::Undo => {
            let outcome = sheet.undo().map_err(CallFault::from);
            (Sheet::Open(sheet), outcome)
        }
        SheetCall::Set => (Sheet::Set(sheet.set()), Ok(())),
        SheetCall::Reopen => (Sheet::Open(sheet), Err(CallFault::OutOfTurn)),
    }
}

fn call_set(sheet: SetSheet, call: SheetCall) -> (Sheet, Outcome)
    ensures answers { (cs : History) → Reaches cs (Sheet.Set sheet) → outcome_tells result.1 ≡ told_after cs (call_of call) }
    ensures reaches { (cs : History) → Reaches cs (Sheet.Set sheet) → Reaches (cs ++ call_of call ∷ []) result.0 }
    ensures refused { is_some (outcome_tells result.1) ≡ true → result.0 ≡ Sheet.Set sheet }
{
    match call {
        SheetCall::Reopen => (Sheet::Open(sheet.reopen()), Ok(())),
        SheetCall::Mark(_, _) | SheetCall::Undo | SheetCall::Set => {
            (Sheet::Set(sheet), Err(CallFault::OutOfTurn))
        }
    }
}

impl Sheet {
    // A sheet just laid.
    pub fn new() -> Sheet
        ensures { Reaches [] result }
    {
        Sheet::Open(OpenSheet::new())
    }

    // Makes a call, whatever state the sheet is in.
    pub fn call(self, call: SheetCall) -> (Sheet, Outcome)
        ensures answers { (cs : History) → Reaches cs self → outcome_tells result.1 ≡ told_after cs (call_of call) }
        ensures reaches { (cs : History) → Reaches cs self → Reaches (cs ++ call_of call ∷ []) result.0 }
        ensures refused { is_some (outcome_tells result.1) ≡ true → result.0 ≡ self }
    {
        match self {
            Sheet::Open(sheet) => call_open(sheet, call),
            Sheet::Set(sheet) => call_set(sheet, call),
        }
    }
}

impl MarkedSheet for Sheet {
    ghost shown_at = { shown_on };

    ghost reached_by = { Reaches };

    ghost marked_after = { λ cs. mark_after (fitting cs) };

    fn mark_at(&self, place: u32) -> Mark {
        match self {
            Sheet::Open(sheet) => sheet.mark_at(place),
            Sheet::Set(sheet) => sheet.mark_at(place),
        }
    }
}
