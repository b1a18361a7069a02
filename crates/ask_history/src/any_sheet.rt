// A sheet in either state takes any call of a list, and answers 20 to one that does not fit its state.

ghost use Rattle.std.specs.Prelude.{◌≡◌, List, [], map, slice_index_or};
ghost use Rattle.sheet.specs.Model.{asking};
ghost use Rattle.history.specs.Data.{call_of as sheet_call_of, outcome_tells};
ghost use Rattle.history.specs.Reaches.{shown_on};
ghost use Rattle.answers.specs.Trace.{Event, marks_after, reply_of};
ghost use Rattle.ask_history.specs.Data.{call_of, question_of, reply_told};
ghost use Rattle.ask_history.specs.Traced.{Traced};
ghost use Rattle.ask_history.specs.Law.{CallLaw};

use crate::asking::ask_named;
use crate::call::{Asking, Call};
use crate::outcome::{CallFault, Outcome};
use batch::Batch;
use grid::Grid;
use history::any_sheet::Sheet;
use history::call::SheetCall;
use history::outcome::{CallFault as SheetCallFault, Outcome as SheetOutcome};
use sheet::mark::Mark;
use sheet::marked::MarkedSheet;

// A sheet just laid.
pub fn new_sheet() -> Sheet
    ensures { Traced [] result }
{
    Sheet::new()
}

// What a sheet's own call got; it asked nothing.
fn without_answer(outcome: SheetOutcome) -> Outcome
    ensures { reply_told result ≡ reply_of (outcome_tells outcome) }
{
    outcome?;
    Ok(None)
}

// Makes one of the sheet's own calls.
fn call_sheet(sheet: Sheet, call: SheetCall) -> (Sheet, Outcome)
    ensures { CallLaw sheet (sheet_call_of call) result.0 result.1 }
{
    let (next, outcome) = sheet.call(call);
    (next, without_answer(outcome))
}

// Asks the sheet, which an ask leaves as it is.
fn ask_sheet<'a, B: Batch, G: Grid + Copy>(
    sheet: &Sheet,
    batches: &[&'a B],
    wanted: Asking<G>,
) -> Outcome
    ensures { CallLaw sheet.now (asking (question_of G.Grid.spacing G.Grid.widest (slice_index_or (map (λ b. B.Batch.terms b.now) batches.now) wanted.batch []) wanted)) sheet.now result }
{
    match sheet {
        Sheet::Open(_) => Err(CallFault::Call(SheetCallFault::OutOfTurn)),
        Sheet::Set(sheet) => ask_named(sheet, batches, wanted),
    }
}

// Makes a call, whatever state the sheet is in. An ask names its batch by its number in `batches`.
pub fn call<'a, B: Batch, G: Grid + Copy>(
    sheet: Sheet,
    batches: &[&'a B],
    call: Call<G>,
) -> (Sheet, Outcome)
    ensures { CallLaw sheet (call_of G.Grid.spacing G.Grid.widest (map (λ b. B.Batch.terms b.now) batches.now) call) result.0 result.1 }
{
    match call {
        Call::Sheet(call) => call_sheet(sheet, call),
        Call::Ask(wanted) => {
            let outcome = ask_sheet(&sheet, batches, wanted);
            (sheet, outcome)
        }
    }
}

// The mark of a place, after the calls of any trace that leads to the sheet; out for a number past the last place.
pub fn mark_at(sheet: &Sheet, place: u32) -> Mark
    ensures shows { result ≡ shown_on sheet.now place }
    ensures answers { (h : List Event) → Traced h sheet.now → result ≡ marks_after h place }
{
    sheet.mark_at(place)
}
