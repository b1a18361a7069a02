// The calls of a text, on one sheet.
ghost use Rattle.std.specs.Prelude.{◌≡◌, ◌≤◌, map};
ghost use Rattle.sheet.specs.Model.{marking, undoing};
ghost use Rattle.sheet.specs.Numbers.{told as sheet_told};
ghost use Rattle.answers.specs.Trace.{reply_of};
ghost use Rattle.ask_history.specs.Data.{call_of, reply_told};
ghost use Rattle.ask_history.specs.Law.{CallLaw};
ghost use Rattle.text_call.specs.Progress.{most_asks};

use crate::fault::FormFault;
use crate::letters::{mark_of_run, mode_of_run};
use any_grid::AnyGrid;
use ask_history::answered::AnsweredAsk;
use ask_history::any_sheet::{call, new_sheet};
use ask_history::call::{Asking, Call};
use ask_history::outcome::{CallFault, Outcome};
use batch::Batch;
use grid::{Grid, GridFault};
use history::any_sheet::Sheet;
use history::call::SheetCall;
use history::outcome::CallFault as SheetCallFault;
use limb_batch::LimbBatch;
use sheet::fault::SheetFault;
use std::mem;
use text_terms::TermList;

// How many asks a text may hold.
const MOST_ASKS: u32 = 32;

// How many limbs an ask lends: as many as the widest grid takes.
const LENT_LIMBS: usize = 128;

// What a call gets that does not fit the state of the sheet.
const OUT_OF_TURN: CallFault = CallFault::Call(SheetCallFault::OutOfTurn);

// What the calls so far have come to: the sheet, how many asks were answered, and whether any call was made.
#[derive(Drop)]
pub struct Calls {
    sheet: Sheet,
    asks: u32,
    begun: bool,
    ghost few_asks: { asks ≤ most_asks },
}

// The answer of a call, where it asked.
pub type CallMade = Result<Option<AnsweredAsk>, FormFault>;

// What a call of a sheet's own got; it asked nothing.
fn without_answer(got: Result<(), SheetFault>) -> Outcome
    ensures { reply_told result ≡ reply_of (sheet_told got) }
{
    got.map_err(SheetCallFault::from)?;
    Ok(None)
}

// Marks a place where the sheet is open. The sheet stays where it lies: it is large, and a text has many marks.
fn mark_sheet(sheet: &mut Sheet, place: u32, mark: u32) -> Outcome
    ensures { CallLaw sheet.old (marking place mark) sheet.new result }
{
    match sheet {
        Sheet::Open(sheet) => without_answer(sheet.mark(place, mark)),
        Sheet::Set(_) => Err(OUT_OF_TURN),
    }
}

// Takes the latest marking back where the sheet is open, and leaves it where it lies.
fn undo_sheet(sheet: &mut Sheet) -> Outcome
    ensures { CallLaw sheet.old undoing sheet.new result }
{
    match sheet {
        Sheet::Open(sheet) => without_answer(sheet.undo()),
        Sheet::Set(_) => Err(OUT_OF_TURN),
    }
}

// Makes a call on a sheet that is moved out for it, and back.
fn call_moved<'a, B: Batch, G: Grid + Copy>(
    sheet: &mut Sheet,
    batches: &[&'a B],
    wanted: Call<G>,
) -> Outcome
    ensures { CallLaw sheet.old (call_of G.Grid.spacing G.Grid.widest (map (λ b. B.Batch.terms b.now) batches.now) wanted)
        sheet.new result }
{
    let moved = mem::replace(sheet, new_sheet());
    let (next, outcome) = call(moved, batches, wanted);
    *sheet = next;
    outcome
}

impl Calls {
    ghost use Rattle.std.specs.Prelude.{◌≡◌, []};
    ghost use Rattle.sheet.specs.Model.{marking, undoing, setting, reopening};
    ghost use Rattle.history.specs.Data.{call_of as sheet_call_of};
    ghost use Rattle.text_terms.specs.declared.list.TermList.{TermList as Terms};
    ghost use Rattle.text_terms.specs.TermLists.{terms_of};
    ghost use Rattle.any_grid.specs.Asked.{told};
    ghost use Rattle.text_call.specs.Letters.{mark_of_run, mode_of_run};
    ghost use Rattle.text_call.specs.Progress.{Progress, start, call_outcome, ask_outcome};
    ghost use Rattle.text_call.specs.Standing.{Stands, Made};

    // Before the first call, on a sheet just laid.
    pub fn new() -> Calls
        ensures { (ts : Terms) → terms_of ts ≡ [] → Stands start ts result }
    {
        Calls {
            sheet: new_sheet(),
            asks: 0,
            begun: false,
        }
    }

    // Whether any call was made.
    pub fn are_begun(&self) -> bool
        ensures { result ≡ self.now.begun }
    {
        self.begun
    }

    // Makes a call that sets the sheet or opens it again.
    fn turn(&mut self, wanted: SheetCall) -> CallMade
        ensures { (p : Progress) (ts : Terms) → Stands p ts self.old
            → Made (call_outcome p (sheet_call_of wanted)) ts self.new result }
    {
        // The call looks at no batch.
        call_moved::<LimbBatch<'_, '_>, AnyGrid>(&mut self.sheet, &[], Call::Sheet(wanted))?;
        self.begun = true;
        Ok(None)
    }

    // Marks a place by the letter of a mark.
    pub fn mark(&mut self, place: u64, letter: &[u8]) -> CallMade
        ensures { (p : Progress) (ts : Terms) → Stands p ts self.old
            → Made (call_outcome p (marking place (mark_of_run letter.now))) ts self.new result }
    {
        // A place that does not fit is past the last one, and so is what it becomes here.
        let place = place.min(u64::from(u32::MAX)) as u32;
        mark_sheet(&mut self.sheet, place, mark_of_run(letter))?;
        self.begun = true;
        Ok(None)
    }

    // Takes the latest marking back.
    pub fn undo(&mut self) -> CallMade
        ensures { (p : Progress) (ts : Terms) → Stands p ts self.old
            → Made (call_outcome p undoing) ts self.new result }
    {
        undo_sheet(&mut self.sheet)?;
        self.begun = true;
        Ok(None)
    }

    // Sets the sheet: it can be asked then.
    pub fn set(&mut self) -> CallMade
        ensures { (p : Progress) (ts : Terms) → Stands p ts self.old → Made (call_outcome p setting) ts self.new result }
    {
        self.turn(SheetCall::Set)
    }

    // Opens the sheet again: it can be marked then.
    pub fn reopen(&mut self) -> CallMade
        ensures { (p : Progress) (ts : Terms) → Stands p ts self.old → Made (call_outcome p reopening) ts self.new result }
    {
        self.turn(SheetCall::Reopen)
    }

    // Asks for the sum of the marked terms, on a grid that may be refused, in the mode of a letter.
    pub fn ask(
        &mut self,
        terms: &TermList,
        grid: Result<AnyGrid, GridFault>,
        letter: &[u8],
    ) -> CallMade
        ensures { (p : Progress) → Stands p terms.now self.old
            → Made (ask_outcome p (told grid) (mode_of_run letter.now)) terms.now self.new result }
    {
        if let Sheet::Open(_) = &self.sheet {
            return Err(OUT_OF_TURN.into());
        }
        if self.asks >= MOST_ASKS {
            return Err(FormFault::TooManyAsks);
        }
        let wanted = Asking {
            batch: 0,
            grid: grid?,
            mode: mode_of_run(letter),
            limbs: LENT_LIMBS,
        };
        let batch = terms.batch();
        let answer = call_moved(&mut self.sheet, &[&batch], Call::Ask(wanted))?;
        self.asks += 1;
        self.begun = true;
        Ok(answer)
    }
}
