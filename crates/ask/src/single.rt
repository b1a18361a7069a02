// One ask of a set sheet.
ghost use Rattle.std.specs.Prelude.{◌≡◌, ℕ, true, List, [], ◌∷◌, ◌++◌, length, is_err, IfOk};
ghost use Rattle.sheet.specs.Model.{asking};
ghost use Rattle.sheet.specs.Shown.{shown};
ghost use Rattle.answers.specs.Published.{Published};
ghost use Rattle.answers.specs.Asked.{Question, question, asked, answered};
ghost use Rattle.answers.specs.Laws.{AnswerLaw, Twins, Enclosing};
ghost use Rattle.answers.specs.Trace.{Event, event, history_of, reply_after, TracedSet};
ghost use Rattle.ask.specs.Told.{published, told};

use crate::answer::Answer;
use crate::checking::check;
use crate::compute::compute;
use crate::fault::AskFault;
use batch::Batch;
use grid::{Grid, Mode, Rounding};
use sheet::sheet::SetSheet;

// Sums the terms that the sheet marks, exactly, and rounds the sum once to the grid in the mode of this number. The limbs of the answer are left in `limbs`.
// Sheet, batch, grid, mode and limbs each by itself: a struct of them would be taken apart one call further down. The mode is a number
// that a caller hands in: one that no mode has is refused.
pub fn ask<B: Batch, G: Grid>(
    sheet: &SetSheet,
    batch: &B,
    grid: &G,
    mode: u32,
    limbs: &mut [u32],
) -> Result<Answer, AskFault>
    ensures equals { told result limbs.new ≡ asked (shown sheet.now.marks) (question (B.Batch.terms batch.now) (G.Grid.spacing grid.now) (G.Grid.widest grid.now) mode (length limbs.old)) }
    ensures refused { is_err result ≡ true → limbs.new ≡ limbs.old }
    ensures right { IfOk result (λ a. AnswerLaw (shown sheet.now.marks) (question (B.Batch.terms batch.now) (G.Grid.spacing grid.now) (G.Grid.widest grid.now) mode (length limbs.old)) (published a limbs.new)) }
    ensures encloses { IfOk result (λ a. (p : Question) (b : Published) → asked (shown sheet.now.marks) p ≡ answered b
        → (Twins p (question (B.Batch.terms batch.now) (G.Grid.spacing grid.now) (G.Grid.widest grid.now) mode (length limbs.old)) → Enclosing (shown sheet.now.marks) p b (published a limbs.new))
        × (Twins (question (B.Batch.terms batch.now) (G.Grid.spacing grid.now) (G.Grid.widest grid.now) mode (length limbs.old)) p → Enclosing (shown sheet.now.marks) p (published a limbs.new) b)) }
    ensures answers { (h : List Event) → TracedSet h sheet.now → told result limbs.new ≡ reply_after (history_of h) (asking (question (B.Batch.terms batch.now) (G.Grid.spacing grid.now) (G.Grid.widest grid.now) mode (length limbs.old))) }
    ensures reached { (h : List Event) → TracedSet h sheet.now → TracedSet (h ++ event (asking (question (B.Batch.terms batch.now) (G.Grid.spacing grid.now) (G.Grid.widest grid.now) mode (length limbs.old))) (told result limbs.new) ∷ []) sheet.now }
{
    let mode = Mode::try_from(mode)?;
    let marks = sheet.marks();
    check(marks, batch.count(), grid.width(), limbs.len())?;
    Ok(compute(marks, batch, Rounding { grid, mode }, limbs))
}
