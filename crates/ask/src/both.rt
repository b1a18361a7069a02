// The two asks that enclose a sum.
ghost use Rattle.std.specs.Prelude.{◌≡◌, true, List, length, is_err, IfOk};
ghost use Rattle.sheet.specs.Shown.{shown};
ghost use Rattle.answers.specs.Asked.{question};
ghost use Rattle.answers.specs.Laws.{AnswerLaw, Enclosing};
ghost use Rattle.answers.specs.Trace.{Event, TracedSet};
ghost use Rattle.ask.specs.Told.{published};
ghost use Rattle.ask.specs.Both.{BothAsked, BothTraced};

use crate::answer::Answer;
use crate::checking::check;
use crate::compute::compute;
use crate::fault::AskFault;
use batch::Batch;
use grid::{Grid, Mode, Rounding};
use sheet::sheet::SetSheet;

// Asks downward and upward at once. A refusal of either leaves both answers' limbs as they were.
pub fn ask_both<B: Batch, G: Grid>(
    sheet: &SetSheet,
    batch: &B,
    grid: &G,
    low: &mut [u32],
    high: &mut [u32],
) -> Result<(Answer, Answer), AskFault>
    ensures both { BothAsked (shown sheet.now.marks) (question (B.Batch.terms batch.now) (G.Grid.spacing grid.now) (G.Grid.widest grid.now) 1 (length low.old)) (question (B.Batch.terms batch.now) (G.Grid.spacing grid.now) (G.Grid.widest grid.now) 2 (length high.old)) result low.new high.new }
    ensures refused { is_err result ≡ true → (low.new ≡ low.old) × (high.new ≡ high.old) }
    ensures right { IfOk result (λ p. AnswerLaw (shown sheet.now.marks) (question (B.Batch.terms batch.now) (G.Grid.spacing grid.now) (G.Grid.widest grid.now) 1 (length low.old)) (published p.0 low.new) × AnswerLaw (shown sheet.now.marks) (question (B.Batch.terms batch.now) (G.Grid.spacing grid.now) (G.Grid.widest grid.now) 2 (length high.old)) (published p.1 high.new)) }
    ensures encloses { IfOk result (λ p. Enclosing (shown sheet.now.marks) (question (B.Batch.terms batch.now) (G.Grid.spacing grid.now) (G.Grid.widest grid.now) 1 (length low.old)) (published p.0 low.new) (published p.1 high.new)) }
    ensures reached { (h : List Event) → TracedSet h sheet.now → BothTraced h sheet.now (question (B.Batch.terms batch.now) (G.Grid.spacing grid.now) (G.Grid.widest grid.now) 1 (length low.old)) (question (B.Batch.terms batch.now) (G.Grid.spacing grid.now) (G.Grid.widest grid.now) 2 (length high.old)) result low.new high.new }
{
    let marks = sheet.marks();
    let (terms, width) = (batch.count(), grid.width());
    check(marks, terms, width, low.len())?;
    check(marks, terms, width, high.len())?;
    let mode = Mode::Downward;
    let down = compute(marks, batch, Rounding { grid, mode }, low);
    let mode = Mode::Upward;
    let up = compute(marks, batch, Rounding { grid, mode }, high);
    Ok((down, up))
}
