// The answer to an ask that is not refused.
ghost use Rattle.std.specs.Prelude.{◌≡◌, ℕ, ◌≤◌, true, false, List, length, ℤ};
ghost use Rattle.exact.specs.Limbs.{limbs_value};
ghost use Rattle.grid.specs.Modes.{mode_of};
ghost use Rattle.grid.specs.Rounding.{Mode as RoundingMode};
ghost use Rattle.batch.specs.TermKinds.{kind_number};
ghost use Rattle.sheet.specs.Shown.{shown};
ghost use Rattle.column.specs.Parts.{Part};
ghost use Rattle.answers.specs.Published.{answer, finite_answer, sum_answer, plain, limbs_of, is_downward};
ghost use Rattle.ends.specs.Directions.{direction_sign};
ghost use Rattle.survey.specs.Kinds.{counted_kinds, has, zero_negative};
ghost use Rattle.depth.specs.Rounded.{RoundedTo};
ghost use Rattle.ask.specs.Told.{published};

use crate::answer::Answer;
use batch::{Batch, Kind};
use depth::{RoundedSum, round_sum};
use ends::Direction;
use grid::{Grid, Mode, Rounding};
use sheet::marks::Marks;
use survey::{KindsCounted, SumClass};

// Copies as many limbs as there is room for, and clears the rest.
fn copy_limbs(from: &[u32], limbs: &mut [u32])
    ensures { limbs.new ≡ limbs_of (length limbs.old) (limbs_value from.now) }
{
    let copied = from.len().min(limbs.len());
    let (low, high) = limbs.split_at_mut(copied);
    low.copy_from_slice(&from[..copied]);
    high.fill(0);
}

fn is_downward(mode: Mode) -> bool
    ensures { result ≡ is_downward (mode_of mode) }
{
    mode == Mode::Downward
}

// An answer that is not regular; all limbs are cleared.
fn plain_answer(kind: Kind, direction: Direction, depth: u32, limbs: &mut [u32]) -> Answer
    ensures { published result limbs.new ≡ plain kind (direction_sign direction) depth (length limbs.old) }
{
    copy_limbs(&[], limbs);
    Answer {
        kind,
        exponent: 0,
        precision: 0,
        direction,
        depth,
    }
}

// What a sum was rounded to, with the limbs in `sum`. A 0 that is not exact has the sign of the sum.
fn rounded_answer(
    rounded: RoundedSum,
    exact_zero_negative: bool,
    sum: &[u32],
    limbs: &mut [u32],
) -> Answer
    ensures { (u : ℤ → ℤ) (m : RoundingMode) (ps : List Part) → RoundedTo u m ps rounded.end rounded.depth (limbs_value sum.now) → published result limbs.new ≡ sum_answer exact_zero_negative u m ps (length limbs.old) }
{
    let end = rounded.end;
    if let Some(extent) = end.extent {
        copy_limbs(sum, limbs);
        return Answer {
            kind: Kind::regular(end.negative),
            exponent: extent.exponent,
            precision: extent.precision,
            direction: end.direction,
            depth: rounded.depth,
        };
    }
    let negative = match end.direction {
        Direction::Exact => exact_zero_negative,
        Direction::Below | Direction::Above => end.negative,
    };
    plain_answer(Kind::zero(negative), end.direction, rounded.depth, limbs)
}

// The answer where only finite terms count. Marks, batch and rounding go on as they came: a struct of them would be taken apart one call further down.
fn finite_answer<B: Batch, G: Grid>(
    exact_zero_negative: bool,
    marks: &Marks,
    batch: &B,
    rounding: Rounding<G>,
    limbs: &mut [u32],
) -> Answer
    requires { exact_zero_negative ≡ zero_negative (is_downward (mode_of rounding.mode)) (has (counted_kinds (shown marks.now) (B.Batch.terms batch.now))) }
    ensures { published result limbs.new ≡ finite_answer (shown marks.now) (B.Batch.terms batch.now) (G.Grid.spacing rounding.entry.grid.now) (mode_of rounding.entry.mode) (length limbs.old) }
{
    let mut sum = [0u32; 128];
    match round_sum(batch, marks, rounding, &mut sum) {
        Some(rounded) => rounded_answer(rounded, exact_zero_negative, &sum, limbs),
        None => plain_answer(Kind::zero(exact_zero_negative), Direction::Exact, 0, limbs),
    }
}

// The answer that marks, terms, grid and mode fix.
pub fn compute<B: Batch, G: Grid>(
    marks: &Marks,
    batch: &B,
    rounding: Rounding<G>,
    limbs: &mut [u32],
) -> Answer
    ensures { published result limbs.new ≡ answer (shown marks.now) (B.Batch.terms batch.now) (G.Grid.spacing rounding.entry.grid.now) (mode_of rounding.entry.mode) (length limbs.old) }
{
    let kinds = KindsCounted::new(batch, marks);
    match kinds.class() {
        SumClass::NotANumber => plain_answer(Kind::NotANumber, Direction::Exact, 0, limbs),
        SumClass::Infinite(negative) => plain_answer(
            Kind::infinity(negative),
            Direction::Exact,
            0,
            limbs,
        ),
        SumClass::Number => {
            let zero_negative = kinds.zero_is_negative(is_downward(rounding.mode));
            finite_answer(zero_negative, marks, batch, rounding, limbs)
        }
    }
}
