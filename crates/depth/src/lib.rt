// The exact sum of the counted terms, rounded once: columns from the top down, until the two ends round alike.
#![tactic(auto)]

ghost use Rattle.std.specs.Prelude.{◌≡◌, ◌≤◌, length};
ghost use Rattle.exact.specs.Limbs.{limbs_value};
ghost use Rattle.grid.specs.Modes.{mode_of};
ghost use Rattle.sheet.specs.Shown.{shown};
ghost use Rattle.column.specs.PartsOf.{parts_of};
ghost use Rattle.depth.specs.Rounded.{SumRounded};

use crate::descent::descend;
use batch::{Batch, MOST_TERMS};
use column::ColumnCursor;
use ends::RoundedEnd;
use grid::{Grid, Rounding};
use sheet::marks::Marks;

mod descent;

// A batch of no more terms is listed in a list of that size: to clear the largest takes longer than a small sum.
const FEW: usize = 32;

const SOME: usize = 128;

// What a sum rounds to, and after how many columns that was settled.
#[derive(Clone, Copy)]
pub struct RoundedSum {
    pub end: RoundedEnd,
    pub depth: u32,
}

// Rounds the sum of the terms that count under the marks, with the limbs of the answer; nothing where no regular term counts. Who asks lends 128 limbs, as many as the widest grid needs.
pub fn round_sum<B: Batch, G: Grid>(
    batch: &B,
    marks: &Marks,
    rounding: Rounding<G>,
    answer: &mut [u32],
) -> Option<RoundedSum>
    requires { length answer.old ≡ 128 }
    ensures { SumRounded (G.Grid.spacing rounding.entry.grid.now) (mode_of rounding.entry.mode) (parts_of (shown marks.now) (B.Batch.terms batch.now)) result (limbs_value answer.new) }
{
    match batch.count() {
        0..=FEW => round_listed::<B, G, FEW>(batch, marks, rounding, answer),
        0..=SOME => round_listed::<B, G, SOME>(batch, marks, rounding, answer),
        _ => round_listed::<B, G, MOST_TERMS>(batch, marks, rounding, answer),
    }
}

// How many columns are added up one by one at first. Few digits are settled by two to five columns; many by as many as a long run has. Only speed hangs on it.
fn columns_one_by_one(width: u32) -> usize {
    if width <= 128 { 8 } else { 0 }
}

// With a list that has room for so many terms. Apart from its caller, which then clears no list but the one that it takes.
#[inline(never)]
fn round_listed<B: Batch, G: Grid, const CAP: usize>(
    batch: &B,
    marks: &Marks,
    rounding: Rounding<G>,
    answer: &mut [u32],
) -> Option<RoundedSum>
    requires listed { length (B.Batch.terms batch.now) ≤ CAP }
    requires memory { CAP ≤ 1024 }
    requires room { length answer.old ≡ 128 }
    ensures { SumRounded (G.Grid.spacing rounding.entry.grid.now) (mode_of rounding.entry.mode) (parts_of (shown marks.now) (B.Batch.terms batch.now)) result (limbs_value answer.new) }
{
    let singles = columns_one_by_one(rounding.grid.width());
    let mut terms: ColumnCursor<B, CAP> = ColumnCursor::new(batch, marks, singles);
    descend(&mut terms, rounding, answer)
}
