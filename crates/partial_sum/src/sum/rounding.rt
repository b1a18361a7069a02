// Rounding the ends of a partial sum.
ghost use Rattle.std.specs.Prelude.{◌≡◌, ℕ, ◌+◌, ◌*◌, ◌^◌, ◌<◌, ◌≤◌, true, length, slice_index, ℤ, pos, ◌+ℤ◌, ◌≤ℤ◌, unsigned_abs};
ghost use Rattle.exact.specs.Integers.{is_negative};
ghost use Rattle.exact.specs.Dyadic.{dyadic, exponent};
ghost use Rattle.exact.specs.Limbs.{limbs_value};
ghost use Rattle.partial_sum.specs.Limits.{InReach};
ghost use Rattle.partial_sum.specs.Holding.{window};
ghost use Rattle.batch.specs.Term.{column_weight};
ghost use Rattle.grid.specs.Modes.{mode_of};
ghost use Rattle.limbs.specs.Bits.{most_limbs};
ghost use Rattle.grid.specs.Rounding.{OnGrid};
ghost use Rattle.partial_sum.specs.Ends.{Meant, Reached, number_held};
ghost use Rattle.partial_sum.specs.Rounded.{RoundedAt, BothRounded};

use crate::end::WindowEnd;
use crate::settling::{round_settled, settle_whole};
use crate::sum::PartialSum;
use crate::sum::both_ends::Below;
use ends::{End, RoundedEnd};
use grid::{Grid, Rounding};

impl PartialSum {
    // The window and so many units more: is it negative? Its magnitude is left in the limbs.
    fn settle_with(&self, offset: i64, limbs: &mut [u32]) -> bool
        requires few { unsigned_abs offset ≤ 2 ^ 45 }
        requires room { length limbs.old + self.now.from ≡ 131 }
        ensures negative { result ≡ is_negative (window self.now +ℤ offset) }
        ensures magnitude { limbs_value limbs.new ≡ unsigned_abs (window self.now +ℤ offset) }
    {
        let mut totals = self.totals;
        totals[self.from] += offset;
        settle_whole(&totals[self.from..], limbs)
    }

    // The sign and the magnitude of an end.
    fn settle_end(&self, end: WindowEnd, limbs: &mut [u32]) -> bool
        requires few { unsigned_abs end.offset ≤ 2 ^ 44 }
        requires room { length limbs.old + self.now.from ≡ 131 }
        ensures { Meant result end.partial (limbs_value limbs.new) (window self.now +ℤ end.offset) }
    {
        let negative = self.settle_with(end.offset, limbs);
        if negative && end.partial {
            let _ = self.settle_with(end.offset + 1, limbs);
        }
        negative
    }

    // What the numbers at an end round to, with the limbs of the answer; nothing where that is not determined.
    // That limbs are below 2^32 is said, since a caller's proof does not know it of an array that the caller does not read again.
    fn round_at<G: Grid>(
        &self,
        end: WindowEnd,
        rounding: Rounding<G>,
        answer: &mut [u32],
    ) -> Option<RoundedEnd>
        requires offset { unsigned_abs end.offset ≤ 2 ^ 44 }
        requires reach { InReach self.now.lowest }
        requires few { length answer.old ≤ most_limbs }
        requires room { G.Grid.widest rounding.grid.now ≤ 32 * length answer.old }
        ensures rounded { RoundedAt (G.Grid.spacing rounding.entry.grid.now) (mode_of rounding.entry.mode) end.partial (window self.now +ℤ end.offset) (column_weight self.now.lowest) result (limbs_value answer.new) }
        ensures limbs { (k : ℕ) → slice_index answer.new k < 2 ^ 32 }
    {
        // In fixed memory, with room for the longest window; a shorter one takes the last of them.
        let mut limbs = [0u32; 131];
        let magnitude = &mut limbs[self.from..];
        let negative = self.settle_end(end, magnitude);
        let settled = End {
            negative,
            whole: magnitude,
            column: self.lowest,
            partial: end.partial,
        };
        round_settled(settled, rounding, answer)
    }

    // That columns are in reach is asked by each function that needs it, and is no ghost field: `new` and `absorb` take any column.
    // The exponent of the window's number is at most this: 32 bits for each total, and 21 more for the head, which is below 2^53 together
    // with what the totals below it come to.
    fn top_exponent(&self) -> i32
        requires { InReach self.now.lowest }
        ensures { exponent (dyadic (window self.now) (column_weight self.now.lowest)) ≤ℤ result }
    {
        let length = (130 - self.from) as i32;
        (self.lowest + length) * 32 + 21
    }

    // Does the window hold all of the sum so far, and is the grid's spacing there no more than a unit of the window? Then the sum is a number
    // of the grid. It lies strictly between its ends where there is a next column, and keeps them from rounding alike.
    fn too_short_to_decide<G: Grid>(&self, grid: &G) -> bool
        requires { InReach self.now.lowest }
        ensures whole { result ≡ true → self.now.rest ≡ pos 0 }
        ensures member { result ≡ true → OnGrid (G.Grid.spacing grid.now) (number_held self.now) }
    {
        self.column == self.lowest && grid.spacing(self.top_exponent()) <= self.lowest * 32
    }

    // Rounds both ends: an answer exactly if they round alike. The limbs are 128, as many as the widest grid asks for.
    // Who asks knows that the columns are in reach, since no term's top weight is above 1,000,000,000.
    // For a wide answer the window is too short at most columns, and that is found without settling it.
    pub fn round_ends<G: Grid>(
        &self,
        below: Below,
        rounding: Rounding<G>,
        answer: &mut [u32],
    ) -> Option<RoundedEnd>
        requires reached { Reached self.now below.reaching below.column }
        requires reach { InReach self.now.lowest }
        requires room { length answer.old ≡ 128 }
        ensures { BothRounded (G.Grid.spacing rounding.entry.grid.now) (mode_of rounding.entry.mode) self.now below.reaching below.column result (limbs_value answer.new) }
    {
        if below.column.is_some() && self.too_short_to_decide(rounding.grid) {
            return None;
        }
        let (lower, upper) = self.ends(below);
        let first = self.round_at(lower, rounding, answer)?;
        if lower == upper {
            return Some(first);
        }
        // The upper end's answer stands in fixed memory of its own, as long as the lower end's.
        let mut other = [0u32; 128];
        let second = self.round_at(upper, rounding, &mut other)?;
        if first == second && answer[..] == other[..] {
            Some(first)
        } else {
            None
        }
    }
}
