// Totals settled as a sign and a magnitude, and rounded.
ghost use Rattle.std.specs.Prelude.{◌≡◌, ◌+◌, ◌*◌, ◌≤◌, length, ℤ, unsigned_abs};
ghost use Rattle.exact.specs.Integers.{is_negative};
ghost use Rattle.exact.specs.Limbs.{limbs_value};
ghost use Rattle.totals.specs.Totals.{totals_value, SmallTotals};
ghost use Rattle.batch.specs.Term.{column_weight};
ghost use Rattle.grid.specs.Modes.{mode_of};
ghost use Rattle.limbs.specs.Bits.{most_limbs};
ghost use Rattle.partial_sum.specs.Ends.{Meant};
ghost use Rattle.partial_sum.specs.Limits.{InReach};
ghost use Rattle.partial_sum.specs.Rounded.{RoundedAt};

use ends::{Direction, End, RoundedEnd, round_end};
use grid::{Grid, Rounding};
use limbs::{bit_length, write_power};
use totals::settle;

// What 0 rounds to.
const NOTHING: RoundedEnd = RoundedEnd {
    negative: false,
    direction: Direction::Exact,
    extent: None,
};

// Is the number negative? Its magnitude is left in the limbs, which are one more than the totals.
pub fn settle_whole(totals: &[i64], limbs: &mut [u32]) -> bool
    requires room { length limbs.old ≡ length totals.now + 1 }
    requires small { SmallTotals totals.now }
    ensures negative { result ≡ is_negative (totals_value totals.now) }
    ensures magnitude { limbs_value limbs.new ≡ unsigned_abs (totals_value totals.now) }
{
    let count = totals.len();
    let settled = settle(totals, &mut limbs[..count]);
    limbs[count] = settled.top;
    settled.negative
}

// What the numbers round to that an end stands for. Nothing is told where that is not determined.
pub fn round_settled<G: Grid>(
    end: End,
    rounding: Rounding<G>,
    answer: &mut [u32],
) -> Option<RoundedEnd>
    requires magnitude { length end.whole.now ≤ most_limbs }
    requires reach { InReach end.column }
    requires few { length answer.old ≤ most_limbs }
    requires room { G.Grid.widest rounding.grid.now ≤ 32 * length answer.old }
    ensures { (v : ℤ) → Meant end.entry.negative end.entry.partial (limbs_value end.entry.whole.now) v → RoundedAt (G.Grid.spacing rounding.entry.grid.now) (mode_of rounding.entry.mode) end.entry.partial v (column_weight end.entry.column) result (limbs_value answer.new) }
{
    let bits = bit_length(end.whole);
    if !end.partial && bits == 0 {
        write_power(0, answer);
        return Some(NOTHING);
    }
    round_end(end, rounding, answer).map(|placed| placed.rounded)
}
