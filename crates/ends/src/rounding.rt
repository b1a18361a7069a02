// Rounding one end of a sum to a grid.
ghost use Rattle.std.specs.Prelude.{◌≡◌, ℕ, ◌+◌, ◌-◌, ◌*◌, ◌/◌, ◌^◌, ◌<◌, ◌≤◌, true, false, length, ℤ, pos, ◌+ℤ◌, ◌*ℤ◌, neg_ℤ, ◌≤ℤ◌, ◌<ℤ◌, option_map, IfSome};
ghost use Rattle.std.specs.Float.Ieee.{size};
ghost use Rattle.exact.specs.Limbs.{limbs_value};
ghost use Rattle.grid.specs.Spacing.{lowest, highest, Lawful};
ghost use Rattle.grid.specs.Modes.{mode_of};
ghost use Rattle.limbs.specs.Bits.{bit, most_limbs};
ghost use Rattle.ends.specs.Ends.{furthest_column, spacing_there};
ghost use Rattle.ends.specs.Outcome.{Outcome, Undetermined, Unused, Right, RightAt};
ghost use Rattle.ends.specs.Steps.{Decided, NoneKept, SomeKept};

use crate::decision::{Decision, decide};
use crate::end::End;
use crate::rounded_end::{Extent, PlacedEnd, RoundedEnd};
use grid::{Grid, Mode, Rounding};
use limbs::{BoundedLimbs, bit_length, write_power, write_rounded};

// How far apart two integers are: in 64 bits no difference wraps.
fn distance(high: i32, low: i32) -> usize
    requires { low ≤ℤ high }
    ensures is { high ≡ low +ℤ pos result }
    ensures few { result < 4294967296 }
{
    (i64::from(high) - i64::from(low)) as usize
}

// Where an end lies on a grid: the weight of its units, how many bits they are, its exponent, and the spacings at that exponent and at the next.
#[derive(Clone, Copy)]
struct Place {
    base: i32,
    bits: usize,
    exponent: i32,
    unit: i32,
    next: i32,
}

// What becomes of the bits from the spacing's weight on. Nothing is left out where the units of the end are no finer.
fn decide_at(end: End, place: Place, mode: Mode) -> Decision
    ensures { Decided (mode_of mode) end.entry.negative end.entry.partial (limbs_value end.entry.whole.now) place.base place.unit result.raise result.inexact }
{
    if place.unit <= place.base {
        return Decision {
            raise: false,
            inexact: false,
        };
    }
    decide(end, distance(place.unit, place.base) - 1, mode)
}

// The answer where the number lies below the spacing: 0 or one step of the grid.
// Each step asks for few limbs: a struct for the limbs would save that clause and have every step read its field.
fn none_kept(unit: i32, raise: bool, answer: &mut [u32]) -> Option<Extent>
    requires some { 0 < length answer.old }
    requires few { length answer.old ≤ most_limbs }
    requires cap { unit <ℤ highest }
    ensures { NoneKept unit raise result (limbs_value answer.new) }
{
    if !raise {
        write_power(0, answer);
        return None;
    }
    write_power(1, answer);
    Some(Extent {
        exponent: unit + 1,
        precision: 1,
    })
}

// The answer where some bits are kept. Raised they may carry to 2 ^ exponent, which has as many bits as the next spacing leaves.
fn some_kept(number: BoundedLimbs, place: Place, raise: bool, answer: &mut [u32]) -> Extent
    requires some { place.unit <ℤ place.exponent }
    requires inside { place.next ≤ℤ place.exponent }
    requires fits { place.exponent ≤ℤ (place.unit +ℤ pos (32 * length answer.old)) }
    requires next { (place.exponent +ℤ pos 1) ≤ℤ (place.next +ℤ pos (32 * length answer.old)) }
    requires few { length answer.old ≤ most_limbs }
    requires cap { place.exponent <ℤ highest }
    ensures { (p q : ℕ) → place.exponent ≡ place.unit +ℤ pos p → (place.exponent +ℤ pos 1) ≡ place.next +ℤ pos q → SomeKept (limbs_value number.entry.limbs.now * 2 ^ p / 2 ^ number.entry.bits + bit raise) place.exponent p q result (limbs_value answer.new) }
{
    let precision = distance(place.exponent, place.unit);
    if !write_rounded(number, precision, raise, answer) {
        return Extent {
            exponent: place.exponent,
            precision: precision as u32,
        };
    }
    let exponent = place.exponent + 1;
    let precision = distance(exponent, place.next);
    write_power((precision + 31) / 32, answer);
    Extent {
        exponent,
        precision: precision as u32,
    }
}

// Rounds by the spacings at the exponent and at the next one: the same for every grid that has these two.
fn round_at(end: End, place: Place, mode: Mode, answer: &mut [u32]) -> RoundedEnd
    requires bits { place.bits ≡ size (limbs_value end.whole.now) }
    requires exponent { place.exponent ≡ place.base +ℤ pos place.bits }
    requires cap { place.exponent <ℤ highest }
    requires unit { place.unit <ℤ highest }
    requires inside { place.unit <ℤ place.exponent → place.next ≤ℤ place.exponent }
    requires fits { place.exponent ≤ℤ (place.unit +ℤ pos (32 * length answer.old)) }
    requires next { (place.exponent +ℤ pos 1) ≤ℤ (place.next +ℤ pos (32 * length answer.old)) }
    requires some { 0 < length answer.old }
    requires few { length answer.old ≤ most_limbs }
    requires nonzero { end.partial ≡ false → 0 < limbs_value end.whole.now }
    requires determined { end.partial ≡ true → place.base <ℤ place.unit }
    ensures { (u : ℤ → ℤ) (W : ℕ) → Lawful u W → place.unit ≡ u place.exponent → place.next ≡ u (place.exponent +ℤ pos 1) → Right u (mode_of mode) end.entry.negative end.entry.partial (limbs_value end.entry.whole.now) place.base result (limbs_value answer.new) }
{
    let decision = decide_at(end, place, mode);
    let direction = decision.direction(end.negative);
    let extent = if place.exponent <= place.unit {
        none_kept(place.unit, decision.raise, answer)
    } else {
        let number = BoundedLimbs {
            limbs: end.whole,
            bits: place.bits,
        };
        Some(some_kept(number, place, decision.raise, answer))
    };
    RoundedEnd {
        negative: end.negative,
        direction,
        extent,
    }
}

// The exponent of so many bits above a column: within the exponents in question.
fn exponent_of(column: i32, bits: usize) -> i32
    requires from { neg_ℤ (pos furthest_column) ≤ℤ column }
    requires upto { column ≤ℤ pos furthest_column }
    requires few { bits ≤ 32 * most_limbs }
    ensures is { result ≡ (pos 32 *ℤ column) +ℤ pos bits }
    ensures from { lowest ≤ℤ result }
    ensures upto { result <ℤ highest }
{
    32 * column + bits as i32
}

// Rounds an end: each number that it stands for rounds to the answer. None where a part is left over and the spacing is no more than a unit.
// For the ask, which meets the bounds: few limbs, columns within those of its terms, room for the width of the grid, and an exact zero told before.
pub fn round_end<G: Grid>(end: End, rounding: Rounding<G>, answer: &mut [u32]) -> Option<PlacedEnd>
    requires whole { length end.whole.now ≤ most_limbs }
    requires few { length answer.old ≤ most_limbs }
    requires room { G.widest rounding.grid.now ≤ 32 * length answer.old }
    requires from { neg_ℤ (pos furthest_column) ≤ℤ end.column }
    requires upto { end.column ≤ℤ pos furthest_column }
    requires nonzero { end.partial ≡ false → 0 < limbs_value end.whole.now }
    ensures outcome { Outcome (G.spacing rounding.entry.grid.now) (mode_of rounding.entry.mode) end.entry.negative end.entry.partial (limbs_value end.entry.whole.now) (pos 32 *ℤ end.entry.column) (option_map (λ r. r.rounded) result) (limbs_value answer.new) }
    ensures undetermined { Undetermined (G.spacing rounding.entry.grid.now) end.entry.negative end.entry.partial (limbs_value end.entry.whole.now) (pos 32 *ℤ end.entry.column) (option_map (λ r. r.rounded) result) }
    ensures unused { Unused (option_map (λ r. r.rounded) result) answer.old answer.new }
    ensures spacing { IfSome result (λ r. r.spacing ≡ spacing_there (G.spacing rounding.entry.grid.now) (limbs_value end.entry.whole.now) (pos 32 *ℤ end.entry.column)) }
    ensures told { IfSome result (λ r. RightAt (G.spacing rounding.entry.grid.now) (mode_of rounding.entry.mode) end.entry.negative end.entry.partial (limbs_value end.entry.whole.now) (pos 32 *ℤ end.entry.column) r (limbs_value answer.new)) }
{
    let bits = bit_length(end.whole);
    let base = exponent_of(end.column, 0);
    let exponent = exponent_of(end.column, bits);
    let unit = rounding.grid.spacing(exponent);
    if end.partial && unit <= base {
        return None;
    }
    let next = rounding.grid.spacing(exponent + 1);
    let place = Place {
        base,
        bits,
        exponent,
        unit,
        next,
    };
    Some(PlacedEnd {
        rounded: round_at(end, place, rounding.mode, answer),
        spacing: unit,
    })
}
