// Columns are absorbed from the top down, each column's total into the window or, below a full window, into the rest.
ghost use Rattle.std.specs.Prelude.{◌≡◌, ◌^◌, ◌<◌, ◌≤◌, true, false, ℤ, pos, ◌+ℤ◌, ◌-ℤ◌, ◌<ℤ◌, unsigned_abs};
ghost use Rattle.exact.specs.Integers.{scale};
ghost use Rattle.partial_sum.specs.Limits.{drop_between, most_total};
ghost use Rattle.partial_sum.specs.Holding.{held, Absorbs, Folds, Appends, Lowers, Absorbed};

use crate::end::UNIT;
use crate::sum::PartialSum;

// The slot of the head.
const HEAD: usize = 129;

// A head below this takes a total in: times 2^32 it is still below 2^52.
const SMALL_HEAD: i64 = 0x10_0000;

const HALF_UNIT: i64 = UNIT / 2;

// A total, and the total of the column below it.
fn joined(high: i64, low: i64) -> i64
    requires high { unsigned_abs high < 2 ^ 20 }
    requires low { unsigned_abs low ≤ 2 ^ 42 }
    ensures { result ≡ scale high 32 +ℤ low }
{
    high * UNIT + low
}

// How many units of the column above a total is, to the nearest.
fn nearest_units(total: i64) -> i64
    requires { unsigned_abs total ≤ 2 ^ 43 }
    ensures near { unsigned_abs (total -ℤ scale result 32) ≤ 2 ^ 31 }
    ensures few { unsigned_abs result ≤ 2 ^ 11 }
{
    (total + HALF_UNIT).div_euclid(UNIT)
}

// What is left of a total without so many units of the column above.
fn without_units(total: i64, units: i64) -> i64
    requires total { unsigned_abs total ≤ 2 ^ 43 }
    requires few { unsigned_abs units ≤ 2 ^ 11 }
    ensures { result +ℤ scale units 32 ≡ total }
{
    total - units * UNIT
}

impl PartialSum {
    // The sum of one column, the highest. A column's total is within 2^42: no more than 1,024 terms have a digit of 32 bits there.
    pub fn new(total: i64, column: i32) -> PartialSum
        requires { unsigned_abs total ≤ most_total }
        ensures held { held result ≡ total }
        ensures column { result.column ≡ column }
        ensures lowest { result.lowest ≡ column }
    {
        let mut totals = [0; 130];
        totals[HEAD] = total;
        PartialSum {
            totals,
            from: HEAD,
            lowest: column,
            column,
            rest: 0,
        }
    }

    // The sum with one column more, further down. Who goes on after a column knows that the ends there do not round alike. So in the rest no
    // more than the 1,024 terms that reach below are left, and nothing before a gap.
    pub fn absorb(&mut self, total: i64, column: i32)
        requires { Absorbs self.old total column }
        ensures { Absorbed self.old self.new total column }
    {
        if self.folds_into_head(column) {
            self.fold(total, column);
        } else {
            self.append(total, column);
        }
    }

    // Is the head alone, and does it take the total of this column in? Columns that cancel take no room so.
    fn folds_into_head(&self, column: i32) -> bool
        requires { column <ℤ self.now.column }
        ensures folds { result ≡ true → Folds self.now column }
        ensures appends { result ≡ false → Appends self.now column }
    {
        let head = self.totals[HEAD];
        if self.from != HEAD {
            return false;
        }
        if head == 0 {
            return true;
        }
        if column + 1 < self.column {
            return false;
        }
        if head < 0 {
            return -SMALL_HEAD < head;
        }
        head < SMALL_HEAD
    }

    // What a fold and an append ask is what `absorb` asks: they are its two cases.
    fn fold(&mut self, total: i64, column: i32)
        requires absorbs { Absorbs self.old total column }
        requires folds { Folds self.old column }
        ensures { Absorbed self.old self.new total column }
    {
        self.totals[HEAD] = joined(self.totals[HEAD], total);
        self.lowest = column;
        self.column = column;
    }

    // The slots that are not used hold zeros, so that a gap takes no work. Right below the window, what the rest has of whole units goes
    // into the window's lowest total: half a unit at most stays.
    fn append(&mut self, total: i64, column: i32)
        requires absorbs { Absorbs self.old total column }
        requires appends { Appends self.old column }
        ensures { Absorbed self.old self.new total column }
    {
        let steps = self.steps_down_to(column);
        self.from -= steps;
        self.lowest -= steps as i32;
        self.column = column;
        if self.lowest == column {
            self.totals[self.from] = total;
            return;
        }
        let rest = joined(self.rest, total);
        if column + 1 < self.lowest {
            self.rest = rest;
            return;
        }
        let units = nearest_units(rest);
        self.totals[0] += units;
        self.rest = without_units(rest, units);
    }

    // How many columns further down the window goes: to that column, or as far as there is room.
    fn steps_down_to(&self, column: i32) -> usize
        requires { column <ℤ self.now.lowest }
        ensures { Lowers self.now result column }
    {
        self.from.min(self.lowest.abs_diff(column) as usize)
    }
}
