// The two ends of a partial sum, between which the whole sum lies.
ghost use Rattle.std.specs.Prelude.{◌≡◌, ◌^◌, ◌≤◌, true, ℤ, unsigned_abs};
ghost use Rattle.partial_sum.specs.Ends.{PlacedAt, Between, LiesAt, Reached, lower_number, upper_number};

use crate::end::{WindowEnd, far_up, one_column_up};
use crate::sum::PartialSum;

// What lies below the column of a partial sum: how many terms reach below it, and the next occupied column.
#[derive(Clone, Copy)]
pub struct Below {
    pub reaching: u32,
    pub column: Option<i32>,
}

impl PartialSum {
    // So many units of the sum's column, seen from the window.
    fn from_window(&self, units: i64) -> WindowEnd
        requires { unsigned_abs units ≤ 2 ^ 44 }
        ensures placed { PlacedAt self.now result units }
        ensures small { unsigned_abs result.offset ≤ 2 ^ 44 }
    {
        if self.lowest == self.column {
            return WindowEnd {
                offset: units,
                partial: false,
            };
        }
        if self.lowest - 1 == self.column {
            one_column_up(units)
        } else {
            far_up(units)
        }
    }

    // The end that a number strictly between so many units of the sum's column and the next one is.
    fn between_units(&self, units: i64) -> WindowEnd
        requires { unsigned_abs units ≤ 2 ^ 44 }
        ensures partial { result.partial ≡ true }
        ensures placed { Between self.now units result.offset }
        ensures small { unsigned_abs result.offset ≤ 2 ^ 44 }
    {
        WindowEnd {
            offset: self.from_window(units).offset,
            partial: true,
        }
    }

    // The lower and the upper end. Who asks has found the next occupied column below the sum's, so that some term reaches it; and there are
    // no more than 1,024.
    pub fn ends(&self, below: Below) -> (WindowEnd, WindowEnd)
        requires { Reached self.now below.reaching below.column }
        ensures lower { LiesAt self.now result.0 (lower_number self.now below.reaching below.column) }
        ensures upper { LiesAt self.now result.1 (upper_number self.now below.reaching below.column) }
        ensures lower_small { unsigned_abs result.0.offset ≤ 2 ^ 44 }
        ensures upper_small { unsigned_abs result.1.offset ≤ 2 ^ 44 }
    {
        let reaching = i64::from(below.reaching);
        match below.column {
            None => {
                let end = self.from_window(self.rest);
                (end, end)
            }
            Some(next) if next + 1 == self.column => {
                let lower = self.from_window(self.rest - reaching);
                let upper = self.from_window(self.rest + reaching);
                (lower, upper)
            }
            Some(_) => {
                let lower = self.between_units(self.rest - 1);
                let upper = self.between_units(self.rest);
                (lower, upper)
            }
        }
    }
}
