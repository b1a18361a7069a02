// One column's work: the total of the digits there, and how many terms go on below it. It grows with the number of the terms that reach the column alone.
ghost use Rattle.std.specs.Prelude.{◌≡◌, ◌^◌, ◌<◌, ◌≤◌, ◌≤ℤ◌, ◌<ℤ◌, ℤ, pos, neg_ℤ, ◌-ℤ◌, ◌+ℤ◌, Some, length, int_lt, unsigned_abs};
ghost use Rattle.std.specs.List.{filter};
ghost use Rattle.batch.specs.Term.{column_weight};
ghost use Rattle.column.specs.Columns.{column_total, Occupied};
ghost use Rattle.column.specs.Ends.{reaching_below};
ghost use Rattle.column.specs.Claims.{StartsWith, GoesOnWith};
ghost use Rattle.column.specs.Listed.{parts_listed};
ghost use Rattle.column.specs.Runs.{TotalsFrom};
ghost use Rattle.column.specs.Walk.{Highest};
ghost use Rattle.column.specs.Zones.{Zoned};

use crate::cursor::ColumnCursor;
use crate::parting::{go_down, highest_last};
use crate::run::{MOST_COLUMNS, Run, add_signed, total_of};
use crate::term::CountedTerm;
use batch::Batch;

// How many of the terms go on below a column.
fn count_below(terms: &[CountedTerm], column: i32) -> usize
    ensures { result ≡ length (filter (λ c. int_lt c.last column) terms.now) }
{
    terms.iter().filter(|term| term.last < column).count()
}

// How many columns the next run has down from one: a long run no more than there are down to the lowest.
fn next_height(singles: usize, top: i32, lowest: i32) -> usize
    ensures some { 0 < result }
    ensures few { result ≤ 34 }
{
    if singles > 0 {
        return 1;
    }
    let left = i64::from(top) - i64::from(lowest) + 1;
    left.clamp(1, 34) as usize
}

// The lowest column in which one of the terms ends that begin at a column or above it.
fn lowest_of_begun(terms: &[CountedTerm], column: i32) -> i32 {
    let begun = terms.iter().filter(|term| term.first >= column);
    begun.map(|term| term.last).min().unwrap_or(column)
}

// The totals of so many columns down from one, of some terms of a batch: term by term, since a batch reads a run of digits of one term at once.
fn run_totals<B: Batch>(
    batch: &B,
    terms: &[CountedTerm],
    top: i32,
    height: usize,
) -> [i64; MOST_COLUMNS]
    requires few { length terms.now ≤ 1024 }
    requires short { height ≤ 34 }
    ensures { TotalsFrom (parts_listed (B.Batch.terms batch.now) terms.now) top height result }
{
    let mut totals = [0i64; MOST_COLUMNS];
    if height == 1 {
        totals[0] = total_of(batch, terms, top);
        return totals;
    }
    let mut digits = [0u32; MOST_COLUMNS];
    for &term in terms {
        let digits = &mut digits[..height];
        batch.digits(usize::from(term.place), top, digits);
        add_signed(&mut totals[..height], digits, term.negative);
    }
    totals
}

impl<'b, B: Batch, const CAP: usize> ColumnCursor<'b, B, CAP> {
    ghost use Rattle.column.specs.ColumnCursor.{listed_parts, standing, SameColumns};

    // Goes down to the next column: its total, below 2^42 in magnitude, and how many terms have weights below it.
    // Who asks has found the column as the next one, so that it is occupied and not far from 0.
    pub fn column_work(&mut self, column: i32) -> (i64, usize)
        requires next { Highest (standing self.old) (Occupied (listed_parts self.old)) (Some column) }
        ensures total { result.0 ≡ column_total (listed_parts self.old) column }
        ensures below { result.1 ≡ reaching_below (listed_parts self.old) (column_weight column) }
        ensures small { unsigned_abs result.0 < 2 ^ 42 }
        ensures starts { StartsWith (listed_parts self.old) column result.0 }
        ensures goes_on { GoesOnWith (listed_parts self.old) column result.0 }
        ensures at { standing self.new ≡ column }
        ensures same { SameColumns (listed_parts self.old) (listed_parts self.new) }
    {
        self.go_down_to(column);
        (self.total(), self.reaching())
    }

    // Goes down to a column: most often in the run that is added up already, else with a new one.
    fn go_down_to(&mut self, column: i32)
        requires down { column <ℤ standing self.old }
        requires near { neg_ℤ (pos 60000000) ≤ℤ column }
        ensures at { standing self.new ≡ column }
        ensures same { SameColumns (listed_parts self.old) (listed_parts self.new) }
    {
        if column < self.run.bottom {
            self.add_up(column);
            return;
        }
        self.column = column;
    }

    // How far down the next run goes at most. The first goes no further than the terms that begin in the first column: one term far below asks for no digits
    // of those above. Only speed hangs on it.
    fn lowest_ahead(&self, top: i32) -> i32 {
        if self.singles == 0 && self.run.top == i32::MAX {
            lowest_of_begun(self.terms.as_slice(), top)
        } else {
            self.lowest
        }
    }

    // Adds up the run of columns down from one, and goes there.
    fn add_up(&mut self, top: i32)
        requires down { top <ℤ standing self.old }
        requires near { neg_ℤ (pos 60000000) ≤ℤ top }
        ensures at { standing self.new ≡ top }
        ensures same { SameColumns (listed_parts self.old) (listed_parts self.new) }
    {
        let lowest = self.lowest_ahead(top);
        let height = next_height(self.singles, top, lowest);
        let bottom = top - (height - 1) as i32;
        let zones = go_down(self.terms.as_mut_slice(), self.zones, top, bottom);
        let begun = &self.terms.as_slice()[zones.ended..zones.begun];
        let totals = run_totals(self.batch, begun, top, height);
        self.run = Run {
            top,
            bottom,
            totals,
        };
        self.highest_last = highest_last(begun);
        self.zones = zones;
        self.column = top;
        self.singles = self.singles.saturating_sub(1);
    }

    // The total of the column at which the terms stand.
    fn total(&self) -> i64
        ensures is { result ≡ column_total (listed_parts self.now) (standing self.now) }
        ensures small { unsigned_abs result < 2 ^ 42 }
    {
        self.run.totals[(self.run.top - self.column) as usize]
    }

    // How many terms go on below it. Those that have ended do not, and all those that wait do; most often so do all that have begun.
    fn reaching(&self) -> usize
        ensures { result ≡ reaching_below (listed_parts self.now) (column_weight (standing self.now)) }
    {
        if self.highest_last < self.column {
            return self.terms.len() - self.zones.ended;
        }
        let begun = &self.terms.as_slice()[self.zones.ended..self.zones.begun];
        count_below(begun, self.column) + (self.terms.len() - self.zones.begun)
    }
}
