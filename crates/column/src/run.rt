// The totals of columns, which are added up term by term.
ghost use Rattle.std.specs.Prelude.{◌≡◌, ℕ, ◌^◌, ◌<◌, ◌≤◌, length, slice_index, ℤ, pos, ◌+ℤ◌, ◌-ℤ◌, ◌≤ℤ◌, unsigned_abs};
ghost use Rattle.exact.specs.Integers.{signed};
ghost use Rattle.column.specs.Columns.{column_total};
ghost use Rattle.column.specs.Listed.{parts_listed};
ghost use Rattle.column.specs.Runs.{total_at};

use crate::term::CountedTerm;
use batch::Batch;

// How many columns a run has at most: as many as the widest answers of 1,024 bits take.
pub const MOST_COLUMNS: usize = 34;

// The columns from `top` down to `bottom`, with the first column's total first.
#[derive(Clone, Copy)]
pub struct Run {
    pub top: i32,
    pub bottom: i32,
    pub totals: [i64; MOST_COLUMNS],
}

// A digit with a sign.
pub fn signed(negative: bool, digit: u32) -> i64
    ensures { result ≡ signed negative digit }
{
    let magnitude = i64::from(digit);
    if negative { -magnitude } else { magnitude }
}

// The total of one column, of some terms of a batch.
pub fn total_of<B: Batch>(batch: &B, terms: &[CountedTerm], column: i32) -> i64
    requires { length terms.now ≤ 1024 }
    ensures { result ≡ column_total (parts_listed (B.Batch.terms batch.now) terms.now) column }
{
    let mut total: i64 = 0;
    for &term in terms {
        total += signed(term.negative, batch.digit(usize::from(term.place), column));
    }
    total
}

// Adds a term's digits to the totals of their columns, with the sign that the term counts with.
pub fn add_signed(totals: &mut [i64], digits: &[u32], negative: bool)
    requires same { length digits.now ≡ length totals.old }
    requires small { (j : ℕ) → j < length totals.old → unsigned_abs (total_at totals.old j) < 2 ^ 42 }
    ensures many { length totals.new ≡ length totals.old }
    ensures each { (j : ℕ) → j < length totals.old → total_at totals.new j ≡ total_at totals.old j +ℤ signed negative (slice_index digits.now j) }
{
    for (j, total) in totals.iter_mut().enumerate() {
        *total += signed(negative, digits[j]);
    }
}
