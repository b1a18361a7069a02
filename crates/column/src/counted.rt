// The terms that count in a sum, the marked regular ones of a batch, listed once so that each column's work goes through them alone.
// It is asked of any column, and of any batch that is passed with it. Who goes down the columns of one batch takes a `ColumnCursor`, which is faster.
ghost use Rattle.std.specs.Prelude.{◌≡◌, ◌^◌, ◌<◌, ◌≤◌, length, int_lt, unsigned_abs};
ghost use Rattle.std.specs.List.{filter};
ghost use Rattle.batch.specs.Term.{column_weight};
ghost use Rattle.sheet.specs.Shown.{shown};
ghost use Rattle.column.specs.Parts.{Regular, low};
ghost use Rattle.column.specs.PartsOf.{parts_of};
ghost use Rattle.column.specs.Columns.{columns, column_total, Occupied};
ghost use Rattle.column.specs.Ends.{reaching_below};
ghost use Rattle.column.specs.Claims.{StartsWith, GoesOnWith};
ghost use Rattle.column.specs.Listed.{listed_part, highest_occupied};
ghost use Rattle.column.specs.Walk.{first_column, first_below, Highest, highest_spanned};

use crate::run::total_of;
use crate::term::{COLUMN_BITS, CountedTerm};
use arrayvec::ArrayVec;
use batch::{Batch, Kind};
use sheet::marks::Marks;
use survey::counted_kind;

// How many weights a column has.
const WEIGHTS: i64 = 32;

// Of its terms it keeps the places and the signs alone: their columns are those in the batch that is asked of.
#[derive(Drop)]
pub struct CountedTerms {
    terms: ArrayVec<CountedTerm, 1024>,
    ghost fits: { length terms.items ≤ 1024 },
}

// The term at a place, with the sign that it counts with. No columns are kept of it.
fn listed_term(place: usize, negative: bool) -> CountedTerm
    requires { place < 1024 }
    ensures place { result.place ≡ place }
    ensures sign { result.negative ≡ negative }
{
    CountedTerm {
        place: place as u16,
        negative,
        first: 0,
        last: 0,
    }
}

// The highest column below a limit among those that the weights from low up to top lie in.
fn highest_spanned(low: i32, top: i32, below: i32) -> Option<i32>
    ensures { result ≡ highest_spanned low top below }
{
    let lowest = i64::from(low) >> COLUMN_BITS;
    let highest = ((i64::from(top) - 1) >> COLUMN_BITS).min(i64::from(below) - 1);
    if highest < lowest {
        None
    } else {
        Some(highest as i32)
    }
}

// The highest column below a limit that a counted term occupies.
fn highest_occupied<B: Batch>(batch: &B, term: CountedTerm, below: i32) -> Option<i32>
    ensures { result ≡ highest_occupied (B.Batch.terms batch.now) below term }
{
    let place = usize::from(term.place);
    highest_spanned(batch.low(place), batch.top(place), below)
}

// Does a counted term have weights below a column?
fn reaches_below<B: Batch>(batch: &B, term: CountedTerm, column: i32) -> bool
    ensures { result ≡ int_lt (low (listed_part (B.Batch.terms batch.now) term)) (column_weight column) }
{
    i64::from(batch.low(usize::from(term.place))) < WEIGHTS * i64::from(column)
}

// How many counted terms do.
fn count_below<B: Batch>(batch: &B, terms: &[CountedTerm], column: i32) -> usize
    ensures { result ≡ length (filter (λ c. int_lt (low (listed_part (B.Batch.terms batch.now) c)) (column_weight column)) terms.now) }
{
    terms
        .iter()
        .filter(|term| reaches_below(batch, **term, column))
        .count()
}

impl CountedTerms {
    ghost use Rattle.column.specs.CountedTerms.{listed_parts};

    // Lists the counted terms, in one pass over the batch.
    pub fn new<B: Batch>(batch: &B, marks: &Marks) -> CountedTerms
        ensures parts { listed_parts (B.Batch.terms batch.now) result ≡ parts_of (shown marks.now) (B.Batch.terms batch.now) }
        ensures regular { Regular (listed_parts (B.Batch.terms batch.now) result) }
    {
        let mut terms = ArrayVec::new();
        // By number: the interface of a batch, which each kind of batch implements, has no iterator.
        for place in 0..batch.count() {
            let kind = counted_kind(marks.at(place as u32), batch.kind(place));
            if kind.is_regular() {
                let term = listed_term(place, kind == Kind::Negative);
                terms.push(term);
            }
        }
        CountedTerms { terms }
    }

    // The first occupied column, the highest of all: no top weight is above 1,000,000,000, so that none is missed.
    pub fn first_column<B: Batch>(&self, batch: &B) -> Option<i32>
        ensures { result ≡ first_column (columns (listed_parts (B.Batch.terms batch.now) self.now)) }
    {
        self.next_column(batch, i32::MAX)
    }

    // The next occupied column below a given one.
    pub fn next_column<B: Batch>(&self, batch: &B, below: i32) -> Option<i32>
        ensures next { result ≡ first_below below (columns (listed_parts (B.Batch.terms batch.now) self.now)) }
        ensures highest { Highest below (Occupied (listed_parts (B.Batch.terms batch.now) self.now)) result }
    {
        self.terms
            .iter()
            .filter_map(|term| highest_occupied(batch, *term, below))
            .max()
    }

    // The total of a column, below 2^42 in magnitude, and how many terms have weights below it.
    pub fn column_work<B: Batch>(&self, batch: &B, column: i32) -> (i64, usize)
        ensures total { result.0 ≡ column_total (listed_parts (B.Batch.terms batch.now) self.now) column }
        ensures below { result.1 ≡ reaching_below (listed_parts (B.Batch.terms batch.now) self.now) (column_weight column) }
        ensures small { unsigned_abs result.0 < 2 ^ 42 }
        ensures starts { StartsWith (listed_parts (B.Batch.terms batch.now) self.now) column result.0 }
        ensures goes_on { GoesOnWith (listed_parts (B.Batch.terms batch.now) self.now) column result.0 }
    {
        let terms = self.terms.as_slice();
        let total = total_of(batch, terms, column);
        let below = count_below(batch, terms, column);
        (total, below)
    }
}
