// The way down the occupied columns. No gap between columns is walked through.
ghost use Rattle.std.specs.Prelude.{◌≡◌, ◌<ℤ◌};
ghost use Rattle.std.specs.List.{list_any, filter_map, reduce};
ghost use Rattle.column.specs.Columns.{columns, Occupied};
ghost use Rattle.column.specs.Edges.{occupies_next, highest_below, picked};
ghost use Rattle.column.specs.Walk.{first_below, Highest};

use crate::cursor::ColumnCursor;
use crate::term::CountedTerm;
use batch::Batch;

// Does any of the terms occupy the column right below this one?
fn any_occupies_next(terms: &[CountedTerm], column: i32) -> bool
    ensures { result ≡ list_any (occupies_next column) terms.now }
{
    terms.iter().any(|term| term.occupies_next(column))
}

// The highest column below this one that any of the terms occupies.
fn highest_below(terms: &[CountedTerm], column: i32) -> Option<i32>
    ensures { result ≡ reduce picked (filter_map (highest_below column) terms.now) }
{
    terms
        .iter()
        .filter_map(|term| term.highest_below(column))
        .max()
}

impl<'b, B: Batch, const CAP: usize> ColumnCursor<'b, B, CAP> {
    ghost use Rattle.column.specs.ColumnCursor.{listed_parts, standing};

    // The next occupied column below the one at which the terms stand. Most often it is the very next one.
    pub fn next_column(&self) -> Option<i32>
        ensures next { result ≡ first_below (standing self.now) (columns (listed_parts self.now)) }
        ensures highest { Highest (standing self.now) (Occupied (listed_parts self.now)) result }
    {
        let left = &self.terms.as_slice()[self.zones.ended..];
        let begun = &left[..self.zones.begun - self.zones.ended];
        if any_occupies_next(begun, self.column) {
            Some(self.column - 1)
        } else {
            highest_below(left, self.column)
        }
    }
}
