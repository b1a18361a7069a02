// The counted terms of a batch under the marks of a sheet.
ghost use Rattle.std.specs.Prelude.{◌≡◌, ◌≤◌, length};
ghost use Rattle.sheet.specs.Shown.{shown};
ghost use Rattle.column.specs.PartsOf.{parts_of};
ghost use Rattle.column.specs.Columns.{columns};
ghost use Rattle.column.specs.Walk.{first_column, first_below};

use crate::cursor::ColumnCursor;
use crate::parting::Zones;
use crate::run::{MOST_COLUMNS, Run};
use crate::term::counted_term;
use arrayvec::ArrayVec;
use batch::{Batch, Kind};
use sheet::marks::Marks;
use survey::counted_kind;

impl<'b, B: Batch, const CAP: usize> ColumnCursor<'b, B, CAP> {
    ghost use Rattle.column.specs.ColumnCursor.{listed_parts, standing};

    // Lists the counted terms, in one pass over the batch. They stand above all columns. Who asks has room for all terms of the batch.
    // So many columns are added up one by one at first, all others in long runs. That changes no result.
    pub fn new(batch: &'b B, marks: &Marks, singles: usize) -> ColumnCursor<'b, B, CAP>
        requires room { length (B.Batch.terms batch.now) ≤ CAP }
        ensures listed { listed_parts result ≡ parts_of (shown marks.now) (B.Batch.terms batch.now) }
        ensures above { first_below (standing result) (columns (listed_parts result)) ≡ first_column (columns (listed_parts result)) }
    {
        let mut terms = ArrayVec::new();
        let mut lowest = i32::MAX;
        // By number: the interface of a batch, which each kind of batch implements, has no iterator.
        for place in 0..batch.count() {
            let kind = counted_kind(marks.at(place as u32), batch.kind(place));
            if kind.is_regular() {
                let term = counted_term(batch, place, kind == Kind::Negative);
                lowest = lowest.min(term.last);
                terms.push(term);
            }
        }
        ColumnCursor {
            batch,
            terms,
            column: i32::MAX,
            zones: Zones {
                ended: 0,
                begun: 0,
                next_first: i32::MAX - 1,
            },
            run: Run {
                top: i32::MAX,
                bottom: i32::MAX,
                totals: [0; MOST_COLUMNS],
            },
            singles,
            lowest,
            highest_last: i32::MIN,
        }
    }
}
