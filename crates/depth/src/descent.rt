// The way down the columns of a sum: the columns added up so far, and how many they are.
ghost use Rattle.std.specs.Prelude.{◌≡◌, ◌≤◌, length, unsigned_abs};
ghost use Rattle.exact.specs.Limbs.{limbs_value};
ghost use Rattle.grid.specs.Modes.{mode_of};
ghost use Rattle.column.specs.Columns.{columns};
ghost use Rattle.column.specs.ColumnCursor.{listed_parts, standing};
ghost use Rattle.column.specs.Walk.{first_column, first_below};
ghost use Rattle.partial_sum.specs.Limits.{most_total};
ghost use Rattle.partial_sum.specs.Holding.{Absorbs};
ghost use Rattle.depth.specs.Rounded.{SumRounded};
ghost use Rattle.depth.specs.Descending.{Begun, GoneOn};

use crate::RoundedSum;
use batch::Batch;
use column::ColumnCursor;
use grid::{Grid, Rounding};
use partial_sum::{Below, PartialSum};

// The sum as far as the column, how many terms reach below that, and its number from the first column down, from 1.
#[derive(Drop)]
struct Descent {
    sum: PartialSum,
    column: i32,
    reaching: usize,
    depth: u32,
}

impl Descent {
    // The descent at its first column.
    fn new(total: i64, reaching: usize, column: i32) -> Descent
        requires { unsigned_abs total ≤ most_total }
        ensures { Begun total reaching column result }
    {
        Descent {
            sum: PartialSum::new(total, column),
            column,
            reaching,
            depth: 1,
        }
    }

    // One column further down.
    fn go_on(&mut self, total: i64, reaching: usize, column: i32)
        requires absorbs { Absorbs self.old.sum total column }
        requires few { self.old.depth ≤ 120000001 }
        ensures { GoneOn self.old total reaching column self.new }
    {
        self.sum.absorb(total, column);
        self.column = column;
        self.reaching = reaching;
        self.depth += 1;
    }
}

// Goes down from the first column until the two ends round alike; nothing where there is no column. Who asks has terms that stand above all columns.
pub fn descend<B: Batch, G: Grid, const CAP: usize>(
    terms: &mut ColumnCursor<B, CAP>,
    rounding: Rounding<G>,
    answer: &mut [u32],
) -> Option<RoundedSum>
    requires above { first_below (standing terms.old) (columns (listed_parts terms.old)) ≡ first_column (columns (listed_parts terms.old)) }
    requires room { length answer.old ≡ 128 }
    ensures { SumRounded (G.Grid.spacing rounding.entry.grid.now) (mode_of rounding.entry.mode) (listed_parts terms.old) result (limbs_value answer.new) }
{
    let first = terms.next_column()?;
    let (total, reaching) = terms.column_work(first);
    let mut descent = Descent::new(total, reaching, first);
    // The way out is in the middle: a turn tells the answer, or else finds the next column.
    loop {
        let below = Below {
            reaching: descent.reaching as u32,
            column: terms.next_column(),
        };
        if let Some(end) = descent.sum.round_ends(below, rounding, answer) {
            return Some(RoundedSum {
                end,
                depth: descent.depth,
            });
        }
        let Some(next) = below.column else {
            unreachable!()
        };
        let (total, reaching) = terms.column_work(next);
        descent.go_on(total, reaching, next);
    }
}
