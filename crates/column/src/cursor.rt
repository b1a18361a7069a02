// The terms that count in a sum, standing at a column, on their way down the columns of their batch: each column's work goes through those alone that reach it.
ghost use Rattle.std.specs.Prelude.{◌≤◌, ◌≤ℤ◌, ◌<ℤ◌, ◌+ℤ◌, length, pos};
ghost use Rattle.std.specs.List.{AllWithin};
ghost use Rattle.column.specs.Edges.{SpansListed};
ghost use Rattle.column.specs.Listed.{parts_listed, RegularListed, RegularListed-prop};
ghost use Rattle.column.specs.Runs.{Totalled};
ghost use Rattle.column.specs.Zones.{Zoned};

use crate::parting::Zones;
use crate::run::Run;
use crate::term::CountedTerm;
use arrayvec::ArrayVec;
use batch::Batch;

mod listing;
mod walk;
mod work;

// They stand at a column, in a run of columns that is added up already; their zones are those of the run. So many columns more as `singles` says are added
// up one by one, and then long runs, as far down as `lowest`, below which no term has a digit. The terms that have begun all end at `highest_last` or below.
#[derive(Drop)]
pub struct ColumnCursor<'b, B: Batch, const CAP: usize> {
    batch: &'b B,
    terms: ArrayVec<CountedTerm, CAP>,
    column: i32,
    zones: Zones,
    run: Run,
    singles: usize,
    lowest: i32,
    highest_last: i32,
    ghost within_run: { run.bottom ≤ℤ column },
    ghost not_above: { column ≤ℤ run.top },
    ghost short_run: { run.top <ℤ (run.bottom +ℤ pos 34) },
    ghost fits: { length terms.items ≤ 1024 },
    ghost regular: { RegularListed (B.Batch.terms batch.now) terms.items } by { RegularListed-prop (B.Batch.terms batch.now) terms.items },
    ghost spans: { SpansListed (B.Batch.terms batch.now) terms.items },
    ghost zoned: { Zoned terms.items zones column run.bottom },
    ghost ends: { AllWithin (λ c. c.last ≤ℤ highest_last) terms.items zones.ended zones.begun },
    ghost totalled: { Totalled (parts_listed (B.Batch.terms batch.now) terms.items) run },
}
