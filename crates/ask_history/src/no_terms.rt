// A batch without terms: what a number past the last batch of a list means.

ghost use Rattle.std.specs.Prelude.{[]};
ghost use Rattle.ask_history.specs.NoTerms.{none_batchable};

use batch::{Batch, Kind};

#[derive(Clone, Copy)]
pub struct NoTerms {}

impl Batch for NoTerms {
    ghost terms = { λ _. [] };

    ghost limited = { λ _. none_batchable };

    fn count(&self) -> usize {
        0
    }

    fn kind(&self, _i: usize) -> Kind {
        Kind::Absent
    }

    fn top(&self, _i: usize) -> i32 {
        0
    }

    fn low(&self, _i: usize) -> i32 {
        0
    }

    fn digit(&self, _i: usize, _column: i32) -> u32 {
        0
    }
}
