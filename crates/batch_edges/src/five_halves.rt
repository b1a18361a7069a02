// A batch of its own kind: its one term is 5/2. It gives the five answers that a batch owes, and no run of digits of its own.
ghost use Rattle.batch_edges.specs.FiveHalves.{five_halves, five_halves_batchable};

use batch::{Batch, Kind};

#[derive(Clone, Copy)]
pub struct FiveHalves {}

impl Batch for FiveHalves {
    ghost terms = { λ _. five_halves };

    ghost limited = { λ _. five_halves_batchable };

    fn count(&self) -> usize {
        1
    }

    fn kind(&self, i: usize) -> Kind {
        if i == 0 { Kind::Positive } else { Kind::Absent }
    }

    fn top(&self, i: usize) -> i32 {
        if i == 0 { 2 } else { 0 }
    }

    fn low(&self, i: usize) -> i32 {
        if i == 0 { -1 } else { 0 }
    }

    fn digit(&self, i: usize, column: i32) -> u32 {
        match (i, column) {
            (0, 0) => 2,
            (0, -1) => 0x8000_0000,
            _ => 0,
        }
    }
}
