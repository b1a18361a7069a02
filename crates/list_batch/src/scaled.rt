// A scaled record: count * 2 ^ scale, one term. The law of a record is about any integers: `fits` tells it what their types hold.
ghost use Rattle.std.specs.Prelude.{◌≡◌, ◌^◌, pos, neg_ℤ, ◌≤ℤ◌, ◌<ℤ◌};

use crate::record::Record;
use crate::word_term::WordTerm;

#[derive(Clone, Copy)]
pub struct Scaled {
    count: i64,
    scale: i16,
    ghost fits: { (neg_ℤ (pos (2 ^ 63)) ≤ℤ count) × (count <ℤ pos (2 ^ 63)) × (neg_ℤ (pos (2 ^ 15)) ≤ℤ scale) × (scale <ℤ pos (2 ^ 15)) },
}

impl Scaled {
    pub fn new(count: i64, scale: i16) -> Scaled
        ensures { (result.count ≡ count) × (result.scale ≡ scale) }
    {
        Scaled { count, scale }
    }
}

impl Record for Scaled {
    ghost use Rattle.list_batch.specs.ScaledTerms.{scaled_parts, scaled_lawful};

    const TERMS: usize = 1;

    ghost TERMS = { 1 };

    ghost parts = { scaled_parts };

    ghost lawful = { scaled_lawful };

    fn term(&self, part: usize) -> Option<WordTerm> {
        match (part, self.count) {
            (0, 0) => Some(WordTerm::Zero(false)),
            (0, count) => Some(WordTerm::Regular {
                negative: count < 0,
                magnitude: count.unsigned_abs(),
                weight: self.scale,
            }),
            _ => None,
        }
    }
}
