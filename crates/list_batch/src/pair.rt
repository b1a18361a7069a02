// A pair of floats, each of them a term, and the row of their bit patterns.
ghost use Rattle.std.specs.Prelude.{◌≡◌, from_bits, to_bits};
ghost use Rattle.std.specs.Float.{binary64};
ghost use Rattle.list_batch.specs.BitPatterns.{bits_term};
ghost use Rattle.list_batch.specs.FloatValues.{IsWorth};

use crate::row::Row;

// Not one generic type with `Row`: a row alone is a record, and each name says what its fields hold.
#[derive(Clone, Copy)]
pub struct Pair {
    pub head: f64,
    pub tail: f64,
}

// The one pattern of all not-a-numbers.
const NAN_PATTERN: u64 = 0x7FF8_0000_0000_0000;

fn pattern(x: f64) -> u64
    ensures bits { result ≡ to_bits binary64 x }
    ensures back { from_bits binary64 result ≡ x }
    ensures worth { IsWorth x (bits_term result) }
{
    if x.is_nan() {
        return NAN_PATTERN;
    }
    x.to_bits()
}

impl Pair {
    // The patterns of both floats: each has its float's class, sign and value, and gives the float back.
    pub fn row(&self) -> Row
        ensures head_bits { result.head ≡ to_bits binary64 self.now.head }
        ensures tail_bits { result.tail ≡ to_bits binary64 self.now.tail }
        ensures head_back { from_bits binary64 result.head ≡ self.now.head }
        ensures tail_back { from_bits binary64 result.tail ≡ self.now.tail }
        ensures head_worth { IsWorth self.now.head (bits_term result.head) }
        ensures tail_worth { IsWorth self.now.tail (bits_term result.tail) }
    {
        Row {
            head: pattern(self.head),
            tail: pattern(self.tail),
        }
    }
}
