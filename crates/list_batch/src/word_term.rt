// A term whose magnitude is one word: what a record gives, and what a list batch answers from it.
ghost use Rattle.std.specs.Prelude.{◌≡◌, ℕ, ◌<◌, ◌≤◌, length, slice_index, pos, ◌-ℤ◌, ◌*ℤ◌};
ghost use Rattle.std.specs.Float.Ieee.{size};
ghost use Rattle.exact.specs.Limbs.{limbs_value};
ghost use Rattle.batch.specs.Term.{top_weight, low_weight, digit_at};
ghost use Rattle.batch.specs.TermKinds.{kind_of};

use batch::Kind;
use limbs::{LIMB, bits_down, bits_from};

// The flags say whether the term is negative. The magnitude of a regular term is magnitude * 2 ^ weight.
#[derive(Clone, Copy, PartialEq, Eq, Debug)]
pub enum WordTerm {
    NotANumber,
    Infinite(bool),
    Zero(bool),
    Regular {
        negative: bool,
        magnitude: u64,
        weight: i16,
    },
}

// How many binary digits a number has.
fn bit_length(n: u64) -> u32
    ensures length { result ≡ size n }
    ensures within { result ≤ 64 }
{
    64 - n.leading_zeros()
}

// Its limbs of 32 bits, the least significant first.
fn limbs_of(n: u64) -> [u32; 2]
    ensures { limbs_value result ≡ n }
{
    [(n % LIMB) as u32, (n / LIMB) as u32]
}

// How far a column begins above a weight.
fn column_start(weight: i16, column: i32) -> i64
    ensures { result ≡ (pos 32 *ℤ column) -ℤ weight }
{
    32 * column as i64 - weight as i64
}

impl WordTerm {
    ghost use Rattle.list_batch.specs.WordTerms.{spelled};

    pub fn kind(&self) -> Kind
        ensures { result ≡ kind_of (spelled self.now) }
    {
        match *self {
            WordTerm::NotANumber => Kind::NotANumber,
            WordTerm::Infinite(negative) => Kind::infinity(negative),
            WordTerm::Zero(negative) => Kind::zero(negative),
            WordTerm::Regular { negative, .. } => Kind::regular(negative),
        }
    }

    pub fn top(&self) -> i32
        ensures { result ≡ top_weight (spelled self.now) }
    {
        match *self {
            WordTerm::Regular {
                magnitude,
                weight,
                ..
            } => weight as i32 + bit_length(magnitude) as i32,
            _ => 0,
        }
    }

    pub fn low(&self) -> i32
        ensures { result ≡ low_weight (spelled self.now) }
    {
        match *self {
            WordTerm::Regular { weight, .. } => i32::from(weight),
            _ => 0,
        }
    }

    pub fn digit(&self, column: i32) -> u32
        ensures { result ≡ digit_at column (spelled self.now) }
    {
        match *self {
            WordTerm::Regular {
                magnitude,
                weight,
                ..
            } => bits_from(&magnitude, column_start(weight, column)),
            _ => 0,
        }
    }

    // The digits at a column and at those below it.
    pub fn digits(&self, column: i32, digits: &mut [u32])
        ensures many { length digits.new ≡ length digits.old }
        ensures each { (j : ℕ) → j < length digits.old → slice_index digits.new j ≡ digit_at (column -ℤ pos j) (spelled self.now) }
    {
        match *self {
            WordTerm::Regular {
                magnitude,
                weight,
                ..
            } => bits_down(&limbs_of(magnitude), column_start(weight, column), digits),
            _ => digits.fill(0),
        }
    }
}
