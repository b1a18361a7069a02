// Reading the bits of a number that is given by limbs of 32 bits, the least significant first.
ghost use Rattle.std.specs.Prelude.{◌≡◌, ◌*◌, ◌/◌, ◌%◌, ◌^◌, ◌≤◌, length, slice_index};
ghost use Rattle.std.specs.Float.Ieee.{size};
ghost use Rattle.exact.specs.Limbs.{limbs_value};
ghost use Rattle.limbs.specs.Bits.{bit_of, any_below, most_limbs};

use crate::magnitude::{Magnitude, bits_of_pair};

// The limb at a place, and 0 past the last.
pub fn limb(limbs: &[u32], i: usize) -> u32
    ensures { result ≡ slice_index limbs.now i }
{
    limbs.get(i).copied().unwrap_or(0)
}

// The 32 bits from the bit `at` on: they lie in two limbs.
fn limb_bits_at(limbs: &[u32], at: usize) -> u32
    ensures { result ≡ limbs_value limbs.now / 2 ^ at % 2 ^ 32 }
{
    bits_of_pair(limb(limbs, at / 32 + 1), limb(limbs, at / 32), at % 32)
}

impl<'a> Magnitude for &'a [u32] {
    ghost value = { λ s. limbs_value s.now };

    fn bits_at(&self, at: usize) -> u32 {
        limb_bits_at(self, at)
    }
}

// The bit at a place.
pub fn bit_at(limbs: &[u32], at: usize) -> bool
    ensures { result ≡ bit_of (limbs_value limbs.now) at }
{
    limbs.bits_at(at) % 2 == 1
}

// Is any bit below the bit `at` set?
pub fn any_below(limbs: &[u32], at: usize) -> bool
    ensures { result ≡ any_below (limbs_value limbs.now) at }
{
    let whole = at / 32;
    limbs.iter().take(whole).any(|&limb| limb != 0)
        || limb(limbs, whole) as u64 % (1 << (at % 32)) != 0
}

// How many bits the number has. For the rounding of an end, whose limbs are few: 32 times their number has to fit a usize, and no slice says that.
pub fn bit_length(limbs: &[u32]) -> usize
    requires { length limbs.now ≤ most_limbs }
    ensures is { result ≡ size (limbs_value limbs.now) }
    ensures few { result ≤ 32 * most_limbs }
{
    match limbs.iter().rposition(|&limb| limb != 0) {
        Some(i) => 32 * i + (32 - limbs[i].leading_zeros() as usize),
        None => 0,
    }
}
