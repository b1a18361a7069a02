// Limbs, and how many bits their number has at most.
ghost use Rattle.std.specs.Prelude.{◌≡◌, ◌*◌, ◌^◌, ◌<◌, ◌≤◌, length};
ghost use Rattle.std.specs.Float.Ieee.{size};
ghost use Rattle.exact.specs.Limbs.{limbs_value};
ghost use Rattle.limbs.specs.Bits.{most_limbs};

use crate::bits::bit_length;

#[derive(Clone, Copy)]
pub struct BoundedLimbs<'a> {
    pub limbs: &'a [u32],
    pub bits: usize,
    ghost short: { limbs_value limbs.now < 2 ^ bits },
}

impl<'a> BoundedLimbs<'a> {
    // With as many bits as the number has. For the rounding of an end, whose limbs are few.
    pub fn of(limbs: &'a [u32]) -> BoundedLimbs<'a>
        requires { length limbs.now ≤ most_limbs }
        ensures same { result.limbs.now ≡ limbs.now }
        ensures bits { result.bits ≡ size (limbs_value limbs.now) }
        ensures few { result.bits ≤ 32 * most_limbs }
    {
        let bits = bit_length(limbs);
        BoundedLimbs { limbs, bits }
    }
}
