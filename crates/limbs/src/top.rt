// Writing the first bits of a number at the top of the limbs of an answer, raised by one or not.
ghost use Rattle.std.specs.Prelude.{◌≡◌, ◌+◌, ◌-◌, ◌*◌, ◌/◌, ◌%◌, ◌^◌, ◌<◌, ◌≤◌, length};
ghost use Rattle.exact.specs.Limbs.{limbs_value};
ghost use Rattle.limbs.specs.Bits.{bit, limbs_for, most_limbs};
ghost use Rattle.limbs.specs.Written.{Written};

use crate::bounded::BoundedLimbs;
use crate::magnitude::moved_bits;

// The bits of the number from the top of the limbs on, as far as the limbs go.
fn copy_top(number: BoundedLimbs, limbs: &mut [u32])
    requires few { length limbs.old ≤ most_limbs }
    ensures { limbs_value limbs.new ≡ limbs_value number.entry.limbs.now * 2 ^ (32 * length limbs.old) / 2 ^ number.entry.bits }
{
    let count = limbs.len();
    for (j, limb) in limbs.iter_mut().enumerate() {
        *limb = moved_bits(&number.limbs, 32 * (count - j), number.bits);
    }
}

// Makes the lowest s bits 0.
fn clear_low(limbs: &mut [u32], s: usize)
    requires low { s < 32 }
    requires some { 0 < length limbs.old }
    ensures { limbs_value limbs.new ≡ limbs_value limbs.old / 2 ^ s * 2 ^ s }
{
    limbs[0] -= limbs[0] % (1 << s);
}

// Adds 2 ^ s, and tells whether it carries out of the limbs.
fn add_unit(limbs: &mut [u32], s: usize) -> bool
    requires low { s < 32 }
    requires some { 0 < length limbs.old }
    ensures { limbs_value limbs.new + bit result * 2 ^ (32 * length limbs.old) ≡ limbs_value limbs.old + 2 ^ s }
{
    let mut carry = 1 << s;
    for limb in limbs.iter_mut() {
        let (sum, carries) = limb.overflowing_add(carry);
        *limb = sum;
        carry = u32::from(carries);
    }
    carry != 0
}

// The first `precision` bits of the number, raised by one or not, at the top of the limbs that hold so many bits.
fn write_bits(number: BoundedLimbs, precision: usize, raise: bool, limbs: &mut [u32]) -> bool
    requires some { 0 < precision }
    requires fits { length limbs.old ≡ limbs_for precision }
    requires few { length limbs.old ≤ most_limbs }
    ensures { Written (limbs_value number.entry.limbs.now * 2 ^ precision / 2 ^ number.entry.bits + bit raise) precision result (limbs_value limbs.new) }
{
    let unused = 32 * limbs.len() - precision;
    copy_top(number, limbs);
    clear_low(limbs, unused);
    raise && add_unit(limbs, unused)
}

// The first `precision` bits of the number, raised by one or not, at the top of the answer, and 0 below.
// Tells whether that is 2 ^ precision, which has a bit more.
// For the rounding of an end, which has room for them.
pub fn write_rounded(
    number: BoundedLimbs,
    precision: usize,
    raise: bool,
    answer: &mut [u32],
) -> bool
    requires some { 0 < precision }
    requires fits { precision ≤ 32 * length answer.old }
    requires few { length answer.old ≤ most_limbs }
    ensures { Written (limbs_value number.entry.limbs.now * 2 ^ precision / 2 ^ number.entry.bits + bit raise) precision result (limbs_value answer.new) }
{
    let (top, rest) = answer.split_at_mut(precision.div_ceil(32));
    rest.fill(0);
    write_bits(number, precision, raise, top)
}

// The highest bit of the first `count` limbs alone, and nothing for a count of 0.
// For the rounding of an end, which has room for them.
pub fn write_power(count: usize, answer: &mut [u32])
    requires fits { count ≤ length answer.old }
    ensures { limbs_value answer.new ≡ 2 ^ (32 * count) / 2 }
{
    answer.fill(0);
    if count > 0 {
        answer[count - 1] = 1 << 31;
    }
}
