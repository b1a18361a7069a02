// A regular record without a fault, and its weights and digits.
ghost use Rattle.std.specs.Prelude.{◌≡◌, ℕ, ◌/◌, ◌%◌, ◌^◌, ◌<◌, ◌≤◌, length, slice_index, pos, neg_ℤ, ◌+ℤ◌, ◌-ℤ◌, ◌*ℤ◌, ◌≤ℤ◌};
ghost use Rattle.std.specs.Float.Ieee.{size};
ghost use Rattle.exact.specs.Limbs.{limbs_value};
ghost use Rattle.batch.specs.Term.{most_digits, farthest_top};
ghost use Rattle.limb_batch.specs.Records.{limbs_for, spare_bits};

use limbs::{bits_down, bits_from};

// The bits of the limbs below the first `precision` of them are 0, and the topmost is 1.
#[derive(Clone, Copy)]
pub struct RegularRecord<'p> {
    pub limbs: &'p [u32],
    pub exponent: i64,
    pub precision: u64,
    ghost few_digits: { precision ≤ most_digits },
    ghost not_below: { neg_ℤ (pos farthest_top) ≤ℤ exponent },
    ghost not_above: { exponent ≤ℤ pos farthest_top },
    ghost whole_limbs: { length limbs.now ≡ limbs_for precision },
    ghost all_digits: { size (limbs_value limbs.now / 2 ^ spare_bits precision) ≡ precision },
    ghost low_clear: { limbs_value limbs.now % 2 ^ spare_bits precision ≡ 0 },
}

impl<'p> RegularRecord<'p> {
    ghost use Rattle.batch.specs.Term.{top_weight, low_weight, digit_at};
    ghost use Rattle.limb_batch.specs.RegularRecords.{term_signed};
    ghost use Rattle.std.specs.Prelude.{false};

    pub fn top(&self) -> i32
        ensures { result ≡ top_weight (term_signed false self.now) }
    {
        self.exponent as i32
    }

    pub fn low(&self) -> i32
        ensures { result ≡ low_weight (term_signed false self.now) }
    {
        (self.exponent - self.precision as i64) as i32
    }

    pub fn digit(&self, column: i32) -> u32
        ensures { result ≡ digit_at column (term_signed false self.now) }
    {
        bits_from(&self.limbs, self.bit_of(column))
    }

    // The digits at a column and at those below it.
    pub fn digits(&self, column: i32, digits: &mut [u32])
        ensures many { length digits.new ≡ length digits.old }
        ensures each { (j : ℕ) → j < length digits.old → slice_index digits.new j ≡ digit_at (column -ℤ pos j) (term_signed false self.now) }
    {
        bits_down(self.limbs, self.bit_of(column), digits);
    }

    // The bit with which a column begins, counted from the lowest of the limbs.
    fn bit_of(&self, column: i32) -> i64
        ensures { result ≡ (pos 32 *ℤ (pos (length self.now.limbs.now) +ℤ column)) -ℤ self.now.exponent }
    {
        32 * (self.limbs.len() as i64 + column as i64) - self.exponent
    }
}
