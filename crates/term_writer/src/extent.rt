// The exponent and the precision of a number.
ghost use Rattle.std.specs.Prelude.{◌≤◌, pos, neg_ℤ, ◌≤ℤ◌};
ghost use Rattle.batch.specs.Term.{most_digits, farthest_top};

use batch::Batch;

// How many limbs the most digits take, which are 4,096.
pub const MOST_LIMBS: usize = 128;

#[derive(Clone, Copy)]
pub struct Extent {
    pub exponent: i32,
    pub precision: u32,
    ghost few_digits: { precision ≤ most_digits },
    ghost not_below: { neg_ℤ (pos farthest_top) ≤ℤ exponent },
    ghost not_above: { exponent ≤ℤ pos farthest_top },
}

impl Extent {
    ghost use Rattle.std.specs.Prelude.{◌≡◌, ℕ, ◌*◌, Bool, true, ℤ, ◌-ℤ◌, Some};
    ghost use Rattle.std.specs.List.{slice_get};
    ghost use Rattle.limb_batch.specs.Records.{limbs_for};
    ghost use Rattle.batch.specs.Term.{regular, top_weight};
    ghost use Rattle.batch.specs.TermKinds.{kind_is_regular};
    ghost use Rattle.batch.specs.Lookup.{kind_of_term};
    ghost use Rattle.std.specs.Float.Ieee.{size};

    // Those of a regular term of a batch.
    pub fn of<B: Batch>(batch: &B, i: usize) -> Extent
        requires { kind_is_regular (kind_of_term (B.Batch.terms batch.now) i) ≡ true }
        ensures exponent { (s : Bool) (m : ℕ) (q : ℤ) → slice_get (B.Batch.terms batch.now) i ≡ Some (regular s m q)
            → result.exponent ≡ top_weight (regular s m q) }
        ensures precision { (s : Bool) (m : ℕ) (q : ℤ) → slice_get (B.Batch.terms batch.now) i ≡ Some (regular s m q)
            → result.precision ≡ size m }
    {
        let exponent = batch.top(i);
        let precision = (exponent - batch.low(i)) as u32;
        Extent {
            exponent,
            precision,
        }
    }

    // How many limbs the digits take.
    pub fn limb_count(self) -> usize
        ensures { result ≡ limbs_for self.precision }
    {
        self.precision.div_ceil(32) as usize
    }

    // The weight of the lowest bit of these limbs.
    pub fn lowest_weight(self) -> i32
        ensures { result ≡ self.exponent -ℤ pos (32 * limbs_for self.precision) }
    {
        self.exponent - 32 * self.limb_count() as i32
    }
}
