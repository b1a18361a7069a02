// The limbs of a term's significand, read from the columns of a batch.
ghost use Rattle.std.specs.Prelude.{◌≡◌, ℕ, ◌*◌, ◌%◌, ◌^◌, ◌<◌, ◌≤◌, Bool, length, ℤ, pos, ◌+ℤ◌, ◌≤ℤ◌, Some};
ghost use Rattle.std.specs.List.{slice_get};
ghost use Rattle.batch.specs.Term.{regular, whole_units, most_digits, farthest_top};
ghost use Rattle.limb_batch.specs.Records.{limbs_for};
ghost use Rattle.answers.specs.Published.{limbs_of};

use batch::Batch;
use limbs::{LIMB, Magnitude};

const LIMB_BITS: i32 = 32;

// The weight so many limbs above another.
fn weight_above(weight: i32, limbs: usize) -> i32
    requires few { limbs ≤ limbs_for most_digits }
    requires low { weight ≤ℤ pos farthest_top }
    ensures { result ≡ weight +ℤ pos (32 * limbs) }
{
    weight + LIMB_BITS * limbs as i32
}

// The 32 bits of a regular term from this weight on: they lie in two columns.
fn bits_from<B: Batch>(batch: &B, i: usize, weight: i32) -> u32
    ensures { (s : Bool) (m : ℕ) (q : ℤ) → slice_get (B.Batch.terms batch.now) i ≡ Some (regular s m q)
        → result ≡ whole_units m q weight % 2 ^ 32 }
{
    let column = weight.div_euclid(LIMB_BITS);
    let low = u64::from(batch.digit(i, column));
    let high = u64::from(batch.digit(i, column + 1));
    (high * LIMB + low).bits_at(weight.rem_euclid(LIMB_BITS) as usize)
}

// The bits of a regular term from this weight on, as many as the limbs hold.
pub fn read_limbs<B: Batch>(batch: &B, i: usize, weight: i32, limbs: &mut [u32])
    requires few { length limbs.old ≤ limbs_for most_digits }
    requires low { weight ≤ℤ pos farthest_top }
    ensures many { length limbs.new ≡ length limbs.old }
    ensures bits { (s : Bool) (m : ℕ) (q : ℤ) → slice_get (B.Batch.terms batch.now) i ≡ Some (regular s m q)
        → limbs.new ≡ limbs_of (length limbs.old) (whole_units m q weight) }
{
    for (j, limb) in limbs.iter_mut().enumerate() {
        *limb = bits_from(batch, i, weight_above(weight, j));
    }
}
