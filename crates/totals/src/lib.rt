// Signed totals of columns, settled as a sign and a magnitude in limbs, the least significant first.
#![tactic(auto)]

ghost use Rattle.std.specs.Prelude.{◌≡◌, ◌+◌, ◌*◌, ◌^◌, ◌<◌, ◌≤◌, length, pos, ◌+ℤ◌, ◌*ℤ◌, unsigned_abs};
ghost use Rattle.exact.specs.Integers.{is_negative};
ghost use Rattle.exact.specs.Limbs.{limbs_value};
ghost use Rattle.totals.specs.Totals.{totals_value, SmallTotals, flipped};

// A sign, and the limb above those that were written: a flag beside a value that it does not decide about.
#[derive(Clone, Copy, PartialEq, Eq, Debug)]
pub struct Settled {
    pub negative: bool,
    pub top: u32,
}

const LIMB: i64 = 4_294_967_296;

// The lowest 32 bits of a total, and what is carried.
fn split(total: i64) -> (i64, u32)
    ensures { total ≡ result.0 *ℤ pos 4294967296 +ℤ pos result.1 }
{
    (total.div_euclid(LIMB), total.rem_euclid(LIMB) as u32)
}

// A total, or its opposite.
fn flipped(flip: bool, total: i64) -> i64
    requires { unsigned_abs total < 2 ^ 53 }
    ensures is { result ≡ flipped flip total }
    ensures small { unsigned_abs result < 2 ^ 53 }
{
    if flip { -total } else { total }
}

// The lowest 32 bits of each total, or of its opposite, with the rest carried on; the last carry.
// By a flag: a contract on an iterator of totals would have to say which totals it yields.
fn carry_up(totals: &[i64], flip: bool, limbs: &mut [u32]) -> i64
    requires same { length totals.now ≡ length limbs.old }
    requires small { SmallTotals totals.now }
    ensures value { flipped flip (totals_value totals.now) ≡ result *ℤ pos (2 ^ (32 * length totals.now)) +ℤ pos (limbs_value limbs.new) }
    ensures below { limbs_value limbs.new < 2 ^ (32 * length totals.now) }
    ensures bound { unsigned_abs result ≤ 4194304 }
{
    let mut carry: i64 = 0;
    for (i, &total) in totals.iter().enumerate() {
        let (rest, low) = split(flipped(flip, total) + carry);
        // By index: of a slice written through iter_mut().zip(..) a proof knows no element.
        limbs[i] = low;
        carry = rest;
    }
    carry
}

// The sign and the magnitude of what the totals stand for. A carry below 0 is that of a negative number, whose opposite is carried up then.
// For the ask, which has as many limbs as totals, and totals of 2 ^ 42 at most.
pub fn settle(totals: &[i64], limbs: &mut [u32]) -> Settled
    requires same { length totals.now ≡ length limbs.old }
    requires small { SmallTotals totals.now }
    ensures negative { result.negative ≡ is_negative (totals_value totals.now) }
    ensures magnitude { result.top * 2 ^ (32 * length totals.now) + limbs_value limbs.new ≡ unsigned_abs (totals_value totals.now) }
{
    let carry = carry_up(totals, false, limbs);
    if carry >= 0 {
        return Settled {
            negative: false,
            top: carry as u32,
        };
    }
    let opposite = carry_up(totals, true, limbs);
    Settled {
        negative: true,
        top: opposite as u32,
    }
}
