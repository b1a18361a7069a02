// An answer with the limbs that were lent for it.

ghost use Rattle.std.specs.Prelude.{◌≡◌, ◌-◌, ◌≤◌, drop, replicate};

use ask::Answer;

// The first `lent` of the limbs are the answer's, and all others are 0.
#[derive(Clone, Copy)]
pub struct AnsweredAsk {
    pub answer: Answer,
    // An array and its length: a caller makes room for outcomes by copying one, as [outcome; 8], and an ArrayVec cannot be copied.
    pub limbs: [u32; 128],
    pub lent: usize,
    ghost within: { lent ≤ 128 },
    ghost cleared: { drop lent limbs ≡ replicate (128 - lent) 0 },
}
