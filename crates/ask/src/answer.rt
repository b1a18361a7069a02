// The answer to an ask, beside its limbs.
use batch::Kind;
use ends::Direction;

// A regular answer is a fraction from 1/2 up to 1, of `precision` bits at the top of its limbs, times 2 ^ exponent. Any other has exponent and precision 0.
// Exponent and precision are published of every answer, so they stand beside the kind and not in a case of it.
#[derive(Clone, Copy)]
pub struct Answer {
    pub kind: Kind,
    pub exponent: i32,
    pub precision: u32,
    // on which side of the exact sum it lies
    pub direction: Direction,
    // how many columns from the top it took to round
    pub depth: u32,
}
