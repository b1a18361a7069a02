// The interface of a batch: a list of terms, read term by term and column by column.
ghost use Rattle.std.specs.Prelude.{◌≡◌, ℕ, ◌<◌, List, length, pos, ◌-ℤ◌, slice_index};
ghost use Rattle.batch.specs.Term.{Term, Batchable, regular_terms};
ghost use Rattle.batch.specs.Lookup.{kind_of_term, top_of_term, low_of_term, digit_of_term};

use crate::kind::Kind;

// Any number i and any column may be asked: past the last term the kind is Absent and the rest is 0.
pub trait Batch {
    ghost terms: { Self → List Term };

    ghost limited: { (b : Self) → Batchable (terms b) };

    fn count(&self) -> usize
        ensures { result ≡ length (terms self.now) };

    fn kind(&self, i: usize) -> Kind
        ensures { result ≡ kind_of_term (terms self.now) i };

    // The weight above the first digit of term i.
    fn top(&self, i: usize) -> i32
        ensures { result ≡ top_of_term (terms self.now) i };

    // The weight of its last digit.
    fn low(&self, i: usize) -> i32
        ensures { result ≡ low_of_term (terms self.now) i };

    // Its bits at the weights 32 * column to 32 * column + 31.
    fn digit(&self, i: usize, column: i32) -> u32
        ensures { result ≡ digit_of_term (terms self.now) i column };

    // Its digits at a column and at those below it, one for each place of the slice; below the lowest column that an i32
    // names every digit is 0. A batch that can read a run faster has a body of its own.
    fn digits(&self, i: usize, column: i32, digits: &mut [u32])
        ensures many { length digits.new ≡ length digits.old }
        ensures each { (j : ℕ) → j < length digits.old → slice_index digits.new j ≡ digit_of_term (terms self.now) i (column -ℤ pos j) }
    {
        let mut at = Some(column);
        for digit in digits.iter_mut() {
            *digit = at.map_or(0, |column| self.digit(i, column));
            at = at.and_then(|column| column.checked_sub(1));
        }
    }
}

// How many terms of a batch are regular.
pub fn regular_count<B: Batch>(b: &B) -> usize
    ensures { result ≡ regular_terms (B.terms b.now) }
{
    (0..b.count()).filter(|&i| b.kind(i).is_regular()).count()
}
