// Whether an ask in one of the modes is refused, before anything is summed or written.
ghost use Rattle.std.specs.Prelude.{◌≡◌, ℕ, List, length, ℤ, Some};
ghost use Rattle.grid.specs.Rounding.{Mode as RoundingMode, mode_numbered};
ghost use Rattle.batch.specs.Term.{Term};
ghost use Rattle.sheet.specs.Shown.{shown};
ghost use Rattle.answers.specs.Asked.{question, asked};
ghost use Rattle.ask.specs.Checked.{foretold};

use crate::fault::AskFault;
use sheet::marks::Marks;
use survey::lowest_marked_from;

// The first refusal of an ask of so many terms on a grid of this width with so many limbs, whatever its mode.
pub fn check(marks: &Marks, terms: usize, width: u32, limbs: usize) -> Result<(), AskFault>
    ensures { (ts : List Term) (u : ℤ → ℤ) (n : ℕ) (m : RoundingMode) → length ts ≡ terms → mode_numbered n ≡ Some m → asked (shown marks.now) (question ts u width n limbs) ≡ foretold result m (shown marks.now) (question ts u width n limbs) }
{
    if limbs < width.div_ceil(32) as usize {
        return Err(AskFault::TooFewLimbs);
    }
    match lowest_marked_from(marks, terms) {
        Some(place) => Err(AskFault::PlaceWithoutTerm(place as u32)),
        None => Ok(()),
    }
}
