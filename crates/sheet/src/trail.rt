// The undo trail of an open sheet: the latest markings, at most 256, each with what it replaced.
ghost use Rattle.std.specs.Prelude.{◌≡◌, ◌<◌, List, [], ◌∷◌, length, MatchResult};

use crate::fault::SheetFault;
use crate::mark::Mark;
use crate::place::Place;
use arrayvec::ArrayVec;

pub const LONGEST_TRAIL: usize = 256;

// What undoes one marking: the place, and the mark that it had before.
#[derive(Clone, Copy)]
pub struct Step {
    pub place: Place,
    pub before: Mark,
}

// What a slot of a trail holds that is not used. By hand: a place has a ghost field, and no Default is derived over one.
impl Default for Step {
    fn default() -> Step {
        Step {
            place: Place::FIRST,
            before: Mark::Out,
        }
    }
}

#[derive(Drop)]
pub struct Trail {
    steps: ArrayVec<Step, LONGEST_TRAIL>,
}

impl Trail {
    ghost use Rattle.sheet.specs.Undo.{undoes};

    pub fn new() -> Trail
        ensures { undoes result ≡ [] }
    {
        Trail {
            steps: ArrayVec::new(),
        }
    }

    pub fn push(&mut self, step: Step) -> Result<(), SheetFault>
        ensures { MatchResult result
            (λ _. (undoes self.new ≡ step ∷ undoes self.old) × (length (undoes self.old) < 256))
            (λ f. (f ≡ SheetFault.TrailFull) × (length (undoes self.old) ≡ 256) × (self.new ≡ self.old)) }
    {
        self.steps.try_push(step).map_err(|_| SheetFault::TrailFull)
    }

    pub fn pop(&mut self) -> Result<Step, SheetFault>
        ensures { MatchResult result
            (λ s. undoes self.old ≡ s ∷ undoes self.new)
            (λ f. (f ≡ SheetFault.TrailEmpty) × (undoes self.old ≡ []) × (self.new ≡ self.old)) }
    {
        self.steps.pop().ok_or(SheetFault::TrailEmpty)
    }
}
