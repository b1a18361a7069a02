// The two states of a sheet: open, to be marked, and set, to be asked.

ghost use Rattle.std.specs.Prelude.{◌≡◌, ℕ, true, List, [], ◌∷◌, ◌++◌, is_err};
ghost use Rattle.sheet.specs.declared.mark.Mark.TheVariants.{Out};
ghost use Rattle.sheet.specs.Laws.{Taken, Unmarked};
ghost use Rattle.sheet.specs.Model.{History, marking, undoing, setting, reopening, refusal_after, mark_after};
ghost use Rattle.sheet.specs.Numbers.{told};
ghost use Rattle.sheet.specs.Reached.{Reached, ReachedSet};
ghost use Rattle.sheet.specs.Shown.{shown};

use crate::fault::SheetFault;
use crate::mark::Mark;
use crate::marked::MarkedSheet;
use crate::marks::Marks;
use crate::place::Place;
use crate::trail::{Step, Trail};

// A sheet that is being marked. It cannot be asked: set it first.
#[derive(Drop)]
pub struct OpenSheet {
    marks: Marks,
    trail: Trail,
}

// A sheet whose marks stand. It cannot be marked: reopen it first.
#[derive(Drop)]
pub struct SetSheet {
    marks: Marks,
}

impl OpenSheet {
    // Lays a sheet: every place out, nothing to undo.
    pub fn new() -> OpenSheet
        ensures reached { Reached [] result }
        ensures blank { (p : ℕ) → shown result.marks p ≡ Out }
    {
        OpenSheet {
            marks: Marks::new(),
            trail: Trail::new(),
        }
    }

    // Gives a place a mark; both are any numbers that a caller hands in.
    pub fn mark(&mut self, place: u32, mark: u32) -> Result<(), SheetFault>
        ensures answers { (cs : History) → Reached cs self.old → told result ≡ refusal_after cs (marking place mark) }
        ensures reached { (cs : History) → Reached cs self.old → Reached (cs ++ marking place mark ∷ []) self.new }
        ensures refused { is_err result ≡ true → self.new ≡ self.old }
    {
        let target = Place::try_from(place)?;
        let given = Mark::try_from(mark)?;
        let before = self.mark_at(place);
        self.trail.push(Step {
            place: target,
            before,
        })?;
        self.marks.put(target, given);
        Ok(())
    }

    // Takes the latest marking back.
    pub fn undo(&mut self) -> Result<(), SheetFault>
        ensures answers { (cs : History) → Reached cs self.old → told result ≡ refusal_after cs undoing }
        ensures reached { (cs : History) → Reached cs self.old → Reached (cs ++ undoing ∷ []) self.new }
        ensures refused { is_err result ≡ true → self.new ≡ self.old }
        ensures takes_back { (cs : History) (p k : ℕ) → Taken cs (marking p k) → Reached (cs ++ marking p k ∷ []) self.old → (q : ℕ) → shown self.new.marks q ≡ mark_after cs q }
        ensures stops_at_setting { (cs later : History) (q : ℕ) → Unmarked q later → Reached (cs ++ setting ∷ later) self.old → shown self.new.marks q ≡ mark_after cs q }
    {
        let step = self.trail.pop()?;
        self.marks.put(step.place, step.before);
        Ok(())
    }

    // Sets the sheet: the marks stand, and nothing made before can be undone any more.
    pub fn set(self) -> SetSheet
        ensures reached { (cs : History) → Reached cs self → ReachedSet (cs ++ setting ∷ []) result }
        ensures same { result.marks ≡ self.marks }
    {
        let OpenSheet { marks, trail: _ } = self;
        SetSheet { marks }
    }
}

impl SetSheet {
    // All marks at once, which only a set sheet shows: what an ask reads.
    pub fn marks(&self) -> &Marks
        ensures same { result.now ≡ self.now.marks }
        ensures answers { (cs : History) (p : ℕ) → ReachedSet cs self.now → shown result.now p ≡ mark_after cs p }
    {
        &self.marks
    }

    // Opens the sheet again: the marks stay, and nothing can be undone yet.
    pub fn reopen(self) -> OpenSheet
        ensures reached { (cs : History) → ReachedSet cs self → Reached (cs ++ reopening ∷ []) result }
        ensures same { result.marks ≡ self.marks }
    {
        let SetSheet { marks } = self;
        OpenSheet {
            trail: Trail::new(),
            marks,
        }
    }
}

impl MarkedSheet for OpenSheet {
    ghost shown_at = { λ s. shown s.marks };

    ghost reached_by = { Reached };

    ghost marked_after = { λ cs. mark_after cs };

    fn mark_at(&self, place: u32) -> Mark {
        self.marks.at(place)
    }
}

impl MarkedSheet for SetSheet {
    ghost shown_at = { λ s. shown s.marks };

    ghost reached_by = { ReachedSet };

    ghost marked_after = { λ cs. mark_after cs };

    fn mark_at(&self, place: u32) -> Mark {
        self.marks().at(place)
    }
}
