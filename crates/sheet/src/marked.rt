// What can be done with a sheet in any state: its marks are read, place by place.

ghost use Rattle.std.specs.Prelude.{◌≡◌, ℕ};
ghost use Rattle.sheet.specs.declared.mark.Mark.{Mark as MarkOf};
ghost use Rattle.sheet.specs.Model.{History};

use crate::mark::Mark;

pub trait MarkedSheet {
    // the mark that a place shows
    ghost shown_at: { Self → ℕ → MarkOf };

    // when a history leads to the sheet
    ghost reached_by: { History → Self → Type 0 };

    // the mark of a place after a history
    ghost marked_after: { History → ℕ → MarkOf };

    // The mark of a place; out for a number past the last place.
    fn mark_at(&self, place: u32) -> Mark
        ensures shows { result ≡ shown_at self.now place }
        ensures answers { (cs : History) → reached_by cs self.now → result ≡ marked_after cs place };
}
