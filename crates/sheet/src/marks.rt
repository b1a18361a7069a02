// The marks of the 1,024 places of a sheet.

ghost use Rattle.std.specs.Prelude.{◌≡◌, ℕ, length, ◌+◌, ◌-◌, slice_index_or, if◌then◌else◌, nat_eq};
ghost use Rattle.sheet.specs.declared.mark.Mark.TheVariants.{Out};

use crate::mark::Mark;
use crate::place::Place;

#[derive(Drop)]
pub struct Marks {
    // Always 1,024: an array has no length beside it.
    places: [Mark; 1024],
}

impl Marks {
    ghost use Rattle.sheet.specs.Shown.{shown};

    pub(crate) fn new() -> Marks
        ensures { (p : ℕ) → shown result p ≡ Out }
    {
        Marks {
            places: [Mark::Out; 1024],
        }
    }

    // The mark of a place; out for a number past the last place.
    pub fn at(&self, place: u32) -> Mark
        ensures { result ≡ shown self.now place }
    {
        self.places
            .get(place as usize)
            .copied()
            .unwrap_or(Mark::Out)
    }

    // The marks of all places from this one on; none where it lies past the last place.
    pub fn from(&self, place: usize) -> &[Mark]
        ensures all { length result.now ≡ 1024 - place }
        ensures in_order { (p : ℕ) → slice_index_or result.now p Out ≡ shown self.now (place + p) }
    {
        &self.places[place.min(self.places.len())..]
    }

    pub(crate) fn put(&mut self, place: Place, mark: Mark)
        ensures { (p : ℕ) → shown self.new p ≡ (if nat_eq place.index p then mark else shown self.old p) }
    {
        self.places[place.index()] = mark;
    }
}
