// A set sheet on which the first terms are all in.
#![tactic(auto)]

ghost use Rattle.std.specs.Prelude.{◌≡◌, ℕ, ◌+◌, ◌%◌, ◌<◌, MatchResult};
ghost use Rattle.sheet.specs.declared.fault.SheetFault.TheVariants.{NoSuchPlace};
ghost use Rattle.sheet.specs.Shown.{shown};
ghost use Rattle.whole_sheet.specs.FirstPlaces.{first_in, InFirst};

use sheet::fault::SheetFault;
use sheet::mark::Mark;
use sheet::sheet::{OpenSheet, SetSheet};

// As many markings as a sheet's trail holds.
const TRAIL: u32 = 256;

// Empties the trail before each place at which it is full, by setting and reopening the sheet.
fn with_room(sheet: OpenSheet, place: u32) -> OpenSheet
    ensures { (n h : ℕ) → InFirst n h sheet → (0 < place % 256 → h ≡ place % 256) → InFirst n (place % 256) result }
{
    if place % TRAIL == 0 {
        sheet.set().reopen()
    } else {
        sheet
    }
}

// Marks the next place in, on a sheet whose trail has room.
fn mark_next(sheet: &mut OpenSheet, place: u32) -> Result<(), SheetFault>
    ensures { (h : ℕ) → h < 256 → InFirst place h sheet.old → MatchResult result (λ _. InFirst (place + 1) (h + 1) sheet.new) (λ f. (f ≡ NoSuchPlace) × (1023 < place)) }
{
    sheet.mark(place, Mark::In as u32)
}

// Marks the first `count` places in; refused only where there are not so many.
pub fn first_in(count: u32) -> Result<SetSheet, SheetFault>
    ensures { MatchResult result (λ s. (p : ℕ) → shown s.marks p ≡ first_in count p) (λ f. (f ≡ NoSuchPlace) × (1024 < count)) }
{
    let mut sheet = OpenSheet::new();
    for place in 0..count {
        sheet = with_room(sheet, place);
        mark_next(&mut sheet, place)?;
    }
    Ok(sheet.set())
}
