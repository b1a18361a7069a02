// The number of a place that a sheet has.

ghost use Rattle.std.specs.Prelude.{◌≡◌, ◌<◌, MatchResult};
ghost use Rattle.sheet.specs.declared.fault.SheetFault.TheVariants.{NoSuchPlace};

use crate::fault::SheetFault;

pub const LAST_PLACE: u32 = 1023;

#[derive(Clone, Copy)]
pub struct Place {
    index: usize,
    ghost on_sheet: { index < 1024 },
}

impl Place {
    pub const FIRST: Place = Place { index: 0 };

    pub fn index(self) -> usize
        ensures value { result ≡ self.index }
        ensures on_sheet { result < 1024 }
    {
        self.index
    }
}

// The place that a caller's number names.
impl TryFrom<u32> for Place {
    type Error = SheetFault;

    ghost try_from_gives = { λ number r. MatchResult r (λ p. p.index ≡ number) (λ f. (f ≡ NoSuchPlace) × (1023 < number)) };

    fn try_from(number: u32) -> Result<Place, SheetFault> {
        if number > LAST_PLACE {
            return Err(SheetFault::NoSuchPlace);
        }
        Ok(Place {
            index: number as usize,
        })
    }
}
