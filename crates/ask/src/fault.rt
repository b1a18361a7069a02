// Why an ask is refused.
ghost use Rattle.std.specs.Prelude.{◌≡◌};
ghost use Rattle.ask.specs.Told.{fault_refusal};
ghost use Rattle.ask.specs.declared.fault.AskFault.TheVariants.{NoSuchMode};

use grid::NoSuchMode;

#[derive(Clone, Copy, PartialEq, Eq, Debug)]
pub enum AskFault {
    NoSuchMode,
    TooFewLimbs,
    // this place is marked, and the batch has no term for it
    PlaceWithoutTerm(u32),
}

impl From<NoSuchMode> for AskFault {
    ghost from_gives = { λ _ r. r ≡ NoSuchMode };

    fn from(_fault: NoSuchMode) -> AskFault {
        Self::NoSuchMode
    }
}

impl AskFault {
    // The published number of the refusal. Written out: a variant with a value has no number of its own.
    pub fn number(self) -> u32
        ensures { result ≡ (fault_refusal self).number }
    {
        match self {
            AskFault::NoSuchMode => 15,
            AskFault::TooFewLimbs => 16,
            AskFault::PlaceWithoutTerm(_) => 17,
        }
    }

    // The place that it blames, and 0 where it blames none.
    pub fn place(self) -> u32
        ensures { result ≡ (fault_refusal self).place }
    {
        match self {
            AskFault::NoSuchMode | AskFault::TooFewLimbs => 0,
            AskFault::PlaceWithoutTerm(place) => place,
        }
    }
}
