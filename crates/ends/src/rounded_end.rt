// What rounding an end tells beside the limbs of the answer.
use crate::direction::Direction;

// A fraction below 1 of `precision` bits, at the top of its limbs, times 2 ^ exponent.
#[derive(Clone, Copy, PartialEq, Eq, Debug)]
pub struct Extent {
    pub exponent: i32,
    pub precision: u32,
}

// An answer's sign, on which side of the number it lies, and the extent of its limbs: none for a zero, whose limbs are all 0.
#[derive(Clone, Copy, PartialEq, Eq, Debug)]
pub struct RoundedEnd {
    pub negative: bool,
    pub direction: Direction,
    pub extent: Option<Extent>,
}

// A rounded end, and the grid's spacing there: the exponent of a zero, which has no extent.
#[derive(Clone, Copy, PartialEq, Eq, Debug)]
pub struct PlacedEnd {
    pub rounded: RoundedEnd,
    pub spacing: i32,
}

impl PlacedEnd {
    ghost use Rattle.std.specs.Prelude.{◌≡◌};
    ghost use Rattle.ends.specs.Outcome.{exponent_told, precision_told};

    // The exponent of the answer: of a zero the spacing.
    pub fn exponent(&self) -> i32
        ensures { result ≡ exponent_told self.now }
    {
        self.rounded
            .extent
            .map_or(self.spacing, |extent| extent.exponent)
    }

    // How many bits the answer has: of a zero none.
    pub fn precision(&self) -> u32
        ensures { result ≡ precision_told self.now }
    {
        self.rounded.extent.map_or(0, |extent| extent.precision)
    }
}
