// On which side of the number that was rounded the answer lies.

ghost use Rattle.std.specs.Prelude.{◌≡◌, Some};
ghost use Rattle.ends.specs.Directions.{direction_sign, direction_words};

use std::fmt;

// Each has its published number: the sign of the answer minus what was rounded.
#[derive(Clone, Copy, PartialEq, Eq, Debug)]
pub enum Direction {
    Below = -1,
    Exact = 0,
    Above = 1,
}

impl Direction {
    // The published number of the direction.
    pub fn number(self) -> i32
        ensures { result ≡ direction_sign self }
    {
        self as i32
    }
}

impl fmt::Display for Direction {
    ghost output = { λ d. Some (direction_words d) };

    fn fmt<W: fmt::Write>(&self, f: &mut fmt::Formatter<W>) -> fmt::Result {
        f.write_str(match self {
            Direction::Below => "below the sum",
            Direction::Exact => "exact",
            Direction::Above => "above the sum",
        })
    }
}
