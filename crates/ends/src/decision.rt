// Whether the bits that are kept of a number are raised by one, and on which side the answer lies then.
ghost use Rattle.std.specs.Prelude.{◌≡◌, ◌<◌};
ghost use Rattle.exact.specs.Limbs.{limbs_value};
ghost use Rattle.grid.specs.Rounding.{way_of};
ghost use Rattle.grid.specs.Modes.{mode_of};
ghost use Rattle.ends.specs.Directions.{toward};
ghost use Rattle.ends.specs.Ends.{raised, raises, left_out};

use crate::direction::Direction;
use crate::end::End;
use grid::Mode;
use limbs::{any_below, bit_at};

// Is a quotient raised by one: from its sign, its last bit, the bit below it, and whether anything else is below.
fn is_raised(mode: Mode, negative: bool, odd: bool, half: bool, rest: bool) -> bool
    ensures { result ≡ raised (way_of (mode_of mode) negative) odd half rest }
{
    match mode {
        Mode::Nearest => half && (rest || odd),
        Mode::Downward => negative && (half || rest),
        Mode::Upward => !negative && (half || rest),
        Mode::TowardZero => false,
        Mode::AwayFromZero => half || rest,
    }
}

// Are the bits that are kept raised by one, and was anything left out below them?
// Two flags: the writing asks for one, the direction for the other.
#[derive(Clone, Copy)]
pub struct Decision {
    pub raise: bool,
    pub inexact: bool,
}

impl Decision {
    // The side on which the answer lies.
    pub fn direction(self, negative: bool) -> Direction
        ensures { result ≡ toward negative self.raise self.inexact }
    {
        if !self.inexact {
            Direction::Exact
        } else if negative == self.raise {
            Direction::Below
        } else {
            Direction::Above
        }
    }
}

// What is decided where the bits of an end's magnitude up to the bit `at` are left out.
pub fn decide(end: End, at: usize, mode: Mode) -> Decision
    requires { at < 4294967296 }
    ensures raise { result.raise ≡ raises (mode_of mode) end.entry.negative end.entry.partial (limbs_value end.entry.whole.now) at }
    ensures inexact { result.inexact ≡ left_out end.entry.partial (limbs_value end.entry.whole.now) at }
{
    let half = bit_at(end.whole, at);
    let rest = any_below(end.whole, at) || end.partial;
    let raise = is_raised(mode, end.negative, bit_at(end.whole, at + 1), half, rest);
    Decision {
        raise,
        inexact: half || rest,
    }
}
