// What a place of a sheet says of its term.

ghost use Rattle.std.specs.Prelude.{◌≡◌, ◌<◌, ◌≤◌, Some, MatchResult};
ghost use Rattle.sheet.specs.declared.fault.SheetFault.TheVariants.{NoSuchMark};
ghost use Rattle.sheet.specs.Numbers.{mark_numbered, mark_number, mark_word};

use crate::fault::SheetFault;
use std::fmt;

// Each mark has its published number.
#[derive(Clone, Copy, PartialEq, Eq, Hash, Debug)]
pub enum Mark {
    // the term does not count
    Out = 0,
    // the term counts
    In = 1,
    // the term counts with the other sign
    Turned = 2,
}

impl Mark {
    // The published number of the mark.
    pub fn number(self) -> u32
        ensures { result ≡ mark_number self }
    {
        self as u32
    }
}

// The mark that a caller's number names.
impl TryFrom<u32> for Mark {
    type Error = SheetFault;

    ghost try_from_gives = { λ number r. MatchResult r (λ m. (m ≡ mark_numbered number) × (number ≤ 2)) (λ f. (f ≡ NoSuchMark) × (2 < number)) };

    fn try_from(number: u32) -> Result<Mark, SheetFault> {
        match number {
            0 => Ok(Mark::Out),
            1 => Ok(Mark::In),
            2 => Ok(Mark::Turned),
            _ => Err(SheetFault::NoSuchMark),
        }
    }
}

impl fmt::Display for Mark {
    ghost output = { λ m. Some (mark_word m) };

    fn fmt<W: fmt::Write>(&self, f: &mut fmt::Formatter<W>) -> fmt::Result {
        f.write_str(match self {
            Mark::Out => "out",
            Mark::In => "in",
            Mark::Turned => "turned",
        })
    }
}
