// The five modes of rounding, and their numbers.
ghost use Rattle.std.specs.Prelude.{◌≡◌};
ghost use Rattle.std.specs.Option.{option_map};
ghost use Rattle.std.specs.Result.{result_ok};
ghost use Rattle.grid.specs.Rounding.{mode_numbered};
ghost use Rattle.grid.specs.Modes.{mode_of};

#[derive(Clone, Copy, PartialEq, Eq, Debug)]
pub enum Mode {
    Nearest = 0,
    Downward = 1,
    Upward = 2,
    TowardZero = 3,
    AwayFromZero = 4,
}

// A number that no mode has.
#[derive(Clone, Copy, PartialEq, Eq, Debug)]
pub struct NoSuchMode;

impl TryFrom<u32> for Mode {
    type Error = NoSuchMode;

    ghost try_from_gives = { λ number r. option_map mode_of (result_ok r) ≡ mode_numbered number };

    fn try_from(number: u32) -> Result<Mode, NoSuchMode> {
        match number {
            0 => Ok(Mode::Nearest),
            1 => Ok(Mode::Downward),
            2 => Ok(Mode::Upward),
            3 => Ok(Mode::TowardZero),
            4 => Ok(Mode::AwayFromZero),
            _ => Err(NoSuchMode),
        }
    }
}
