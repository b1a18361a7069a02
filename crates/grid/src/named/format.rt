// The formats that have a name, and their numbers.
ghost use Rattle.std.specs.Prelude.{◌≡◌, IfOk};
ghost use Rattle.std.specs.Result.{result_err};
ghost use Rattle.grid.specs.Faults.{name_refusal};
ghost use Rattle.grid.specs.Names.{format_number};

use crate::fault::GridFault;

#[derive(Clone, Copy, PartialEq, Eq, Debug)]
pub enum Format {
    Binary16 = 0,
    Bfloat16 = 1,
    Binary32 = 2,
    Binary64 = 3,
    Extended80 = 4,
    Binary128 = 5,
    Binary256 = 6,
}

impl TryFrom<u32> for Format {
    type Error = GridFault;

    ghost try_from_gives = { λ name r. (result_err r ≡ name_refusal name) × IfOk r (λ f. format_number f ≡ name) };

    fn try_from(name: u32) -> Result<Format, GridFault> {
        match name {
            0 => Ok(Format::Binary16),
            1 => Ok(Format::Bfloat16),
            2 => Ok(Format::Binary32),
            3 => Ok(Format::Binary64),
            4 => Ok(Format::Extended80),
            5 => Ok(Format::Binary128),
            6 => Ok(Format::Binary256),
            _ => Err(GridFault::NoSuchName),
        }
    }
}
