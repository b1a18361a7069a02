// The grids that a line asks for: by a width, with a floor or free, and by a name.
ghost use Rattle.std.specs.Prelude.{◌≡◌, position};
ghost use Rattle.std.specs.Str.{bytes_eq};
ghost use Rattle.std.specs.Option.{option_map};
ghost use Rattle.grid.specs.Names.{format_number};
ghost use Rattle.any_grid.specs.Asked.{told, names, grid_of_width, grid_of_name};

use crate::any::AnyGrid;
use grid::{FlooredGrid, Format, FreeGrid, GridFault, NamedGrid};

// The grid of so many digits, free without a floor.
pub fn of_width(width: u64, floor: Option<i64>) -> Result<AnyGrid, GridFault>
    ensures { told result ≡ grid_of_width width floor }
{
    // What does not fit is out of range, and so is what it becomes here.
    let width = width.min(u32::MAX as u64) as u32;
    match floor {
        None => Ok(FreeGrid::new(width)?.into()),
        Some(floor) => {
            let floor = floor.clamp(i32::MIN as i64, i32::MAX as i64) as i32;
            Ok(FlooredGrid::new(width, floor)?.into())
        }
    }
}

// The format of this name.
fn format_named(name: &[u8]) -> Option<Format>
    ensures { option_map format_number result ≡ position (λ format. bytes_eq format name.now) names }
{
    match name {
        b"binary16" => Some(Format::Binary16),
        b"bfloat16" => Some(Format::Bfloat16),
        b"binary32" => Some(Format::Binary32),
        b"binary64" => Some(Format::Binary64),
        b"extended80" => Some(Format::Extended80),
        b"binary128" => Some(Format::Binary128),
        b"binary256" => Some(Format::Binary256),
        _ => None,
    }
}

// The grid of the format of this name.
pub fn of_name(name: &[u8]) -> Result<AnyGrid, GridFault>
    ensures { told result ≡ grid_of_name name.now }
{
    let format = format_named(name).ok_or(GridFault::NoSuchName)?;
    Ok(NamedGrid::of(format).into())
}
