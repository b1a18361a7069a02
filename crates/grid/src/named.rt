// Named grids: seven binary formats.
ghost use Rattle.grid.specs.Names.{format_number};
ghost use Rattle.grid.specs.Formats.{OfFormat, format_numbered};
ghost use Rattle.grid.specs.Faults.{name_refusal};
ghost use Rattle.std.specs.Result.{result_err};
ghost use Rattle.std.specs.Prelude.{◌≡◌, IfOk};
ghost use Rattle.grid.specs.contracts.floored.FlooredGridGrid.TheImpl.{ghosts as floored};

mod format;

use crate::fault::GridFault;
use crate::floored::FlooredGrid;
use crate::interface::Grid;
pub use format::Format;

// The grid of a format: the width of its numbers, and the weight of its last digit.
#[derive(Clone, Copy)]
struct Row {
    width: u32,
    floor: i32,
}

// The rows of the formats, in the order of their numbers.
const ROWS: [Row; 7] = [
    // binary16
    Row {
        width: 11,
        floor: -24,
    },
    // bfloat16
    Row {
        width: 8,
        floor: -133,
    },
    // binary32
    Row {
        width: 24,
        floor: -149,
    },
    // binary64
    Row {
        width: 53,
        floor: -1074,
    },
    // extended80
    Row {
        width: 64,
        floor: -16445,
    },
    // binary128
    Row {
        width: 113,
        floor: -16494,
    },
    // binary256
    Row {
        width: 237,
        floor: -262378,
    },
];

#[derive(Clone, Copy)]
pub struct NamedGrid {
    grid: FlooredGrid,
}

impl Grid for NamedGrid {
    ghost spacing = { λ g. floored.spacing g.grid };

    ghost widest = { λ g. floored.widest g.grid };

    ghost lawful = { λ g. floored.lawful g.grid };

    fn width(&self) -> u32 {
        self.grid.width()
    }

    fn spacing(&self, e: i32) -> i32 {
        self.grid.spacing(e)
    }
}

impl NamedGrid {
    ghost use Rattle.grid.specs.contracts.named.NamedGridGrid.TheImpl.{ghosts};

    // The grid of a format.
    pub fn of(format: Format) -> NamedGrid
        ensures { OfFormat (format_numbered (format_number format)) (ghosts.spacing result) (ghosts.widest result) }
    {
        let Row { width, floor } = ROWS[format as usize];
        // Each row has an allowed width and floor.
        let grid = FlooredGrid::new(width, floor).unwrap();
        NamedGrid { grid }
    }

    // The grid of a number that a caller hands in, as the published formats are numbered.
    pub fn new(name: u32) -> Result<NamedGrid, GridFault>
        ensures refuses { result_err result ≡ name_refusal name }
        ensures means { IfOk result (λ g. OfFormat (format_numbered name) (ghosts.spacing g) (ghosts.widest g)) }
    {
        Ok(NamedGrid::of(Format::try_from(name)?))
    }
}
