// Free grids: numbers of so many digits, at each exponent.
ghost use Rattle.grid.specs.Faults.{width_refusal};
ghost use Rattle.std.specs.Result.{result_err};
ghost use Rattle.std.specs.Prelude.{◌≡◌, IfOk};
ghost use Rattle.grid.specs.Spacing.{free};
ghost use Rattle.grid.specs.LawfulGrids.{AllowedWidth, free_lawful};

use crate::fault::GridFault;
use crate::interface::{Grid, nearest_end};

#[derive(Clone, Copy)]
pub struct FreeGrid {
    width: u32,
    ghost allowed: { AllowedWidth width },
}

impl Grid for FreeGrid {
    ghost spacing = { λ g. free g.width };

    ghost widest = { λ g. g.width };

    ghost lawful = { λ g. free_lawful g.width g.allowed };

    fn width(&self) -> u32 {
        self.width
    }

    fn spacing(&self, e: i32) -> i32 {
        nearest_end(e) - self.width as i32
    }
}

impl FreeGrid {
    ghost use Rattle.grid.specs.contracts.free.FreeGridGrid.TheImpl.{ghosts};

    pub fn new(width: u32) -> Result<FreeGrid, GridFault>
        ensures refuses { result_err result ≡ width_refusal width }
        ensures means { IfOk result (λ g. (ghosts.spacing g ≡ free width) × (ghosts.widest g ≡ width)) }
    {
        if !(1..=4096).contains(&width) {
            return Err(GridFault::WidthOutOfRange);
        }
        Ok(FreeGrid { width })
    }
}
