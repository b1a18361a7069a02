// Floored grids: numbers of so many digits, but with no digit below a floor.
ghost use Rattle.grid.specs.Faults.{floored_refusal};
ghost use Rattle.std.specs.Result.{result_err};
ghost use Rattle.std.specs.Prelude.{◌≡◌, IfOk};
ghost use Rattle.grid.specs.Spacing.{floored};
ghost use Rattle.grid.specs.LawfulGrids.{AllowedFloor, floored_lawful};

use crate::fault::GridFault;
use crate::free::FreeGrid;
use crate::interface::Grid;

#[derive(Clone, Copy)]
pub struct FlooredGrid {
    free: FreeGrid,
    floor: i32,
    ghost allowed: { AllowedFloor floor },
}

impl Grid for FlooredGrid {
    ghost spacing = { λ g. floored g.free.width g.floor };

    ghost widest = { λ g. g.free.width };

    ghost lawful = { λ g. floored_lawful g.free.width g.floor g.free.allowed g.allowed };

    fn width(&self) -> u32 {
        self.free.width()
    }

    fn spacing(&self, e: i32) -> i32 {
        self.free.spacing(e).max(self.floor)
    }
}

impl FlooredGrid {
    ghost use Rattle.grid.specs.contracts.floored.FlooredGridGrid.TheImpl.{ghosts};

    pub fn new(width: u32, floor: i32) -> Result<FlooredGrid, GridFault>
        ensures refuses { result_err result ≡ floored_refusal width floor }
        ensures means { IfOk result (λ g. (ghosts.spacing g ≡ floored width floor) × (ghosts.widest g ≡ width)) }
    {
        let free = FreeGrid::new(width)?;
        if !(-1_000_000_000..=1_000_000_000).contains(&floor) {
            return Err(GridFault::FloorOutOfRange);
        }
        Ok(FlooredGrid { free, floor })
    }
}
