// One type over the free, floored and named grids.
ghost use Rattle.std.specs.Prelude.{◌≡◌};
ghost use Rattle.any_grid.specs.AnyGrids.{spacing_of, widest_of, lawful_of};
ghost use Rattle.any_grid.specs.declared.any.AnyGrid.TheVariants.{Free, Floored, Named};

use grid::{FlooredGrid, FreeGrid, Grid, NamedGrid};

#[derive(Clone, Copy)]
pub enum AnyGrid {
    Free(FreeGrid),
    Floored(FlooredGrid),
    Named(NamedGrid),
}

impl Grid for AnyGrid {
    ghost spacing = { spacing_of };

    ghost widest = { widest_of };

    ghost lawful = { lawful_of };

    fn width(&self) -> u32 {
        match self {
            AnyGrid::Free(grid) => grid.width(),
            AnyGrid::Floored(grid) => grid.width(),
            AnyGrid::Named(grid) => grid.width(),
        }
    }

    fn spacing(&self, e: i32) -> i32 {
        match self {
            AnyGrid::Free(grid) => grid.spacing(e),
            AnyGrid::Floored(grid) => grid.spacing(e),
            AnyGrid::Named(grid) => grid.spacing(e),
        }
    }
}

impl From<FreeGrid> for AnyGrid {
    ghost from_gives = { λ grid any. any ≡ Free grid };

    fn from(grid: FreeGrid) -> AnyGrid {
        AnyGrid::Free(grid)
    }
}

impl From<FlooredGrid> for AnyGrid {
    ghost from_gives = { λ grid any. any ≡ Floored grid };

    fn from(grid: FlooredGrid) -> AnyGrid {
        AnyGrid::Floored(grid)
    }
}

impl From<NamedGrid> for AnyGrid {
    ghost from_gives = { λ grid any. any ≡ Named grid };

    fn from(grid: NamedGrid) -> AnyGrid {
        AnyGrid::Named(grid)
    }
}
