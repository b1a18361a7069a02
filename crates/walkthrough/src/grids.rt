// Some grids: their widest width, their spacing at some exponents, and numbers that make no grid.

use crate::lines;
use grid::{FlooredGrid, Format, FreeGrid, Grid, GridFault, NamedGrid, precision_at};
use std::io;

const EXPONENTS: [i32; 5] = [-2_147_483_648, -1074, -20, 0, 1024];

// Prints the weight of the last digit, and the number of digits, at some exponents.
fn describe<G: Grid>(rt: &impl Print, name: &str, grid: &G) -> io::Result<()> {
    println!(rt; "  {name}: width {}", grid.width())?;
    for e in EXPONENTS {
        let spacing = grid.spacing(e);
        let digits = precision_at(grid, e);
        println!(rt; "    exponent {e}: last digit 2^{spacing}, {digits} digits")?;
    }
    Ok(())
}

// Prints a grid, or why there is none.
fn show<G: Grid + Drop>(rt: &impl Print, name: &str, made: Result<G, GridFault>) -> io::Result<()> {
    match made {
        Ok(grid) => describe(rt, name, &grid),
        Err(fault) => lines::refused_grid(rt, name, fault),
    }
}

fn good_grids(rt: &impl Print) -> io::Result<()> {
    show(rt, "free, 24 digits", FreeGrid::new(24))?;
    show(
        rt,
        "floored, 3 digits down to 2^-4",
        FlooredGrid::new(3, -4),
    )?;
    describe(rt, "binary64", &NamedGrid::of(Format::Binary64))
}

fn refused_grids(rt: &impl Print) -> io::Result<()> {
    show(rt, "free, 0 digits", FreeGrid::new(0))?;
    show(rt, "free, 4097 digits", FreeGrid::new(4097))?;
    show(
        rt,
        "floored, 0 digits down to 2^2000000000",
        FlooredGrid::new(0, 2_000_000_000),
    )?;
    show(
        rt,
        "floored, 53 digits down to 2^-1000000001",
        FlooredGrid::new(53, -1_000_000_001),
    )?;
    show(rt, "name 7", NamedGrid::new(7))
}

pub fn walk(rt: &impl Print) -> io::Result<()> {
    println!(rt; "grids")?;
    good_grids(rt)?;
    refused_grids(rt)
}
