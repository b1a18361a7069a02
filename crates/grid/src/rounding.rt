// What a number is rounded by: a grid and a mode.
use crate::interface::Grid;
use crate::mode::Mode;

#[derive_where(Clone, Copy)]
pub struct Rounding<'g, G: Grid> {
    pub grid: &'g G,
    pub mode: Mode,
}
