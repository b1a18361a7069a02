// The interface of a grid: the spacing of its numbers at each exponent, and how many digits they have at most.
ghost use Rattle.std.specs.Prelude.{◌≡◌, ℕ, ℤ};
ghost use Rattle.grid.specs.Spacing.{Lawful, nearest_end};

pub trait Grid {
    ghost spacing: { Self → ℤ → ℤ };

    ghost widest: { Self → ℕ };

    ghost lawful: { (g : Self) → Lawful (spacing g) (widest g) };

    // How many digits a number of the grid has at most.
    fn width(&self) -> u32
        ensures { result ≡ widest self.now };

    // The weight of the last digit of the numbers of exponent e.
    fn spacing(&self, e: i32) -> i32
        ensures { result ≡ spacing self.now e };
}

// The exponents in question.
pub const LOWEST: i32 = -2_000_000_000;

pub const HIGHEST: i32 = 2_000_000_000;

// The exponent itself if it is in question, and else the nearer end.
pub fn nearest_end(e: i32) -> i32
    ensures { result ≡ nearest_end e }
{
    e.clamp(LOWEST, HIGHEST)
}
