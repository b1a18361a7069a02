// An end of a partial sum, found from the window without a look at the window's totals.
ghost use Rattle.std.specs.Prelude.{◌≡◌, ℕ, ◌^◌, ◌≤◌, ℤ, unsigned_abs};
ghost use Rattle.partial_sum.specs.Lying.{Placed};

// A unit of a column in units of the next.
pub(crate) const UNIT: i64 = 0x1_0000_0000;

// An end lies `offset` units of the window's lowest column above the window's number, or, where it is partial, strictly between that and the next unit.
#[derive(Clone, Copy, PartialEq, Eq, Debug)]
pub struct WindowEnd {
    pub offset: i64,
    pub partial: bool,
}

// So many units of a column, in units of the column above it. For the ends of a partial sum, whose rest is within 2^43.
// A bound on the units stands at each function that takes them: they are a number that is passed on, and no type keeps it.
pub fn one_column_up(units: i64) -> WindowEnd
    requires { unsigned_abs units ≤ 2 ^ 44 }
    ensures placed { Placed result.partial 32 units result.offset }
    ensures small { unsigned_abs result.offset ≤ 2 ^ 44 }
{
    let offset = units.div_euclid(UNIT);
    if offset * UNIT == units {
        return WindowEnd {
            offset,
            partial: false,
        };
    }
    WindowEnd {
        offset,
        partial: true,
    }
}

// So many units of a column, in units of a column two or more above it. They are less than one. For the same ends.
pub fn far_up(units: i64) -> WindowEnd
    requires { unsigned_abs units ≤ 2 ^ 44 }
    ensures placed { (k : ℕ) → 64 ≤ k → Placed result.partial k units result.offset }
    ensures small { unsigned_abs result.offset ≤ 2 ^ 44 }
{
    if units == 0 {
        return WindowEnd {
            offset: 0,
            partial: false,
        };
    }
    WindowEnd {
        offset: if units < 0 { -1 } else { 0 },
        partial: true,
    }
}
