// A partial sum: what the columns from the highest down to one column sum to.
ghost use Rattle.std.specs.Prelude.{◌≡◌, ◌<◌, length};
ghost use Rattle.partial_sum.specs.Limits.{Sound};

pub mod absorbing;
pub mod both_ends;
pub mod rounding;

// The window is `totals` from the slot `from` on, the least significant total first, the lowest of them at the column `lowest`. Below the
// window there is one more total, `rest`, at the column `column`. As long as the window has room it reaches down to that column.
// The window grows downward in an array, since memory is fixed; the slots below it hold zeros, so that a gap takes no work.
#[derive(Drop)]
pub struct PartialSum {
    totals: [i64; 130],
    from: usize,
    lowest: i32,
    column: i32,
    rest: i64,
    ghost whole: { length totals ≡ 130 },
    ghost used: { from < 130 },
    ghost sound: { Sound (record { totals = totals; from = from; lowest = lowest; column = column; rest = rest }) },
}
