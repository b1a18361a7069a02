// The precision of a grid at an exponent, with the theorems of rounding to that grid.
ghost use Rattle.std.specs.Prelude.{◌≡◌, ◌≤◌};
ghost use Rattle.exact.specs.Integers.{gap};
ghost use Rattle.grid.specs.Spacing.{nearest_end};
ghost use Rattle.grid.specs.Claims.{Neighbours, Right, Distance, Monotone, Between, Apart, Exact, Enclosure, Direction, Sign, Congruent, Digits};

use crate::interface::{Grid, nearest_end};

// How many digits there are from the weight `last` up to the exponent `top`.
fn digits_from(last: i32, top: i32) -> u32
    ensures { result ≡ gap top last }
{
    if last < top { top.abs_diff(last) } else { 0 }
}

// How many digits the numbers of exponent e have on the grid: none where the spacing is not below e.
pub fn precision_at<G: Grid>(g: &G, e: i32) -> u32
    ensures precision { result ≡ gap (nearest_end e) (G.spacing g.now e) }
    ensures within { result ≤ G.widest g.now }
    ensures neighbours { Neighbours (G.spacing g.now) }
    ensures right { Right (G.spacing g.now) }
    ensures distance { Distance (G.spacing g.now) }
    ensures monotone { Monotone (G.spacing g.now) }
    ensures between { Between (G.spacing g.now) }
    ensures apart { Apart (G.spacing g.now) }
    ensures exact { Exact (G.spacing g.now) }
    ensures enclosure { Enclosure (G.spacing g.now) }
    ensures direction { Direction (G.spacing g.now) }
    ensures sign { Sign (G.spacing g.now) }
    ensures congruent { Congruent (G.spacing g.now) }
    ensures digits { Digits (G.spacing g.now) (G.widest g.now) }
{
    digits_from(g.spacing(e), nearest_end(e))
}
