// Terms sorted by where their columns begin or end, as far as a walk down the columns asks for it.
ghost use Rattle.std.specs.Prelude.{◌≡◌, ◌≤◌, length, ℤ, pos, ◌≤ℤ◌, ◌<ℤ◌};
ghost use Rattle.std.specs.List.{All, AllWithin};
ghost use Rattle.std.specs.List.Sorted.{IsPermutation};
ghost use Rattle.column.specs.Edges.{From, Below, SameOutside};
ghost use Rattle.column.specs.Zones.{Zoned};

use crate::term::{CountedTerm, Edge};

// A walk down the columns has a run of them before it: the terms before the place `ended` end above it, and those from `begun` on begin below it, the first
// of them no higher than `next_first`.
#[derive(Clone, Copy)]
pub struct Zones {
    pub ended: usize,
    pub begun: usize,
    pub next_first: i32,
}

// Where the terms begin that stayed behind, and the highest edge of those.
#[derive(Clone, Copy)]
pub struct Parted {
    pub at: usize,
    pub highest: i32,
}

// Of the terms between two places, brings those whose edge does not lie below a column before the others.
// The places are those of the list whose parts the caller keeps: a slice of it would forget the rest.
pub fn bring_forward(
    terms: &mut [CountedTerm],
    from: usize,
    to: usize,
    edge: Edge,
    column: i32,
) -> Parted
    requires order { from ≤ to }
    requires within { to ≤ length terms.old }
    ensures permuted { IsPermutation terms.old terms.new }
    ensures outside { SameOutside terms.old terms.new from to }
    ensures after { from ≤ result.at }
    ensures before { result.at ≤ to }
    ensures forward { AllWithin (From edge column) terms.new from result.at }
    ensures behind { AllWithin (Below edge column result.highest) terms.new result.at to }
{
    let mut parted = Parted {
        at: from,
        highest: i32::MIN,
    };
    for place in from..to {
        let here = terms[place].edge(edge);
        if here >= column {
            terms.swap(parted.at, place);
            parted.at += 1;
        } else {
            parted.highest = parted.highest.max(here);
        }
    }
    parted
}

// A column at or above the last of each term.
pub fn highest_last(terms: &[CountedTerm]) -> i32
    ensures { All (λ c. c.last ≤ℤ result) terms.now }
{
    let mut highest = i32::MIN;
    for term in terms {
        highest = highest.max(term.last);
    }
    highest
}

// Goes down to the run of columns from `top` to `bottom`. The terms that wait are looked at only where one of them may reach it.
pub fn go_down(terms: &mut [CountedTerm], zones: Zones, top: i32, bottom: i32) -> Zones
    requires down { (from last : ℤ) × Zoned terms.old zones from last × (top <ℤ from) }
    requires below_all { top <ℤ pos 2147483647 }
    ensures permuted { IsPermutation terms.old terms.new }
    ensures zoned { Zoned terms.new result top bottom }
{
    let ended = bring_forward(terms, zones.ended, zones.begun, Edge::Last, top + 1).at;
    if zones.next_first < bottom {
        return Zones { ended, ..zones };
    }
    let count = terms.len();
    let begun = bring_forward(terms, zones.begun, count, Edge::First, bottom);
    Zones {
        ended,
        begun: begun.at,
        next_first: begun.highest,
    }
}
