// The theorems of rounding, of each grid that keeps the laws, and worked examples of it.
ghost use Rattle.grid.specs.Claims.{OnEachGrid, Neighbours, Right, Distance, Monotone, Between, Apart, Exact, Enclosure, Direction, Sign, Congruent, DigitsOnEachGrid};
ghost use Rattle.grid.specs.Examples.{ExamplesHold};

pub fn rounding_stands()
    ensures neighbours { OnEachGrid Neighbours }
    ensures right { OnEachGrid Right }
    ensures distance { OnEachGrid Distance }
    ensures monotone { OnEachGrid Monotone }
    ensures between { OnEachGrid Between }
    ensures apart { OnEachGrid Apart }
    ensures exact { OnEachGrid Exact }
    ensures enclosure { OnEachGrid Enclosure }
    ensures direction { OnEachGrid Direction }
    ensures sign { OnEachGrid Sign }
    ensures congruent { OnEachGrid Congruent }
    ensures digits { DigitsOnEachGrid }
    ensures examples { ExamplesHold }
{}
