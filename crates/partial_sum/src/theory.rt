// How a partial sum of the columns of a list of parts is that list's sum as far as its column.
ghost use Rattle.partial_sum.specs.Joints.{EndsAreEnds, ColumnsReached, SumsAbsorbed};

// The ends of a partial sum are the ends of the parts, where it holds their sum; and what the next occupied column and the next total say of it.
pub fn ends_stand()
    ensures ends { EndsAreEnds }
    ensures reached { ColumnsReached }
    ensures absorbed { SumsAbsorbed }
{}
