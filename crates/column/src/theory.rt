// The laws of columns, ends and depths, and worked examples of depths.
ghost use Rattle.column.specs.Claims.{ColumnsListed, SumStarts, SumGoesOn, TotalsBounded, EndsNested, EndsMeet, SumEnclosed, AlwaysInRange};
ghost use Rattle.column.specs.Claims.{SumSettled, DepthExists, DepthOfNone, AnswerRight};
ghost use Rattle.column.specs.Claims.{AlikeStays, NextListed, WalkStarts, WalkGoesOn, WalkEnds};
ghost use Rattle.column.specs.Examples.{ExamplesHold};

// The sum as far as a column, and the ends around the exact sum.
pub fn columns_stand()
    ensures listed { ColumnsListed }
    ensures starts { SumStarts }
    ensures goes_on { SumGoesOn }
    ensures totals { TotalsBounded }
    ensures nested { EndsNested }
    ensures meet { EndsMeet }
    ensures enclosed { SumEnclosed }
    ensures in_range { AlwaysInRange }
{}

// The depth, and what the sum rounds to there.
pub fn depths_stand()
    ensures settled { SumSettled }
    ensures exists { DepthExists }
    ensures none { DepthOfNone }
    ensures answer { AnswerRight }
    ensures examples { ExamplesHold }
{}

// The walk from the first column down to the depth.
pub fn walk_stands()
    ensures stays { AlikeStays }
    ensures next { NextListed }
    ensures starts { WalkStarts }
    ensures goes_on { WalkGoesOn }
    ensures ends { WalkEnds }
{}
