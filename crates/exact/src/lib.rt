// Theory of the exact numbers n * 2^w: the contract of each function states laws that are proved once, here.
#![tactic(auto)]

ghost use Rattle.exact.specs.Claims.{OrderReflexive, OrderTransitive, OrderAntisymmetric, OrderTotal, OrderStrict};
ghost use Rattle.exact.specs.Claims.{Equivalence, EqualBothWays};
ghost use Rattle.exact.specs.Claims.{SumCommutative, SumAssociative, SumMonotone, SumInverse};
ghost use Rattle.exact.specs.Claims.{ExponentReached, ExponentAbove, ExponentOfEquals, LimbsBounded, Computes};

// The numbers are in a total order, up to equality.
pub fn order_stands()
    ensures reflexive { OrderReflexive }
    ensures transitive { OrderTransitive }
    ensures antisymmetric { OrderAntisymmetric }
    ensures total { OrderTotal }
    ensures strict { OrderStrict }
    ensures equivalence { Equivalence }
    ensures equals { EqualBothWays }
{}

// Sums are commutative, associative and monotone, and a number has its negation.
pub fn sums_stand()
    ensures commutative { SumCommutative }
    ensures associative { SumAssociative }
    ensures monotone { SumMonotone }
    ensures inverse { SumInverse }
{}

// The exponent says between which powers of two a number lies, however it is written.
pub fn exponents_stand()
    ensures reached { ExponentReached }
    ensures above { ExponentAbove }
    ensures equals { ExponentOfEquals }
    ensures computes { Computes }
{}

// Limbs of 32 bits stand for a number of at most as many bits as they have.
pub fn limbs_stand()
    ensures bounded { LimbsBounded }
{}
