// The kinds of the terms that count.
ghost use Rattle.std.specs.Prelude.{◌≡◌, Bool, true, if◌then◌else◌, nat_eq};
ghost use Rattle.batch.specs.TermKinds.{kind_number};
ghost use Rattle.batch.specs.declared.kind.Kind.{Kind as KindOf};
ghost use Rattle.sheet.specs.Shown.{shown};
ghost use Rattle.survey.specs.Kinds.{counted_kind, counted_kinds, has, class_found, regular_found, zero_negative};

use crate::class::SumClass;
use batch::{Batch, Kind};
use sheet::mark::Mark;
use sheet::marks::Marks;

// Which kinds have been found, each at its number: a set in fixed memory.
#[derive(Clone, Copy)]
pub struct KindsCounted {
    present: [bool; 8],
}

// The kind that a term counts as under a mark.
pub fn counted_kind(mark: Mark, kind: Kind) -> Kind
    ensures { result ≡ counted_kind mark kind }
{
    match mark {
        Mark::Out => Kind::Absent,
        Mark::In => kind,
        Mark::Turned => kind.turned(),
    }
}

impl KindsCounted {
    ghost use Rattle.survey.specs.Found.{found};

    // Goes once through the terms of a batch.
    pub fn new<B: Batch>(batch: &B, marks: &Marks) -> KindsCounted
        ensures { (k : KindOf) → found result k ≡ has (counted_kinds (shown marks.now) (B.Batch.terms batch.now)) k }
    {
        let mut kinds = KindsCounted {
            present: [false; 8],
        };
        // By number: the interface of a batch, which each kind of batch implements, has no iterator.
        for place in 0..batch.count() {
            let kind = counted_kind(marks.at(place as u32), batch.kind(place));
            kinds.add(kind);
        }
        kinds
    }

    // What the special terms make of the sum.
    pub fn class(&self) -> SumClass
        ensures { result ≡ class_found (found self.now) }
    {
        let positive = self.has(Kind::PositiveInfinity);
        let negative = self.has(Kind::NegativeInfinity);
        if self.has(Kind::NotANumber) || (positive && negative) {
            SumClass::NotANumber
        } else if positive || negative {
            SumClass::Infinite(negative)
        } else {
            SumClass::Number
        }
    }

    // Whether a number other than 0 counts.
    pub fn has_regular(&self) -> bool
        ensures { result ≡ regular_found (found self.now) }
    {
        self.has(Kind::Positive) || self.has(Kind::Negative)
    }

    // Whether an exact zero sum is negative, where sums are rounded down or not.
    pub fn zero_is_negative(&self, downward: bool) -> bool
        ensures { result ≡ zero_negative downward (found self.now) }
    {
        let negative = self.has(Kind::NegativeZero);
        if self.has_regular() || (self.has(Kind::PositiveZero) && negative) {
            downward
        } else {
            negative
        }
    }

    // Whether a term counts as this kind.
    pub fn has(&self, kind: Kind) -> bool
        ensures { result ≡ found self.now kind }
    {
        self.present[kind.number() as usize]
    }

    fn add(&mut self, kind: Kind)
        ensures { (k : KindOf) → found self.new k ≡ (if nat_eq (kind_number kind) (kind_number k) then true else found self.old k) }
    {
        let slot = kind.number() as usize;
        self.present[slot] = true;
    }
}
