// One record of a limb batch. A regular one is a fraction from 1/2 up to 1, times 2 ^ exponent: its significand begins at
// its place in the pool, least significant limb first, and has so many binary digits as the precision says.
ghost use Rattle.std.specs.Prelude.{◌≡◌};
ghost use Rattle.batch.specs.TermKinds.{kind_number};

use batch::Kind;

// Laid out as in C, so that C can lend records: hence a number for the kind, and a place in the pool for the limbs.
#[repr(C)]
#[derive(Clone, Copy)]
pub struct LimbRecord {
    pub kind: u32,
    pub exponent: i64,
    pub precision: u64,
    pub place: usize,
}

impl LimbRecord {
    // A record of this kind. Of one that is not regular only the kind is read.
    pub fn new(kind: Kind, exponent: i64, precision: u64, place: usize) -> LimbRecord
        ensures kind { result.kind ≡ kind_number kind }
        ensures exponent { result.exponent ≡ exponent }
        ensures precision { result.precision ≡ precision }
        ensures place { result.place ≡ place }
    {
        LimbRecord {
            kind: kind.number(),
            exponent,
            precision,
            place,
        }
    }
}
