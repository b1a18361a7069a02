// Why a call on a sheet is refused.

ghost use Rattle.std.specs.Prelude.{◌≡◌};
ghost use Rattle.sheet.specs.Numbers.{fault_number};

// Each refusal has its published number.
#[derive(Clone, Copy, PartialEq, Eq, Hash, Debug)]
pub enum SheetFault {
    NoSuchPlace = 11,
    NoSuchMark = 12,
    TrailFull = 13,
    TrailEmpty = 14,
}

impl SheetFault {
    // The published number of the refusal.
    pub fn number(self) -> u32
        ensures { result ≡ fault_number self }
    {
        self as u32
    }
}
