// Why a grid is refused.
ghost use Rattle.std.specs.Prelude.{◌≡◌};
ghost use Rattle.grid.specs.Faults.{fault_number, fault_place};

#[derive(Clone, Copy, PartialEq, Eq, Debug)]
pub enum GridFault {
    WidthOutOfRange = 8,
    FloorOutOfRange = 9,
    NoSuchName = 10,
}

impl GridFault {
    pub fn number(self) -> u32
        ensures { result ≡ fault_number self }
    {
        self as u32
    }

    // A grid is refused as a whole.
    pub fn place(self) -> u32
        ensures { result ≡ fault_place self }
    {
        0
    }
}
