// Why a batch is refused.
ghost use Rattle.std.specs.Prelude.{◌≡◌};
ghost use Rattle.batch.specs.Faults.{record_fault_number, fault_number, fault_place};

// What is wrong with one record.
#[derive(Clone, Copy, PartialEq, Eq, Debug)]
pub enum RecordFault {
    UnknownKind = 2,
    PrecisionOutOfRange = 3,
    ExponentOutOfRange = 4,
    LimbsPastPool = 5,
    TopBitClear = 6,
    LowBitSet = 7,
}

impl RecordFault {
    pub fn number(self) -> u32
        ensures { result ≡ record_fault_number self }
    {
        self as u32
    }
}

// What is wrong with a batch; a record has its number in the order of the records, from 0.
#[derive(Clone, Copy, PartialEq, Eq, Debug)]
pub enum BatchFault {
    TooManyTerms,
    AtRecord(usize, RecordFault),
}

impl BatchFault {
    // By hand: `as` takes no enum whose variants hold values.
    pub fn number(self) -> u32
        ensures { result ≡ fault_number self }
    {
        match self {
            BatchFault::TooManyTerms => 1,
            BatchFault::AtRecord(_, fault) => fault.number(),
        }
    }

    pub fn place(self) -> usize
        ensures { result ≡ fault_place self }
    {
        match self {
            BatchFault::TooManyTerms => 0,
            BatchFault::AtRecord(record, _) => record,
        }
    }
}
