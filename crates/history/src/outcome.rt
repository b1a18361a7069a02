// What a call of a list got.

ghost use Rattle.std.specs.Prelude.{◌≡◌};
ghost use Rattle.history.specs.Data.{call_fault_number};
ghost use Rattle.history.specs.declared.outcome.CallFault.TheVariants.{Sheet};

use sheet::fault::SheetFault;

#[derive(Clone, Copy, PartialEq, Eq, Hash, Debug)]
pub enum CallFault {
    // the sheet itself refused it
    Sheet(SheetFault),
    // it does not fit the state that the sheet is in
    OutOfTurn,
}

// It was done, or refused.
pub type Outcome = Result<(), CallFault>;

impl From<SheetFault> for CallFault {
    ghost from_gives = { λ f r. r ≡ Sheet f };

    fn from(fault: SheetFault) -> CallFault {
        CallFault::Sheet(fault)
    }
}

impl CallFault {
    // The published number of the refusal. Written out: a variant with a value has no number of its own.
    pub fn number(self) -> u32
        ensures { result ≡ call_fault_number self }
    {
        match self {
            CallFault::Sheet(refused) => refused.number(),
            CallFault::OutOfTurn => 20,
        }
    }
}
