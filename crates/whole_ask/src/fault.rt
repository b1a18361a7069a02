// Why the ask of all terms is refused: by the first of its steps that is.
ghost use Rattle.std.specs.Prelude.{◌≡◌};
ghost use Rattle.whole_ask.specs.Told.{fault_refusal};
ghost use Rattle.whole_ask.specs.declared.fault.WholeFault.TheVariants.{Batch, Grid, Sheet, Ask};

use ask::AskFault;
use batch::BatchFault;
use grid::GridFault;
use sheet::fault::SheetFault;

#[derive(Clone, Copy, PartialEq, Eq, Debug)]
pub enum WholeFault {
    Batch(BatchFault),
    Grid(GridFault),
    Sheet(SheetFault),
    Ask(AskFault),
}

// By hand, and so are the others: a From that thiserror writes has no contract.
impl From<BatchFault> for WholeFault {
    ghost from_gives = { λ f r. r ≡ Batch f };

    fn from(fault: BatchFault) -> WholeFault {
        Self::Batch(fault)
    }
}

impl From<GridFault> for WholeFault {
    ghost from_gives = { λ f r. r ≡ Grid f };

    fn from(fault: GridFault) -> WholeFault {
        Self::Grid(fault)
    }
}

impl From<SheetFault> for WholeFault {
    ghost from_gives = { λ f r. r ≡ Sheet f };

    fn from(fault: SheetFault) -> WholeFault {
        Self::Sheet(fault)
    }
}

impl From<AskFault> for WholeFault {
    ghost from_gives = { λ f r. r ≡ Ask f };

    fn from(fault: AskFault) -> WholeFault {
        Self::Ask(fault)
    }
}

impl WholeFault {
    // The published number of the refusal. Written out: a variant with a value has no number of its own.
    pub fn number(self) -> u32
        ensures { result ≡ (fault_refusal self).number }
    {
        match self {
            WholeFault::Batch(fault) => fault.number(),
            WholeFault::Grid(fault) => fault.number(),
            WholeFault::Sheet(fault) => fault.number(),
            WholeFault::Ask(fault) => fault.number(),
        }
    }
}
