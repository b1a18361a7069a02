// What a call of a list got.

ghost use Rattle.std.specs.Prelude.{◌≡◌};
ghost use Rattle.ask_history.specs.Data.{call_fault_refusal};
ghost use Rattle.ask_history.specs.declared.outcome.CallFault.TheVariants.{Call, Ask};

use crate::answered::AnsweredAsk;
use ask::AskFault;
use history::outcome::CallFault as SheetCallFault;

#[derive(Clone, Copy, PartialEq, Eq, Debug)]
pub enum CallFault {
    // it was refused as a sheet's own call is, or came out of turn
    Call(SheetCallFault),
    // the ask was refused
    Ask(AskFault),
}

impl From<SheetCallFault> for CallFault {
    ghost from_gives = { λ f r. r ≡ Call f };

    fn from(fault: SheetCallFault) -> CallFault {
        CallFault::Call(fault)
    }
}

impl From<AskFault> for CallFault {
    ghost from_gives = { λ f r. r ≡ Ask f };

    fn from(fault: AskFault) -> CallFault {
        CallFault::Ask(fault)
    }
}

impl CallFault {
    // The published number of the refusal. Written out: a variant with a value has no number of its own.
    pub fn number(self) -> u32
        ensures { result ≡ (call_fault_refusal self).number }
    {
        match self {
            CallFault::Call(refused) => refused.number(),
            CallFault::Ask(refused) => refused.number(),
        }
    }

    // The place that it blames, and 0 where it blames none.
    pub fn place(self) -> u32
        ensures { result ≡ (call_fault_refusal self).place }
    {
        match self {
            CallFault::Call(_) => 0,
            CallFault::Ask(refused) => refused.place(),
        }
    }
}

// It was refused, or done, with an answer where it asked.
pub type Outcome = Result<Option<AnsweredAsk>, CallFault>;
