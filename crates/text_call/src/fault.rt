// Why a form, a line or a whole text is refused: each fault carries that of the layer below it whole.
ghost use Rattle.std.specs.Prelude.{◌≡◌, ◌<◌, ◌^◌};
ghost use Rattle.text_call.specs.Faults.{form_fault_number, line_fault_number, line_fault_byte, text_fault_number};
ghost use Rattle.text_call.specs.declared.fault.FormFault.TheVariants.{Batch, Grid, Call};
ghost use Rattle.text_call.specs.declared.fault.LineFault.TheVariants.{Form};

use ask_history::outcome::CallFault;
use batch::BatchFault;
use grid::GridFault;

#[derive(Clone, Copy, PartialEq, Eq, Debug)]
pub enum FormFault {
    // the term is refused
    Batch(BatchFault),
    // a term comes after a call
    TermAfterCall,
    // it would be the 33rd ask
    TooManyAsks,
    // the grid of an ask is refused
    Grid(GridFault),
    // the call is refused, or comes out of turn
    Call(CallFault),
}

impl From<BatchFault> for FormFault {
    ghost from_gives = { λ f r. r ≡ Batch f };

    fn from(fault: BatchFault) -> FormFault {
        FormFault::Batch(fault)
    }
}

impl From<GridFault> for FormFault {
    ghost from_gives = { λ f r. r ≡ Grid f };

    fn from(fault: GridFault) -> FormFault {
        FormFault::Grid(fault)
    }
}

impl From<CallFault> for FormFault {
    ghost from_gives = { λ f r. r ≡ Call f };

    fn from(fault: CallFault) -> FormFault {
        FormFault::Call(fault)
    }
}

impl FormFault {
    // The published number of the refusal.
    pub fn number(self) -> u32
        ensures { result ≡ form_fault_number self }
    {
        match self {
            FormFault::Batch(fault) => fault.number(),
            FormFault::TermAfterCall => 20,
            FormFault::TooManyAsks => 21,
            FormFault::Grid(fault) => fault.number(),
            FormFault::Call(fault) => fault.number(),
        }
    }
}

// Places in a line are counted from 0 here.
#[derive(Clone, Copy, PartialEq, Eq, Debug)]
pub enum LineFault {
    // at this place stands a byte that no line may hold
    OddByte(usize),
    // at this place no form can go on
    Broken(usize),
    // the form is refused
    Form(FormFault),
}

impl From<FormFault> for LineFault {
    ghost from_gives = { λ f r. r ≡ Form f };

    fn from(fault: FormFault) -> LineFault {
        LineFault::Form(fault)
    }
}

impl LineFault {
    // The published number of the refusal.
    pub fn number(self) -> u32
        ensures { result ≡ line_fault_number self }
    {
        match self {
            LineFault::OddByte(_) => 18,
            LineFault::Broken(_) => 19,
            LineFault::Form(fault) => fault.number(),
        }
    }

    // The byte that it blames, counted from 1: of a form that is refused, the first.
    pub fn byte(self) -> usize
        requires { line_fault_byte self < 2 ^ 64 }
        ensures { result ≡ line_fault_byte self }
    {
        match self {
            LineFault::OddByte(place) | LineFault::Broken(place) => place + 1,
            LineFault::Form(_) => 1,
        }
    }
}

// Why a text is not answered at all.
#[derive(Clone, Copy, PartialEq, Eq, Debug)]
pub enum TextFault {
    TextTooLong = 22,
    AnswerTooShort = 23,
}

impl TextFault {
    // The published number of the refusal.
    pub fn number(self) -> u32
        ensures { result ≡ text_fault_number self }
    {
        self as u32
    }
}
