// A call of a list, as data: one of a sheet's own, or an ask.

ghost use Rattle.std.specs.Prelude.{◌≡◌};
ghost use Rattle.ask_history.specs.declared.call.Call.TheVariants.{Sheet, Ask};

use history::call::SheetCall;

// An ask, with numbers that a caller hands in: of its batch in the list of batches, and of its mode; and how many limbs it lends for the answer.
#[derive(Clone, Copy, PartialEq, Eq, Debug)]
pub struct Asking<G> {
    pub batch: usize,
    pub grid: G,
    pub mode: u32,
    pub limbs: usize,
}

#[derive(Clone, Copy, PartialEq, Eq, Debug)]
pub enum Call<G> {
    Sheet(SheetCall),
    Ask(Asking<G>),
}

impl<G> From<SheetCall> for Call<G> {
    ghost from_gives = { λ c r. r ≡ Sheet c };

    fn from(call: SheetCall) -> Call<G> {
        Call::Sheet(call)
    }
}

impl<G> From<Asking<G>> for Call<G> {
    ghost from_gives = { λ a r. r ≡ Ask a };

    fn from(asking: Asking<G>) -> Call<G> {
        Call::Ask(asking)
    }
}
