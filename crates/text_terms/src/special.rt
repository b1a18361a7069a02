// The terms that are not regular.
ghost use Rattle.std.specs.Prelude.{◌≡◌};
ghost use Rattle.text_terms.specs.Meaning.{special_kind};

use batch::Kind;

// Whether the infinity or the zero is negative stands beside it.
#[derive(Clone, Copy, PartialEq, Eq, Debug)]
pub enum Special {
    NotANumber,
    Infinity(bool),
    Zero(bool),
}

impl Special {
    pub fn kind(self) -> Kind
        ensures { result ≡ special_kind self }
    {
        match self {
            Special::NotANumber => Kind::NotANumber,
            Special::Infinity(negative) => Kind::infinity(negative),
            Special::Zero(negative) => Kind::zero(negative),
        }
    }
}
