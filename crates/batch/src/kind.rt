// The kinds of terms.
ghost use Rattle.std.specs.Prelude.{◌≡◌, if◌then◌else◌};
ghost use Rattle.batch.specs.TermKinds.{kind_number, kind_numbered, kind_is_regular, kind_is_finite, infinity, zero_of_sign, number_of_sign, turned_kind};

// The numbers are published: callers hand them in and read them.
#[derive(Clone, Copy, PartialEq, Eq, Debug)]
pub enum Kind {
    NotANumber = 0,
    PositiveInfinity = 1,
    NegativeInfinity = 2,
    PositiveZero = 3,
    NegativeZero = 4,
    Positive = 5,
    Negative = 6,
    Absent = 7,
}

impl Kind {
    pub fn number(self) -> u32
        ensures { result ≡ kind_number self }
    {
        self as u32
    }

    pub fn infinity(negative: bool) -> Kind
        ensures { result ≡ infinity negative }
    {
        Kind::PositiveInfinity.turned_if(negative)
    }

    pub fn zero(negative: bool) -> Kind
        ensures { result ≡ zero_of_sign negative }
    {
        Kind::PositiveZero.turned_if(negative)
    }

    // The kind of a number other than 0.
    pub fn regular(negative: bool) -> Kind
        ensures { result ≡ number_of_sign negative }
    {
        Kind::Positive.turned_if(negative)
    }

    // The kind with the other sign.
    pub fn turned(self) -> Kind
        ensures { result ≡ turned_kind self }
    {
        match self {
            Kind::NotANumber => Kind::NotANumber,
            Kind::PositiveInfinity => Kind::NegativeInfinity,
            Kind::NegativeInfinity => Kind::PositiveInfinity,
            Kind::PositiveZero => Kind::NegativeZero,
            Kind::NegativeZero => Kind::PositiveZero,
            Kind::Positive => Kind::Negative,
            Kind::Negative => Kind::Positive,
            Kind::Absent => Kind::Absent,
        }
    }

    fn turned_if(self, turn: bool) -> Kind
        ensures { result ≡ if turn then turned_kind self else self }
    {
        if turn { self.turned() } else { self }
    }

    // A number other than 0.
    pub fn is_regular(self) -> bool
        ensures { result ≡ kind_is_regular self }
    {
        matches!(self, Kind::Positive | Kind::Negative)
    }

    // A number, 0 among them.
    pub fn is_finite(self) -> bool
        ensures { result ≡ kind_is_finite self }
    {
        self.is_regular() || matches!(self, Kind::PositiveZero | Kind::NegativeZero)
    }
}

// An unknown number is the kind of no term.
impl From<u32> for Kind {
    ghost from_gives = { λ number kind. kind ≡ kind_numbered number };

    fn from(number: u32) -> Kind {
        match number {
            0 => Kind::NotANumber,
            1 => Kind::PositiveInfinity,
            2 => Kind::NegativeInfinity,
            3 => Kind::PositiveZero,
            4 => Kind::NegativeZero,
            5 => Kind::Positive,
            6 => Kind::Negative,
            _ => Kind::Absent,
        }
    }
}
