// The forms that are read, their fields decoded. What stands as it was read borrows the line.
use fields::Limbs;

// A regular term, with the limbs of its significand, the least significant first.
#[derive(Clone, Copy)]
pub struct Term<'a> {
    pub negative: bool,
    pub exponent: i64,
    pub precision: u64,
    pub limbs: Limbs<'a>,
}

#[derive(Clone, Copy)]
pub enum Form<'a> {
    NotANumber,
    Infinity {
        negative: bool,
    },
    Zero {
        negative: bool,
    },
    Term(Term<'a>),
    // the letter is any run, also one that no mark has
    Mark {
        place: u64,
        letter: &'a [u8],
    },
    Back,
    Set,
    Reopen,
    // an ask on a grid of this width, free without a floor
    Ask {
        width: u64,
        floor: Option<i64>,
        mode: &'a [u8],
    },
    // an ask on the grid of this name
    AskNamed {
        name: &'a [u8],
        mode: &'a [u8],
    },
}
