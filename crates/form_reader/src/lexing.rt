// A line cut into tokens, which borrow its bytes.
ghost use Rattle.std.specs.Prelude.{◌+◌, ◌<◌, ◌≤◌, ◌^◌, length};

use crate::alphabet::{limbs_len, word_len};

// The place of the first byte at which no form can go on, counted from 0: the line's length where it ends too soon.
#[derive(Clone, Copy, Debug, PartialEq, Eq)]
pub struct Stuck {
    pub place: usize,
}

impl Stuck {
    ghost use Rattle.std.specs.Prelude.{◌≡◌, max};

    // The further of two places.
    pub fn max(self, other: Stuck) -> Stuck
        ensures { result.place ≡ max self.place other.place }
    {
        Stuck {
            place: self.place.max(other.place),
        }
    }
}

// Bytes of a line, and the place of the first.
#[derive(Clone, Copy)]
pub struct Word<'a> {
    pub bytes: &'a [u8],
    pub place: usize,
    ghost within: { place + length bytes.now < 2 ^ 64 },
}

#[derive(Clone, Copy)]
pub enum Token<'a> {
    Open,
    Close,
    Space,
    // as many letters, digits, + and - as stand together
    Word(Word<'a>),
    // the line's end, or a byte that stands in no token
    Other,
}

// What is left of a line, and the place at which that begins.
#[derive(Clone, Copy)]
pub struct Lexer<'a> {
    rest: &'a [u8],
    place: usize,
    ghost within: { place + length rest.now < 2 ^ 64 },
}

impl<'a> Word<'a> {
    ghost use Rattle.std.specs.Prelude.{◌≡◌};
    ghost use Rattle.std.specs.Result.{ForErr};
    ghost use Rattle.form_reader.specs.Steps.{read_at};
    ghost use Rattle.form_reader.specs.Tokens.{told};

    // What a field read of the word; a place within the word becomes one of the line.
    pub fn read<T>(self, read: Result<T, usize>) -> Result<T, Stuck>
        requires { ForErr read (λ place. place ≤ length self.bytes.now) }
        ensures { told (λ value. value) result ≡ read_at self.entry.place read }
    {
        match read {
            Ok(value) => Ok(value),
            Err(place) => Err(Stuck {
                place: self.place + place,
            }),
        }
    }
}

impl<'a> Lexer<'a> {
    ghost use Rattle.std.specs.Prelude.{◌≡◌, take, ◌==◌};
    ghost use Rattle.std.specs.List.{prefix_len};
    ghost use Rattle.fields.specs.Words.{is_word_byte};
    ghost use Rattle.form_reader.specs.Steps.{whole, after, byte_at, front, behind};
    ghost use Rattle.form_reader.specs.Tokens.{left_of, word_at, token_at, lexeme_of, told};
    ghost use Rattle.form_reader.specs.Reading.{is_limb_byte};

    pub fn new(line: &'a [u8]) -> Lexer<'a>
        ensures { left_of result ≡ whole line.now }
    {
        Lexer {
            rest: line,
            place: 0,
        }
    }

    pub fn is_at_end(self) -> bool
        ensures { result ≡ (length (left_of self.entry).bytes == 0) }
    {
        self.rest.is_empty()
    }

    pub fn stuck(self) -> Stuck
        ensures { result.place ≡ (left_of self.entry).place }
    {
        Stuck { place: self.place }
    }

    // So many bytes, and what is left after them.
    fn split(self, len: usize) -> (Word<'a>, Lexer<'a>)
        requires { len ≤ length self.rest.now }
        ensures bytes { result.0.bytes.now ≡ take len (left_of self.entry).bytes }
        ensures place { result.0.place ≡ (left_of self.entry).place }
        ensures rest { left_of result.1 ≡ after len (left_of self.entry) }
    {
        let (bytes, rest) = self.rest.split_at(len);
        let word = Word {
            bytes,
            place: self.place,
        };
        let place = self.place + len;
        (word, Lexer { rest, place })
    }

    // The token that stands first, and what is left after it.
    pub fn next(self) -> (Token<'a>, Lexer<'a>)
        ensures { (lexeme_of result.0, left_of result.1) ≡ token_at (left_of self.entry) }
    {
        match self.rest {
            [b'(', ..] => (Token::Open, self.split(1).1),
            [b')', ..] => (Token::Close, self.split(1).1),
            [b' ', ..] => (Token::Space, self.split(1).1),
            _ => self.next_word(),
        }
    }

    // The word that stands first, and what is left after it.
    fn next_word(self) -> (Token<'a>, Lexer<'a>)
        ensures { (lexeme_of result.0, left_of result.1) ≡ word_at (left_of self.entry) }
    {
        let len = word_len(self.rest);
        if len == 0 {
            return (Token::Other, self);
        }
        let (word, rest) = self.split(len);
        (Token::Word(word), rest)
    }

    pub fn open(self) -> Result<Lexer<'a>, Stuck>
        ensures { told left_of result ≡ byte_at 40 (left_of self.entry) }
    {
        match self.next() {
            (Token::Open, rest) => Ok(rest),
            _ => Err(self.stuck()),
        }
    }

    pub fn close(self) -> Result<Lexer<'a>, Stuck>
        ensures { told left_of result ≡ byte_at 41 (left_of self.entry) }
    {
        match self.next() {
            (Token::Close, rest) => Ok(rest),
            _ => Err(self.stuck()),
        }
    }

    pub fn space(self) -> Result<Lexer<'a>, Stuck>
        ensures { told left_of result ≡ byte_at 32 (left_of self.entry) }
    {
        match self.next() {
            (Token::Space, rest) => Ok(rest),
            _ => Err(self.stuck()),
        }
    }

    // The word that stands first, and what is left after it. The word is empty where another token stands.
    pub fn word(self) -> (Word<'a>, Lexer<'a>)
        ensures bytes { result.0.bytes.now ≡ front is_word_byte (left_of self.entry) }
        ensures place { result.0.place ≡ (left_of self.entry).place }
        ensures rest { left_of result.1 ≡ behind is_word_byte (left_of self.entry) }
    {
        match self.next() {
            (Token::Word(word), rest) => (word, rest),
            _ => self.split(0),
        }
    }

    // What stands first of limbs and of the spaces between them, and what is left after it.
    pub fn limb_text(self) -> (Word<'a>, Lexer<'a>)
        ensures bytes { result.0.bytes.now ≡ front is_limb_byte (left_of self.entry) }
        ensures place { result.0.place ≡ (left_of self.entry).place }
        ensures rest { left_of result.1 ≡ behind is_limb_byte (left_of self.entry) }
    {
        self.split(limbs_len(self.rest))
    }
}
