// The parts of a form, read one after the other.
use crate::lexing::{Lexer, Stuck};
use fields::Limbs;

impl<'a> Lexer<'a> {
    ghost use Rattle.std.specs.Prelude.{◌≡◌, List, ℕ};
    ghost use Rattle.fields.specs.Checking.{sign_of, natural_of, integer_of, floor_of, run_of};
    ghost use Rattle.fields.specs.Held.{limbs_held};
    ghost use Rattle.form_reader.specs.Steps.{spaced};
    ghost use Rattle.form_reader.specs.Tokens.{left_of, told};
    ghost use Rattle.form_reader.specs.Reading.{named, spaced_limbs, closing_at};

    // The bracket and the keyword with which a form begins.
    pub fn named(self, keyword: &[u8]) -> Result<Lexer<'a>, Stuck>
        ensures { told left_of result ≡ named keyword.now (left_of self.entry) }
    {
        let (word, rest) = self.open()?.word();
        word.read(fields::keyword(word.bytes, keyword))?;
        Ok(rest)
    }

    pub fn sign(self) -> Result<(bool, Lexer<'a>), Stuck>
        ensures { told (λ x. (x.0, left_of x.1)) result ≡ spaced sign_of (left_of self.entry) }
    {
        let (word, rest) = self.space()?.word();
        let negative = word.read(fields::sign(word.bytes))?;
        Ok((negative, rest))
    }

    pub fn natural(self) -> Result<(u64, Lexer<'a>), Stuck>
        ensures { told (λ x. (x.0, left_of x.1)) result ≡ spaced natural_of (left_of self.entry) }
    {
        let (word, rest) = self.space()?.word();
        let natural = word.read(fields::natural(word.bytes))?;
        Ok((natural, rest))
    }

    pub fn integer(self) -> Result<(i64, Lexer<'a>), Stuck>
        ensures { told (λ x. (x.0, left_of x.1)) result ≡ spaced integer_of (left_of self.entry) }
    {
        let (word, rest) = self.space()?.word();
        let integer = word.read(fields::integer(word.bytes))?;
        Ok((integer, rest))
    }

    pub fn floor(self) -> Result<(Option<i64>, Lexer<'a>), Stuck>
        ensures { told (λ x. (x.0, left_of x.1)) result ≡ spaced floor_of (left_of self.entry) }
    {
        let (word, rest) = self.space()?.word();
        let floor = word.read(fields::floor(word.bytes))?;
        Ok((floor, rest))
    }

    pub fn run(self) -> Result<(&'a [u8], Lexer<'a>), Stuck>
        ensures { told (λ x. (x.0.now, left_of x.1)) result ≡ spaced run_of (left_of self.entry) }
    {
        let (word, rest) = self.space()?.word();
        let run = word.read(fields::run(word.bytes))?;
        Ok((run, rest))
    }

    pub fn limbs(self) -> Result<(Limbs<'a>, Lexer<'a>), Stuck>
        ensures { told (λ x. (limbs_held x.0, left_of x.1)) result ≡ spaced_limbs (left_of self.entry) }
    {
        let (text, rest) = self.space()?.open()?.limb_text();
        let limbs = text.read(fields::limbs(text.bytes))?;
        Ok((limbs, rest.close()?))
    }

    // The bracket with which a form ends, and the line.
    pub fn end(self) -> Result<(), Stuck>
        ensures { told (λ x. tt) result ≡ closing_at (left_of self.entry) }
    {
        let rest = self.close()?;
        if rest.is_at_end() {
            Ok(())
        } else {
            Err(rest.stuck())
        }
    }
}
