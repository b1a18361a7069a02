// The words of a line, taken one by one from the front.
ghost use Rattle.std.specs.Prelude.{◌≡◌, ◌+◌, ◌≤◌, length, take, ◌==◌};
ghost use Rattle.std.specs.Result.{result_ok};
ghost use Rattle.vectors.specs.Words.{first_word, other_words, number_of};

use std::num::ParseIntError;
use std::str::FromStr;

#[derive(Drop)]
pub struct Words<'a> {
    rest: &'a str,
}

impl<'a> Words<'a> {
    pub fn new(line: &'a str) -> Words<'a>
        ensures { result.rest.now ≡ line.now }
    {
        Words { rest: line }
    }

    pub fn are_done(&self) -> bool
        ensures { result ≡ (length self.now.rest.now == 0) }
    {
        self.rest.is_empty()
    }

    // The word up to the next space; an empty one at the end of the line.
    pub fn next(&mut self) -> &'a str
        ensures word { result.now ≡ first_word self.old.rest.now }
        ensures others { self.new.rest.now ≡ other_words self.old.rest.now }
        ensures front { result.now ≡ take (length result.now) self.old.rest.now }
        ensures goes_on { length self.new.rest.now + length result.now ≤ length self.old.rest.now }
    {
        match self.rest.split_once(' ') {
            Some((word, rest)) => {
                self.rest = rest;
                word
            }
            None => {
                let word = self.rest;
                self.rest = "";
                word
            }
        }
    }

    // The next word as a decimal number.
    pub fn number<N: FromStr<Err = ParseIntError>>(&mut self) -> Result<N, ParseIntError>
        ensures number { N.from_str_gives (first_word self.old.rest.now) result }
        ensures others { self.new.rest.now ≡ other_words self.old.rest.now }
    {
        self.next().parse::<N>()
    }

    // The next word as a hexadecimal limb.
    pub fn limb(&mut self) -> Result<u32, ParseIntError>
        ensures limb { result_ok result ≡ number_of 16 (first_word self.old.rest.now) }
        ensures others { self.new.rest.now ≡ other_words self.old.rest.now }
    {
        u32::from_str_radix(self.next(), 16)
    }
}
