// Decimals: at most ten digits, no leading zero, no -0.
ghost use Rattle.std.specs.Prelude.{◌≡◌, ◌<◌, ◌^◌, pos, neg_ℤ};
ghost use Rattle.fields.specs.Checking.{natural_of, has_room, begins_with, negative_of, integer_of, floor_of};

use crate::words::keyword;

const MOST_DIGITS: usize = 10;

// Whether a digit may follow those before this place: none after a leading zero, and none after the tenth.
fn has_room(value: u64, place: usize) -> bool
    ensures { result ≡ has_room value place }
{
    place == 0 || (value > 0 && place < MOST_DIGITS)
}

// The number of a word.
pub fn natural(word: &[u8]) -> Result<u64, usize>
    ensures { result ≡ natural_of word.now }
{
    let mut value = 0;
    for (place, byte) in word.iter().enumerate() {
        if !has_room(value, place) {
            return Err(place);
        }
        let Some(digit) = (*byte as char).to_digit(10) else {
            return Err(place);
        };
        value = value * 10 + digit as u64;
    }
    if word.is_empty() {
        return Err(0);
    }
    Ok(value)
}

// Whether the first byte is this one.
fn begins_with(word: &[u8], byte: u8) -> bool
    ensures { result ≡ begins_with byte word.now }
{
    matches!(word, [first, ..] if *first == byte)
}

// The number with a minus sign.
fn negated(value: u64) -> i64
    requires { value < 10 ^ 10 }
    ensures { result ≡ neg_ℤ (pos value) }
{
    -(value as i64)
}

// The integer below zero that has these digits.
#[tactic(auto, using(crate::proofs::Naturals::natural_small, crate::proofs::Naturals::natural_within))]
fn negative(digits: &[u8]) -> Result<i64, usize>
    ensures { result ≡ negative_of digits.now }
{
    if begins_with(digits, b'0') {
        return Err(1);
    }
    match natural(digits) {
        Ok(value) => Ok(negated(value)),
        Err(place) => Err(place + 1),
    }
}

// The integer of a word.
pub fn integer(word: &[u8]) -> Result<i64, usize>
    ensures { result ≡ integer_of word.now }
{
    if begins_with(word, b'-') {
        return negative(&word[1..]);
    }
    Ok(natural(word)? as i64)
}

// The floor of a grid, or none for `free`. A word that is neither is refused at the further of the two places.
pub fn floor(word: &[u8]) -> Result<Option<i64>, usize>
    ensures { result ≡ floor_of word.now }
{
    let Err(place) = keyword(word, b"free") else {
        return Ok(None);
    };
    integer(word).map(Some).map_err(|other| place.max(other))
}
