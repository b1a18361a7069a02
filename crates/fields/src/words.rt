// Signs, keywords and runs.
ghost use Rattle.std.specs.Prelude.{◌≡◌};
ghost use Rattle.std.specs.Result.{result_map_both};
ghost use Rattle.fields.specs.Checking.{sign_of, alone, keyword_of, in_keyword, run_of};

// A sign, if nothing follows it.
fn alone(negative: bool, rest: &[u8]) -> Result<bool, usize>
    ensures { result ≡ alone negative rest.now }
{
    if rest.is_empty() {
        Ok(negative)
    } else {
        Err(1)
    }
}

// A sign: whether it is -.
pub fn sign(word: &[u8]) -> Result<bool, usize>
    ensures { result ≡ sign_of word.now }
{
    let [first, rest @ ..] = word else {
        return Err(0);
    };
    match *first as char {
        '+' => alone(false, rest),
        '-' => alone(true, rest),
        _ => Err(0),
    }
}

// Whether a byte is that of the keyword at this place.
fn is_in_keyword(keyword: &[u8], place: usize, byte: u8) -> bool
    ensures { result ≡ in_keyword keyword.now place byte }
{
    place < keyword.len() && keyword[place] == byte
}

// Just the keyword.
pub fn keyword(word: &[u8], keyword: &[u8]) -> Result<(), usize>
    ensures { result ≡ keyword_of keyword.now word.now }
{
    for (place, byte) in word.iter().enumerate() {
        if !is_in_keyword(keyword, place, *byte) {
            return Err(place);
        }
    }
    if word.len() != keyword.len() {
        return Err(word.len());
    }
    Ok(())
}

// A run, which is the word itself: one letter or digit or more.
pub fn run(word: &[u8]) -> Result<&[u8], usize>
    ensures { result_map_both (λ run. run.now) (λ place. place) result ≡ run_of word.now }
{
    for (place, byte) in word.iter().enumerate() {
        if !byte.is_ascii_alphanumeric() {
            return Err(place);
        }
    }
    if word.is_empty() {
        return Err(0);
    }
    Ok(word)
}
