// Limbs, as they are read.
ghost use Rattle.std.specs.Prelude.{◌≡◌};
ghost use Rattle.std.specs.Result.{result_map_both};
ghost use Rattle.fields.specs.Words.{is_lowercase_hex};
ghost use Rattle.fields.specs.Checking.{limbs_of, in_limbs};
ghost use Rattle.fields.specs.Held.{limbs_held};

use crate::held::Limbs;

// 0 to 9, a to f.
fn is_lowercase_hex(byte: u8) -> bool
    ensures { result ≡ is_lowercase_hex byte }
{
    matches!(byte, b'0'..=b'9' | b'a'..=b'f')
}

// Whether a byte may stand at this place of limbs.
fn is_in_limbs(place: usize, byte: u8) -> bool
    ensures { result ≡ in_limbs place byte }
{
    if place % 9 == 8 {
        byte == b' '
    } else {
        is_lowercase_hex(byte)
    }
}

// The limbs that stand between the brackets of a field.
pub fn limbs(text: &[u8]) -> Result<Limbs<'_>, usize>
    ensures { result_map_both limbs_held (λ place. place) result ≡ limbs_of text.now }
{
    for (place, byte) in text.iter().enumerate() {
        if !is_in_limbs(place, *byte) {
            return Err(place);
        }
    }
    if text.len() % 9 != 8 {
        return Err(text.len());
    }
    Ok(Limbs::of(text))
}
