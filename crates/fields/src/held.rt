// Limbs, as they stand in the text that is lent.
ghost use Rattle.std.specs.Prelude.{◌≡◌, ◌<◌, ◌≤◌, true, length};
ghost use Rattle.std.specs.Result.{is_ok};
ghost use Rattle.std.specs.Char.{digit_value};
ghost use Rattle.std.specs.Str.Parse.{digits_value, AllDigits};
ghost use Rattle.fields.specs.Checking.{limbs_of};

// Eight hexadecimal digits a limb and a space between two, the least significant limb first.
#[derive(Clone, Copy)]
pub struct Limbs<'a> {
    text: &'a [u8],
    ghost spelled: { is_ok (limbs_of text.now) ≡ true },
}

// The value of a hexadecimal digit.
fn digit(byte: u8) -> u32
    requires { digit_value byte < 16 }
    ensures { result ≡ digit_value byte }
{
    (byte as char).to_digit(16).unwrap_or(0)
}

// The number that hexadecimal digits write.
fn limb(digits: &[u8]) -> u32
    requires few { length digits.now ≤ 8 }
    requires digits { AllDigits 16 digits.now }
    ensures { result ≡ digits_value 16 digits.now }
{
    let mut limb = 0;
    for byte in digits {
        limb = limb * 16 + digit(*byte);
    }
    limb
}

impl<'a> Limbs<'a> {
    ghost use Rattle.std.specs.Prelude.{◌*◌, take, drop, slice_index};
    ghost use Rattle.fields.specs.Held.{limbs_held};

    // The limbs of a text that spells some.
    pub(crate) fn of(text: &'a [u8]) -> Limbs<'a>
        requires { is_ok (limbs_of text.now) ≡ true }
        ensures { result.text.now ≡ text.now }
    {
        Limbs { text }
    }

    // The digits of limb i.
    fn digits(&self, i: usize) -> &'a [u8]
        requires { i < length (limbs_held self.now) }
        ensures { result.now ≡ take 8 (drop (9 * i) self.now.text.now) }
    {
        let start = 9 * i;
        &self.text[start..start + 8]
    }

    // How many there are.
    #[tactic(auto, using(crate::proofs::HeldLimbs::length_limbs_in))]
    pub fn len(&self) -> usize
        ensures { result ≡ length (limbs_held self.now) }
    {
        (self.text.len() + 1) / 9
    }

    // Limb i, or 0 past the last.
    #[tactic(auto, using(crate::proofs::HeldLimbs::limb_read, crate::proofs::HeldLimbs::limb_digits))]
    pub fn at(&self, i: usize) -> u32
        ensures { result ≡ slice_index (limbs_held self.now) i }
    {
        if i < self.len() {
            limb(self.digits(i))
        } else {
            0
        }
    }
}
