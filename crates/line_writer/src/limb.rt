// Limbs, in hexadecimal digits.
ghost use Rattle.std.specs.Prelude.{◌≡◌, ◌<◌};
ghost use Rattle.forms.specs.Parts.{hex_digit, limb_text};

use crate::bytes::put;
use crate::list::Spelled;

fn hex_digit(digit: u8) -> u8
    requires { digit < 16 }
    ensures { result ≡ hex_digit digit }
{
    if digit < 10 {
        b'0' + digit
    } else {
        b'a' + (digit - 10)
    }
}

fn hex_digits(limb: u32) -> [u8; 8]
    ensures { result ≡ limb_text limb }
{
    let mut digits = [b'0'; 8];
    let mut rest = limb;
    for digit in (0..8).rev() {
        digits[digit] = hex_digit((rest % 16) as u8);
        rest /= 16;
    }
    digits
}

impl Spelled for u32 {
    ghost text = { limb_text };

    fn write(&self, out: &mut [u8], at: usize) -> usize {
        put(&hex_digits(*self), out, at)
    }
}
