// The bytes of words, and of limbs.
ghost use Rattle.std.specs.Prelude.{◌≡◌, ◌≤◌, length};
ghost use Rattle.std.specs.List.{prefix_len};
ghost use Rattle.fields.specs.Words.{is_word_byte};
ghost use Rattle.form_reader.specs.Reading.{is_limb_byte};

fn is_word_byte(byte: u8) -> bool
    ensures { result ≡ is_word_byte byte }
{
    byte.is_ascii_alphanumeric() || byte == b'+' || byte == b'-'
}

// How many bytes of words stand first.
pub fn word_len(bytes: &[u8]) -> usize
    ensures value { result ≡ prefix_len is_word_byte bytes.now }
    ensures within { result ≤ length bytes.now }
{
    bytes.iter().take_while(|byte| is_word_byte(**byte)).count()
}

fn is_limb_byte(byte: u8) -> bool
    ensures { result ≡ is_limb_byte byte }
{
    matches!(byte, b'0'..=b'9' | b'a'..=b'f' | b' ')
}

// How many bytes of limbs stand first.
pub fn limbs_len(bytes: &[u8]) -> usize
    ensures value { result ≡ prefix_len is_limb_byte bytes.now }
    ensures within { result ≤ length bytes.now }
{
    bytes.iter().take_while(|byte| is_limb_byte(**byte)).count()
}
