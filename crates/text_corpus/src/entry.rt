// The entries of a corpus: read one by one from the front, and written one behind the other.
ghost use Rattle.std.specs.Prelude.{◌≡◌, ◌∷◌, ◌++◌, length, IfOk, IfSome, OnOk};
ghost use Rattle.std.specs.Fmt.{decimal};
ghost use Rattle.text_corpus.specs.Corpus.{header, entry_bytes};
ghost use Rattle.text_corpus.specs.Views.{entry_view};

use crate::fault::CorpusFault;
use fields::natural;
use memchr::memchr;
use std::alloc::{AllocError, Global};

// A text, or an answer, under a name.
#[derive(Clone, Copy)]
pub struct Entry<'a> {
    pub name: &'a [u8],
    pub text: &'a [u8],
}

// What stands before the first such byte, and behind it.
fn split_at_byte(byte: u8, bytes: &[u8]) -> Option<(&[u8], &[u8])>
    ensures { IfSome result (λ r. bytes.now ≡ r.0.now ++ byte ∷ r.1.now) }
{
    let place = memchr(byte, bytes)?;
    let (front, back) = bytes.split_at(place);
    let (_, back) = back.split_at(1);
    Some((front, back))
}

// A name, a space, and a number.
fn read_name_and_size(words: &[u8]) -> Result<(&[u8], usize), CorpusFault>
    ensures { IfOk result (λ r. words.now ≡ r.0.now ++ 32 ∷ decimal r.1) }
{
    let (name, digits) = split_at_byte(b' ', words).ok_or(CorpusFault::NoHeader)?;
    match natural(digits) {
        Ok(size) => Ok((name, size as usize)),
        Err(_) => Err(CorpusFault::NoHeader),
    }
}

// The name of an entry and the size of its text, by its first line.
fn read_header(line: &[u8]) -> Result<(&[u8], usize), CorpusFault>
    ensures { IfOk result (λ r. line.now ≡ header r.0.now r.1) }
{
    match line {
        [b'=', b' ', words @ ..] => read_name_and_size(words),
        _ => Err(CorpusFault::NoHeader),
    }
}

// The text of so many bytes that begins there, and what stands behind it and its byte 10.
fn read_text(bytes: &[u8], size: usize) -> Result<(&[u8], &[u8]), CorpusFault>
    ensures size { IfOk result (λ r. length r.0.now ≡ size) }
    ensures parts { IfOk result (λ r. bytes.now ≡ r.0.now ++ 10 ∷ r.1.now) }
{
    let (text, rest) = bytes.split_at_checked(size).ok_or(CorpusFault::TextCutOff)?;
    match rest {
        [b'\n', rest @ ..] => Ok((text, rest)),
        _ => Err(CorpusFault::TextUnended),
    }
}

// The first entry, and what stands behind it.
pub fn read_entry(corpus: &[u8]) -> Result<(Entry<'_>, &[u8]), CorpusFault>
    ensures { IfOk result (λ r. corpus.now ≡ entry_bytes (entry_view r.0) ++ r.1.now) }
{
    let (line, rest) = split_at_byte(b'\n', corpus).ok_or(CorpusFault::NoHeader)?;
    let (name, size) = read_header(line)?;
    let (text, rest) = read_text(rest, size)?;
    Ok((Entry { name, text }, rest))
}

// Writes an entry behind those that are written.
pub fn write_entry(
    heap: Global,
    name: &[u8],
    text: &[u8],
    written: &mut Vec<u8>,
) -> Result<(), AllocError>
    ensures { OnOk result (written.new.items
        ≡ written.old.items ++ entry_bytes (record { name = name.now; text = text.now })) }
{
    let size = text.len();
    let end_of_header = format!(in heap; " {size}\n")?;
    written.extend_from_slice(b"= ")?;
    written.extend_from_slice(name)?;
    written.extend_from_slice(end_of_header.as_bytes())?;
    written.extend_from_slice(text)?;
    written.extend_from_slice(b"\n")
}
