// Writing one term as its line.
ghost use Rattle.std.specs.Prelude.{◌≡◌, ◌≤◌, length};
ghost use Rattle.std.specs.List.{AllByRecursion};
ghost use Rattle.std.specs.Result.{result_ok};
ghost use Rattle.batch.specs.Lookup.{kind_of_term};
ghost use Rattle.batch.specs.TermKinds.{number_of_sign};
ghost use Rattle.line_writer.specs.Wrote.{Wrote};
ghost use Rattle.term_writer.specs.Lines.{term_line};
ghost use Rattle.term_writer.specs.Outcome.{least_buffer, bytes_written, buffer_after};
ghost use Rattle.term_writer.specs.ReadsBack.{ReadsBack};

use crate::buffer::{BufferTooShort, LEAST_BUFFER};
use crate::extent::{Extent, MOST_LIMBS};
use crate::significand::read_limbs;
use batch::{Batch, Kind};
use line_writer::{Field, write_line};

// The line of a regular term: its sign, exponent, precision and limbs.
fn write_regular<B: Batch>(batch: &B, i: usize, negative: bool, line: &mut [u8]) -> usize
    requires regular { kind_of_term (B.Batch.terms batch.now) i ≡ number_of_sign negative }
    requires room { least_buffer ≤ length line.old }
    ensures { Wrote line.old 0 (term_line (B.Batch.terms batch.now) i) line.new result }
{
    let extent = Extent::of(batch, i);
    let mut pool = [0u32; MOST_LIMBS];
    let (limbs, _) = pool.split_at_mut(extent.limb_count());
    read_limbs(batch, i, extent.lowest_weight(), limbs);
    let fields = [
        Field::Word(b"term"),
        Field::Sign(negative),
        Field::Signed(extent.exponent),
        Field::Number(u64::from(extent.precision)),
        Field::Limbs(limbs),
    ];
    write_line(&fields, line, 0)
}

// The line of term i, or nothing past the last term.
fn write_line_of<B: Batch>(batch: &B, i: usize, line: &mut [u8]) -> usize
    requires { least_buffer ≤ length line.old }
    ensures { Wrote line.old 0 (term_line (B.Batch.terms batch.now) i) line.new result }
{
    match batch.kind(i) {
        Kind::NotANumber => write_line(&[Field::Word(b"nan")], line, 0),
        Kind::PositiveInfinity => write_line(&[Field::Word(b"inf"), Field::Sign(false)], line, 0),
        Kind::NegativeInfinity => write_line(&[Field::Word(b"inf"), Field::Sign(true)], line, 0),
        Kind::PositiveZero => write_line(&[Field::Word(b"zero"), Field::Sign(false)], line, 0),
        Kind::NegativeZero => write_line(&[Field::Word(b"zero"), Field::Sign(true)], line, 0),
        Kind::Positive => write_regular(batch, i, false, line),
        Kind::Negative => write_regular(batch, i, true, line),
        Kind::Absent => 0,
    }
}

// Writes term i of a batch as its line, and tells how many bytes it has: none past the last term. What stands behind it is left as it was.
// A buffer of fewer than 1,280 bytes is refused, whatever i is, and nothing is written.
pub fn write_term<B: Batch>(batch: &B, i: usize, line: &mut [u8]) -> Result<usize, BufferTooShort>
    ensures bytes { result_ok result ≡ bytes_written (B.Batch.terms batch.now) i (length line.old) }
    ensures buffer { line.new ≡ buffer_after (B.Batch.terms batch.now) i line.old }
    ensures reads_back { AllByRecursion ReadsBack (B.Batch.terms batch.now) }
{
    if line.len() < LEAST_BUFFER {
        return Err(BufferTooShort);
    }
    Ok(write_line_of(batch, i, line))
}
