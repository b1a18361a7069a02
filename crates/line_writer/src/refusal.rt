// The line of a refusal.
ghost use Rattle.std.specs.Prelude.{◌+◌, ◌≤◌, length};
ghost use Rattle.forms.specs.Written.{refusal, written};
ghost use Rattle.line_writer.specs.Wrote.{Wrote};
ghost use Rattle.line_writer.specs.Longest.{longest_refusal};

use crate::field::Field;
use crate::line::write_line;

// Writes its number, and the line and the byte that it blames, for a crate that has seen to it that there is room.
pub fn write_refusal(number: u32, line: usize, byte: usize, out: &mut [u8], at: usize) -> usize
    requires { at + longest_refusal ≤ length out.old }
    ensures line { Wrote out.old at (written (refusal number line byte)) out.new result }
    ensures short { result ≤ at + longest_refusal }
{
    let fields = [
        Field::Word(b"no"),
        Field::Number(u64::from(number)),
        Field::Number(line as u64),
        Field::Number(byte as u64),
    ];
    write_line(&fields, out, at)
}
