// A line: its fields in round brackets, and the byte that ends it.
ghost use Rattle.std.specs.Prelude.{◌+◌, ◌≤◌, length};
ghost use Rattle.line_writer.specs.Wrote.{Wrote};
ghost use Rattle.line_writer.specs.Fields.{line_text};

use crate::bytes::put;
use crate::field::Field;
use crate::list::write_list;

// Writes the line of these fields, for a crate that has seen to it that there is room.
pub fn write_line(fields: &[Field<'_>], out: &mut [u8], at: usize) -> usize
    requires { at + length (line_text fields.now) ≤ length out.old }
    ensures { Wrote out.old at (line_text fields.now) out.new result }
{
    let at = write_list(fields, out, at);
    put(b"\n", out, at)
}
