// Lists in round brackets.
ghost use Rattle.std.specs.Prelude.{ℕ, List, ◌+◌, ◌≤◌, length, map};
ghost use Rattle.forms.specs.Parts.{bracketed};
ghost use Rattle.line_writer.specs.Wrote.{Wrote};
ghost use Rattle.line_writer.specs.Separators.{separator};

use crate::bytes::put;

// What has a text that can be written.
pub trait Spelled {
    ghost text: { Self → List ℕ };

    fn write(&self, out: &mut [u8], at: usize) -> usize
        requires { at + length (text self.now) ≤ length out.old }
        ensures { Wrote out.old at (text self.now) out.new result };
}

// A space, but not before the first item.
fn write_separator(i: usize, out: &mut [u8], at: usize) -> usize
    requires { at + length (separator i) ≤ length out.old }
    ensures { Wrote out.old at (separator i) out.new result }
{
    if i == 0 { at } else { put(b" ", out, at) }
}

pub fn write_list<T: Spelled>(items: &[T], out: &mut [u8], at: usize) -> usize
    requires { at + length (bracketed (map T.text items.now)) ≤ length out.old }
    ensures { Wrote out.old at (bracketed (map T.text items.now)) out.new result }
{
    let mut end = put(b"(", out, at);
    for (i, item) in items.iter().enumerate() {
        end = write_separator(i, out, end);
        end = item.write(out, end);
    }
    put(b")", out, end)
}
