// The lines of a text, taken one by one from the front.
#![tactic(auto)]

ghost use Rattle.std.specs.Prelude.{◌≡◌, ◌+◌, ◌<◌, ◌≤◌, [], ◌∷◌, length};
ghost use Rattle.text_lines.specs.Lines.{lines_of, LinesAreText};
ghost use Rattle.text_lines.specs.Views.{line_view};

use memchr::memchr;

// A line without its byte 10, and whether it has one.
#[derive(Clone, Copy)]
pub struct Line<'a> {
    pub bytes: &'a [u8],
    pub ended: bool,
}

// The first line of a text, and what stands behind it. For our crates above, which ask only while some text is left.
pub fn first_line(text: &[u8]) -> (Line<'_>, &[u8])
    requires { 0 < length text.now }
    ensures lines { lines_of text.now ≡ line_view result.0 ∷ lines_of result.1.now }
    ensures shorter { length result.1.now + length result.0.bytes.now ≤ length text.now }
    ensures goes_on { length result.1.now < length text.now }
{
    match memchr(b'\n', text) {
        Some(end) => {
            let (bytes, rest) = text.split_at(end);
            let (_, rest) = rest.split_at(1);
            (Line { bytes, ended: true }, rest)
        }
        None => (
            Line {
                bytes: text,
                ended: false,
            },
            &[],
        ),
    }
}

// The lines of a text are the text, cut behind each byte 10.
pub fn lines_stand()
    ensures { LinesAreText }
{}
