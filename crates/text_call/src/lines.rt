// A line, read as a form.
ghost use Rattle.std.specs.Prelude.{◌≡◌, Err};
ghost use Rattle.std.specs.Result.{result_map_both};
ghost use Rattle.text_lines.specs.Views.{line_view};
ghost use Rattle.form_reader.specs.Decoded.{form_of};
ghost use Rattle.form_reader.specs.Reading.{reading};
ghost use Rattle.text_call.specs.Answer.{is_line_byte};
ghost use Rattle.text_call.specs.Standing.{ReadsLine};

use crate::fault::LineFault;
use form_reader::{Form, read_form};
use text_lines::Line;

// A letter, a digit, a bracket, a space, + or -.
fn is_line_byte(byte: u8) -> bool
    ensures { result ≡ is_line_byte byte }
{
    byte.is_ascii_alphanumeric() || matches!(byte, b'(' | b')' | b' ' | b'+' | b'-')
}

// What is wrong with a line at whose place no form can go on.
fn fault_at(line: Line<'_>, place: usize) -> LineFault
    ensures { reading line.entry.bytes.now ≡ Err place → ReadsLine (line_view line.entry) (Err result) }
{
    match line.bytes.get(place) {
        Some(&byte) if !is_line_byte(byte) => LineFault::OddByte(place),
        _ => LineFault::Broken(place),
    }
}

// The form that a line is; or the first byte at which no form can go on, and whether a line may hold it.
pub fn form_of_line(line: Line<'_>) -> Result<Form<'_>, LineFault>
    ensures { ReadsLine (line_view line.entry) (result_map_both form_of (λ fault. fault) result) }
{
    match read_form(line.bytes) {
        Ok(form) if line.ended => Ok(form),
        Ok(_) => Err(LineFault::Broken(line.bytes.len())),
        Err(stuck) => Err(fault_at(line, stuck.place)),
    }
}
