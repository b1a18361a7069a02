// A text and its answer.
ghost use Rattle.std.specs.Prelude.{◌≡◌, ◌+◌, ◌*◌, ◌≤◌, ◌<◌, ◌++◌, true, length, take, drop, is_err, IfOk, Ok};
ghost use Rattle.std.specs.Result.{result_err};
ghost use Rattle.ask_history.specs.Data.{reply_told};
ghost use Rattle.line_writer.specs.Longest.{longest_answer};
ghost use Rattle.line_writer.specs.Wrote.{Wrote};
ghost use Rattle.text_lines.specs.Views.{line_view};
ghost use Rattle.text_terms.specs.TermLists.{limbs_used};
ghost use Rattle.text_call.specs.Progress.{Progress};
ghost use Rattle.text_call.specs.Answer.{reply_text, text_answer, any_answer};
ghost use Rattle.text_call.specs.Law.{TextLaw};
ghost use Rattle.text_call.specs.Faults.{longest_text, least_room, text_fault};
ghost use Rattle.text_call.specs.Standing.{Stands, TookLine};

use crate::calls::Calls;
use crate::fault::{LineFault, TextFault};
use crate::lines::form_of_line;
use crate::taking::take_form;
use ask_history::answered::AnsweredAsk;
use line_writer::{write_answer, write_refusal};
use text_lines::{Line, first_line};
use text_terms::TermList;

// How many bytes a text may have.
pub const LONGEST_TEXT: usize = 49_152;

// How many bytes the room for an answer must have.
pub const LEAST_ROOM: usize = 49_152;

// Takes the form that a line is. Limbs take nine bytes each, so those of a text that is not too long have room.
fn take_line(
    line: Line<'_>,
    terms: &mut TermList,
    calls: &mut Calls,
) -> Result<Option<AnsweredAsk>, LineFault>
    requires { 9 * limbs_used terms.old + length line.bytes.now ≤ longest_text }
    ensures took { (p : Progress) → Stands p terms.old calls.old
        → TookLine (line_view line.entry) p terms.new calls.new result }
    ensures limbs { 9 * limbs_used terms.new ≤ 9 * limbs_used terms.old + length line.entry.bytes.now }
{
    let form = form_of_line(line)?;
    Ok(take_form(form, terms, calls)?)
}

// Writes the line of an answer, where there is one.
fn write_reply(reply: Option<AnsweredAsk>, answer: &mut [u8], at: usize) -> usize
    requires { at + longest_answer ≤ length answer.old }
    ensures wrote { Wrote answer.old at (reply_text (reply_told (Ok reply))) answer.new result }
    ensures short { result ≤ at + longest_answer }
{
    match reply {
        Some(asked) => write_answer(&asked.answer, &asked.limbs[..asked.lent], answer, at),
        None => at,
    }
}

// Answers a text that is not too long where there is room, and tells how many bytes it wrote.
fn answer_lines(text: &[u8], answer: &mut [u8]) -> usize
    requires short { length text.now ≤ longest_text }
    requires room { least_room ≤ length answer.old }
    ensures equals { take result answer.new ≡ text_answer text.now }
    ensures law { TextLaw text.now (take result answer.new) }
    ensures within { result ≤ length answer.old }
    ensures untouched { drop result answer.new ≡ drop result answer.old }
{
    let mut terms = TermList::new();
    let mut calls = Calls::new();
    let mut rest = text;
    let mut number = 1;
    let mut at = 0;
    while !rest.is_empty() {
        let (line, more) = first_line(rest);
        match take_line(line, &mut terms, &mut calls) {
            Ok(reply) => at = write_reply(reply, answer, at),
            Err(fault) => return write_refusal(fault.number(), number, fault.byte(), answer, at),
        }
        rest = more;
        number += 1;
    }
    at
}

// Reads a text line by line, sums its terms as its calls say, and writes the answers; it ends at the first line that is
// refused, with its refusal. Tells how many bytes it wrote; the rest of `answer` stays as it was. Whatever bytes the
// text holds, it is answered.
pub fn answer_text(text: &[u8], answer: &mut [u8]) -> Result<usize, TextFault>
    ensures refuses { result_err result ≡ text_fault (length text.now) (length answer.old) }
    ensures untouched { is_err result ≡ true → answer.new ≡ answer.old }
    ensures equals { IfOk result (λ n. (n ≡ length (text_answer text.now))
        × (answer.new ≡ text_answer text.now ++ drop n answer.old)) }
    ensures law { IfOk result (λ n. TextLaw text.now (take n answer.new)) }
{
    if text.len() > LONGEST_TEXT {
        return Err(TextFault::TextTooLong);
    }
    if answer.len() < LEAST_ROOM {
        return Err(TextFault::AnswerTooShort);
    }
    Ok(answer_lines(text, answer))
}

// Answers any text, as a program does: of one that is too long the answer is the line of its refusal, which blames no
// line and no byte. For the programs above, which lend room for any answer.
pub fn answer_any_text(text: &[u8], room: &mut [u8]) -> usize
    requires { least_room ≤ length room.old }
    ensures written { take result room.new ≡ any_answer text.now }
    ensures untouched { drop result room.new ≡ drop result room.old }
    ensures within { result ≤ length room.old }
    ensures law { length text.now ≤ longest_text → TextLaw text.now (take result room.new) }
{
    match answer_text(text, room) {
        Ok(end) => end,
        Err(fault) => write_refusal(fault.number(), 0, 0, room, 0),
    }
}
