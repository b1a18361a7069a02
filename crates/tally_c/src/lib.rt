// The entry through which C has a text answered. It is the library's call; what C is told is a number.
#![tactic(auto)]

ghost use Rattle.std.specs.Prelude.{◌≡◌, None, length, take};
ghost use Rattle.text_call.specs.Answer.{text_answer};
ghost use Rattle.text_call.specs.Faults.{text_fault};
ghost use Rattle.text_call.specs.Law.{TextLaw};
ghost use Rattle.tally_c.specs.Told.{status, answer_after};

use text_call::answer_text;

// Answers a text of at most 49,152 bytes into at least as many. Returns how many bytes it wrote; the rest of `answer`
// stays as it was. Returns -22 for a longer text, and else -23 for less room, and then writes nothing.
#[unsafe(no_mangle)]
pub extern "C" fn tally_text(text: &[u8], answer: &mut [u8]) -> i64
    ensures returned { result ≡ status text.now (length answer.old) }
    ensures left { answer.new ≡ answer_after text.now answer.old }
    ensures law { text_fault (length text.now) (length answer.old) ≡ None
        → TextLaw text.now (take (length (text_answer text.now)) answer.new) }
{
    match answer_text(text, answer) {
        Ok(written) => written as i64,
        Err(fault) => -i64::from(fault.number()),
    }
}
