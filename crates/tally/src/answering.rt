// What the program writes of what it read.
ghost use Rattle.std.specs.Prelude.{◌≡◌, ◌≤◌, length, vec_len, IfOk};
ghost use Rattle.text_call.specs.Answer.{any_answer};
ghost use Rattle.text_call.specs.Faults.{longest_text, least_room};
ghost use Rattle.text_call.specs.Law.{TextLaw};

use std::alloc::{AllocError, Global};
use text_call::{LEAST_ROOM, answer_any_text};

// Room for any answer. By itself: a proof that saw it made would write out so many zeros.
fn lay_room(heap: Global) -> Result<Vec<u8>, AllocError>
    ensures { IfOk result (λ room. vec_len room ≡ least_room) }
{
    vec![in heap; 0u8; LEAST_ROOM]
}

pub fn answered(heap: Global, text: &[u8]) -> Result<Vec<u8>, AllocError>
    ensures equals { IfOk result (λ answer. answer.items ≡ any_answer text.now) }
    ensures law { length text.now ≤ longest_text → IfOk result (λ answer. TextLaw text.now answer.items) }
{
    let mut answer = lay_room(heap)?;
    let written = answer_any_text(text, &mut answer);
    answer.truncate(written);
    Ok(answer)
}
