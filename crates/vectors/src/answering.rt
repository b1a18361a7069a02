// The ask that a case is, and the line of its outcome.
ghost use Rattle.std.specs.Prelude.{◌≡◌, IfOk, string_bytes};
ghost use Rattle.whole_ask.specs.Asked.{asked_whole};
ghost use Rattle.vectors.specs.Lines.{reply_text};

use crate::case::Case;
use crate::writing::{write_answer, write_refusal};
use std::alloc::{AllocError, Global};
use whole_ask::ask_whole;

pub fn answer_line(heap: Global, case: &Case) -> Result<String, AllocError>
    ensures { IfOk result (λ s. string_bytes s
        ≡ reply_text (asked_whole case.now.records.items case.now.pool.items case.now.width case.now.mode 128)) }
{
    let mut limbs = [0u32; 128];
    let (records, pool) = (case.records.as_slice(), case.pool.as_slice());
    match ask_whole(records, pool, case.width, case.mode, 0, &mut limbs) {
        Ok(answer) => write_answer(heap, answer, &limbs),
        Err(fault) => write_refusal(heap, fault),
    }
}
