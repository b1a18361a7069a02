// The line of an outcome.
ghost use Rattle.std.specs.Prelude.{◌≡◌, IfOk, string_bytes};
ghost use Rattle.ask.specs.Told.{published};
ghost use Rattle.whole_ask.specs.Told.{fault_refusal};
ghost use Rattle.vectors.specs.Lines.{refusal_text, answer_text};

use ask::Answer;
use std::alloc::{AllocError, Global};
use whole_ask::WholeFault;

pub fn write_refusal(heap: Global, fault: WholeFault) -> Result<String, AllocError>
    ensures { IfOk result (λ s. string_bytes s ≡ refusal_text (fault_refusal fault).number) }
{
    let number = fault.number();
    format!(in heap; "no {number}")
}

// The answer with the limbs of its precision.
pub fn write_answer(heap: Global, answer: Answer, limbs: &[u32]) -> Result<String, AllocError>
    ensures { IfOk result (λ s. string_bytes s ≡ answer_text (published answer limbs.now)) }
{
    let (kind, exponent, precision) = (answer.kind.number(), answer.exponent, answer.precision);
    let direction = answer.direction.number();
    let mut line = format!(in heap; "{kind} {exponent} {precision} {direction}")?;
    for limb in limbs.iter().take(precision.div_ceil(32) as usize) {
        write!(line, " {limb:08x}")?;
    }
    Ok(line)
}
