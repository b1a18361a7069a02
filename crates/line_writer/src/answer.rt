// The line of an answer.
ghost use Rattle.std.specs.Prelude.{◌+◌, ◌≤◌, length, take};
ghost use Rattle.limbs.specs.Bits.{limbs_for};
ghost use Rattle.batch.specs.Term.{most_digits};
ghost use Rattle.ends.specs.Directions.{direction_sign};
ghost use Rattle.ask.specs.Told.{published};
ghost use Rattle.forms.specs.Written.{sum, written, zero_sum};
ghost use Rattle.line_writer.specs.Wrote.{Wrote};
ghost use Rattle.line_writer.specs.Answers.{answer_line};
ghost use Rattle.line_writer.specs.Longest.{longest_answer};

use crate::field::Field;
use crate::line::write_line;
use ask::Answer;
use batch::Kind;

// The line of a zero: its sign, direction and depth.
fn write_zero(negative: bool, answer: &Answer, out: &mut [u8], at: usize) -> usize
    requires { at + longest_answer ≤ length out.old }
    ensures line { Wrote out.old at
        (written (zero_sum negative (direction_sign answer.now.direction) answer.now.depth)) out.new result }
    ensures short { result ≤ at + longest_answer }
{
    let fields = [
        Field::Word(b"zero"),
        Field::Sign(negative),
        Field::Signed(answer.direction.number()),
        Field::Number(u64::from(answer.depth)),
    ];
    write_line(&fields, out, at)
}

// The line of a sum that was rounded, with the limbs of its precision.
fn write_sum(negative: bool, answer: &Answer, limbs: &[u32], out: &mut [u8], at: usize) -> usize
    requires limbs { length limbs.now ≤ limbs_for most_digits }
    requires room { at + longest_answer ≤ length out.old }
    ensures line { Wrote out.old at
        (written (sum negative answer.now.exponent answer.now.precision (take (limbs_for answer.now.precision) limbs.now)
        (direction_sign answer.now.direction) answer.now.depth)) out.new result }
    ensures short { result ≤ at + longest_answer }
{
    let shown = (answer.precision.div_ceil(32) as usize).min(limbs.len());
    let fields = [
        Field::Word(b"sum"),
        Field::Sign(negative),
        Field::Signed(answer.exponent),
        Field::Number(u64::from(answer.precision)),
        Field::Limbs(&limbs[..shown]),
        Field::Signed(answer.direction.number()),
        Field::Number(u64::from(answer.depth)),
    ];
    write_line(&fields, out, at)
}

// Writes an answer with as many of its limbs as its precision takes, for a crate that has seen to it that there is
// room, and that lends at most 128 limbs, which take the most digits.
pub fn write_answer(answer: &Answer, limbs: &[u32], out: &mut [u8], at: usize) -> usize
    requires limbs { length limbs.now ≤ limbs_for most_digits }
    requires room { at + longest_answer ≤ length out.old }
    ensures line { Wrote out.old at (written (answer_line (published answer.now limbs.now))) out.new result }
    ensures short { result ≤ at + longest_answer }
{
    match answer.kind {
        Kind::NotANumber | Kind::Absent => write_line(&[Field::Word(b"nan")], out, at),
        Kind::PositiveInfinity => write_line(&[Field::Word(b"inf"), Field::Sign(false)], out, at),
        Kind::NegativeInfinity => write_line(&[Field::Word(b"inf"), Field::Sign(true)], out, at),
        Kind::PositiveZero => write_zero(false, answer, out, at),
        Kind::NegativeZero => write_zero(true, answer, out, at),
        Kind::Positive => write_sum(false, answer, limbs, out, at),
        Kind::Negative => write_sum(true, answer, limbs, out, at),
    }
}
