// The entry of the benchmark: one batch, one sheet on which all its terms are in, and the same ask again and again.
#![tactic(auto)]

ghost use Rattle.std.specs.Prelude.{◌≡◌, length};
ghost use Rattle.whole_ask.specs.Asked.{asked_whole};
ghost use Rattle.bench_entry.specs.Benched.{status, limbs_left};

use limb_batch::LimbRecord;
use whole_ask::ask_whole;

// Opens the batch, and makes the ask of all its terms once and `repeats` times more, into the same limbs. Returns the depth of
// the answer, or the opposite of the number of a refusal: C hands in numbers, each by itself, and takes one.
#[unsafe(no_mangle)]
pub extern "C" fn bench_asks(
    terms: &[LimbRecord],
    pool: &[u32],
    width: u32,
    mode: u32,
    repeats: u32,
    limbs: &mut [u32],
) -> i64
    ensures returned { result ≡ status (asked_whole terms.now pool.now width mode (length limbs.old)) }
    ensures left { limbs.new ≡ limbs_left (asked_whole terms.now pool.now width mode (length limbs.old)) limbs.old }
{
    match ask_whole(terms, pool, width, mode, repeats, limbs) {
        Ok(answer) => i64::from(answer.depth),
        Err(fault) => -i64::from(fault.number()),
    }
}
