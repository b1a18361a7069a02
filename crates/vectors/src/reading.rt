// A case read from its line.
ghost use Rattle.std.specs.Prelude.{◌≡◌, ◌≢◌, IfOk, IfErr, OnOk, Some, None, []};
ghost use Rattle.vectors.specs.Words.{words_of};
ghost use Rattle.vectors.specs.Cases.{with_significand, record_first, with_records, case_of, shown};
ghost use Rattle.vectors.specs.declared.fault.CaseFault.TheVariants.{OutOfMemory};

use crate::case::Case;
use crate::fault::CaseFault;
use crate::words::Words;
use batch::Kind;
use limb_batch::LimbRecord;
use std::alloc::Global;

// One more than a batch takes, so that a case of too many terms is refused as such.
const MOST_READ: u32 = 1025;

// A precision for which limbs are read; a batch refuses those above 4,096.
const MOST_DIGITS: u32 = 8192;

// Reads the limbs of a significand into the pool.
fn read_limbs(words: &mut Words<'_>, precision: u32, pool: &mut Vec<u32>) -> Result<(), CaseFault>
    ensures ok { OnOk result (with_significand precision pool.old.items (words_of words.old.rest.now)
        ≡ Some (pool.new.items, words_of words.new.rest.now)) }
    ensures err { IfErr result (λ e. e ≢ OutOfMemory →
        with_significand precision pool.old.items (words_of words.old.rest.now) ≡ None) }
{
    if precision > MOST_DIGITS {
        return Err(CaseFault::TooManyDigits);
    }
    for _ in 0..precision.div_ceil(32) {
        pool.push(words.limb()?)?;
    }
    Ok(())
}

fn read_record(words: &mut Words<'_>, pool: &mut Vec<u32>) -> Result<LimbRecord, CaseFault>
    ensures ok { IfOk result (λ r. record_first pool.old.items (words_of words.old.rest.now)
        ≡ Some (r, pool.new.items, words_of words.new.rest.now)) }
    ensures err { IfErr result (λ e. e ≢ OutOfMemory →
        record_first pool.old.items (words_of words.old.rest.now) ≡ None) }
{
    let kind = words.number::<u32>()?;
    let place = pool.len();
    if !Kind::from(kind).is_regular() {
        return Ok(LimbRecord {
            kind,
            exponent: 0,
            precision: 0,
            place,
        });
    }
    let exponent = words.number::<i64>()?;
    let precision = words.number::<u32>()?;
    read_limbs(words, precision, pool)?;
    Ok(LimbRecord {
        kind,
        exponent,
        precision: u64::from(precision),
        place,
    })
}

// The records of what is left, and the pool of their limbs.
fn read_records(
    heap: Global,
    words: &mut Words<'_>,
) -> Result<(Vec<LimbRecord>, Vec<u32>), CaseFault>
    ensures ok { IfOk result (λ read. with_records 1025 [] [] (words_of words.old.rest.now)
        ≡ Some (read.0.items, read.1.items)) }
    ensures err { IfErr result (λ e. e ≢ OutOfMemory →
        with_records 1025 [] [] (words_of words.old.rest.now) ≡ None) }
{
    let mut records = Vec::new(heap);
    let mut pool = Vec::new(heap);
    // A record takes several words, so that no chain over words gives the records.
    for _ in 0..MOST_READ {
        if words.are_done() {
            break;
        }
        records.push(read_record(words, &mut pool)?)?;
    }
    Ok((records, pool))
}

pub fn read_case(heap: Global, line: &str) -> Result<Case, CaseFault>
    ensures ok { IfOk result (λ c. case_of line.now ≡ Some (shown c)) }
    ensures err { IfErr result (λ e. e ≢ OutOfMemory → case_of line.now ≡ None) }
{
    let mut words = Words::new(line);
    let mode = words.number::<u32>()?;
    let width = words.number::<u32>()?;
    let (records, pool) = read_records(heap, &mut words)?;
    Ok(Case {
        mode,
        width,
        records,
        pool,
    })
}
