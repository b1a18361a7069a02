// The checks of the records, in the order in which faults are told.
ghost use Rattle.std.specs.Prelude.{◌≡◌, ◌≤◌, length};
ghost use Rattle.std.specs.Result.{result_err};
ghost use Rattle.limb_batch.specs.Records.{limbs_for};
ghost use Rattle.limb_batch.specs.Opening.{limbs_fault, regular_fault, record_fault, opening_fault};

use crate::record::LimbRecord;
use batch::{BatchFault, FARTHEST_TOP, Kind, MOST_DIGITS, MOST_TERMS, RecordFault};

const TOP_BIT: u32 = 0x8000_0000;

// How many limbs a significand takes.
pub fn limb_count(precision: u64) -> usize
    requires { precision ≤ 4096 }
    ensures { result ≡ limbs_for precision }
{
    ((precision + 31) / 32) as usize
}

fn check_limbs(limbs: &[u32], precision: u64) -> Result<(), RecordFault>
    requires some { 1 ≤ precision }
    requires few { precision ≤ 4096 }
    requires whole { length limbs.now ≡ limbs_for precision }
    ensures { result_err result ≡ limbs_fault limbs.now precision }
{
    if limbs[limbs.len() - 1] < TOP_BIT {
        return Err(RecordFault::TopBitClear);
    }
    let spare = 32 * limbs.len() as u64 - precision;
    if limbs[0] % (1 << spare) != 0 {
        return Err(RecordFault::LowBitSet);
    }
    Ok(())
}

fn check_regular(pool: &[u32], record: &LimbRecord) -> Result<(), RecordFault>
    ensures { result_err result ≡ regular_fault pool.now «record».now }
{
    if record.precision < 1 || record.precision > MOST_DIGITS {
        return Err(RecordFault::PrecisionOutOfRange);
    }
    if record.exponent < -FARTHEST_TOP || record.exponent > FARTHEST_TOP {
        return Err(RecordFault::ExponentOutOfRange);
    }
    // The place may be any number: it is compared with what is left of the pool, so that no sum overflows.
    let count = limb_count(record.precision);
    if count > pool.len() || record.place > pool.len() - count {
        return Err(RecordFault::LimbsPastPool);
    }
    check_limbs(&pool[record.place..record.place + count], record.precision)
}

fn check_record(pool: &[u32], record: &LimbRecord) -> Result<(), RecordFault>
    ensures { result_err result ≡ record_fault pool.now «record».now }
{
    match Kind::from(record.kind) {
        Kind::Absent => Err(RecordFault::UnknownKind),
        Kind::Positive | Kind::Negative => check_regular(pool, record),
        _ => Ok(()),
    }
}

// Refuses with the fault of the first record that has one.
pub fn check_records(pool: &[u32], records: &[LimbRecord]) -> Result<(), BatchFault>
    ensures { result_err result ≡ opening_fault pool.now records.now }
{
    if records.len() > MOST_TERMS {
        return Err(BatchFault::TooManyTerms);
    }
    for (i, record) in records.iter().enumerate() {
        check_record(pool, record).map_err(|fault| BatchFault::AtRecord(i, fault))?;
    }
    Ok(())
}
