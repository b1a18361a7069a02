// Callers of each batch, which count its regular terms, and tests of the batches at the edges of what they take.
#![tactic(auto)]

ghost use Rattle.std.specs.Prelude.{◌≡◌, length, IfOk};
ghost use Rattle.std.specs.Result.{result_err};
ghost use Rattle.batch.specs.Term.{regular_terms};
ghost use Rattle.limb_batch.specs.Records.{record_terms};
ghost use Rattle.limb_batch.specs.Opening.{opening_fault};
ghost use Rattle.list_batch.specs.Lists.{flat, list_fault};
ghost use Rattle.list_batch.specs.Rows.{row_parts};
ghost use Rattle.list_batch.specs.ScaledTerms.{scaled_parts};

mod five_halves;
#[cfg(test)]
mod limb_tests;
#[cfg(test)]
mod list_tests;
#[cfg(test)]
mod own_tests;

use batch::{BatchFault, regular_count};
pub use five_halves::FiveHalves;
use limb_batch::{LimbBatch, LimbRecord};
use list_batch::{ListBatch, Record, Row, Scaled};

pub fn regular_limbs(records: &[LimbRecord], pool: &[u32]) -> Result<usize, BatchFault>
    ensures refuses { result_err result ≡ opening_fault pool.now records.now }
    ensures counts { IfOk result (λ n. n ≡ regular_terms (record_terms pool.now records.now)) }
{
    let batch = LimbBatch::try_open(records, pool)?;
    Ok(regular_count(&batch))
}

pub fn regular_records<R: Record>(records: &[R]) -> Result<usize, BatchFault>
    ensures refuses { result_err result ≡ list_fault (length (flat R.Record.parts records.now)) }
    ensures counts { IfOk result (λ n. n ≡ regular_terms (flat R.Record.parts records.now)) }
{
    let batch = ListBatch::open(records)?;
    Ok(regular_count(&batch))
}

pub fn regular_rows(rows: &[Row]) -> Result<usize, BatchFault>
    ensures refuses { result_err result ≡ list_fault (length (flat row_parts rows.now)) }
    ensures counts { IfOk result (λ n. n ≡ regular_terms (flat row_parts rows.now)) }
{
    regular_records(rows)
}

pub fn regular_scaled(records: &[Scaled]) -> Result<usize, BatchFault>
    ensures refuses { result_err result ≡ list_fault (length (flat scaled_parts records.now)) }
    ensures counts { IfOk result (λ n. n ≡ regular_terms (flat scaled_parts records.now)) }
{
    regular_records(records)
}
