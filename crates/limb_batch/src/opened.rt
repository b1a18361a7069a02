// A limb batch: records over a pool of limbs, with no fault among them.
ghost use Rattle.std.specs.Result.{result_err};
ghost use Rattle.std.specs.Prelude.{◌≡◌, false, is_some, if◌then◌else◌, MatchOption, IfOk, []};
ghost use Rattle.batch.specs.TermKinds.{kind_is_regular};
ghost use Rattle.batch.specs.Lookup.{kind_of_term};
ghost use Rattle.limb_batch.specs.Records.{record_terms};
ghost use Rattle.limb_batch.specs.Opening.{opening_fault, Told};
ghost use Rattle.limb_batch.specs.SoundRecords.{Words, terms_batchable};
ghost use Rattle.limb_batch.specs.RegularRecords.{IsTerm};

use crate::check::{check_records, limb_count};
use crate::record::LimbRecord;
use crate::regular::RegularRecord;
use batch::{Batch, BatchFault, Kind};

#[derive(Clone, Copy)]
pub struct LimbBatch<'r, 'p> {
    records: &'r [LimbRecord],
    pool: &'p [u32],
    ghost faultless: { is_some (opening_fault pool.now records.now) ≡ false },
    ghost words: { Words pool.now },
}

impl<'r, 'p> LimbBatch<'r, 'p> {
    // Record i, if there is one and it is regular.
    fn regular_record(&self, i: usize) -> Option<RegularRecord<'p>>
        ensures { MatchOption result (kind_is_regular (kind_of_term (record_terms self.now.pool.now self.now.records.now) i) ≡ false) (IsTerm (record_terms self.now.pool.now self.now.records.now) i) }
    {
        if !self.kind(i).is_regular() {
            return None;
        }
        let record = self.records[i];
        let count = limb_count(record.precision);
        Some(RegularRecord {
            limbs: &self.pool[record.place..record.place + count],
            exponent: record.exponent,
            precision: record.precision,
        })
    }
}

impl<'r, 'p> Batch for LimbBatch<'r, 'p> {
    ghost terms = { λ b. record_terms b.pool.now b.records.now };

    ghost limited = { λ b. terms_batchable b.pool.now b.records.now b.words b.faultless };

    fn count(&self) -> usize {
        self.records.len()
    }

    fn kind(&self, i: usize) -> Kind {
        self.records
            .get(i)
            .map_or(Kind::Absent, |record| Kind::from(record.kind))
    }

    fn top(&self, i: usize) -> i32 {
        self.regular_record(i).map_or(0, |record| record.top())
    }

    fn low(&self, i: usize) -> i32 {
        self.regular_record(i).map_or(0, |record| record.low())
    }

    fn digit(&self, i: usize, column: i32) -> u32 {
        self.regular_record(i)
            .map_or(0, |record| record.digit(column))
    }

    fn digits(&self, i: usize, column: i32, digits: &mut [u32]) {
        match self.regular_record(i) {
            Some(record) => record.digits(column, digits),
            None => digits.fill(0),
        }
    }
}

impl<'r, 'p> LimbBatch<'r, 'p> {
    ghost use Rattle.limb_batch.specs.contracts.opened.LimbBatchBatch.TheImpl.{ghosts};

    // The batch that the records spell, or the fault of the first record that has one.
    pub fn try_open(
        records: &'r [LimbRecord],
        pool: &'p [u32],
    ) -> Result<LimbBatch<'r, 'p>, BatchFault>
        ensures refuses { result_err result ≡ opening_fault pool.now records.now }
        ensures first { Told pool.now records.now (result_err result) }
        ensures means { IfOk result (λ b. ghosts.terms b ≡ record_terms pool.now records.now) }
    {
        check_records(pool, records)?;
        Ok(LimbBatch { records, pool })
    }

    // The batch that the records spell; where there is a fault, the fault and a batch of no terms.
    pub fn open(
        records: &'r [LimbRecord],
        pool: &'p [u32],
    ) -> (LimbBatch<'r, 'p>, Option<BatchFault>)
        ensures refuses { result.1 ≡ opening_fault pool.now records.now }
        ensures first { Told pool.now records.now result.1 }
        ensures means { ghosts.terms result.0 ≡ (if is_some result.1 then [] else record_terms pool.now records.now) }
    {
        match LimbBatch::try_open(records, pool) {
            Ok(batch) => (batch, None),
            Err(fault) => {
                let records = &records[..0];
                (LimbBatch { records, pool }, Some(fault))
            }
        }
    }
}
