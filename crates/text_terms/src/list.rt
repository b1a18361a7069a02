// The terms of one text: records over a pool of limbs, both held here.
ghost use Rattle.std.specs.Prelude.{◌≡◌, ◌≤◌, false, length, take, is_some};
ghost use Rattle.batch.specs.Term.{most_terms};
ghost use Rattle.fields.specs.Held.{limbs_held};
ghost use Rattle.limb_batch.specs.Opening.{opening_fault};
ghost use Rattle.text_terms.specs.Meaning.{most_limbs, regular_record};

use crate::special::Special;
use batch::{BatchFault, Kind, MOST_TERMS};
use fields::Limbs;
use limb_batch::{LimbBatch, LimbRecord};

// How many limbs a list holds. A text of 49,152 bytes has no more: a limb takes nine.
pub const MOST_LIMBS: usize = 5461;

// The first `count` records and the first `used` limbs of the pool are in use.
#[derive(Drop)]
pub struct TermList {
    records: [LimbRecord; MOST_TERMS],
    count: usize,
    pool: [u32; MOST_LIMBS],
    used: usize,
    ghost few: { count ≤ most_terms },
    ghost short: { used ≤ most_limbs },
    ghost faultless: { is_some (opening_fault (take used pool) (take count records)) ≡ false },
}

// The record of a regular term whose limbs begin at this place.
fn regular_record(negative: bool, exponent: i64, precision: u64, place: usize) -> LimbRecord
    ensures { result ≡ regular_record negative exponent precision place }
{
    LimbRecord::new(Kind::regular(negative), exponent, precision, place)
}

// Writes limbs over as many places.
fn copy_limbs(places: &mut [u32], limbs: Limbs<'_>)
    requires { length places.old ≡ length (limbs_held limbs) }
    ensures { places.new ≡ limbs_held limbs.entry }
{
    for (i, place) in places.iter_mut().enumerate() {
        *place = limbs.at(i);
    }
}

impl TermList {
    ghost use Rattle.std.specs.Prelude.{◌+◌, ◌<◌, [], ◌∷◌, ◌++◌, nat_eq, IfOk};
    ghost use Rattle.std.specs.Result.{result_err};
    ghost use Rattle.limb_batch.specs.Records.{record_term};
    ghost use Rattle.limb_batch.specs.Opening.{record_fault, fault_at};
    ghost use Rattle.limb_batch.specs.contracts.opened.LimbBatchBatch.TheImpl.{ghosts};
    ghost use Rattle.text_terms.specs.Meaning.{special_term, term_meant, term_fault};
    ghost use Rattle.text_terms.specs.TermLists.{terms_of, limbs_used, push_fault, terms_after, limbs_after};
    ghost use Rattle.text_terms.specs.TermLists.{limbs_behind, pool_with, pool_seen};

    pub fn new() -> TermList
        ensures terms { terms_of result ≡ [] }
        ensures limbs { limbs_used result ≡ 0 }
    {
        TermList {
            records: [LimbRecord::new(Kind::Absent, 0, 0, 0); MOST_TERMS],
            count: 0,
            pool: [0; MOST_LIMBS],
            used: 0,
        }
    }

    pub fn len(&self) -> usize
        ensures { result ≡ length (terms_of self.now) }
    {
        self.count
    }

    pub fn is_empty(&self) -> bool
        ensures { result ≡ nat_eq (length (terms_of self.now)) 0 }
    {
        self.count == 0
    }

    // Adds a term that is not regular.
    pub fn push(&mut self, special: Special) -> Result<(), BatchFault>
        ensures refuses { result_err result ≡ push_fault (terms_of self.old) None }
        ensures terms { terms_of self.new
            ≡ terms_after (terms_of self.old) (special_term special) (result_err result) }
        ensures limbs { limbs_used self.new ≡ limbs_used self.old }
    {
        self.check_room()?;
        self.keep(LimbRecord::new(special.kind(), 0, 0, 0), 0);
        Ok(())
    }

    // Adds a regular term, with the limbs of its significand. The crate that reads a text meets the `requires`: the
    // limbs of all its lines are no more.
    pub fn push_regular(
        &mut self,
        negative: bool,
        exponent: i64,
        precision: u64,
        limbs: Limbs<'_>,
    ) -> Result<(), BatchFault>
        requires { limbs_used self.old + length (limbs_held limbs) ≤ MOST_LIMBS }
        ensures refuses { result_err result
            ≡ push_fault (terms_of self.old) (term_fault exponent precision (limbs_held limbs.entry)) }
        ensures terms { terms_of self.new
            ≡ terms_after (terms_of self.old) (term_meant negative exponent precision (limbs_held limbs.entry))
            (result_err result) }
        ensures limbs { limbs_used self.new
            ≡ limbs_after (limbs_used self.old) (length (limbs_held limbs.entry)) (result_err result) }
    {
        self.check_room()?;
        self.write_limbs(limbs);
        let record = self.checked_record(negative, exponent, precision, limbs.len())?;
        self.keep(record, limbs.len());
        Ok(())
    }

    // All terms, as a batch.
    pub fn batch(&self) -> LimbBatch<'_, '_>
        ensures { ghosts.terms result ≡ terms_of self.now }
    {
        // No record that is kept has a fault.
        LimbBatch::try_open(&self.records[..self.count], &self.pool[..self.used]).unwrap()
    }

    fn check_room(&self) -> Result<(), BatchFault>
        ensures { result_err result ≡ push_fault (terms_of self.now) None }
    {
        if self.count >= MOST_TERMS {
            return Err(BatchFault::TooManyTerms);
        }
        Ok(())
    }

    // Writes limbs behind those in use.
    fn write_limbs(&mut self, limbs: Limbs<'_>)
        requires { limbs_used self.old + length (limbs_held limbs) ≤ MOST_LIMBS }
        ensures written { limbs_behind (length (limbs_held limbs.entry)) self.new ≡ limbs_held limbs.entry }
        ensures terms { terms_of self.new ≡ terms_of self.old }
        ensures limbs { limbs_used self.new ≡ limbs_used self.old }
    {
        let end = self.used + limbs.len();
        copy_limbs(&mut self.pool[self.used..end], limbs);
    }

    // The pool that a record of this precision sees: of so many limbs that are written behind those in use it sees
    // all, or none where the record takes another number of them.
    fn pool_seen(&self, precision: u64, limbs: usize) -> &[u32]
        requires { limbs_used self.now + limbs ≤ MOST_LIMBS }
        ensures { result.now ≡ pool_seen precision limbs self.now }
    {
        if limbs as u64 == precision.div_ceil(32) {
            &self.pool[..self.used + limbs]
        } else {
            &self.pool[..self.used]
        }
    }

    // The record of a regular term with so many limbs, which are written behind those in use, if it has no fault.
    fn checked_record(
        &self,
        negative: bool,
        exponent: i64,
        precision: u64,
        limbs: usize,
    ) -> Result<LimbRecord, BatchFault>
        requires { limbs_used self.now + limbs ≤ MOST_LIMBS }
        ensures refuses { result_err result
            ≡ fault_at (length (terms_of self.now)) (term_fault exponent precision (limbs_behind limbs self.now)) None }
        ensures faultless { IfOk result (λ r. record_fault (pool_with limbs self.now) r ≡ None) }
        ensures means { IfOk result (λ r. record_term (pool_with limbs self.now) r
            ≡ term_meant negative exponent precision (limbs_behind limbs self.now)) }
    {
        let record = regular_record(negative, exponent, precision, self.used);
        match LimbBatch::try_open(&[record], self.pool_seen(precision, limbs)) {
            Ok(_) => Ok(record),
            Err(BatchFault::AtRecord(_, fault)) => Err(BatchFault::AtRecord(self.count, fault)),
            Err(fault) => Err(fault),
        }
    }

    // Keeps a record, and so many of the limbs that are written behind those in use.
    fn keep(&mut self, record: LimbRecord, limbs: usize)
        requires few { length (terms_of self.old) < MOST_TERMS }
        requires room { limbs_used self.old + limbs ≤ MOST_LIMBS }
        requires faultless { record_fault (pool_with limbs self.old) «record» ≡ None }
        ensures terms { terms_of self.new
            ≡ terms_of self.old ++ record_term (pool_with limbs self.old) «record» ∷ [] }
        ensures limbs { limbs_used self.new ≡ limbs_used self.old + limbs }
    {
        self.records[self.count] = record;
        self.count += 1;
        self.used += limbs;
    }
}
