// A list batch: term i is term i % t of record i / t, where each record means t terms.
ghost use Rattle.std.specs.Prelude.{◌≡◌, ◌≤◌, length, IfOk};
ghost use Rattle.std.specs.Result.{result_err};
ghost use Rattle.std.specs.Option.{option_map};
ghost use Rattle.std.specs.List.{slice_get};
ghost use Rattle.batch.specs.Term.{most_terms};
ghost use Rattle.list_batch.specs.WordTerms.{spelled};
ghost use Rattle.list_batch.specs.Lists.{flat, list_fault, PartsInOrder};
ghost use Rattle.list_batch.specs.ListLimits.{flat_batchable};

use crate::record::Record;
use crate::word_term::WordTerm;
use batch::{Batch, BatchFault, Kind, MOST_TERMS};

#[derive(Drop)]
pub struct ListBatch<'a, R: Record> {
    records: &'a [R],
    ghost few: { length (flat R.Record.parts records.now) ≤ most_terms },
}

impl<'a, R: Record> ListBatch<'a, R> {
    // The batch of all terms of the records, unless they are too many.
    pub fn open(records: &'a [R]) -> Result<ListBatch<'a, R>, BatchFault>
        ensures refuses { result_err result ≡ list_fault (length (flat R.Record.parts records.now)) }
        ensures means { IfOk result (λ b. flat R.Record.parts b.records.now ≡ flat R.Record.parts records.now) }
        ensures places { IfOk result (λ b. PartsInOrder R.Record.TERMS R.Record.parts records.now (flat R.Record.parts b.records.now)) }
    {
        if records.len() > MOST_TERMS / R::TERMS {
            return Err(BatchFault::TooManyTerms);
        }
        Ok(ListBatch { records })
    }

    fn term(&self, i: usize) -> Option<WordTerm>
        ensures { option_map spelled result ≡ slice_get (flat R.Record.parts self.now.records.now) i }
    {
        let (place, part) = (i / R::TERMS, i % R::TERMS);
        self.records.get(place)?.term(part)
    }
}

impl<'a, R: Record> Batch for ListBatch<'a, R> {
    ghost terms = { λ b. flat R.Record.parts b.records.now };

    ghost limited = { λ b. flat_batchable R.Record.lawful b.records.now b.few };

    fn count(&self) -> usize {
        self.records.len() * R::TERMS
    }

    fn kind(&self, i: usize) -> Kind {
        self.term(i).map_or(Kind::Absent, |term| term.kind())
    }

    fn top(&self, i: usize) -> i32 {
        self.term(i).map_or(0, |term| term.top())
    }

    fn low(&self, i: usize) -> i32 {
        self.term(i).map_or(0, |term| term.low())
    }

    fn digit(&self, i: usize, column: i32) -> u32 {
        self.term(i).map_or(0, |term| term.digit(column))
    }

    fn digits(&self, i: usize, column: i32, digits: &mut [u32]) {
        match self.term(i) {
            Some(term) => term.digits(column, digits),
            None => digits.fill(0),
        }
    }
}
