// List batches: the terms of a lent slice of records, each of one or two terms.
#![tactic(auto)]

mod list;
mod pair;
mod record;
mod row;
mod scaled;
mod word_term;

pub use list::ListBatch;
pub use pair::Pair;
pub use record::Record;
pub use row::Row;
pub use scaled::Scaled;
pub use word_term::WordTerm;
