// The limits of a batch.

// How many terms it may have.
pub const MOST_TERMS: usize = 1024;

// How many digits a regular term may have.
pub const MOST_DIGITS: u64 = 4096;

// How far from 0 its top weight may be.
pub const FARTHEST_TOP: i64 = 1_000_000_000;
