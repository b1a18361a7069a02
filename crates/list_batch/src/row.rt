// A row of two binary64 bit patterns, each of them a term.
ghost use Rattle.std.specs.Prelude.{◌≡◌};
ghost use Rattle.list_batch.specs.WordTerms.{spelled};
ghost use Rattle.list_batch.specs.BitPatterns.{bits_term};
ghost use Rattle.list_batch.specs.Rows.{row_parts, row_lawful};

use crate::record::Record;
use crate::word_term::WordTerm;

#[derive(Clone, Copy)]
pub struct Row {
    pub head: u64,
    pub tail: u64,
}

// What a fraction has before its 52 bits.
const LEADING_BIT: u64 = 0x10_0000_0000_0000;

const LAST_FIELD: u64 = 2047;

const SUBNORMAL_WEIGHT: i16 = -1074;

fn term_of_bits(bits: u64) -> WordTerm
    ensures { spelled result ≡ bits_term bits }
{
    let negative = bits >> 63 == 1;
    let field = (bits >> 52) % 2048;
    let fraction = bits % LEADING_BIT;
    match (field, fraction) {
        (LAST_FIELD, 0) => WordTerm::Infinite(negative),
        (LAST_FIELD, _) => WordTerm::NotANumber,
        (0, 0) => WordTerm::Zero(negative),
        (0, _) => WordTerm::Regular {
            negative,
            magnitude: fraction,
            weight: SUBNORMAL_WEIGHT,
        },
        _ => WordTerm::Regular {
            negative,
            magnitude: LEADING_BIT + fraction,
            weight: field as i16 - 1075,
        },
    }
}

impl Record for Row {
    const TERMS: usize = 2;

    ghost TERMS = { 2 };

    ghost parts = { row_parts };

    ghost lawful = { row_lawful };

    fn term(&self, part: usize) -> Option<WordTerm> {
        match part {
            0 => Some(term_of_bits(self.head)),
            1 => Some(term_of_bits(self.tail)),
            _ => None,
        }
    }
}
