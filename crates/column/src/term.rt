// A term that counts.
ghost use Rattle.std.specs.Prelude.{◌≡◌, true, ◌<◌, ◌≤◌, int_lt, int_le, unsigned_abs};
ghost use Rattle.column.specs.Columns.{column_of};
ghost use Rattle.column.specs.Edges.{edge_column, occupies_next, highest_below, Spanning};

use batch::Batch;

// A column has 2^5 weights.
pub const COLUMN_BITS: u32 = 5;

// Its place in the batch, the sign that it counts with, and the columns that it occupies: from the first, which is the highest, down to the last.
// The place is a number: a batch has no slice to borrow a term from.
#[derive(Clone, Copy, Default)]
pub struct CountedTerm {
    pub place: u16,
    pub negative: bool,
    pub first: i32,
    pub last: i32,
}

// An end of a term's columns.
#[derive(Clone, Copy)]
pub enum Edge {
    First,
    Last,
}

// The column that a weight lies in.
fn column_of(weight: i64) -> i32
    requires few { unsigned_abs weight ≤ 2000000000 }
    ensures { result ≡ column_of weight }
{
    (weight >> COLUMN_BITS) as i32
}

// The term at a place of a batch, with the sign that it counts with.
pub fn counted_term<B: Batch>(batch: &B, place: usize, negative: bool) -> CountedTerm
    requires { place < 1024 }
    ensures place { result.place ≡ place }
    ensures sign { result.negative ≡ negative }
    ensures spans { Spanning (B.Batch.terms batch.now) result }
{
    CountedTerm {
        place: place as u16,
        negative,
        first: column_of(i64::from(batch.top(place)) - 1),
        last: column_of(i64::from(batch.low(place))),
    }
}

impl CountedTerm {
    pub fn edge(&self, edge: Edge) -> i32
        ensures { result ≡ edge_column edge self.now }
    {
        match edge {
            Edge::First => self.first,
            Edge::Last => self.last,
        }
    }

    // Does it occupy the column right below this one?
    pub fn occupies_next(&self, column: i32) -> bool
        ensures { result ≡ occupies_next column self.now }
    {
        self.last < column && column - 1 <= self.first
    }

    // The highest column below this one that it occupies.
    pub fn highest_below(&self, column: i32) -> Option<i32>
        ensures { result ≡ highest_below column self.now }
    {
        if self.last < column {
            Some(self.first.min(column - 1))
        } else {
            None
        }
    }
}
