// Three batches behind one interface, what each tells of its terms, and records that are refused.

use crate::lines;
use batch::{Batch, BatchFault, Kind, regular_count};
use limb_batch::{LimbBatch, LimbRecord};
use list_batch::{ListBatch, Pair, Scaled};
use std::io;

// The limbs of 5 (three digits), of 1 + 2^-32 (33 digits), and one whose top bit is clear.
const POOL: [u32; 4] = [0xa000_0000, 0x8000_0000, 0x8000_0000, 1];

// Prints a term's kind, and a regular term's weights and two of its digits.
fn term<B: Batch>(rt: &impl Print, b: &B, i: usize) -> io::Result<()> {
    let kind = b.kind(i).number();
    let (top, low) = (b.top(i), b.low(i));
    let (high, next) = (b.digit(i, 0), b.digit(i, -1));
    println!(rt;
        "    term {i}: kind {kind}, top {top}, low {low}, column 0 {high:08x}, column -1 {next:08x}"
    )
}

fn describe<B: Batch>(rt: &impl Print, name: &str, b: &B) -> io::Result<()> {
    let count = b.count();
    let regular = regular_count(b);
    println!(rt; "  {name}: {count} terms, {regular} regular")?;
    // By number: the interface of a batch has no iterator.
    for i in 0..count {
        term(rt, b, i)?;
    }
    Ok(())
}

// Prints the terms of a batch, or why there is none.
fn show<B: Batch + Drop>(
    rt: &impl Print,
    name: &str,
    opened: Result<B, BatchFault>,
) -> io::Result<()> {
    match opened {
        Ok(batch) => describe(rt, name, &batch),
        Err(fault) => lines::refused_batch(rt, name, fault),
    }
}

// Prints why there is no batch.
fn show_refusal<B: Batch + Drop>(
    rt: &impl Print,
    name: &str,
    opened: Result<B, BatchFault>,
) -> io::Result<()> {
    match opened {
        Ok(_) => println!(rt; "  {name}: opened"),
        Err(fault) => lines::refused_batch(rt, name, fault),
    }
}

fn limbs(rt: &impl Print) -> io::Result<()> {
    let records = [
        LimbRecord::new(Kind::Positive, 3, 3, 0),
        LimbRecord::new(Kind::Negative, 1, 33, 1),
        LimbRecord::new(Kind::NegativeZero, 0, 0, 0),
    ];
    show(
        rt,
        "limbs: 5, -(1 + 2^-32), -0",
        LimbBatch::try_open(&records, &POOL),
    )
}

fn pairs(rt: &impl Print) -> io::Result<()> {
    let pair = Pair {
        head: 0.5,
        tail: -2.0,
    };
    let rows = [pair.row()];
    show(rt, "a pair: 0.5, -2", ListBatch::open(&rows))
}

fn scaled(rt: &impl Print) -> io::Result<()> {
    let records = [Scaled::new(-5, 38), Scaled::new(0, 7)];
    show(rt, "scaled: -5 * 2^38, 0 * 2^7", ListBatch::open(&records))
}

// Opens one good record and then one with a fault.
fn try_record(rt: &impl Print, name: &str, record: LimbRecord) -> io::Result<()> {
    let records = [LimbRecord::new(Kind::NotANumber, 0, 0, 0), record];
    show_refusal(rt, name, LimbBatch::try_open(&records, &POOL))
}

fn refused_records(rt: &impl Print) -> io::Result<()> {
    let unknown = LimbRecord::new(Kind::Absent, 0, 1, 0);
    try_record(rt, "kind 7", unknown)?;
    try_record(
        rt,
        "precision 4097",
        LimbRecord::new(Kind::Positive, 0, 4097, 0),
    )?;
    try_record(
        rt,
        "exponent 10^9 + 1",
        LimbRecord::new(Kind::Positive, 1_000_000_001, 1, 0),
    )?;
    try_record(
        rt,
        "limbs past the pool",
        LimbRecord::new(Kind::Positive, 0, 64, usize::MAX),
    )?;
    try_record(
        rt,
        "a clear top bit",
        LimbRecord::new(Kind::Negative, 0, 32, 3),
    )?;
    try_record(
        rt,
        "a bit below the precision",
        LimbRecord::new(Kind::Positive, 0, 2, 0),
    )
}

fn too_many(rt: &impl Print) -> io::Result<()> {
    let rows = [Pair {
        head: 1.0,
        tail: 0.0,
    }
    .row(); 513];
    show_refusal(rt, "513 pairs", ListBatch::open(&rows))
}

pub fn walk(rt: &impl Print) -> io::Result<()> {
    println!(rt; "batches")?;
    limbs(rt)?;
    pairs(rt)?;
    scaled(rt)?;
    refused_records(rt)?;
    too_many(rt)
}
