// Entries from their terms to their answers: three batches, marks and an undo, the setter's ask downward and the reader's upward,
// nearest on two grids, both neighbours at once, and a sheet that is reopened.

use crate::lines;
use ask::{ask, ask_both};
use batch::{Batch, BatchFault, Kind};
use grid::{Format, FreeGrid, Grid, Mode, NamedGrid};
use limb_batch::{LimbBatch, LimbRecord};
use list_batch::{ListBatch, Pair, Scaled};
use sheet::sheet::{OpenSheet, SetSheet};
use sheet_lines::{lay, mark, reopen, set, undo};
use std::io;

// Pi in 96 digits, the least significant limb first; 5; 1.
const POOL: [u32; 5] = [
    0xc4c6_628b,
    0x2168_c234,
    0xc90f_daa2,
    0xa000_0000,
    0x8000_0000,
];

const ASKS_IN_BINARY64: [(&str, Mode); 3] = [
    ("of the setter, downward, binary64", Mode::Downward),
    ("of the reader, upward, binary64", Mode::Upward),
    ("nearest, binary64", Mode::Nearest),
];

// One ask, of one sheet about one batch: passed on as the ask takes it.
fn ask_once<B: Batch, G: Grid>(
    rt: &impl Print,
    name: &str,
    sheet: &SetSheet,
    batch: &B,
    grid: &G,
    mode: Mode,
) -> io::Result<()> {
    let mut limbs = [0u32; 3];
    let result = ask(sheet, batch, grid, mode as u32, &mut limbs);
    print!(rt; "  ask {name}: ")?;
    lines::answer(rt, result, &limbs)
}

// Both neighbours of the exact sum, from one call.
fn neighbours<B: Batch, G: Grid>(
    rt: &impl Print,
    sheet: &SetSheet,
    batch: &B,
    grid: &G,
) -> io::Result<()> {
    let mut low = [0u32; 2];
    let mut high = [0u32; 2];
    match ask_both(sheet, batch, grid, &mut low, &mut high) {
        Ok((down, up)) => {
            print!(rt; "  lower neighbour, 24 bits: ")?;
            lines::answer(rt, Ok(down), &low)?;
            print!(rt; "  upper neighbour, 24 bits: ")?;
            lines::answer(rt, Ok(up), &high)
        }
        Err(fault) => lines::answer(rt, Err(fault), &low),
    }
}

fn ask_on_both_grids<B: Batch, F: Grid, G: Grid>(
    rt: &impl Print,
    sheet: &SetSheet,
    batch: &B,
    binary64: &F,
    single: &G,
) -> io::Result<()> {
    for (name, mode) in ASKS_IN_BINARY64 {
        ask_once(rt, name, sheet, batch, binary64, mode)?;
    }
    ask_once(rt, "nearest, 24 bits", sheet, batch, single, Mode::Nearest)?;
    neighbours(rt, sheet, batch, single)
}

// The asks of one entry, on binary64 and on the free grid of 24 bits.
fn ask_all<B: Batch>(rt: &impl Print, sheet: &SetSheet, batch: &B) -> io::Result<()> {
    let binary64 = NamedGrid::of(Format::Binary64);
    match FreeGrid::new(24) {
        Ok(single) => ask_on_both_grids(rt, sheet, batch, &binary64, &single),
        Err(fault) => lines::refused_grid(rt, "24 bits", fault),
    }
}

// The same of a batch that was opened, or why it was refused.
fn ask_opened<B: Batch>(
    rt: &impl Print,
    sheet: &SetSheet,
    opened: &Result<B, BatchFault>,
) -> io::Result<()> {
    match opened {
        Ok(batch) => ask_all(rt, sheet, batch),
        Err(fault) => lines::refused_batch(rt, "batch", *fault),
    }
}

// Marks two terms and takes one back, turns the third.
fn mark_with_undo(rt: &impl Print, sheet: &mut OpenSheet) -> io::Result<()> {
    mark(rt, sheet, 0, 1)?;
    mark(rt, sheet, 1, 1)?;
    undo(rt, sheet)?;
    mark(rt, sheet, 2, 2)
}

// Pi to 96 digits, less 2^-2000; then with 5 * 2^38 too, after the sheet is reopened.
fn from_limbs(rt: &impl Print) -> io::Result<()> {
    println!(rt; "first entry: pi - 2^-2000, from limbs")?;
    let records = [
        LimbRecord::new(Kind::Positive, 2, 96, 0),
        LimbRecord::new(Kind::Positive, 41, 3, 3),
        LimbRecord::new(Kind::Positive, -1999, 1, 4),
    ];
    let opened = LimbBatch::try_open(&records, &POOL);
    let mut sheet = lay(rt)?;
    mark_with_undo(rt, &mut sheet)?;
    let set_sheet = set(rt, sheet)?;
    ask_opened(rt, &set_sheet, &opened)?;
    let mut reopened = reopen(rt, set_sheet)?;
    mark(rt, &mut reopened, 1, 1)?;
    let again = set(rt, reopened)?;
    ask_opened(rt, &again, &opened)
}

// A sheet laid anew, with the first two places in.
fn laid_anew(rt: &impl Print) -> io::Result<SetSheet> {
    let mut sheet = lay(rt)?;
    mark(rt, &mut sheet, 0, 1)?;
    mark(rt, &mut sheet, 1, 1)?;
    set(rt, sheet)
}

fn from_a_pair(rt: &impl Print) -> io::Result<()> {
    println!(rt; "second entry: pi, from a pair of floats")?;
    let pair = Pair {
        head: 3.141592653589793,
        tail: 1.2246467991473532e-16,
    };
    let rows = [pair.row()];
    let sheet = laid_anew(rt)?;
    ask_opened(rt, &sheet, &ListBatch::open(&rows))
}

fn from_scaled_integers(rt: &impl Print) -> io::Result<()> {
    println!(rt; "third entry: 5 * 2^38 + 2^-5, from scaled integers")?;
    let records = [Scaled::new(5, 38), Scaled::new(1, -5)];
    let sheet = laid_anew(rt)?;
    ask_opened(rt, &sheet, &ListBatch::open(&records))
}

pub fn walk(rt: &impl Print) -> io::Result<()> {
    from_limbs(rt)?;
    from_a_pair(rt)?;
    from_scaled_integers(rt)
}
