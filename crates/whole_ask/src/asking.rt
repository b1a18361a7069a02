// The batch, the grid, the sheet and the ask, in this order.
ghost use Rattle.std.specs.Prelude.{◌≡◌, true, length, is_err};
ghost use Rattle.sheet.specs.Shown.{shown};
ghost use Rattle.answers.specs.Asked.{question, asked};
ghost use Rattle.ask.specs.Told.{told};
ghost use Rattle.whole_ask.specs.Asked.{asked_whole};
ghost use Rattle.whole_ask.specs.Told.{told_whole};

use crate::fault::WholeFault;
use ask::{Answer, AskFault, ask};
use batch::Batch;
use grid::{FreeGrid, Grid};
use limb_batch::{LimbBatch, LimbRecord};
use sheet::sheet::SetSheet;
use whole_sheet::first_in;

// Makes the ask once, and `repeats` times more: each time it gets the same.
fn repeat_ask<B: Batch, G: Grid>(
    sheet: &SetSheet,
    batch: &B,
    grid: &G,
    mode: u32,
    repeats: u32,
    limbs: &mut [u32],
) -> Result<Answer, AskFault>
    ensures equals { told result limbs.new ≡ asked (shown sheet.now.marks) (question (B.Batch.terms batch.now) (G.Grid.spacing grid.now) (G.Grid.widest grid.now) mode (length limbs.old)) }
    ensures refused { is_err result ≡ true → limbs.new ≡ limbs.old }
{
    let mut result = ask(sheet, batch, grid, mode, limbs);
    for _ in 0..repeats {
        result = ask(sheet, batch, grid, mode, limbs);
    }
    result
}

// Opens the batch, and asks for the sum of all its terms on the free grid of this width, once and `repeats` times more. A refusal leaves the limbs as they were.
// Width and mode are numbers that a caller hands in, and one that means nothing is refused. All go as the benchmark's C entry gets them, each by itself.
pub fn ask_whole(
    terms: &[LimbRecord],
    pool: &[u32],
    width: u32,
    mode: u32,
    repeats: u32,
    limbs: &mut [u32],
) -> Result<Answer, WholeFault>
    ensures equals { told_whole result limbs.new ≡ asked_whole terms.now pool.now width mode (length limbs.old) }
    ensures refused { is_err result ≡ true → limbs.new ≡ limbs.old }
{
    let batch = LimbBatch::try_open(terms, pool)?;
    let grid = FreeGrid::new(width)?;
    let sheet = first_in(batch.count() as u32)?;
    Ok(repeat_ask(&sheet, &batch, &grid, mode, repeats, limbs)?)
}
