// One ask of a list.

ghost use Rattle.std.specs.Prelude.{[], map, slice_index_or};
ghost use Rattle.sheet.specs.Model.{asking};
ghost use Rattle.history.specs.declared.any_sheet.Sheet.TheVariants.{Set};
ghost use Rattle.ask_history.specs.Data.{question_of};
ghost use Rattle.ask_history.specs.Law.{CallLaw};

use crate::answered::AnsweredAsk;
use crate::call::Asking;
use crate::no_terms::NoTerms;
use crate::outcome::Outcome;
use ask::ask;
use batch::Batch;
use grid::Grid;
use sheet::sheet::SetSheet;

// How many limbs an ask of a list lends at most.
const MOST_LIMBS: usize = 128;

// Asks the sheet about this batch; the limbs are held in the outcome itself.
fn ask_about<B: Batch, G: Grid + Copy>(sheet: &SetSheet, batch: &B, wanted: Asking<G>) -> Outcome
    ensures { CallLaw (Set sheet.now) (asking (question_of G.Grid.spacing G.Grid.widest (B.Batch.terms batch.now) wanted)) (Set sheet.now) result }
{
    let lent = wanted.limbs.min(MOST_LIMBS);
    let mut limbs = [0u32; MOST_LIMBS];
    let answer = ask(sheet, batch, &wanted.grid, wanted.mode, &mut limbs[..lent])?;
    Ok(Some(AnsweredAsk {
        answer,
        limbs,
        lent,
    }))
}

// Asks the sheet about the batch of the list that the ask names by its number.
pub fn ask_named<'a, B: Batch, G: Grid + Copy>(
    sheet: &SetSheet,
    batches: &[&'a B],
    wanted: Asking<G>,
) -> Outcome
    ensures { CallLaw (Set sheet.now) (asking (question_of G.Grid.spacing G.Grid.widest (slice_index_or (map (λ b. B.Batch.terms b.now) batches.now) wanted.batch []) wanted)) (Set sheet.now) result }
{
    match batches.get(wanted.batch) {
        Some(batch) => ask_about(sheet, *batch, wanted),
        None => ask_about(sheet, &NoTerms {}, wanted),
    }
}
