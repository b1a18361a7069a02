// One entry: a list of calls, from the laying of a new sheet on.

ghost use Rattle.std.specs.Prelude.{map};
ghost use Rattle.ask_history.specs.Law.{calls_run, EntryLaw};

use crate::any_sheet::{call, new_sheet};
use crate::call::Call;
use crate::outcome::Outcome;
use batch::Batch;
use grid::Grid;
use history::any_sheet::Sheet;

// Runs the calls on a new sheet, in order, as many as `outcomes` has room for, and writes what each got. Their asks name batches by their numbers in `batches`.
pub fn run<'a, B: Batch, G: Grid + Copy>(
    batches: &[&'a B],
    calls: &[Call<G>],
    outcomes: &mut [Outcome],
) -> Sheet
    ensures { EntryLaw (calls_run G.Grid.spacing G.Grid.widest (map (λ b. B.Batch.terms b.now) batches.now) calls.now outcomes.old) outcomes.old outcomes.new result }
{
    // A loop beside that of history: one for both would take the call as a closure, and promise a relation between a list of calls and two sheets.
    let turns = calls.len().min(outcomes.len());
    let mut sheet = new_sheet();
    for (i, &wanted) in calls[..turns].iter().enumerate() {
        let (next, outcome) = call(sheet, batches, wanted);
        sheet = next;
        // By index: of a slice written through iter_mut().zip(..) a proof knows no element.
        outcomes[i] = outcome;
    }
    sheet
}
