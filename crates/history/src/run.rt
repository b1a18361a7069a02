// One entry: a list of calls, from the laying of a new sheet on.

ghost use Rattle.history.specs.Law.{calls_run, EntryLaw};

use crate::any_sheet::Sheet;
use crate::call::SheetCall;
use crate::outcome::Outcome;

// Runs the calls on a new sheet, in order, as many as `outcomes` has room for, and writes what each got.
pub fn run(calls: &[SheetCall], outcomes: &mut [Outcome]) -> Sheet
    ensures { EntryLaw (calls_run calls.now outcomes.old) outcomes.old outcomes.new result }
{
    let turns = calls.len().min(outcomes.len());
    let mut sheet = Sheet::new();
    for (i, &call) in calls[..turns].iter().enumerate() {
        let (next, outcome) = sheet.call(call);
        sheet = next;
        // By index: of a slice written through iter_mut().zip(..) a proof knows no element.
        outcomes[i] = outcome;
    }
    sheet
}
