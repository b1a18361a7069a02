// Marks that stand past the last term of a batch.
ghost use Rattle.std.specs.Prelude.{◌≡◌, ◌<◌, ◌||◌, false, length, fold, position, IfSome};
ghost use Rattle.sheet.specs.Shown.{shown};
ghost use Rattle.survey.specs.Places.{lowest_marked, is_marked};

use sheet::mark::Mark;
use sheet::marks::Marks;

fn is_marked(mark: Mark) -> bool
    ensures { result ≡ is_marked mark }
{
    mark != Mark::Out
}

// Is any of them marked? All are looked at with no early end, so that the compiled loop takes many at once.
fn any_marked(marks: &[Mark]) -> bool
    ensures { result ≡ fold (λ any m. any || is_marked m) false marks.now }
{
    marks.iter().fold(false, |any, mark| any | is_marked(*mark))
}

// The number of the first that is marked.
fn first_marked(marks: &[Mark]) -> Option<usize>
    ensures first { result ≡ position is_marked marks.now }
    ensures within { IfSome result (λ at. at < length marks.now) }
{
    marks.iter().position(|mark| is_marked(*mark))
}

// The lowest marked place that is not below a number. Most often there is none.
pub fn lowest_marked_from(marks: &Marks, from: usize) -> Option<usize>
    ensures { result ≡ lowest_marked (shown marks.now) from }
{
    let left = marks.from(from);
    if !any_marked(left) {
        return None;
    }
    let at = first_marked(left)?;
    Some(from + at)
}
