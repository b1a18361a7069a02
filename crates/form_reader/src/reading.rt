// A form from its line: a reader for each form, and all of them in order.
ghost use Rattle.std.specs.Prelude.{◌≡◌, ◌≢◌, [], ◌∷◌, ◌++◌, All, Ok, IfOk, IfErr};
ghost use Rattle.forms.specs.Forms.{Form as Spelled, spelling, WellFormed, IsLine};
ghost use Rattle.forms.specs.Languages.{Refused, Refuses};
ghost use Rattle.form_reader.specs.Claims.{IsForm, OneReading, OneEnd};
ghost use Rattle.form_reader.specs.Tokens.{left_of, told};
ghost use Rattle.form_reader.specs.Decoded.{form_of};
ghost use Rattle.form_reader.specs.Reading.{term_at, mark_at, ask_at, ask_named_at, infinity_at, zero_at, not_a_number_at, back_at, set_at, reopen_at, any_ask_at, form_at, reading};

use crate::decoded::{Form, Term};
use crate::lexing::{Lexer, Stuck};

#[tactic(auto, unfolding(crate::specs::Reading::not_a_number_at))]
fn not_a_number(line: Lexer<'_>) -> Result<Form<'_>, Stuck>
    ensures { told form_of result ≡ not_a_number_at (left_of line.entry) }
{
    line.named(b"nan")?.end()?;
    Ok(Form::NotANumber)
}

#[tactic(auto, unfolding(crate::specs::Reading::infinity_at))]
fn infinity(line: Lexer<'_>) -> Result<Form<'_>, Stuck>
    ensures { told form_of result ≡ infinity_at (left_of line.entry) }
{
    let (negative, rest) = line.named(b"inf")?.sign()?;
    rest.end()?;
    Ok(Form::Infinity { negative })
}

#[tactic(auto, unfolding(crate::specs::Reading::zero_at))]
fn zero(line: Lexer<'_>) -> Result<Form<'_>, Stuck>
    ensures { told form_of result ≡ zero_at (left_of line.entry) }
{
    let (negative, rest) = line.named(b"zero")?.sign()?;
    rest.end()?;
    Ok(Form::Zero { negative })
}

#[tactic(auto, unfolding(crate::specs::Reading::term_at))]
fn term(line: Lexer<'_>) -> Result<Form<'_>, Stuck>
    ensures { told form_of result ≡ term_at (left_of line.entry) }
{
    let (negative, rest) = line.named(b"term")?.sign()?;
    let (exponent, rest) = rest.integer()?;
    let (precision, rest) = rest.natural()?;
    let (limbs, rest) = rest.limbs()?;
    rest.end()?;
    Ok(Form::Term(Term {
        negative,
        exponent,
        precision,
        limbs,
    }))
}

#[tactic(auto, unfolding(crate::specs::Reading::mark_at))]
fn mark(line: Lexer<'_>) -> Result<Form<'_>, Stuck>
    ensures { told form_of result ≡ mark_at (left_of line.entry) }
{
    let (place, rest) = line.named(b"mark")?.natural()?;
    let (letter, rest) = rest.run()?;
    rest.end()?;
    Ok(Form::Mark { place, letter })
}

#[tactic(auto, unfolding(crate::specs::Reading::back_at))]
fn back(line: Lexer<'_>) -> Result<Form<'_>, Stuck>
    ensures { told form_of result ≡ back_at (left_of line.entry) }
{
    line.named(b"back")?.end()?;
    Ok(Form::Back)
}

#[tactic(auto, unfolding(crate::specs::Reading::set_at))]
fn set(line: Lexer<'_>) -> Result<Form<'_>, Stuck>
    ensures { told form_of result ≡ set_at (left_of line.entry) }
{
    line.named(b"set")?.end()?;
    Ok(Form::Set)
}

#[tactic(auto, unfolding(crate::specs::Reading::reopen_at))]
fn reopen(line: Lexer<'_>) -> Result<Form<'_>, Stuck>
    ensures { told form_of result ≡ reopen_at (left_of line.entry) }
{
    line.named(b"reopen")?.end()?;
    Ok(Form::Reopen)
}

#[tactic(auto, unfolding(crate::specs::Reading::ask_at))]
fn ask(line: Lexer<'_>) -> Result<Form<'_>, Stuck>
    ensures { told form_of result ≡ ask_at (left_of line.entry) }
{
    let (width, rest) = line.named(b"ask")?.natural()?;
    let (floor, rest) = rest.floor()?;
    let (mode, rest) = rest.run()?;
    rest.end()?;
    Ok(Form::Ask { width, floor, mode })
}

#[tactic(auto, unfolding(crate::specs::Reading::ask_named_at))]
fn ask_named(line: Lexer<'_>) -> Result<Form<'_>, Stuck>
    ensures { told form_of result ≡ ask_named_at (left_of line.entry) }
{
    let (name, rest) = line.named(b"ask")?.run()?;
    let (mode, rest) = rest.run()?;
    rest.end()?;
    Ok(Form::AskNamed { name, mode })
}

// Where a reader is stuck; a form that it gives is returned.
macro_rules! missed {
    ($read:expr) => {
        match $read {
            Ok(form) => return Ok(form),
            Err(stuck) => stuck,
        }
    };
}

// An ask on a grid of a width, or on one that has a name.
fn any_ask(line: Lexer<'_>) -> Result<Form<'_>, Stuck>
    ensures { told form_of result ≡ any_ask_at (left_of line.entry) }
{
    let stuck = missed!(ask(line));
    Err(stuck.max(missed!(ask_named(line))))
}

// Any form, those of the last letters of the alphabet first: most lines are terms. A line that spells none is stuck at
// the furthest of the places at which the readers are.
#[tactic(auto, unfolding(crate::specs::Reading::form_at))]
fn form(line: Lexer<'_>) -> Result<Form<'_>, Stuck>
    ensures { told form_of result ≡ form_at (left_of line.entry) }
{
    let stuck = missed!(zero(line));
    let stuck = stuck.max(missed!(term(line)));
    let stuck = stuck.max(missed!(set(line)));
    let stuck = stuck.max(missed!(reopen(line)));
    let stuck = stuck.max(missed!(not_a_number(line)));
    let stuck = stuck.max(missed!(mark(line)));
    let stuck = stuck.max(missed!(infinity(line)));
    let stuck = stuck.max(missed!(back(line)));
    Err(stuck.max(missed!(any_ask(line))))
}

// The form that a line spells, without the byte 10 that ends it, or the first place at which no form can go on.
pub fn read_form(line: &[u8]) -> Result<Form<'_>, Stuck>
    ensures equals { told form_of result ≡ reading line.now }
    ensures accepts { IfOk result (λ form. WellFormed (form_of form)
        × (line.now ++ 10 ∷ [] ≡ spelling (form_of form))) }
    // The place, whatever bytes the line has; and, if it has no byte 10, that of the line as it stands in a text.
    ensures stuck { IfErr result (λ stuck. Refused IsForm line.now stuck.place) }
    ensures refuses { All (λ b. b ≢ 10) line.now →
        IfErr result (λ stuck. Refuses IsLine (line.now ++ 10 ∷ []) stuck.place) }
    ensures complete { (f : Spelled) → WellFormed f → line.now ++ 10 ∷ [] ≡ spelling f → told form_of result ≡ Ok f }
{
    form(Lexer::new(line))
}

// A spelling is that of one form only, and ends where its line ends.
pub fn spellings_stand()
    ensures one_reading { OneReading }
    ensures one_end { OneEnd }
{}
