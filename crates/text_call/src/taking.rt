// What each form does, behind the forms before it.
ghost use Rattle.std.specs.Prelude.{◌≡◌, ◌+◌, ◌≤◌, None, length};
ghost use Rattle.fields.specs.Held.{limbs_held};
ghost use Rattle.form_reader.specs.Decoded.{form_of};
ghost use Rattle.text_terms.specs.Meaning.{special_term, term_fault, term_meant};
ghost use Rattle.text_terms.specs.TermLists.{limbs_used};
ghost use Rattle.text_call.specs.Progress.{Progress, term_outcome, outcome_of};
ghost use Rattle.text_call.specs.Standing.{Stands, Made, limbs_of_form};

use crate::calls::{CallMade, Calls};
use crate::fault::FormFault;
use any_grid::{of_name, of_width};
use form_reader::{Form, Term};
use text_terms::{MOST_LIMBS, Special, TermList};

// Adds a term that is not regular; no term comes after a call.
fn add_special(term: Special, terms: &mut TermList, calls: &Calls) -> CallMade
    ensures made { (p : Progress) → Stands p terms.old calls.now
        → Made (term_outcome p None (special_term term)) terms.new calls.now result }
    ensures limbs { limbs_used terms.new ≡ limbs_used terms.old }
{
    if calls.are_begun() {
        return Err(FormFault::TermAfterCall);
    }
    terms.push(term)?;
    Ok(None)
}

// Adds a regular term; no term comes after a call.
fn add_regular(term: Term<'_>, terms: &mut TermList, calls: &Calls) -> CallMade
    requires { limbs_used terms.old + length (limbs_held term.limbs) ≤ MOST_LIMBS }
    ensures made { (p : Progress) → Stands p terms.old calls.now
        → Made (term_outcome p (term_fault term.entry.exponent term.entry.precision (limbs_held term.entry.limbs))
        (term_meant term.entry.negative term.entry.exponent term.entry.precision (limbs_held term.entry.limbs)))
        terms.new calls.now result }
    ensures limbs { limbs_used terms.new ≤ limbs_used terms.old + length (limbs_held term.entry.limbs) }
{
    if calls.are_begun() {
        return Err(FormFault::TermAfterCall);
    }
    terms.push_regular(term.negative, term.exponent, term.precision, term.limbs)?;
    Ok(None)
}

// Adds the term that a form is, or makes the call that it asks for. The caller sees to it that its limbs have room.
pub fn take_form(form: Form<'_>, terms: &mut TermList, calls: &mut Calls) -> CallMade
    requires { limbs_used terms.old + limbs_of_form (form_of form) ≤ MOST_LIMBS }
    ensures made { (p : Progress) → Stands p terms.old calls.old
        → Made (outcome_of p (form_of form.entry)) terms.new calls.new result }
    ensures limbs { limbs_used terms.new ≤ limbs_used terms.old + limbs_of_form (form_of form.entry) }
{
    match form {
        Form::NotANumber => add_special(Special::NotANumber, terms, calls),
        Form::Infinity { negative } => add_special(Special::Infinity(negative), terms, calls),
        Form::Zero { negative } => add_special(Special::Zero(negative), terms, calls),
        Form::Term(term) => add_regular(term, terms, calls),
        Form::Mark { place, letter } => calls.mark(place, letter),
        Form::Back => calls.undo(),
        Form::Set => calls.set(),
        Form::Reopen => calls.reopen(),
        Form::Ask { width, floor, mode } => calls.ask(terms, of_width(width, floor), mode),
        Form::AskNamed { name, mode } => calls.ask(terms, of_name(name), mode),
    }
}
