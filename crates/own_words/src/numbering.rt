//! The needs of a statement by their numbers, and the room for its outputs.

ghost use Rattle.std.specs.Prelude.{◌≡◌, ◌<◌, ◌^◌, length, slice_get, count_by};
ghost use Rattle.model_base.specs.Outcomes.{needs};
ghost use Rattle.own_words.specs.Words.{is_out, need_number, outputs_of};

use model_base::{Form, Need, Needs, Step};

/// Whether the step gives an output.
fn is_out(step: &Step) -> bool
    ensures { result ≡ is_out step.now }
{
    matches!(step, Step::Out { .. })
}

/// How many of the steps give an output.
fn count_outputs(steps: &[Step]) -> usize
    ensures { result ≡ count_by is_out steps.now }
{
    steps.iter().filter(|step| is_out(step)).count()
}

/// How many outputs the statement has room for.
pub fn outputs_of(form: &Form) -> usize
    ensures { result ≡ outputs_of form.now }
{
    match form {
        Form::Run { steps, .. } => count_outputs(steps.as_slice()),
        Form::Create { .. } | Form::Deed(_) => 0,
    }
}

/// The number of a need among those of a statement: its first position, or their number if it is none of them. The need of a deed is after
/// those of the accesses.
pub(crate) fn need_number(form: &Form, need: &Need) -> u64
    requires { length (needs form.now) < 2 ^ 64 }
    ensures { result ≡ need_number form.now need.now }
{
    let mut needs = Needs::of(form);
    let mut number = 0;
    'needs: while let Some(other) = needs.next() {
        if other == *need {
            return number;
        }
        number += 1;
    }
    number
}

/// The need of this number among those of a statement, if it has this many.
pub(crate) fn need_at(form: &Form, number: u64) -> Option<Need>
    ensures { result ≡ slice_get (needs form.now) number }
{
    let mut needs = Needs::of(form);
    let mut later = number;
    'needs: while let Some(need) = needs.next() {
        if later == 0 {
            return Some(need);
        }
        later -= 1;
    }
    None
}
