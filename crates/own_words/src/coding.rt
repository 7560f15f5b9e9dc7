//! The header of an outcome: words 0 to 3 and the outputs.

ghost use Rattle.std.specs.Prelude.{◌≡◌, ◌<◌, ◌^◌, length};
ghost use Rattle.model_base.specs.Outcomes.{needs};
ghost use Rattle.own_words.specs.Words.{cause_word, first_detail, outcome_word, outputs_told, reason_code, second_detail};

use crate::numbering::need_number;
use model_base::{Cause, Form, Outcome, Outputs, Reason};

/// Word 0 of a place that was done.
pub const DONE: u64 = 1;
/// Word 0 of a place that created a table.
pub(crate) const CREATED: u64 = 2;
/// Word 0 of a place that was denied.
pub const DENIED: u64 = 3;
/// Word 0 of a place whose body was aborted.
pub(crate) const ABORTED: u64 = 4;
/// Word 0 of a place whose body touched an undeclared row.
pub(crate) const UNDECLARED: u64 = 5;

/// Which kind of outcome it is.
pub(crate) fn outcome_word(outcome: &Outcome) -> u64
    ensures { result ≡ outcome_word outcome.now }
{
    match outcome {
        Outcome::Done { .. } => DONE,
        Outcome::Created => CREATED,
        Outcome::Denied { .. } => DENIED,
        Outcome::Aborted { .. } => ABORTED,
        Outcome::Undeclared { .. } => UNDECLARED,
    }
}

/// The number of the need, or the step.
pub(crate) fn first_detail(form: &Form, outcome: &Outcome) -> u64
    requires { length (needs form.now) < 2 ^ 64 }
    ensures { result ≡ first_detail form.now outcome.now }
{
    match outcome {
        Outcome::Denied { need, .. } => need_number(form, need),
        Outcome::Aborted { step, .. } | Outcome::Undeclared { step } => *step,
        Outcome::Done { .. } | Outcome::Created => 0,
    }
}

/// The word for why a need isn't held.
fn cause_word(cause: Cause) -> u64
    requires { cause_word cause < 2 ^ 64 }
    ensures { result ≡ cause_word cause }
{
    match cause {
        Cause::Never => 0,
        Cause::Taken(place) => place + 1,
    }
}

/// The word for why a body was aborted.
fn reason_word(reason: Reason) -> u64
    ensures { result ≡ reason_code reason }
{
    match reason {
        Reason::NoRow => 0,
        Reason::RowExists => 1,
        Reason::Overflow => 2,
        Reason::Check => 3,
    }
}

/// The cause, or the reason.
pub(crate) fn second_detail(outcome: &Outcome) -> u64
    requires { second_detail outcome.now < 2 ^ 64 }
    ensures { result ≡ second_detail outcome.now }
{
    match outcome {
        Outcome::Denied { cause, .. } => cause_word(*cause),
        Outcome::Aborted { reason, .. } => reason_word(*reason),
        Outcome::Done { .. } | Outcome::Created | Outcome::Undeclared { .. } => 0,
    }
}

/// The outputs of a place; only a done one has any.
pub(crate) fn outputs_told(outcome: &Outcome) -> Outputs
    ensures { result ≡ outputs_told outcome.now }
{
    match outcome {
        Outcome::Done { outputs, .. } => *outputs,
        _ => Outputs::new(),
    }
}
