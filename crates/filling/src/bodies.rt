//! Counts the bodies that are run.

ghost use Rattle.std.specs.Prelude.{◌≡◌, ◌<◌, ◌&&◌, not, if◌then◌else◌};
ghost use Rattle.bohm_core_base.specs.Serial.{serial_words};
ghost use Rattle.log_batch.specs.Supplied.{batch_of};
ghost use Rattle.filling_base.specs.Counting.{counted_more};
ghost use Rattle.filling_base.specs.Extending.{IsSamePass};
ghost use Rattle.filling.specs.Bodies.{has_body, runs_at, says_denied};

use crate::key::RangeKey;
use model_base::Form;
use own_words::{DENIED, word_at};
use words::Holding;

// Whether the statement is a transaction, which alone has a body.
fn has_body(form: &Form) -> bool
    ensures { result ≡ has_body form.now }
{
    match form {
        Form::Create { .. } => false,
        Form::Run { .. } => true,
        Form::Deed(_) => false,
    }
}

// Whether a body is run for a statement that has these own words.
fn runs_body(form: &Form, own: &[u64]) -> bool
    ensures { result ≡ (has_body form.now && not (says_denied own.now)) }
{
    has_body(form) && word_at(own, 0) != DENIED
}

// Counts the body of a place that has these own words, if one is run for it.
pub(crate) fn count_run(key: &RangeKey<'_>, holding: &mut Holding, index: usize, own: &[u64])
    requires within { index < key.now.batch.size }
    requires own { own.now ≡ serial_words (batch_of key.now.batch) index }
    ensures same { IsSamePass holding.old holding.new }
    ensures view { holding.new.view ≡ holding.old.view }
    ensures bodies { holding.new.bodies ≡ counted_more holding.old.bodies (runs_at key.now.batch index) }
{
    let batch = key.batch();
    let statement = batch.statement(index);
    if runs_body(&statement.form, own) {
        holding.count_body();
    }
}
