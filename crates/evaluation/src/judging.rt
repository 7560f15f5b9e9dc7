//! What a statement results in, by what it is shown.

ghost use Rattle.std.specs.Prelude.{◌≡◌, ◌<◌, ◌≤◌, ◌^◌, [], length};
ghost use Rattle.model_base.specs.declared.statement.Form.{Form};
ghost use Rattle.model_base.specs.Outcomes.{needs};
ghost use Rattle.model_base.specs.Versions.{accesses_of};
ghost use Rattle.body.specs.Laws.{AreApart};
ghost use Rattle.body.specs.Premises.{IsRunnable};
ghost use Rattle.checker.specs.Missing.{Covers};
ghost use Rattle.own_words.specs.Words.{outputs_told, second_detail};
ghost use Rattle.evaluation.specs.Judged.{ForShown, KeepsShaped, Tells};

use body::{BodyEnd, Window, run};
use checker::{Admission, admit};
use grants::Records;
use model_base::{DeedDone, Form, MOST_ACCESSES, MOST_OUTPUTS, Outcome, Statement};

/// A window has a row for each access that a statement may have, which the contract of reading one gives.
fn has_all_rows(window: &Window)
    ensures { length window.now.rows ≡ MOST_ACCESSES }
{
    let _ = window.row(0);
}

/// What a statement results in at the view's place; the window is left with the rows after it. A table is created; any other statement is
/// denied by its first need that isn't held, or its body runs. Only a completed body changes the rows of the window: in any other case it
/// has those that were found. What the deed results in isn't known, since no header depends on it.
pub(crate) fn judged<V: Records>(
    statement: &Statement,
    window: &mut Window,
    view: &mut V,
) -> Outcome
    requires runnable { IsRunnable statement.now }
    requires apart { AreApart (accesses_of statement.now.form) }
    requires fresh { window.old.outputs ≡ [] }
    requires covered { Covers (V.shown view.old) (needs statement.now.form) }
    ensures tells { ForShown statement.now window.old (V.shown view.old) (λ found. Tells statement.now found result window.new) }
    ensures shaped { KeepsShaped statement.now window.old window.new }
    ensures detail { second_detail result < 2 ^ 64 }
    ensures outputs { length (outputs_told result) ≤ MOST_OUTPUTS }
    ensures same { V.shown view.new ≡ V.shown view.old }
{
    let found = *window;
    if let Form::Create { .. } = &statement.form {
        return Outcome::Created;
    }
    // The cause of a denial lies below this place, so it is stored in a word.
    let _ = view.at();
    match admit(statement, view) {
        Admission::Denied { need, cause } => return Outcome::Denied { need, cause },
        Admission::Admitted => {}
    }
    match run(statement, window) {
        BodyEnd::Completed => {
            has_all_rows(window);
            let outputs = window.outputs();
            let deed = DeedDone::None;
            Outcome::Done { outputs, deed }
        }
        BodyEnd::Aborted { step, reason } => {
            *window = found;
            Outcome::Aborted { step, reason }
        }
        BodyEnd::Undeclared { step } => {
            *window = found;
            Outcome::Undeclared { step }
        }
    }
}
