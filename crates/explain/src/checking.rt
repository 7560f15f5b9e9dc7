//! Whether an explanation is sound.

ghost use Rattle.std.specs.Prelude.{◌≡◌, ◌<◌, ◌≤◌, ℕ, All, Decides, List, false, length};
ghost use Rattle.model_base.specs.Outcomes.{needs};
ghost use Rattle.model_base.specs.declared.deed.Deed.{Deed};
ghost use Rattle.model_base.specs.declared.deed.Need.{Need};
ghost use Rattle.grants_base.specs.Book.{ShowsBook};
ghost use Rattle.explain.specs.ExplainedNeeds.{AreSound, Explains};
ghost use Rattle.engine.specs.Engine.{IsRun, Run, finished};
ghost use Rattle.explain.specs.Explained.{IsExplainedBy};

use crate::checked::explains;
use crate::explained::tells_held;
use crate::explanation::Explanation;
use crate::line::Line;
use crate::needs::need_at;
use grants::Book;
use model_base::{Form, Need, Place, User};
use sequencer::LogTail;

/// Whether the line is of the need, whose table the book has, and what it shows holds.
fn explains_one(book: &Book, place: Place, user: User, need: &Need, line: &Line) -> bool
    ensures { (owners : List ℕ) (deeds : List Deed) → ShowsBook book.now owners deeds → need.now.table < length book.now.tables
        → Decides result (Explains owners deeds place user need.now line.now) }
{
    (need.table.0 as usize) < book.tables().len() && explains(book, place, user, need, line)
}

/// Whether the lines explain what a statement needs of its user before a place: they are of its needs in order, all if all are held,
/// else up to and with the first that isn't, and what each shows holds.
fn explain_all(book: &Book, place: Place, user: User, form: &Form, lines: &[Line]) -> bool
    ensures { (owners : List ℕ) (deeds : List Deed) → ShowsBook book.now owners deeds
        → All (λ (need : Need). need.table < length book.now.tables) (needs form.now)
        → Decides result (AreSound owners deeds place user (needs form.now) lines.now) }
{
    for i in 0..lines.len() {
        let line = &lines[i];
        let Some(need) = need_at(form, i) else {
            return false;
        };
        if !explains_one(book, place, user, &need, line) {
            return false;
        }
        if !tells_held(&line.shown) {
            return lines.len() == i + 1;
        }
    }
    need_at(form, lines.len()).is_none()
}

/// Whether the explanation says truly why its place was admitted or denied, by the log and the book of an engine that finished the place
/// and keeps its statement. It looks each named grant up by its record, doesn't allocate, and searches for no chain of grants.
pub fn check(explanation: &Explanation, log: &LogTail, book: &Book) -> bool
    ensures sound { (run : Run) → IsRun run → log.now.log ≡ run.log → book.now ≡ run.book
        → log.now.dropped ≤ explanation.now.place → explanation.now.place < finished run
        → Decides result (IsExplainedBy run.log.statements explanation.now.place explanation.now.lines.items) }
    ensures none { length log.now.log.statements ≤ explanation.now.place → result ≡ false }
    ensures forgotten { explanation.now.place < log.now.dropped → result ≡ false }
{
    let place = explanation.place;
    if place < log.dropped() || log.len() <= place {
        return false;
    }
    let statement = log.statement(place);
    let lines = &explanation.lines;
    explain_all(book, place, statement.user, &statement.form, lines)
}
