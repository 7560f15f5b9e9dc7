//! The places of a range, run one after another over the rows and the grants before them.
//!
//! After J. M. Faleiro and D. J. Abadi, "Rethinking Serializable Multiversion Concurrency Control", PVLDB 8 (2015), section 3: a
//! transaction is executed once the versions that it reads are there, and what it writes are versions of its place. In the order
//! of the log the versions that it reads are the newest.

ghost use Rattle.std.specs.Prelude.{◌≡◌, ◌<◌, ◌≤◌, ◌+◌, ◌-◌, ◌++◌, ℕ, IfOk, OnErr, OnOk, Some, false, length, true};
ghost use Rattle.model_base.specs.declared.row.Key.{Key};
ghost use Rattle.model_base.specs.Outcomes.{outcome, rows_before};
ghost use Rattle.model_base.specs.Rows.{Rows};
ghost use Rattle.model_base.specs.Versions.{accesses_of};
ghost use Rattle.body.specs.Shown.{WindowShows};
ghost use Rattle.chains.specs.Store.{of_key, rows_at_end, versions_at};
ghost use Rattle.grants_base.specs.Book.{cut_book};
ghost use Rattle.sequencer.specs.Log.{Accepted};
ghost use Rattle.engine.specs.Known.{AreKnown, AreNamed};
ghost use Rattle.engine.specs.RunState.{IsBookState, IsRunState};
ghost use Rattle.engine.specs.Running.{AddsFrom, HasRun, IsKeptPlace, IsNextPlace, IsNextRange};

use crate::booking::{create, make_deeds};
use crate::remembering::RememberingBook;
use crate::state::RunState;
use body::{BodyEnd, Window, run, shows_rows};
use chains::Chains;
use checker::Admission;
use filling::creates;
use model_base::{MOST_ACCESSES, Outcome, Place, Statement};
use sequencer::LogTail;
use std::alloc::{AllocError, Global};
use std::ops::Range;
use workers::Gate;

/// What the statement of a place results in over the rows and the grants before it, and whether its body completed: the window has the rows
/// after it then. It makes its deeds.
#[inline(always)]
fn judge(
    alloc: Global,
    chains: &Chains,
    book: &mut RememberingBook,
    window: &mut Window,
    place: Place,
    statement: &Statement,
) -> Result<(Outcome, bool), AllocError>
    ghost log: { Accepted }
    requires { IsNextPlace log place statement.now chains.now book.old }
    ensures came { IfOk result (λ found. outcome log.statements place ≡ Some found.0) }
    ensures booked { OnOk result (IsBookState log.statements (place + 1) book.new) }
    ensures changed { IfOk result (λ found. found.1 ≡ true
        → WindowShows (accesses_of statement.now.form) window.new (rows_before log.statements (place + 1))) }
    ensures same { IfOk result (λ found. found.1 ≡ false → rows_before log.statements (place + 1) ≡ rows_before log.statements place) }
    ensures cut { (first : ℕ) → first ≤ place → cut_book first book.new ≡ cut_book first book.old }
{
    if creates(&statement.form) {
        create(book, place, statement)?;
        return Ok((Outcome::Created, false));
    }
    match book.admit(statement, place) {
        Admission::Denied { need, cause } => Ok((Outcome::Denied { need, cause }, false)),
        Admission::Admitted => {
            shows_rows();
            let _mark = chains.mark();
            chains.fill_window(statement, window);
            match run(statement, window) {
                BodyEnd::Completed => {
                    // A window has a row for each access, which the contract of reading one gives.
                    let _row = window.row(0);
                    let deed = make_deeds(alloc, book, place, statement)?;
                    let outputs = window.outputs();
                    Ok((Outcome::Done { outputs, deed }, true))
                }
                BodyEnd::Aborted { step, reason } => Ok((Outcome::Aborted { step, reason }, false)),
                BodyEnd::Undeclared { step } => Ok((Outcome::Undeclared { step }, false)),
            }
        }
    }
}

/// Leaves in the window the rows after a place: those that it has, if the body completed, and else those before the place.
#[inline(always)]
fn show_rows_after(chains: &Chains, statement: &Statement, window: &mut Window, completed: bool)
    requires { length (accesses_of statement.now.form) ≤ MOST_ACCESSES }
    ensures { (rows : Rows) → (completed ≡ true → WindowShows (accesses_of statement.now.form) window.old rows)
        → (completed ≡ false → rows_at_end chains.now ≡ rows) → WindowShows (accesses_of statement.now.form) window.new rows }
{
    if !completed {
        chains.fill_window(statement, window);
    }
}

/// Runs the statement of a place over the state before it, which is then the one before the next place. Whatever its outcome, it leaves a
/// version for each write that it declares. On `Err`, out of memory.
#[inline(always)]
fn run_place(
    alloc: Global,
    state: &mut RunState,
    window: &mut Window,
    place: Place,
    statement: &Statement,
) -> Result<Outcome, AllocError>
    ghost log: { Accepted }
    requires { IsNextPlace log place statement.now state.old.chains state.old.book }
    ensures came { IfOk result (λ found. outcome log.statements place ≡ Some found) }
    ensures stands { OnOk result (IsRunState log.statements (place + 1) state.new.chains state.new.book) }
    ensures versions { OnOk result ((key : Key) → of_key key state.new.chains.versions
        ≡ of_key key (state.old.chains.versions ++ versions_at log.statements place)) }
    ensures adds { AddsFrom place state.old state.new }
{
    let _mark = state.chains.mark();
    let (found, completed) = judge(
        alloc,
        &state.chains,
        &mut state.book,
        window,
        place,
        statement,
    )?;
    show_rows_after(&state.chains, statement, window, completed);
    state.chains.put_place(statement.accesses(), window)?;
    Ok(found)
}

/// Runs a place whose statement is kept, as `run_place`.
#[inline(always)]
fn run_kept(
    alloc: Global,
    state: &mut RunState,
    window: &mut Window,
    log: &LogTail,
    place: Place,
) -> Result<Outcome, AllocError>
    ghost all: { Accepted }
    requires { IsKeptPlace log.now all place state.old.chains state.old.book }
    ensures came { IfOk result (λ found. outcome all.statements place ≡ Some found) }
    ensures stands { OnOk result (IsRunState all.statements (place + 1) state.new.chains state.new.book) }
    ensures versions { OnOk result ((key : Key) → of_key key state.new.chains.versions
        ≡ of_key key (state.old.chains.versions ++ versions_at all.statements place)) }
    ensures adds { AddsFrom place state.old state.new }
{
    let _len = log.len();
    let statement = log.statement(place);
    run_place(alloc, state, window, place, statement)
}

/// Runs a statement as the next place of a log, as `run_place`. On `Err`, out of memory, the state is as it was.
pub(crate) fn run_next(
    alloc: Global,
    state: &mut RunState,
    window: &mut Window,
    log: &LogTail,
    statement: &Statement,
) -> Result<Outcome, AllocError>
    ghost after: { Accepted }
    requires { IsNextPlace after (length log.now.log.statements) statement.now state.old.chains state.old.book }
    ensures came { IfOk result (λ found. outcome after.statements (length log.now.log.statements) ≡ Some found) }
    ensures stands { OnOk result (IsRunState after.statements (length log.now.log.statements + 1) state.new.chains state.new.book) }
    ensures versions { OnOk result ((key : Key) → of_key key state.new.chains.versions
        ≡ of_key key (state.old.chains.versions ++ versions_at after.statements (length log.now.log.statements))) }
    ensures mark { OnOk result (state.new.chains.mark ≡ state.old.chains.mark) }
    ensures err { OnErr result (state.new ≡ state.old) }
{
    let _mark = state.chains.mark();
    let place = log.len();
    match run_place(alloc, state, window, place, statement) {
        Ok(found) => Ok(found),
        Err(refused) => {
            state.chains.cut(place);
            state.book.cut(place);
            Err(refused)
        }
    }
}

/// Runs the places of a range, one after another, and appends their outcomes. The gate is notified of each place before it is run and once
/// it is done.
pub fn run_in_order<G: Gate>(
    alloc: Global,
    state: &mut RunState,
    log: &LogTail,
    range: Range<Place>,
    gate: &G,
    outcomes: &mut Vec<Outcome>,
) -> Result<(), AllocError>
    requires next { IsNextRange log.now range.start range.end state.old }
    requires known { AreKnown log.now.log.statements }
    requires named { AreNamed log.now.log.statements }
    ensures ok { OnOk result (HasRun log.now.log.statements range.start range.end state.old state.new
        outcomes.old.items outcomes.new.items) }
    ensures state { OnErr result (state.new ≡ state.old) }
    ensures outcomes { OnErr result (outcomes.new.items ≡ outcomes.old.items) }
{
    let _len = log.len();
    let _mark = state.chains.mark();
    let start = range.start;
    let size = (range.end - start) as usize;
    let before = outcomes.len();
    let mut window = Window::new();
    outcomes.reserve(size)?;
    for index in 0..size {
        let place = start + index as u64;
        gate.before(place);
        match run_kept(alloc, state, &mut window, log, place) {
            Ok(found) => outcomes.push_reserved(found),
            Err(refused) => {
                state.chains.cut(start);
                state.book.cut(start);
                outcomes.truncate(before);
                return Err(refused);
            }
        }
        gate.after(place);
    }
    Ok(())
}
