//! The body of a statement, run over the rows that it declares.
//!
//! `run` runs the steps over a `Window`, which has the rows of up to sixteen accesses and up to eight outputs. Its
//! answer, outputs and rows are the body's meaning over every map of all rows that has the window's rows at the
//! declared keys. It doesn't allocate, and costs its steps.
//!
//! `fill` fills a window from a `RowSource`. `run_on` also writes the rows back into a `RowStore`, if the body
//! completes; on `Err`, out of memory, all rows are unchanged. `RowMap` is such a store, a map by hash. The laws say
//! that a body depends on declared rows alone and keeps the shape of rows.
#![tactic(auto)]

ghost use Rattle.std.specs.Prelude.{◌≡◌, []};
ghost use Rattle.model_base.specs.Outcomes.{body};
ghost use Rattle.model_base.specs.Rows.{Rows};
ghost use Rattle.model_base.specs.Versions.{accesses_of};
ghost use Rattle.body.specs.Ending.{LeavesIdle, ending_of};
ghost use Rattle.body.specs.Premises.{IsRunnable};
ghost use Rattle.body.specs.Shown.{WindowShows, with_rows};

mod ending;
mod laws;
mod registers;
mod row_map;
mod row_store;
mod steps;
mod window;

pub use ending::BodyEnd;
pub use laws::{
    depends_on_declared, ends_within_steps, keeps_columns, keeps_others, keeps_shape,
    leaves_others, leaves_unwritten, logs_have_shape, shows_rows,
};
use model_base::{Form, Statement};
pub use row_map::RowMap;
pub use row_store::{
    RowSource, RowStore, fill, put_rows, release_absent, release_rows, reserve_rows, run_on,
    write_back,
};
use steps::run_steps;
pub use window::Window;

/// Runs the body of a statement over the rows of its accesses, which the window holds by the accesses' places.
///
/// Registers begin at 0. The steps go in order until the last is done, or one aborts the body or touches a row or a kind that isn't
/// declared; the answer says which, with the step's index from 0. A step is judged by what is declared before it is judged by what the row
/// holds. After `Completed` the window has the new rows, and the outputs in order; after the other two it holds what the steps before the
/// last resulted in, and is of no further use.
///
/// The creation of a table, and a deed by itself, have no step: they complete, and the window stays as it was.
#[inline(always)]
pub fn run(statement: &Statement, window: &mut Window) -> BodyEnd
    requires runnable { IsRunnable statement.now }
    requires fresh { window.old.outputs ≡ [] }
    ensures ends { (rows : Rows) → WindowShows (accesses_of statement.now.form) window.old rows
        → body rows statement.now.form
        ≡ ending_of result (with_rows (accesses_of statement.now.form) window.new.rows rows) window.new.outputs }
    ensures idle { LeavesIdle statement.now.form window.old window.new }
{
    match &statement.form {
        Form::Run {
            accesses,
            steps,
            ..
        } => run_steps(accesses.as_slice(), steps.as_slice(), window),
        Form::Create { .. } | Form::Deed(_) => BodyEnd::Completed,
    }
}
