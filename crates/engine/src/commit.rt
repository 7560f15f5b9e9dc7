//! Rows and grants, moved on over the places of a finished batch.

ghost use Rattle.std.specs.Prelude.{◌≡◌, ◌-◌, ◌++◌, OnErr, OnOk};
ghost use Rattle.model_base.specs.declared.row.Key.{Key};
ghost use Rattle.chains.specs.Store.{of_key, versions_between};
ghost use Rattle.engine.specs.RunState.{IsRunState};
ghost use Rattle.engine.specs.Running.{IsNextRange};
ghost use Rattle.filling.specs.Changes.{AreChanges};

use crate::state::RunState;
use filling::Finished;
use model_base::Place;
use sequencer::LogTail;
use std::alloc::AllocError;
use std::ops::Range;

/// Moves the state before a range of the log on over its places, by the versions that they leave and what they change in the book. Nothing
/// is searched for again. On `Err`, out of memory, and the state is as it was.
pub fn advance(
    state: &mut RunState,
    log: &LogTail,
    done: Finished,
    range: Range<Place>,
) -> Result<(), AllocError>
    requires next { IsNextRange log.now range.start range.end state.old }
    requires left { done.versions.items ≡ versions_between log.now.log.statements range.start range.end }
    requires changes { AreChanges log.now.log.statements range.start (range.end - range.start) state.old.book
        done.tables.items done.grants.items done.ends.items }
    ensures ok { OnOk result (IsRunState log.now.log.statements range.end state.new.chains state.new.book) }
    ensures versions { OnOk result ((key : Key) → of_key key state.new.chains.versions
        ≡ of_key key (state.old.chains.versions ++ versions_between log.now.log.statements range.start range.end)) }
    ensures mark { OnOk result (state.new.chains.mark ≡ state.old.chains.mark) }
    ensures err { OnErr result (state.new ≡ state.old) }
{
    let (start, end) = (range.start, range.end);
    let Finished {
        outcomes: _,
        versions,
        tables,
        grants,
        ends,
    } = done;
    state
        .book
        .extend(tables.as_slice(), grants.as_slice(), ends.as_slice())?;
    let moved = state.chains.append(versions, end);
    match moved {
        Ok(()) => Ok(()),
        Err(error) => {
            state.book.cut(start);
            Err(error)
        }
    }
}
