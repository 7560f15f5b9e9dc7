//! By which grants a user holds what is needed, as text.

ghost use Rattle.std.specs.Prelude.{◌≡◌, ◌<◌, ◌≤◌, ◌++◌, OnOk, length};
ghost use Rattle.engine.specs.Engine.{finished};
ghost use Rattle.privileges_text.specs.Ways.{way_ending, way_text};

use crate::running::book_of;
use audit_text::put_shown;
use engine::Engine;
use explain::explain_need;
use model_base::{Need, Place, User};
use std::alloc::{AllocError, Global};

/// A need of a user.
#[derive(Clone, Copy)]
pub(crate) struct UserNeed {
    pub user: User,
    pub need: Need,
}

/// Appends how a user held what is needed before a place of a log that is run to its end, or since when not.
fn put_way(
    alloc: Global,
    text: &mut Vec<u8>,
    engine: &Engine,
    place: Place,
    of: &UserNeed,
) -> Result<(), AllocError>
    requires all { finished engine.now ≡ length engine.now.log.statements }
    requires covered { of.now.need.table < length engine.now.log.names.tables }
    requires within { place ≤ length engine.now.log.statements }
    ensures { OnOk result (text.new.items ≡ text.old.items ++ way_text engine.now.log place of.now) }
{
    let shown = explain_need(alloc, book_of(engine), place, of.user, &of.need)?;
    put_shown(alloc, text, engine, &shown)
}

/// Appends the same, and the end of the line.
pub(crate) fn put_ending(
    alloc: Global,
    text: &mut Vec<u8>,
    engine: &Engine,
    place: Place,
    of: &UserNeed,
) -> Result<(), AllocError>
    requires all { finished engine.now ≡ length engine.now.log.statements }
    requires covered { of.now.need.table < length engine.now.log.names.tables }
    requires within { place ≤ length engine.now.log.statements }
    ensures { OnOk result (text.new.items ≡ text.old.items ++ way_ending engine.now.log place of.now) }
{
    put_way(alloc, text, engine, place, of)?;
    text.extend_from_slice(b"\n")
}
