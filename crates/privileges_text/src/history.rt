//! When a user held a privilege, as text.

ghost use Rattle.std.specs.Prelude.{◌≡◌, ◌<◌, ◌++◌, ◌⊎◌, [], All, IfErr, List, OnOk, None, false, true, length, ℕ};
ghost use Rattle.std.specs.List.{flat_map};
ghost use Rattle.line_io.specs.declared.fault.EngineFault.{EngineFault};
ghost use Rattle.model_base.specs.Outcomes.{owners};
ghost use Rattle.model_base.specs.Privileges.{owns};
ghost use Rattle.engine.specs.Engine.{finished};
ghost use Rattle.sequencer.specs.Names.{known_number};
ghost use Rattle.audit_text.specs.declared.fault.WorkFault.{WorkFault};
ghost use Rattle.privileges.specs.declared.spanning.Span.{Span};
ghost use Rattle.privileges_text.specs.HistoryText.{TellsHistory, TellsHistoryOf, TellsOwner, TellsSpans, owner_since_text, span_range_text, span_text, spans_text, to_text};

use crate::asking::HistoryAsked;
use crate::running::{book_of, owner_of, table_named, user_named};
use crate::ways::{UserNeed, put_ending};
use audit_text::{WorkFault, put_place};
use engine::Engine;
use model_base::{Need, Place};
use privileges::{Span, spans};
use std::alloc::{AllocError, Global};

/// Appends the place that ended a span, if one did.
fn put_to(text: &mut Vec<u8>, to: Option<Place>) -> Result<(), AllocError>
    ensures { OnOk result (text.new.items ≡ text.old.items ++ to_text to) }
{
    let Some(place) = to else {
        return Ok(());
    };
    text.extend_from_slice(b" to ")?;
    put_place(text, place)
}

/// Appends the places of a span.
fn put_range(text: &mut Vec<u8>, span: &Span) -> Result<(), AllocError>
    ensures { OnOk result (text.new.items ≡ text.old.items ++ span_range_text span.now) }
{
    text.extend_from_slice(b"from ")?;
    put_place(text, span.from)?;
    put_to(text, span.to)
}

/// Appends the line of a span.
fn put_span(
    alloc: Global,
    text: &mut Vec<u8>,
    engine: &Engine,
    of: &UserNeed,
    span: &Span,
) -> Result<(), AllocError>
    requires all { finished engine.now ≡ length engine.now.log.statements }
    requires covered { of.now.need.table < length engine.now.log.names.tables }
    requires begun { span.now.from < length engine.now.log.statements }
    ensures { OnOk result (text.new.items ≡ text.old.items ++ span_text engine.now.log of.now span.now) }
{
    let _len = engine.log().len();
    let place = span.from + 1;
    put_range(text, span)?;
    put_ending(alloc, text, engine, place, of)
}

/// Appends the lines of the spans.
fn put_each(
    alloc: Global,
    text: &mut Vec<u8>,
    engine: &Engine,
    of: &UserNeed,
    spans: &[Span],
) -> Result<(), AllocError>
    requires all { finished engine.now ≡ length engine.now.log.statements }
    requires covered { of.now.need.table < length engine.now.log.names.tables }
    requires begun { All (λ (span : Span). span.from < length engine.now.log.statements) spans.now }
    ensures { OnOk result (text.new.items ≡ text.old.items ++ flat_map (span_text engine.now.log of.now) spans.now) }
{
    for span in spans {
        put_span(alloc, text, engine, of, span)?;
    }
    Ok(())
}

/// Appends the lines of the spans, or that there are none.
fn put_lines(
    alloc: Global,
    text: &mut Vec<u8>,
    engine: &Engine,
    of: &UserNeed,
    spans: &[Span],
) -> Result<(), AllocError>
    requires all { finished engine.now ≡ length engine.now.log.statements }
    requires covered { of.now.need.table < length engine.now.log.names.tables }
    requires begun { All (λ (span : Span). span.from < length engine.now.log.statements) spans.now }
    ensures { OnOk result (text.new.items ≡ text.old.items ++ spans_text engine.now.log of.now spans.now) }
{
    if spans.is_empty() {
        return text.extend_from_slice(b"never\n");
    }
    put_each(alloc, text, engine, of, spans)
}

/// Writes the spans of a user who doesn't own the table into an empty text.
fn put_spans(
    alloc: Global,
    text: &mut Vec<u8>,
    engine: &Engine,
    of: &UserNeed,
) -> Result<(), AllocError>
    requires all { finished engine.now ≡ length engine.now.log.statements }
    requires covered { of.now.need.table < length engine.now.log.names.tables }
    requires other { owns (owners engine.now.log.statements) of.now.user of.now.need.table ≡ false }
    requires empty { text.old.items ≡ [] }
    ensures { OnOk result (TellsSpans engine.now.log of.now text.new.items) }
{
    let found = spans(alloc, book_of(engine), of.user, &of.need)?;
    put_lines(alloc, text, engine, of, &found)
}

/// Writes the line of the table's owner.
fn put_owner_line(text: &mut Vec<u8>, place: Place) -> Result<(), AllocError>
    ensures { OnOk result (text.new.items ≡ text.old.items ++ owner_since_text place) }
{
    text.extend_from_slice(b"owner from ")?;
    put_place(text, place)?;
    text.extend_from_slice(b"\n")
}

/// Writes the line of the user's own table into an empty text.
fn put_own(text: &mut Vec<u8>, engine: &Engine, of: &UserNeed) -> Result<(), AllocError>
    requires all { finished engine.now ≡ length engine.now.log.statements }
    requires covered { of.now.need.table < length engine.now.log.names.tables }
    requires empty { text.old.items ≡ [] }
    ensures { OnOk result (TellsOwner engine.now.log of.now text.new.items) }
{
    let creation = book_of(engine).tables()[of.need.table.0 as usize];
    put_owner_line(text, creation.place)
}

/// Writes when the user held what is needed, by a log that is run, into an empty text.
fn put_history_of(
    alloc: Global,
    text: &mut Vec<u8>,
    engine: &Engine,
    of: &UserNeed,
) -> Result<(), AllocError>
    requires all { finished engine.now ≡ length engine.now.log.statements }
    requires covered { of.now.need.table < length engine.now.log.names.tables }
    requires empty { text.old.items ≡ [] }
    ensures { OnOk result (TellsHistoryOf engine.now.log of.now text.new.items) }
{
    if owns(engine, of) {
        put_own(text, engine, of)
    } else {
        put_spans(alloc, text, engine, of)
    }
}

/// Whether the user owns the table.
fn owns(engine: &Engine, of: &UserNeed) -> bool
    requires covered { of.now.need.table < length engine.now.log.names.tables }
    ensures { result ≡ owns (owners engine.now.log.statements) of.now.user of.now.need.table }
{
    owner_of(engine, of.need.table) == of.user
}

/// Writes the answer to what is asked of a log that is run into an empty text.
pub(crate) fn put_history(
    alloc: Global,
    text: &mut Vec<u8>,
    engine: &Engine,
    asked: &HistoryAsked<'_>,
) -> Result<(), WorkFault>
    requires all { finished engine.now ≡ length engine.now.log.statements }
    requires empty { text.old.items ≡ [] }
    ensures history { OnOk result (TellsHistory engine.now.log asked.now.user.now asked.now.kind asked.now.table.now asked.now.option
        text.new.items) }
    ensures none { IfErr result (λ fault. (fault ≡ WorkFault.Run EngineFault.NoMemory)
        ⊎ (((fault ≡ WorkFault.NoSuchUser) × (known_number engine.now.log.names.users asked.now.user.now ≡ None))
        ⊎ ((fault ≡ WorkFault.NoSuchTable) × (known_number engine.now.log.names.tables asked.now.table.now ≡ None)))) }
{
    let user = user_named(engine.log().catalog().users(), asked.user)?;
    let table = table_named(engine.log().catalog().tables(), asked.table)?;
    let need = Need {
        table,
        kind: asked.kind,
        option: asked.option,
    };
    put_history_of(alloc, text, engine, &UserNeed { user, need })?;
    Ok(())
}
