//! The spans of places in which a privilege was held.

ghost use Rattle.std.specs.Prelude.{◌≡◌, ◌<◌, ◌≤◌, ◌||◌, false, ℕ, All, IfOk, IfSome, List, OnOk, length};
ghost use Rattle.std.specs.List.{list_any};
ghost use Rattle.model_base.specs.declared.deed.Deed.{Deed};
ghost use Rattle.model_base.specs.declared.deed.Record.{Record};
ghost use Rattle.model_base.specs.Privileges.{owns};
ghost use Rattle.grants_base.specs.Book.{ShowsBook};
ghost use Rattle.privileges.specs.declared.spanning.Span.{Span};
ghost use Rattle.privileges.specs.Spans.{AreSeparate, AreSpans, is_within};
ghost use Rattle.privileges.specs.Joining.{later_end, lasts_until, span_of};

use grants::Book;
use model_base::{Need, Place, Record, User};
use std::alloc::{AllocError, Global};

/// A time in which a need was held: after the place that began it, up to and with the one that ended it, if one did.
#[derive(Clone, Copy, PartialEq, Eq, Debug)]
pub struct Span {
    pub from: Place,
    pub to: Option<Place>,
}

/// The span in which the grant of the record was in force.
fn span_of(entry: &Record) -> Span
    ensures { result ≡ span_of entry.now }
{
    Span {
        from: entry.grant.place,
        to: entry.end,
    }
}

/// Whether the span lasts until the place.
fn lasts_until(span: &Span, place: Place) -> bool
    ensures { result ≡ lasts_until span.now place }
{
    span.to.is_none_or(|to| place <= to)
}

/// The later of two ends, of which none is the latest.
fn later_end(to: Option<Place>, other: Option<Place>) -> Option<Place>
    ensures { result ≡ later_end to other }
{
    match (to, other) {
        (Some(first), Some(second)) => Some(first.max(second)),
        _ => None,
    }
}

/// Joins a span to the last, if that lasts until it begins, or else adds it after the others, none of which begins later.
fn join(spans: &mut Vec<Span>, span: Span) -> Result<(), AllocError>
    requires apart { AreSeparate spans.old.items }
    requires later { All (λ (other : Span). other.from ≤ span.from) spans.old.items }
    requires lasts { IfSome span.to (λ to. span.from < to) }
    ensures apart { OnOk result (AreSeparate spans.new.items) }
    ensures later { OnOk result (All (λ (other : Span). other.from ≤ span.from) spans.new.items) }
    ensures tells { OnOk result ((place : ℕ) → list_any (is_within place) spans.new.items
        ≡ (list_any (is_within place) spans.old.items || is_within place span)) }
{
    match spans.pop() {
        Some(last) if lasts_until(&last, span.from) => spans.push(Span {
            from: last.from,
            to: later_end(last.to, span.to),
        })?,
        Some(last) => {
            spans.push(last)?;
            spans.push(span)?;
        }
        None => spans.push(span)?,
    }
    Ok(())
}

/// The spans in which a user who doesn't own the table held what is needed, one after the other; each begins where a grant was made. It goes
/// once through the records.
pub fn spans(alloc: Global, book: &Book, user: User, need: &Need) -> Result<Vec<Span>, AllocError>
    requires covered { need.now.table < length book.now.tables }
    ensures spans { IfOk result (λ found. (owners : List ℕ) (deeds : List Deed) → ShowsBook book.now owners deeds
        → owns owners user need.now.table ≡ false → AreSpans owners deeds user need.now found.items) }
    ensures begun { IfOk result (λ found. (place : ℕ) → All (λ (entry : Record). entry.grant.place < place) book.now.records
        → All (λ (span : Span). span.from < place) found.items) }
{
    let mut found = Vec::new(alloc);
    for record in book.records() {
        if record.grant.gives(user, need) {
            join(&mut found, span_of(record))?;
        }
    }
    Ok(found)
}
