//! The report's lines for the lines of a log.

ghost use Rattle.std.specs.Prelude.{◌≡◌, ◌<◌, ◌+◌, ◌++◌, ◌^◌, ℕ, [], IfOk, MatchOption, OnErr, OnOk, Some, length, map};
ghost use Rattle.model_base.specs.RecordGrantees.{WereGranted, grantee_at};
ghost use Rattle.sequencer.specs.Log.{Accepted};
ghost use Rattle.sequencer.specs.Whole.{IsWhole};
ghost use Rattle.report.specs.Report.{place_text};
ghost use Rattle.bohm_base.specs.Collecting.{MayLackRoom, line_outcome_text, places_in, report_text};
ghost use Rattle.bohm_base.specs.Places.{IsFinishedAs};

use crate::collecting::LineOutcome;
use log_text::Version;
use model_base::{Grantee, Outcome, Place, RecordName, Statement};
use report::{put_fault, put_outcome, put_refused, records_of};
use sequencer::Catalog;
use std::alloc::AllocError;

/// A log that can be reported. Some of its places are finished, and of some of these it keeps statement and outcome.
pub trait ReportedLog {
    ghost log: { Self → Accepted };

    ghost is_finished: { Self → ℕ → Type 0 };

    ghost is_kept: { Self → ℕ → Type 0 };

    /// What the log knows of names.
    fn catalog(&self) -> &Catalog
        ensures names { result.now ≡ (log self.now).names }
        ensures whole { IsWhole (log self.now) };

    /// The statement and the outcome of a place. None where the log hasn't the place.
    fn kept(&self, place: Place) -> Option<(&Statement, &Outcome)>
        requires { is_kept self.now place }
        ensures { MatchOption result (place_text (log self.now).statements (log self.now).names place ≡ [])
            (λ found. is_finished self.now place × IsFinishedAs (log self.now) place found.0.now found.1.now) };

    /// To whom some records of grants are, in order.
    fn grantees_of(&self, names: &[RecordName]) -> Result<Vec<Grantee>, AllocError>
        ensures { (place : ℕ) → is_finished self.now place → IfOk result (λ grantees.
            WereGranted (log self.now).statements place names.now
            → map (grantee_at (log self.now).statements) names.now ≡ map Some grantees.items) };
}

/// Appends the report's line for a place, as `put_finished`, with the grantees of the records that the outcome lists.
#[inline(never)]
fn put_named<L: ReportedLog>(
    text: &mut Vec<u8>,
    log: &L,
    place: Place,
    statement: &Statement,
    outcome: &Outcome,
) -> Result<(), AllocError>
    requires finished { L.is_finished log.now place }
    requires came { IsFinishedAs (L.log log.now) place statement.now outcome.now }
    ensures { OnOk result (text.new.items ≡ text.old.items ++ place_text (L.log log.now).statements (L.log log.now).names place) }
{
    let grantees = log.grantees_of(records_of(outcome))?;
    let catalog = log.catalog();
    put_outcome(text, catalog, place, &statement.form, outcome, &grantees)
}

/// Appends the report's line for a place that is finished, by its statement and its outcome.
#[inline(always)]
pub fn put_finished<L: ReportedLog>(
    text: &mut Vec<u8>,
    log: &L,
    place: Place,
    statement: &Statement,
    outcome: &Outcome,
) -> Result<(), AllocError>
    requires finished { L.is_finished log.now place }
    requires came { IsFinishedAs (L.log log.now) place statement.now outcome.now }
    ensures { OnOk result (text.new.items ≡ text.old.items ++ place_text (L.log log.now).statements (L.log log.now).names place) }
{
    let catalog = log.catalog();
    match catalog.version() {
        Version::One => put_outcome(text, catalog, place, &statement.form, outcome, &[]),
        Version::Two => put_named(text, log, place, statement, outcome),
    }
}

/// Appends the report's line for a place that is kept, or nothing for a place that the log hasn't.
#[inline(always)]
pub fn put_place<L: ReportedLog>(
    text: &mut Vec<u8>,
    log: &L,
    place: Place,
) -> Result<(), AllocError>
    requires { L.is_kept log.now place }
    ensures { OnOk result (text.new.items ≡ text.old.items ++ place_text (L.log log.now).statements (L.log log.now).names place) }
{
    match log.kept(place) {
        Some((statement, outcome)) => put_finished(text, log, place, statement, outcome),
        None => Ok(()),
    }
}

/// Appends the report's line for a line of this number to the text. An accepted line has this place, as in `put_place`.
#[inline(always)]
fn put_line<L: ReportedLog>(
    text: &mut Vec<u8>,
    log: &L,
    number: u64,
    place: Place,
    line: LineOutcome,
) -> Result<(), AllocError>
    requires { line ≡ LineOutcome.Accepted → L.is_kept log.now place }
    ensures ok { OnOk result (text.new.items
        ≡ text.old.items ++ line_outcome_text (L.log log.now).statements (L.log log.now).names number place line) }
    ensures want { OnErr result (MayLackRoom number text.old line) }
{
    match line {
        LineOutcome::Heading => Ok(()),
        LineOutcome::Accepted => put_place(text, log, place),
        LineOutcome::Faulty(fault) => put_fault(text, number, fault),
        LineOutcome::Refused(refused) => put_refused(text, number, refused),
    }
}

/// Appends the report's lines for some lines to the text, the first of which comes after so many, and has this place if it has one. Returns
/// the place after theirs. On `Err`, out of memory, some of them may be after the text.
pub fn put_lines<L: ReportedLog>(
    text: &mut Vec<u8>,
    log: &L,
    after: u64,
    place: Place,
    lines: &[LineOutcome],
) -> Result<Place, AllocError>
    requires kept { (k : ℕ) → k < places_in lines.now → L.is_kept log.now (place + k) }
    requires places { place + places_in lines.now < 2 ^ 64 }
    requires number { after + length lines.now < 2 ^ 64 }
    ensures text { OnOk result (text.new.items ≡ text.old.items
        ++ report_text (L.log log.now).statements (L.log log.now).names (after + 1) place lines.now) }
    ensures end { IfOk result (λ end. end ≡ place + places_in lines.now) }
{
    let mut number = after;
    let mut place = place;
    for line in lines {
        number += 1;
        put_line(text, log, number, place, *line)?;
        place += line.places();
    }
    Ok(place)
}
