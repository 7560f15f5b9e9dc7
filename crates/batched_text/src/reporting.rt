//! The report's lines for the lines of a batch.

ghost use Rattle.std.specs.Prelude.{◌≡◌, ◌<◌, ◌≤◌, ◌++◌, IfOk, OnOk, drop};
ghost use Rattle.model_base.specs.RecordGrantees.{WereGranted};
ghost use Rattle.report.specs.Report.{place_text};
ghost use Rattle.report.specs.Text.{HaveGrantees};
ghost use Rattle.engine.specs.Engine.{finished};

use bohm_base::ReportedLog;
use engine::Engine;
use log_text::Version;
use model_base::{Grantee, Outcome, Place, RecordName, Statement};
use sequencer::Catalog;
use std::alloc::{AllocError, Global};

/// To whom some records of grants are, in their order, where the version of the log has them written: version 1 writes their places alone,
/// and no grantee is returned.
pub fn named_grantees(
    alloc: Global,
    engine: &Engine,
    names: &[RecordName],
) -> Result<Vec<Grantee>, AllocError>
    // In version 1 this holds of any grantees, also where the records were not granted.
    ensures { IfOk result (λ grantees. WereGranted engine.now.log.statements (finished engine.now) names.now
        → HaveGrantees engine.now.log.names.version engine.now.log.statements names.now grantees.items) }
{
    match engine.log().catalog().version() {
        Version::One => Ok(Vec::new(alloc)),
        Version::Two => engine.grantees_of(alloc, names),
    }
}

/// An engine, with the statements and outcomes that it keeps, the first of which are those of the place before which they were dropped.
#[derive(Drop)]
pub(crate) struct KeptPlaces<'a> {
    alloc: Global,
    engine: &'a Engine,
    statements: &'a [Statement],
    outcomes: &'a [Outcome],
    dropped: Place,
    ghost of_log: { statements.now ≡ drop engine.now.dropped engine.now.log.statements },
    ghost of_run: { outcomes.now ≡ drop engine.now.dropped engine.now.outcomes },
    ghost since: { dropped ≡ engine.now.dropped },
}

impl<'a> KeptPlaces<'a> {
    /// What the engine keeps.
    #[inline(always)]
    pub(crate) fn new(alloc: Global, engine: &'a Engine) -> Self
        ensures { result.engine.now ≡ engine.now }
    {
        let log = engine.log();
        KeptPlaces {
            alloc,
            engine,
            statements: log.kept_statements(),
            outcomes: engine.kept_outcomes(),
            dropped: log.dropped(),
        }
    }
}

impl ReportedLog for KeptPlaces<'_> {
    ghost log = { λ kept. kept.engine.now.log };

    ghost is_finished = { λ kept place. place < finished kept.engine.now };

    ghost is_kept = { λ kept place. (kept.engine.now.dropped ≤ place) × (place < finished kept.engine.now) };

    #[inline(always)]
    fn catalog(&self) -> &Catalog {
        let log = self.engine.log();
        let _dropped = log.dropped();
        log.catalog()
    }

    #[inline(always)]
    fn kept(&self, place: Place) -> Option<(&Statement, &Outcome)> {
        let _finished = self.engine.finished();
        let (statements, outcomes) = (self.statements, self.outcomes);
        let index = (place - self.dropped) as usize;
        Some((&statements[index], &outcomes[index]))
    }

    fn grantees_of(&self, names: &[RecordName]) -> Result<Vec<Grantee>, AllocError> {
        self.engine.grantees_of(self.alloc, names)
    }
}

/// Appends the report's line to the text for a place that is finished, and whose statement and outcome are kept. An error means out of
/// memory: some of the line may be after the text then.
pub fn put_place(
    alloc: Global,
    text: &mut Vec<u8>,
    engine: &Engine,
    place: Place,
) -> Result<(), AllocError>
    requires kept { engine.now.dropped ≤ place }
    requires within { place < finished engine.now }
    ensures { OnOk result (text.new.items ≡ text.old.items ++ place_text engine.now.log.statements engine.now.log.names place) }
{
    let kept = KeptPlaces::new(alloc, engine);
    bohm_base::put_place(text, &kept, place)
}
