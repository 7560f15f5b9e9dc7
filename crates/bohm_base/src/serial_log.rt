//! A log that was read and run, and its report line by line.

ghost use Rattle.std.specs.Prelude.{◌≡◌, ℕ, slice_get};
ghost use Rattle.model_base.specs.Outcomes.{outcome};

use crate::collecting::LineOutcome;
use crate::grantees::granted_to;
use crate::pending::put_out;
use crate::reported_log::{ReportedLog, put_lines};
use line_io::{Counted, EngineFault};
use model_base::{Grantee, Outcome, Place, RecordName, Statement};
use sequencer::{Catalog, Log};
use std::alloc::{AllocError, Global};
use std::io::Write;

/// A log with the outcomes of its places.
#[derive(Clone, Copy)]
pub(crate) struct SerialLog<'a> {
    pub(crate) alloc: Global,
    pub(crate) log: &'a Log,
    pub(crate) outcomes: &'a [Outcome],
    ghost told: { (place : ℕ) → slice_get outcomes.now place ≡ outcome log.now.statements place },
}

impl ReportedLog for SerialLog<'_> {
    ghost use Rattle.std.specs.Prelude.{⊤};

    ghost log = { λ serial. serial.log.now };

    ghost is_finished = { λ serial place. ⊤ };

    ghost is_kept = { λ serial place. ⊤ };

    fn catalog(&self) -> &Catalog {
        // A log is whole, as its accessor says.
        let _statements = self.log.statements();
        self.log.catalog()
    }

    fn kept(&self, place: Place) -> Option<(&Statement, &Outcome)> {
        let index = place as usize;
        let statement = self.log.statements().get(index)?;
        let outcome = self.outcomes.get(index)?;
        Some((statement, outcome))
    }

    fn grantees_of(&self, names: &[RecordName]) -> Result<Vec<Grantee>, AllocError> {
        granted_to(self.alloc, self.log.statements(), names)
    }
}

impl SerialLog<'_> {
    ghost use Rattle.std.specs.Prelude.{◌≢◌, ◌<◌, ◌+◌, ◌++◌, ◌^◌, IfErr, IfOk, OnOk, length};
    ghost use Rattle.line_io.specs.Known.{HasBegun, MovesOut};
    ghost use Rattle.bohm_base.specs.Collecting.{places_in, report_text};
    ghost use Rattle.bohm_base.specs.Faults.{IsFaultInOrder, write_errors};

    /// Appends the report's lines for some lines, as `put_lines`, to what is pending, and writes what is pending if that is much. The text is
    /// used for them, and of no more use. Returns the place after theirs.
    pub(crate) fn report_lines<W: Write>(
        &self,
        writer: &mut Counted<W>,
        pending: &mut Vec<u8>,
        text: &mut Vec<u8>,
        after: u64,
        place: Place,
        lines: &[LineOutcome],
    ) -> Result<Place, EngineFault>
        requires places { place + places_in lines.now < 2 ^ 64 }
        requires number { after + length lines.now < 2 ^ 64 }
        ensures ok { OnOk result (MovesOut (W.contents writer.old.inner) (W.contents writer.new.inner) (pending.old.items
            ++ report_text self.now.log.now.statements self.now.log.now.names (after + 1) place lines.now) pending.new.items) }
        ensures begun { HasBegun (W.contents writer.old.inner) (W.contents writer.new.inner) pending.new.items (pending.old.items
            ++ report_text self.now.log.now.statements self.now.log.now.names (after + 1) place lines.now) }
        ensures end { IfOk result (λ end. end ≡ place + places_in lines.now) }
        ensures errors { writer.new.errors ≡ write_errors result writer.old.errors }
        ensures flushes { writer.new.flushes ≡ writer.old.flushes }
        ensures err { IfErr result (λ f. f ≢ EngineFault.Read) }
        ensures alone { IfErr result IsFaultInOrder }
    {
        text.clear();
        let end = put_lines(text, self, after, place, lines)?;
        put_out(writer, pending, text)?;
        Ok(end)
    }
}
