//! A log, run for the counts of its report.

ghost use Rattle.std.specs.Prelude.{◌≡◌, ◌<◌, ◌-◌, ◌^◌, Err, IfErr, IfOk, IfSome, OnErr, OnOk};
ghost use Rattle.line_io.specs.declared.fault.EngineFault.{EngineFault};
ghost use Rattle.report.specs.Report.{IsReport};
ghost use Rattle.bohm_base.specs.Faults.{IsFaultInOrder};
ghost use Rattle.summary.specs.Given.{given_to};

use crate::counting::Counting;
use batched_text::report_alone;
use line_io::{Counted, EngineFault};
use model_base::HashSeed;
use std::alloc::Global;
use std::io::Read;

/// Runs a log in order on this thread, and counts the lines of its report, of which nothing is kept.
pub(crate) fn count_report<R: Read>(
    alloc: Global,
    reader: &mut Counted<R>,
    seed: HashSeed,
) -> Result<Counting, EngineFault>
    ensures report { IfOk result (λ counting. IfSome (R.remaining reader.old.inner) (λ input. IsReport input (given_to counting))) }
    ensures read { result ≡ Err EngineFault.Read → reader.old.errors < 2 ^ 64 - 1 → reader.old.errors < reader.new.errors }
    ensures whole { OnOk result (reader.new.errors ≡ reader.old.errors) }
    ensures alone { IfErr result IsFaultInOrder }
{
    let mut told = Counted::new(Counting::new());
    report_alone(alloc, reader, &mut told, seed)?;
    Ok(told.inner)
}
