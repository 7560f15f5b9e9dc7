//! Calls of a log of which nothing is dropped.

use crate::driver::Call;
use crate::foretold::{caught_up, cuts, foretold};
use crate::references::{partitions, references};
use log_text::{Version, parse_line_in};
use sequencer::Log;
use std::alloc::{AllocError, Global};
use trials_base::{Attempt, TrialFault, WholeLog, beside};

/// Changes a log, and says how many places it has: `new`; `push LINE`.
fn change(alloc: Global, log: &mut WholeLog, call: &Call<'_>) -> Attempt<String> {
    match call.verb {
        "new" => *log = WholeLog::new(alloc),
        "push" => log.push_line(alloc, call.rest.as_bytes())?,
        _ => return Err(TrialFault::NotText),
    }
    beside(format!(in alloc; "{} places", log.len()))
}

/// Takes two lines into a log of version 2, of which only that version has the second.
fn second_version(alloc: Global) -> Attempt<String> {
    let mut log = Log::with(alloc, Version::Two);
    for line in ["ann CREATE t 1", "ann GRANT READ,INSERT t bob,PUBLIC"] {
        log.push(&parse_line_in(alloc, log.catalog().version(), line.as_bytes())?)?;
    }
    beside(format!(in alloc; "{:?}", log.statements()))
}

/// A change; `references FIRST PARTITIONS`, of the places from one on; `partition TABLE ROW PARTITIONS`; `ahead` and `caught`, by the
/// names of the log; `cuts`; `second`, of a log of version 2.
pub fn make(alloc: Global, log: &mut WholeLog, call: &Call<'_>) -> Attempt<String> {
    match call.verb {
        "references" => references(alloc, log, call),
        "partition" => partitions(alloc, call),
        "ahead" => beside(foretold(alloc, log.tail().catalog())),
        "caught" => beside(caught_up(alloc, log.tail().catalog())),
        "cuts" => beside(cuts(alloc)),
        "second" => second_version(alloc),
        _ => change(alloc, log, call),
    }
}
