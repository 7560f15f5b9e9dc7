//! A run whose reader or writer fails.

use crate::driver::{Call, number_in};
use batched_text::{ReadingAhead, report_in_order};
use line_io::{Counted, MemoryReader, MemoryWriter};
use model_base::HashSeed;
use std::alloc::Global;
use std::sync::Wait;
use std::thread::Threads;
use trials_base::{Attempt, beside};

/// The log that is run: 40 bytes in six reads.
const LOG: &[u8] = b"alice CREATE t 1\nalice GRANT READ t bob\n";

/// How many calls go well: all where the word is `-`.
fn calls_of(call: &Call<'_>, index: usize) -> Option<u64> {
    let word = call.words.get(index).unwrap_or(&"-");
    (*word != "-").then_some(number_in(word))
}

/// Runs a log whose reads give seven bytes and whose writes take five, and says what was written: `READS WRITES FLUSHES`, after which
/// each fails.
pub fn failing<R: Threads + Wait + Sync>(
    rt: &R,
    alloc: Global,
    call: &Call<'_>,
) -> Attempt<String> {
    let mut log = Counted::new(MemoryReader {
        left: LOG,
        most: 7,
        reads: calls_of(call, 0),
    });
    let mut report = Counted::new(MemoryWriter {
        taken: Vec::new(alloc),
        most: 5,
        writes: calls_of(call, 1),
        flushes: calls_of(call, 2),
    });
    let reading = ReadingAhead::by(0);
    let ended = report_in_order(rt, alloc, &mut log, &mut report, reading, HashSeed::fixed());
    let failures = (log.errors, report.errors, report.flushes);
    let written = str::from_utf8(report.inner.taken.as_slice()).unwrap_or("no text");
    beside(format!(in alloc; "{ended:?} {failures:?} {written:?}"))
}
