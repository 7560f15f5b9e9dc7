//! The references of places of a batch.

ghost use Rattle.std.specs.Prelude.{◌<◌};

use crate::driver::Call;
use model_base::{Key, Place, Table};
use placing::{Refs, merge, partition_of, partition_of_table};
use std::alloc::{AllocError, Global};
use trials_base::{Attempt, TrialFault, WholeLog, beside, references_of};

/// The references of the places from one on, as this many partitions find them together.
fn found(alloc: Global, log: &WholeLog, first: Place, partitions: usize) -> Attempt<Refs> {
    if first > log.len() {
        return Err(TrialFault::Call);
    }
    if partitions == 0 {
        return Ok(merge(alloc, Vec::new(alloc))?);
    }
    Ok(references_of(alloc, log, first..log.len(), partitions)?)
}

/// References as text, in a line for each place.
fn text_of_refs(alloc: Global, refs: &Refs) -> Result<String, AllocError> {
    let mut text = format!(in alloc; "{} places", refs.len())?;
    for index in 0..refs.len() {
        let line = format!(in alloc; "\n  {:?}", refs.of(index))?;
        text.push_str(line.as_str())?;
    }
    Ok(text)
}

/// To what the places from one on refer: `FIRST PARTITIONS`.
pub fn references(alloc: Global, log: &WholeLog, call: &Call<'_>) -> Attempt<String> {
    let refs = found(alloc, log, call.number(0), call.number(1) as usize)?;
    beside(text_of_refs(alloc, &refs))
}

/// To which partition a row and a table belong: `TABLE ROW PARTITIONS`.
pub fn partitions(alloc: Global, call: &Call<'_>) -> Attempt<String> {
    let (table, row) = (Table(call.count(0)), call.count(1));
    let partitions = call.number(2) as usize;
    if partitions == 0 {
        return Err(TrialFault::Call);
    }
    let of_row = partition_of(Key { table, row }, partitions);
    let of_table = partition_of_table(table, partitions);
    beside(format!(in alloc; "row {of_row}, table {of_table}"))
}
