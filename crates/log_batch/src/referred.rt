//! What is available of the references of a batch.

ghost use Rattle.std.specs.Prelude.{◌≡◌, ◌<◌, ◌≤◌, ◌+◌, ◌-◌, IfOk, length, slice_index};
ghost use Rattle.model_base.specs.References.{tables_of};
ghost use Rattle.model_base.specs.Versions.{accesses_of};
ghost use Rattle.log_batch.specs.Referred.{AreCounts};

use model_base::{Place, Statement, Table};
use placing::{Refs, find_tables};
use sequencer::LogTail;
use std::alloc::{AllocError, Global};
use std::ops::Range;

/// What is available of the references of the places of a batch.
#[derive(Drop)]
pub(crate) enum References {
    /// They were found.
    Found(Refs),
    /// They are only counted: this many has each place.
    Counted(Vec<usize>),
}

impl References {
    ghost use Rattle.log_batch.specs.Referred.{counts_in};

    /// How many references the place of an index has.
    pub(crate) fn count(&self, index: usize) -> usize
        requires { index < length (counts_in self.now) }
        ensures { result ≡ slice_index (counts_in self.now) index }
    {
        match self {
            References::Found(references) => references.of(index).len(),
            References::Counted(counts) => counts[index],
        }
    }
}

/// How many references a statement has: one for each access, and one for each table of its needs and of its deed, for which the
/// list is room. On `Err`, out of memory.
fn reference_count(statement: &Statement, tables: &mut Vec<Table>) -> Result<usize, AllocError>
    ensures { IfOk result (λ count. count ≡ length (accesses_of statement.now.form) + length (tables_of statement.now.form)) }
{
    tables.clear();
    find_tables(tables, statement)?;
    Ok(statement.accesses().len() + tables.len())
}

/// How many references each place of a range has. An error is out of memory.
pub(crate) fn reference_counts(
    alloc: Global,
    log: &LogTail,
    range: Range<Place>,
) -> Result<Vec<usize>, AllocError>
    requires kept { log.now.dropped ≤ range.start }
    requires order { range.start ≤ range.end }
    requires within { range.end ≤ length log.now.log.statements }
    ensures { IfOk result (λ counts. AreCounts log.now.log.statements range.start (range.end - range.start) counts.items) }
{
    let mut counts = Vec::new(alloc);
    let mut tables = Vec::new(alloc);
    for place in range.start..range.end {
        let count = reference_count(log.statement(place), &mut tables)?;
        counts.push(count)?;
    }
    Ok(counts)
}
