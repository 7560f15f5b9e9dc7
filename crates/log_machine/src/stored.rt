//! What a partition stores of the references of its next place.

ghost use Rattle.std.specs.Prelude.{◌≡◌, ◌==◌, ◌<◌, ◌^◌, ◌+◌, ◌++◌, All, IfOk, OnOk, length, map, true, if◌then◌else◌};
ghost use Rattle.model_base.specs.declared.reference.Reference.{Reference};
ghost use Rattle.model_base.specs.declared.statement.Access.{Access};
ghost use Rattle.placing.specs.Parts.{key_partition, table_partition};
ghost use Rattle.bohm_core_base.specs.Machine.{front_of, placed_references, stored};
ghost use Rattle.log_batch.specs.Laws.{word_of};
ghost use Rattle.log_batch.specs.Supplied.{batch_of};

use bohm_core::State;
use log_batch::LogBatch;
use model_base::{Access as Declared, Place, Reference, Table};
use placing::{find_tables, partition_of, partition_of_table};
use std::alloc::{AllocError, Global};

/// A reference as the machine keeps it: 0 for the base, and for a place one more than its index.
fn word_of(first: Place, reference: Reference) -> usize
    requires { word_of first reference < 2 ^ 64 }
    ensures { result ≡ word_of first reference }
{
    match reference {
        Reference::Base => 0,
        Reference::At(place) => place.saturating_sub(first) as usize + 1,
    }
}

/// Appends the partition of each access's key to the others.
fn push_key_partitions(
    found: &mut Vec<usize>,
    accesses: &[Declared],
    partitions: usize,
) -> Result<(), AllocError>
    requires { 0 < partitions }
    ensures { OnOk result (found.new.items ≡ found.old.items
        ++ map (λ (access : Access). key_partition partitions access.key.table access.key.row) accesses.now) }
{
    for access in accesses {
        found.push(partition_of(access.key, partitions))?;
    }
    Ok(())
}

/// Appends the partition of the deeds on each table to the others.
fn push_table_partitions(
    found: &mut Vec<usize>,
    tables: &[Table],
    partitions: usize,
) -> Result<(), AllocError>
    requires { 0 < partitions }
    ensures { OnOk result (found.new.items ≡ found.old.items ++ map (table_partition partitions) tables.now) }
{
    for table in tables {
        found.push(partition_of_table(*table, partitions))?;
    }
    Ok(())
}

/// The partition of each reference of an index, first those of its accesses and then those of its tables.
fn partitions_at(
    alloc: Global,
    batch: &LogBatch<'_>,
    index: usize,
) -> Result<Vec<usize>, AllocError>
    requires { index < batch.now.size }
    ensures { IfOk result (λ partitions. partitions.items ≡ (batch_of batch.now).partitions_of index) }
{
    let statement = batch.statement(index);
    let partitions = batch.partition_count();
    let mut tables = Vec::new(alloc);
    find_tables(&mut tables, statement)?;
    let mut found = Vec::new(alloc);
    push_key_partitions(&mut found, statement.accesses(), partitions)?;
    push_table_partitions(&mut found, &tables, partitions)?;
    Ok(found)
}

/// The new reference, if it is into the partition, and else the old one.
fn chosen(partition: usize, other: usize, new: usize, old: usize) -> usize
    ensures { result ≡ (if other == partition then new else old) }
{
    if other == partition { new } else { old }
}

/// The old references, with those into one partition stored.
fn replaced(
    alloc: Global,
    first: Place,
    references: &[Reference],
    partitions: &[usize],
    partition: usize,
    old: &[usize],
) -> Result<Vec<usize>, AllocError>
    requires { All (λ (reference : Reference). word_of first reference < 2 ^ 64) references.now }
    ensures { IfOk result (λ kept. kept.items ≡ stored partition partitions.now (map (word_of first) references.now) old.now) }
{
    let count = references.len().min(partitions.len()).min(old.len());
    let mut kept = Vec::new(alloc);
    for index in 0..count {
        let word = word_of(first, references[index]);
        kept.push(chosen(partition, partitions[index], word, old[index]))?;
    }
    Ok(kept)
}

/// The references of a partition's next place, with those into the partition stored.
pub(crate) fn stored_references(
    alloc: Global,
    batch: &LogBatch<'_>,
    state: &State,
    partition: usize,
) -> Result<Vec<usize>, AllocError>
    requires placed { batch.now.placed ≡ true }
    requires within { front_of state.now partition < batch.now.size }
    ensures { IfOk result (λ references. references.items
        ≡ placed_references (batch_of batch.now) state.now partition (front_of state.now partition)) }
{
    let index = state.front(partition);
    let partitions = partitions_at(alloc, batch, index)?;
    let references = batch.references_at(index);
    let first = batch.first_place();
    let old = state.references(index);
    let kept = replaced(alloc, first, references, &partitions, partition, old)?;
    Ok(kept)
}
