//! The last writers of rows and the last deeds on tables, of one partition.

ghost use Rattle.std.specs.Prelude.{◌≡◌, ◌<◌};

use crate::partition::{partition_of, partition_of_table};
use model_base::{Access, Key, Place, Reference, Statement, Table};
use std::alloc::{AllocError, Global};
use std::collections::BTreeMap;

/// Of the places of the batch so far, the last that may change each row of one partition, and the last that has a deed on
/// each of its tables. Of other partitions nothing is kept.
#[derive(Drop)]
pub(crate) struct Latest {
    partition: usize,
    partitions: usize,
    writers: BTreeMap<Key, Place>,
    deeds: BTreeMap<Table, Place>,
    ghost some: { 0 < partitions },
}

impl Latest {
    ghost use Rattle.std.specs.Prelude.{◌≡◌, ◌<◌, ◌==◌, ◌&&◌, OnOk, ℕ, List, false, option_to_list, if◌then◌else◌};
    ghost use Rattle.std.specs.List.{list_any};
    ghost use Rattle.model_base.specs.declared.reference.Reference.TheVariants.{At};
    ghost use Rattle.model_base.specs.declared.statement.Statement.{Statement};
    ghost use Rattle.model_base.specs.References.{has_deed_on, is_write_to};
    ghost use Rattle.placing.specs.Latest.{IsLatest, ChangesOnly, Notes, is_own_row, is_own_table, own_prior, own_writer, prior_in, reference_to, writer_in};

    /// Before the first place of the batch nothing is kept. It doesn't allocate.
    pub(crate) fn new(alloc: Global, partition: usize, partitions: usize) -> Self
        requires { 0 < partitions }
        ensures partition { result.partition ≡ partition }
        ensures partitions { result.partitions ≡ partitions }
        ensures none { (log : List Statement) (first : ℕ) → IsLatest result log first first }
    {
        Latest {
            partition,
            partitions,
            writers: BTreeMap::new(alloc),
            deeds: BTreeMap::new(alloc),
        }
    }

    /// The reference to a place, or to the base where there is none.
    fn reference_to(place: Option<Place>) -> Reference
        ensures { result ≡ reference_to place }
    {
        match place {
            Some(place) => Reference::At(place),
            None => Reference::Base,
        }
    }

    /// The reference of an access, if its row is of the partition.
    pub(crate) fn writer(&self, access: &Access) -> Reference
        ensures { result ≡ own_writer self.now access.now }
    {
        if partition_of(access.key, self.partitions) == self.partition {
            Self::reference_to(self.writers.get(&access.key).copied())
        } else {
            Reference::Base
        }
    }

    /// The reference of a table, if its deeds are of the partition.
    pub(crate) fn prior(&self, table: Table) -> Reference
        ensures { result ≡ own_prior self.now table }
    {
        if partition_of_table(table, self.partitions) == self.partition {
            Self::reference_to(self.deeds.get(&table).copied())
        } else {
            Reference::Base
        }
    }

    /// Notes that the place may change the rows of these accesses.
    fn note_writes(&mut self, accesses: &[Access], place: Place) -> Result<(), AllocError>
        ensures partition { self.new.partition ≡ self.old.partition }
        ensures partitions { self.new.partitions ≡ self.old.partitions }
        ensures writers { OnOk result ((table row : ℕ) → writer_in self.new table row
            ≡ (if is_own_row self.old table row && list_any (is_write_to table row) accesses.now
            then At place else writer_in self.old table row)) }
        ensures deeds { (table : ℕ) → prior_in self.new table ≡ prior_in self.old table }
        ensures others { (table row : ℕ) → (is_own_row self.old table row && list_any (is_write_to table row) accesses.now) ≡ false
            → writer_in self.new table row ≡ writer_in self.old table row }
    {
        for access in accesses {
            if access.is_writing() && partition_of(access.key, self.partitions) == self.partition {
                self.writers.insert(access.key, place)?;
            }
        }
        Ok(())
    }

    /// Notes that the place has a deed on a table, if it has one.
    fn note_deed(&mut self, table: Option<Table>, place: Place) -> Result<(), AllocError>
        ensures partition { self.new.partition ≡ self.old.partition }
        ensures partitions { self.new.partitions ≡ self.old.partitions }
        ensures writers { (table row : ℕ) → writer_in self.new table row ≡ writer_in self.old table row }
        ensures others { (on : ℕ) → (is_own_table self.old on && list_any (λ of_deed. of_deed == on) (option_to_list table)) ≡ false
            → prior_in self.new on ≡ prior_in self.old on }
        ensures deeds { OnOk result ((on : ℕ) → prior_in self.new on
            ≡ (if is_own_table self.old on && list_any (λ of_deed. of_deed == on) (option_to_list table)
            then At place else prior_in self.old on)) }
    {
        if let Some(table) = table
            && partition_of_table(table, self.partitions) == self.partition
        {
            self.deeds.insert(table, place)?;
        }
        Ok(())
    }

    /// Notes the statement of a place. On `Err`, out of memory, only a part of it may be noted.
    pub(crate) fn note(&mut self, statement: &Statement, place: Place) -> Result<(), AllocError>
        ensures others { ChangesOnly self.old self.new statement.now }
        ensures noted { OnOk result (Notes self.old self.new statement.now place) }
    {
        self.note_writes(statement.accesses(), place)?;
        self.note_deed(statement.deed_table(), place)
    }
}
