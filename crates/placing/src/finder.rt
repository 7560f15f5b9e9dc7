//! The placer of one partition, place by place.

ghost use Rattle.std.specs.Prelude.{◌≡◌, ◌≤◌, ◌<◌, ◌+◌, ℕ, List, Some, OnOk, slice_get};
ghost use Rattle.model_base.specs.declared.statement.Statement.{Statement};
ghost use Rattle.model_base.specs.References.{tables_of};
ghost use Rattle.placing.specs.Latest.{IsBehind, IsLatest, own_prior, own_writer};

use crate::latest::Latest;
use crate::tables::find_tables;
use model_base::{Access, Place, Reference, Statement, Table};
use std::alloc::{AllocError, Global};

/// What the placer of one partition keeps between the places of a batch, which it goes through in order: it notes each place
/// once it is placed, and then finds what the next is referred to.
#[derive(Drop)]
pub struct Finder {
    latest: Latest,
    tables: Vec<Table>,
}

impl Finder {
    /// Before the first place of a batch. It doesn't allocate.
    pub fn new(alloc: Global, partition: usize, partitions: usize) -> Self
        requires { 0 < partitions }
        ensures partition { result.latest.partition ≡ partition }
        ensures partitions { result.latest.partitions ≡ partitions }
        ensures none { (log : List Statement) (first : ℕ) → IsLatest result.latest log first first }
    {
        Finder {
            latest: Latest::new(alloc, partition, partitions),
            tables: Vec::new(alloc),
        }
    }

    /// Notes the statement of a place that was placed. On `Err`, out of memory; the place can be noted again.
    pub fn note(&mut self, statement: &Statement, place: Place) -> Result<(), AllocError>
        ensures partition { self.new.latest.partition ≡ self.old.latest.partition }
        ensures partitions { self.new.latest.partitions ≡ self.old.latest.partitions }
        ensures behind { (log : List Statement) (first : ℕ)
            → IsBehind self.old.latest log first place → slice_get log place ≡ Some statement.now
            → IsBehind self.new.latest log first place }
        ensures noted { OnOk result ((log : List Statement) (first : ℕ)
            → first ≤ place → IsBehind self.old.latest log first place → slice_get log place ≡ Some statement.now
            → IsLatest self.new.latest log first (place + 1)) }
    {
        self.latest.note(statement, place)
    }

    /// Finds the tables of a statement. On `Err`, out of memory.
    pub fn find(&mut self, statement: &Statement) -> Result<(), AllocError>
        ensures latest { self.new.latest ≡ self.old.latest }
        ensures tables { OnOk result (self.new.tables.items ≡ tables_of statement.now.form) }
    {
        self.tables.clear();
        find_tables(&mut self.tables, statement)
    }

    /// The tables that were found.
    pub fn tables(&self) -> &[Table]
        ensures { result.now ≡ self.now.tables.items }
    {
        self.tables.as_slice()
    }

    /// The reference of an access, if its row is of the partition.
    pub fn writer(&self, access: &Access) -> Reference
        ensures { result ≡ own_writer self.now.latest access.now }
    {
        self.latest.writer(access)
    }

    /// The reference of a table, if its deeds are of the partition.
    pub fn prior(&self, table: Table) -> Reference
        ensures { result ≡ own_prior self.now.latest table }
    {
        self.latest.prior(table)
    }
}
