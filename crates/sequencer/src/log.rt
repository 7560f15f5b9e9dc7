//! The log: the accepted statements in their order.

use crate::catalog::Catalog;
use crate::refused::Refused;
use log_text::{LineBuffers, RawStatement, Version};
use model_base::{HashSeed, MOST_COLUMNS, MOST_PLACES, Place, Statement, Table, User};
use std::alloc::Global;
use std::marker::Model;

/// The accepted statements, in order, and the names that they name. A statement's index is its place.
#[derive(Drop)]
pub struct Log {
    catalog: Catalog,
    statements: Vec<Statement>,
}

impl Model for Log {
    ghost use Rattle.sequencer.specs.Log.{Accepted};
    ghost use Rattle.sequencer.specs.Whole.{IsKept};

    ghost Value = { Accepted };

    ghost view = { λ log. record { names = log.catalog; statements = log.statements.items } };

    ghost invariant = { λ log. IsKept record { names = log.catalog; statements = log.statements.items } };
}

impl Log {
    ghost use Rattle.std.specs.Prelude.{◌≡◌, ◌<◌, ◌≤◌, None, Some, length, slice_get, All};
    ghost use Rattle.log_text.specs.LineBuffers.{sentence_of};
    ghost use Rattle.log_text.specs.Statement.{IsInGrammar};
    ghost use Rattle.model_base.specs.Growing.{NeedsOwnTables};
    ghost use Rattle.sequencer.specs.Log.{empty_log, in_version, with_accepted};
    ghost use Rattle.sequencer.specs.Pushing.{Pushes};
    ghost use Rattle.sequencer.specs.Whole.{IsWhole};

    /// The log without statements. It doesn't allocate.
    pub fn new(alloc: Global) -> Self
        ensures { result ≡ empty_log }
    {
        Log::seeded(alloc, HashSeed::fixed())
    }

    /// The log without statements, whose names are found under this seed. It doesn't allocate.
    #[tactic(auto, using(crate::proofs::WholeLogs::kept_empty))]
    pub fn seeded(alloc: Global, seed: HashSeed) -> Self
        ensures { result ≡ empty_log }
    {
        Log {
            catalog: Catalog::seeded(alloc, seed),
            statements: Vec::new(alloc),
        }
    }

    /// The log without statements, whose lines are of this version of the grammar. It doesn't allocate.
    pub fn with(alloc: Global, version: Version) -> Self
        ensures { result ≡ in_version version empty_log }
    {
        let mut log = Log::new(alloc);
        log.set_version(version);
        log
    }

    /// Sets the version of the grammar of the next lines.
    #[tactic(auto, using(crate::proofs::WholeLogs::kept_in_version))]
    pub fn set_version(&mut self, version: Version)
        ensures { self.new ≡ in_version version self.old }
    {
        self.catalog.set_version(version);
    }

    /// Takes a statement as the next place, which is the length until then. The first test that it doesn't pass refuses it; one that passes
    /// is refused only for lack of memory. After a refusal the log is as it was.
    pub fn push(&mut self, statement: &RawStatement<'_>) -> Result<Place, Refused>
        ensures { Pushes self.old statement.now result self.old self.new (with_accepted self.old statement.now) }
    {
        if self.statements.reserve(1).is_err() {
            return Err(self.catalog.refused(statement));
        }
        let place = self.catalog.places();
        let mut room = self.catalog.no_room();
        self.catalog
            .admit(statement, &mut room, &mut self.statements)?;
        Ok(place)
    }

    /// Takes a RUN that was read, as `push`, from where it stays.
    fn push_run(&mut self, read: &LineBuffers<'_>) -> Result<Place, Refused>
        requires run { read.now.other ≡ None }
        requires grammar { IsInGrammar (sentence_of read.now) }
        ensures { Pushes self.old (sentence_of read.now) result self.old self.new (with_accepted self.old (sentence_of read.now)) }
    {
        if self.statements.reserve(1).is_err() {
            return Err(self.catalog.refused_run(read));
        }
        let place = self.catalog.places();
        let mut room = self.catalog.no_room();
        self.catalog
            .admit_read(read, &mut room, &mut self.statements)?;
        Ok(place)
    }

    /// Takes the statement that a line was read as, as `push`, from where it stays.
    pub fn push_read(&mut self, read: &LineBuffers<'_>) -> Result<Place, Refused>
        requires { IsInGrammar (sentence_of read.now) }
        ensures { Pushes self.old (sentence_of read.now) result self.old self.new (with_accepted self.old (sentence_of read.now)) }
    {
        match &read.other {
            Some(statement) => self.push(statement),
            None => self.push_run(read),
        }
    }

    /// How many statements were accepted, which is the place of the next one.
    pub fn len(&self) -> Place
        ensures count { result ≡ length self.now.statements }
        ensures most { length self.now.statements ≤ MOST_PLACES }
    {
        self.catalog.places()
    }

    /// The accepted statements, in order.
    pub fn statements(&self) -> &[Statement]
        ensures value { result.now ≡ self.now.statements }
        ensures whole { IsWhole self.now }
        ensures own_tables { NeedsOwnTables self.now.statements }
    {
        self.statements.as_slice()
    }

    /// What the log knows of names: a user or a table is of this log where its number is below their count.
    pub fn catalog(&self) -> &Catalog
        ensures { result.now ≡ self.now.names }
    {
        &self.catalog
    }

    /// The user who created a table of this log.
    pub fn owner(&self, table: Table) -> User
        requires { table < length self.now.names.tables }
        ensures { slice_get self.now.names.owners table ≡ Some result }
    {
        self.catalog.owner(table)
    }

    /// How many columns a table of this log has.
    pub fn columns(&self, table: Table) -> u8
        requires { table < length self.now.names.tables }
        ensures value { slice_get self.now.names.columns table ≡ Some result }
        ensures most { result ≤ MOST_COLUMNS }
    {
        self.catalog.columns(table)
    }

    /// How many columns each table has, by the tables' numbers.
    pub fn all_columns(&self) -> &[u8]
        ensures value { result.now ≡ self.now.names.columns }
        ensures narrow { All (λ count. count ≤ MOST_COLUMNS) self.now.names.columns }
        ensures each { length self.now.names.columns ≡ length self.now.names.tables }
    {
        self.catalog.all_columns()
    }
}
