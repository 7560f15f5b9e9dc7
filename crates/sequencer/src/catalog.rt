//! What a log knows of names.

use crate::names::NameTable;
use crate::statement_buffers::StatementBuffers;
use log_text::Version;
use model_base::{HashSeed, MOST_COLUMNS, MOST_PLACES, Table, User};
use std::alloc::Global;
use std::marker::Model;

/// The users and tables that the accepted statements name, how many statements were accepted, and the version of the grammar of the next
/// lines.
///
/// It holds names and what is known of tables, and no statement, so its memory does not grow with the log.
#[derive(Drop)]
pub struct Catalog {
    pub(crate) users: NameTable,
    pub(crate) tables: NameTable,
    pub(crate) owners: Vec<User>,
    pub(crate) columns: Vec<u8>,
    pub(crate) places: u64,
    pub(crate) version: Version,
    /// The table that a statement named last. It says nothing of the names: it is only tried first.
    pub(crate) recent: Table,
    pub(crate) alloc: Global,
}

impl Model for Catalog {
    ghost use Rattle.sequencer.specs.Catalog.{Names};

    ghost Value = { Names };

    ghost use Rattle.sequencer.specs.Known.{names_of, IsConsistent};

    ghost view = { names_of };

    ghost invariant = { IsConsistent };
}

impl Catalog {
    ghost use Rattle.std.specs.Prelude.{◌≡◌, ◌<◌, ◌≤◌, [], length, slice_get, All, Some};
    ghost use Rattle.sequencer.specs.Names.{known_number};
    ghost use Rattle.sequencer.specs.Catalog.{no_names};

    /// The catalog without names and places. It doesn't allocate.
    pub fn new(alloc: Global) -> Self
        ensures { result ≡ no_names }
    {
        Catalog::seeded(alloc, HashSeed::fixed())
    }

    /// The catalog without names and places, whose names are found under this seed. It doesn't allocate.
    pub fn seeded(alloc: Global, seed: HashSeed) -> Self
        ensures { result ≡ no_names }
    {
        Catalog {
            users: NameTable::seeded(alloc, seed),
            tables: NameTable::seeded(alloc, seed),
            owners: Vec::new(alloc),
            columns: Vec::new(alloc),
            places: 0,
            version: Version::One,
            recent: Table(0),
            alloc,
        }
    }

    /// The seed under which names are found.
    pub fn seed(&self) -> HashSeed {
        self.users.seed()
    }

    /// Room for nothing yet, of the catalog's own memory.
    pub(crate) fn no_room(&self) -> StatementBuffers
        ensures accesses { result.accesses.items ≡ [] }
        ensures steps { result.steps.items ≡ [] }
    {
        StatementBuffers::new(self.alloc)
    }

    /// How many statements were accepted, which is the place of the next one.
    pub fn places(&self) -> u64
        ensures count { result ≡ self.now.places }
        ensures most { self.now.places ≤ MOST_PLACES }
    {
        self.places
    }

    /// The version of the grammar of the next lines, which is the first until `set_version`.
    pub fn version(&self) -> Version
        ensures { result ≡ self.now.version }
    {
        self.version
    }

    /// Sets the version of the grammar of the next lines.
    pub fn set_version(&mut self, version: Version)
        ensures { self.new ≡ record self.old { version = version } }
    {
        self.version = version;
    }

    /// The users' names. A user's number is its name's.
    pub fn users(&self) -> &NameTable
        ensures { result.now ≡ self.now.users }
    {
        &self.users
    }

    /// The tables' names. A table's number is its name's.
    pub fn tables(&self) -> &NameTable
        ensures names { result.now ≡ self.now.tables }
        ensures owners { length self.now.owners ≡ length self.now.tables }
        ensures columns { length self.now.columns ≡ length self.now.tables }
    {
        &self.tables
    }

    /// The user who created a table of this catalog.
    pub fn owner(&self, table: Table) -> User
        requires { table < length self.now.tables }
        ensures { slice_get self.now.owners table ≡ Some result }
    {
        self.owners[table.0 as usize]
    }

    /// How many columns a table of this catalog has.
    pub fn columns(&self, table: Table) -> u8
        requires { table < length self.now.tables }
        ensures value { slice_get self.now.columns table ≡ Some result }
        ensures most { result ≤ MOST_COLUMNS }
    {
        self.columns[table.0 as usize]
    }

    /// How many columns each table has, by the tables' numbers.
    pub fn all_columns(&self) -> &[u8]
        ensures value { result.now ≡ self.now.columns }
        ensures narrow { All (λ count. count ≤ MOST_COLUMNS) self.now.columns }
        ensures each { length self.now.columns ≡ length self.now.tables }
    {
        self.columns.as_slice()
    }
}
