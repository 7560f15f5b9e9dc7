//! A map by hash as the store of the rows of all tables.

ghost use Rattle.std.specs.Prelude.{◌≡◌};
ghost use Rattle.model_base.specs.Rows.{no_rows};
ghost use Rattle.body.specs.Room.{IsLean};
ghost use Rattle.body.specs.RowMap.{HasEntry, rows_of};

use crate::row_store::{RowSource, RowStore};
use model_base::{HashSeed, Key, Row};
use std::alloc::{AllocError, Global};
use std::collections::HashMap;

/// The rows of all tables. A row is found in a time that doesn't grow with their number, on average. A key with no entry has no row; nor
/// has a key whose entry is `None`, but while rows are written. The map keeps the memory of the most entries that it had at once.
#[derive(Drop)]
pub struct RowMap {
    entries: HashMap<Key, Option<Row>, HashSeed>,
}

impl RowMap {
    /// The map in which all rows are absent. It doesn't allocate.
    pub fn new(alloc: Global) -> Self
        ensures rows { rows_of result ≡ no_rows }
        ensures lean { IsLean (HasEntry result) (rows_of result) }
    {
        RowMap::seeded(alloc, HashSeed::fixed())
    }

    /// The same, whose rows are found under this seed.
    pub fn seeded(alloc: Global, seed: HashSeed) -> Self
        ensures rows { rows_of result ≡ no_rows }
        ensures lean { IsLean (HasEntry result) (rows_of result) }
    {
        RowMap {
            entries: HashMap::with_hasher(alloc, seed),
        }
    }
}

impl RowSource for RowMap {
    ghost use Rattle.body.specs.RowMap.{rows_of};

    ghost rows = { rows_of };

    fn row(&self, key: Key) -> Option<Row> {
        match self.entries.get(&key) {
            Some(row) => *row,
            None => None,
        }
    }
}

impl RowStore for RowMap {
    ghost use Rattle.body.specs.RowMap.{HasEntry};

    ghost has_room = { HasEntry };

    fn reserve_row(&mut self, key: Key) -> Result<(), AllocError> {
        if !self.entries.contains_key(&key) {
            self.entries.insert(key, None)?;
        }
        Ok(())
    }

    fn put_row(&mut self, key: Key, row: &Option<Row>) {
        if let Some(entry) = self.entries.get_mut(&key) {
            *entry = *row;
        }
    }

    fn release_row(&mut self, key: Key) {
        if let Some(None) = self.entries.get(&key) {
            self.entries.remove(&key);
        }
    }
}
