//! The rows that are there, listed by table and number.

ghost use Rattle.std.specs.Prelude.{◌≡◌, IfOk, IsPermutation, IsSortedBy};
ghost use Rattle.std.specs.List.{filter_map};
ghost use Rattle.chains.specs.RowsThere.{is_listed_before, there_in};

use crate::replaced::Dated;
use indexmap::IndexMap;
use model_base::{HashSeed, Key, Row};
use std::alloc::{AllocError, Global};

/// A row that is there, with its key.
#[derive(Clone, Copy)]
pub struct RowThere {
    pub key: Key,
    pub values: Row,
}

/// The rows that the newest versions have, in the order of the entries.
pub(crate) fn rows_in(
    alloc: Global,
    newest: &IndexMap<Key, Dated, HashSeed>,
) -> Result<Vec<RowThere>, AllocError>
    ensures { IfOk result (λ found. found.items ≡ filter_map there_in newest.now.entries) }
{
    let mut found = Vec::new(alloc);
    for (key, dated) in newest.iter() {
        if let Some(values) = dated.row {
            found.push(RowThere { key: *key, values })?;
        }
    }
    Ok(found)
}

/// Sorts rows by table, and those of one table by number.
pub(crate) fn sort_rows(rows: &mut Vec<RowThere>)
    ensures permutation { IsPermutation rows.old.items rows.new.items }
    ensures sorted { IsSortedBy is_listed_before rows.new.items }
{
    rows.sort_unstable_by_key(
        |row: &RowThere| -> Key
            ensures { result ≡ row.now.key }
        { row.key },
    );
}
