//! The versions of rows that the words of a place give.

ghost use Rattle.std.specs.Prelude.{◌≡◌, ◌<◌, ◌≤◌, ◌++◌, ◌+◌, ◌∷◌, [], All, OnOk, drop, length, slice_index_or, if◌then◌else◌};
ghost use Rattle.own_words.specs.Words.{row_of};
ghost use Rattle.filling.specs.Cells.{versions_told};

use chains::Version;
use log_batch::columns_in;
use model_base::{Access, MOST_COLUMNS, Place};
use own_words::{row_of, words_after};
use std::alloc::AllocError;

/// Appends the versions that the words of a place's cells give to the others, one for each access that may change its row.
pub(crate) fn push_versions(
    versions: &mut Vec<Version>,
    columns: &[u8],
    place: Place,
    accesses: &[Access],
    cells: &[u64],
) -> Result<(), AllocError>
    requires { All (λ count. count ≤ MOST_COLUMNS) columns.now }
    ensures { OnOk result (versions.new.items
        ≡ versions.old.items ++ versions_told
        (λ table. slice_index_or columns.now table 0) place accesses.now cells.now) }
{
    let mut words = cells;
    for access in accesses {
        if access.is_writing() {
            let columns = columns_in(columns, access.key.table);
            let row = row_of(columns, words);
            versions.push(Version {
                place,
                key: access.key,
                row,
            })?;
            words = words_after(words, 1 + columns as usize);
        }
    }
    Ok(())
}
