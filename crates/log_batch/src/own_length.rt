//! How many own words a place of the batch has.

ghost use Rattle.std.specs.Prelude.{◌≡◌, ◌<◌, ◌≤◌, ◌+◌, All, length, map, slice_index_or};
ghost use Rattle.body.specs.Premises.{IsRunnable};
ghost use Rattle.own_words.specs.Words.{outputs_of};
ghost use Rattle.sequencer.specs.Whole.{columns_by};
ghost use Rattle.bohm_core_base.specs.Batch.{cells_length, words_length};
ghost use Rattle.log_batch.specs.Shown.{access_of};
ghost use Rattle.log_batch.specs.Supplied.{batch_of};

use crate::batch::LogBatch;
use model_base::{Access, MOST_ACCESSES, MOST_COLUMNS, Statement, Table};
use own_words::{MOST_OWN_WORDS, outputs_of};

/// How many columns a table has; one that isn't listed has none.
pub fn columns_in(columns: &[u8], table: Table) -> u8
    requires { All (λ count. count ≤ MOST_COLUMNS) columns.now }
    ensures value { result ≡ slice_index_or columns.now table 0 }
    ensures few { result ≤ MOST_COLUMNS }
{
    let table = table.0 as usize;
    if table < columns.len() {
        columns[table]
    } else {
        0
    }
}

/// How many columns a table of the log has; one that the log doesn't have has none.
pub fn columns_of(batch: &LogBatch, table: Table) -> u8
    ensures value { result ≡ columns_by batch.now.log.names table }
    ensures few { result ≤ MOST_COLUMNS }
{
    columns_in(batch.log().all_columns(), table)
}

/// How many words of a statement are before its version cells: four, and one for each OUT step.
pub fn header_length(statement: &Statement) -> usize
    requires { IsRunnable statement.now }
    ensures value { result ≡ 4 + outputs_of statement.now.form }
    ensures few { result ≤ 12 }
{
    4 + outputs_of(&statement.form)
}

/// How many words the version cells of these accesses have: for each access that may change its row one, and one for each
/// column.
fn cells_length(batch: &LogBatch, accesses: &[Access]) -> usize
    requires { length accesses.now ≤ MOST_ACCESSES }
    ensures value { result ≡ cells_length (batch_of batch.now).columns (map access_of accesses.now) }
    ensures few { result ≤ 144 }
{
    let mut length = 0;
    for access in accesses {
        if access.is_writing() {
            length += 1 + columns_of(batch, access.key.table) as usize;
        }
    }
    length
}

/// How many own words a place has: four, one for each OUT step, and for each access that may change its row one and one for
/// each column. They are at most `MOST_OWN_WORDS`.
#[tactic(auto, using(crate::proofs::OwnLength::length_at))]
pub fn words_length(batch: &LogBatch, index: usize) -> usize
    requires { index < batch.now.size }
    ensures value { result ≡ words_length (batch_of batch.now) index }
    ensures few { result ≤ MOST_OWN_WORDS }
{
    let statement = batch.statement(index);
    header_length(statement) + cells_length(batch, statement.accesses())
}
