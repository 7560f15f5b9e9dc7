//! The rows that a place of a batch is shown by its references, as a window for the body.

ghost use Rattle.std.specs.Prelude.{◌≡◌, ◌<◌, ◌≤◌, ◌+◌, ℕ, [], Some, drop, length, slice_get};
ghost use Rattle.model_base.specs.declared.statement.Statement.{Statement};
ghost use Rattle.model_base.specs.Outcomes.{rows_before};
ghost use Rattle.model_base.specs.Versions.{accesses_of};
ghost use Rattle.body.specs.Premises.{IsRunnable};
ghost use Rattle.body.specs.Shown.{WindowShows};
ghost use Rattle.bohm_core_base.specs.Batch.{cell, row_from, words_length};
ghost use Rattle.bohm_core_base.specs.Serial.{serial_words};
ghost use Rattle.log_batch.specs.Shown.{row_numbers};
ghost use Rattle.log_batch.specs.Supplied.{batch_of};
ghost use Rattle.evaluation.specs.ReadSource.{IsReferred, place_in_log, referred_word, row_referred};

use crate::read_source::ReadSource;
use body::Window;
use log_batch::{LogBatch, columns_of, header_length};
use model_base::{Key, MOST_ACCESSES, MOST_COLUMNS, Row, Statement};
use own_words::MOST_OWN_WORDS;

/// The row of a version cell with this many columns, whose words begin at a number of a place's own words.
fn row_at<T: ReadSource>(source: &mut T, index: usize, number: usize, columns: u8) -> Option<Row>
    requires referred { IsReferred (T.as_reader source.old) index }
    requires within { number + columns < words_length (T.as_reader source.old).batch index }
    requires small { number < MOST_OWN_WORDS }
    requires few { columns ≤ MOST_COLUMNS }
    ensures value { result ≡ row_numbers (row_from columns (drop number (serial_words (T.as_reader source.old).batch index))) }
    ensures same { (T.as_reader source.new ≡ T.as_reader source.old) × (T.work source.new ≡ T.work source.old) }
{
    let _reader = source.reader();
    if source.own(index, number) == 0 {
        return None;
    }
    let mut row = Row::new();
    for column in 0..columns {
        let word = source.own(index, number + 1 + column as usize);
        row.push(word.cast_signed());
    }
    Some(row)
}

/// The row of a key as the own words of a place give it that the reader refers to: that of the first version cell of the key. Where its
/// statement can't change the row there is none.
fn row_by_source<T: ReadSource>(
    batch: &LogBatch,
    source: &mut T,
    statement: &Statement,
    index: usize,
    key: Key,
) -> Option<Row>
    requires batch { (T.as_reader source.old).batch ≡ batch_of batch.now }
    requires at { slice_get batch.now.log.statements (batch.now.first + index) ≡ Some statement.now }
    requires runnable { IsRunnable statement.now }
    requires referred { IsReferred (T.as_reader source.old) index }
    ensures value { result ≡ row_numbers (cell (batch_of batch.now) index (serial_words (batch_of batch.now) index) key) }
    ensures same { (T.as_reader source.new ≡ T.as_reader source.old) × (T.work source.new ≡ T.work source.old) }
{
    let mut number = header_length(statement);
    for access in statement.accesses() {
        if access.is_writing() {
            let columns = columns_of(batch, access.key.table);
            if access.key == key {
                return row_at(source, index, number, columns);
            }
            number += 1 + columns as usize;
        }
    }
    None
}

/// The row of a key as the own words of a place give it that the reader refers to; an index after the log's end has no cells, and so no
/// row.
#[tactic(auto, using(crate::proofs::ShownCells::cell_past))]
fn row_in<T: ReadSource>(batch: &LogBatch, source: &mut T, index: usize, key: Key) -> Option<Row>
    requires batch { (T.as_reader source.old).batch ≡ batch_of batch.now }
    requires referred { IsReferred (T.as_reader source.old) index }
    ensures value { result ≡ row_numbers (cell (batch_of batch.now) index (serial_words (batch_of batch.now) index) key) }
    ensures same { (T.as_reader source.new ≡ T.as_reader source.old) × (T.work source.new ≡ T.work source.old) }
{
    match batch.find(index) {
        Some(statement) => row_by_source(batch, source, statement, index, key),
        None => None,
    }
}

/// The row that a reference of the reader shows: that before the batch, or the one that the own words say of the place that it is to.
fn row_shown<T: ReadSource>(
    batch: &LogBatch,
    source: &mut T,
    reference: Option<usize>,
    key: Key,
) -> Option<Row>
    requires batch { (T.as_reader source.old).batch ≡ batch_of batch.now }
    requires referred { (index : ℕ) → reference ≡ Some index → IsReferred (T.as_reader source.old) index }
    ensures value { result ≡ row_numbers (row_referred (batch_of batch.now) key (referred_word reference)) }
    ensures same { (T.as_reader source.new ≡ T.as_reader source.old) × (T.work source.new ≡ T.work source.old) }
{
    let _log = batch.log();
    match reference {
        None => batch.row_before(key),
        Some(index) => row_in(batch, source, index, key),
    }
}

/// Writes the rows that the reader is shown by its references, which are those before its place of the log, into a window without an
/// output.
pub(crate) fn show_rows<T: ReadSource>(batch: &LogBatch, source: &mut T, window: &mut Window)
    requires batch { (T.as_reader source.old).batch ≡ batch_of batch.now }
    requires whole { length window.old.rows ≡ MOST_ACCESSES }
    requires fresh { window.old.outputs ≡ [] }
    ensures shows { (statement : Statement)
        → slice_get batch.now.log.statements (place_in_log batch.now (T.as_reader source.old)) ≡ Some statement
        → WindowShows (accesses_of statement.form) window.new
        (rows_before batch.now.log.statements (place_in_log batch.now (T.as_reader source.old))) }
    ensures fresh { window.new.outputs ≡ [] }
    ensures same { (T.as_reader source.new ≡ T.as_reader source.old) × (T.work source.new ≡ T.work source.old) }
{
    let index = source.reader();
    let statement = batch.statement(index);
    let accesses = statement.accesses();
    for (place, access) in accesses.iter().enumerate() {
        let reference = source.reference(place);
        window.set(place, row_shown(batch, source, reference, access.key));
    }
}
