//! What a place stores and ends, by what it is shown.

ghost use Rattle.std.specs.Prelude.{◌≡◌, true, Some, IfOk};
ghost use Rattle.std.specs.List.Sorted.{IsStrictlyIncreasing};
ghost use Rattle.own_words.specs.Places.{words_at};
ghost use Rattle.sequencer.specs.Whole.{columns_by};
ghost use Rattle.bohm_core_base.specs.Batch.{was_done};
ghost use Rattle.bohm_core_base.specs.Serial.{serial_words};
ghost use Rattle.log_batch.specs.Supplied.{batch_of};
ghost use Rattle.evaluation.specs.Ends.{AreEndsInLog, NamesEnded};
ghost use Rattle.evaluation.specs.ReadSource.{place_in_log};

use crate::place_words::own_words;
use crate::read_source::ReadSource;
use crate::records::{Pinned, ShownRecords};
use crate::revoking::ended;
use crate::rows::show_rows;
use body::Window;
use log_batch::LogBatch;
use model_base::RecordName;
use own_words::{DONE, OwnWords, word_at};
use std::alloc::{AllocError, Global};
use std::marker::{Brand, PhantomData};

/// Whether own words say that their place was done.
#[tactic(auto, unfolding(bohm_core_base::specs::Batch::was_done))]
pub fn was_done(own: &[u64]) -> bool
    ensures { result ≡ was_done own.now }
{
    word_at(own, 0) == DONE
}

/// Writes all own words of the reader in the place of those that were there, and gives the reader again.
fn judge<T: ReadSource, P: Pinned>(batch: &LogBatch<'_>, source: T, words: &mut OwnWords) -> T
    requires batch { (T.as_reader source).batch ≡ batch_of batch.now }
    requires place { Some (T.as_reader source) ≡ P.as_reader }
    requires kept { Some (T.work source) ≡ P.work }
    ensures value { words.new ≡ words_at (columns_by batch.now.log.names) batch.now.log.statements
        (place_in_log batch.now (T.as_reader source)) }
    ensures place { Some (T.as_reader result) ≡ P.as_reader }
    ensures kept { Some (T.work result) ≡ P.work }
{
    let mut source = source;
    let statement = batch.statement(source.reader());
    let columns = batch.log().all_columns();
    let mut rows = Window::new();
    show_rows(batch, &mut source, &mut rows);
    let mut records = ShownRecords::<'_, T, P> {
        batch,
        source,
        pinned: PhantomData,
    };
    own_words(statement, columns, &mut rows, &mut records, words);
    let ShownRecords {
        batch: _,
        source,
        pinned: _,
    } = records;
    source
}

/// Writes all own words of the reader, which are those of its place in the log, in the place of those that were there, and gives the reader
/// again. It doesn't allocate.
pub fn words_by_source<T: ReadSource>(batch: &LogBatch<'_>, source: T, words: &mut OwnWords) -> T
    requires batch { (T.as_reader source).batch ≡ batch_of batch.now }
    ensures value { words.new ≡ words_at (columns_by batch.now.log.names) batch.now.log.statements
        (place_in_log batch.now (T.as_reader source)) }
    ensures serial { words.new ≡ serial_words (batch_of batch.now) (T.as_reader source).index }
    ensures same { (T.as_reader result ≡ T.as_reader source) × (T.work result ≡ T.work source) }
{
    let _statement = batch.statement(source.reader());
    judge::<T, Brand>(batch, source, words)
}

/// The reader again, and the names of the records of the grants that its revocation takes out of force.
fn judge_ends<T: ReadSource, P: Pinned>(
    alloc: Global,
    batch: &LogBatch<'_>,
    source: T,
) -> (T, Result<Vec<RecordName>, AllocError>)
    requires batch { (T.as_reader source).batch ≡ batch_of batch.now }
    requires place { Some (T.as_reader source) ≡ P.as_reader }
    requires kept { Some (T.work source) ≡ P.work }
    ensures value { IfOk result.1 (λ names.
        AreEndsInLog batch.now.log.statements (place_in_log batch.now (T.as_reader source)) names.items) }
    ensures place { Some (T.as_reader result.0) ≡ P.as_reader }
    ensures kept { Some (T.work result.0) ≡ P.work }
{
    let statement = batch.statement(source.reader());
    let mut records = ShownRecords::<'_, T, P> {
        batch,
        source,
        pinned: PhantomData,
    };
    let names = ended(alloc, statement, &mut records);
    let ShownRecords {
        batch: _,
        source,
        pinned: _,
    } = records;
    (source, names)
}

/// The reader again, and the names of the records that it ends, if `was_done` says of its own words that it was done: a slot's record is
/// one of these exactly if its name is among them. They are in order. An error means out of memory.
pub fn ends_by_source<T: ReadSource>(
    alloc: Global,
    batch: &LogBatch<'_>,
    source: T,
) -> (T, Result<Vec<RecordName>, AllocError>)
    requires batch { (T.as_reader source).batch ≡ batch_of batch.now }
    requires done { was_done (serial_words (batch_of batch.now) (T.as_reader source).index) ≡ true }
    ensures ends { IfOk result.1 (λ names. NamesEnded (batch_of batch.now) (T.as_reader source).index names.items) }
    ensures order { IfOk result.1 (λ names. IsStrictlyIncreasing names.items) }
    ensures same { (T.as_reader result.0 ≡ T.as_reader source) × (T.work result.0 ≡ T.work source) }
{
    let _statement = batch.statement(source.reader());
    judge_ends::<T, Brand>(alloc, batch, source)
}
