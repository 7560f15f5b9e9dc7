//! The ends that a place has to set.

ghost use Rattle.std.specs.Prelude.{◌≡◌, ◌<◌, ◌++◌, IfOk, IsTrue, OnErr, OnOk, Some, false, true};
ghost use Rattle.std.specs.List.Sorted.{IsStrictlyIncreasing};
ghost use Rattle.std.specs.Option.{option_to_list};
ghost use Rattle.bohm_core_base.specs.Batch.{was_done};
ghost use Rattle.bohm_core_base.specs.Serial.{serial_words};
ghost use Rattle.log_batch.specs.Supplied.{batch_of};
ghost use Rattle.filling_base.specs.Extending.{IsSamePass, OnlyLearns};
ghost use Rattle.filling_base.specs.References.{IsRevocation};
ghost use Rattle.filling_base.specs.Storing.{IsEnding};
ghost use Rattle.filling.specs.Ends.{AreEndedBy};
ghost use Rattle.filling.specs.Numbers.{number_at, numbers_at};
ghost use Rattle.filling.specs.Readings.{CanRead};

use crate::key::RangeKey;
use crate::reader::{Named, PassReader};
use bohm_core_base::{
    records_end_by_done_places, records_end_by_revocations, slots_stand_in_order,
};
use evaluation::{ends_by_source, was_done};
use log_batch::LogBatch;
use model_base::RecordName;
use std::alloc::AllocError;
use std::marker::{Brand, PhantomData};
use words::{BatchData, BatchWords, Holding};

// Whether the place has a revocation.
pub(crate) fn has_revocation(batch: &LogBatch, index: usize) -> bool
    requires { index < batch.now.size }
    ensures yes { IsTrue result → IsRevocation (batch_of batch.now) index }
    ensures no { IsRevocation (batch_of batch.now) index → IsTrue result }
{
    let place = batch.first_place() + index as u64;
    batch.statement(index).revocation_at(place).is_some()
}

// Whether a place that has these own words was done and has a revocation.
fn was_revoking(batch: &LogBatch, index: usize, own: &[u64]) -> bool
    requires within { index < batch.now.size }
    requires own { own.now ≡ serial_words (batch_of batch.now) index }
    ensures done { IsTrue result → was_done (serial_words (batch_of batch.now) index) ≡ true }
    ensures yes { IsTrue result → IsRevocation (batch_of batch.now) index }
    ensures no { result ≡ false → was_done (serial_words (batch_of batch.now) index) ≡ true → ¬ (IsRevocation (batch_of batch.now) index) }
{
    let revokes = has_revocation(batch, index);
    was_done(own) && revokes
}

// No end, which is what any other place sets.
fn no_ends(key: &RangeKey<'_>, index: usize) -> Vec<usize>
    requires { was_done (serial_words (batch_of key.now.batch) index) ≡ true → ¬ (IsRevocation (batch_of key.now.batch) index) }
    ensures { IsEnding (batch_of key.now.batch) key.now.slots index result.items }
{
    records_end_by_done_places();
    records_end_by_revocations();
    let _places = key.places();
    let _index = index;
    Vec::new(key.batch().alloc())
}

// One more number, if the record has a listed end.
fn put_number(
    key: &RangeKey<'_>,
    name: RecordName,
    numbers: &mut Vec<usize>,
) -> Result<(), AllocError>
    ensures { OnOk result
        (numbers.new.items ≡ numbers.old.items ++ option_to_list (number_at (batch_of key.now.batch) key.now.slots name)) }
{
    if let Some(number) = key.number_at(name) {
        numbers.push(number)?;
    }
    Ok(())
}

// The numbers of the listed ends of these records.
fn numbers_of(key: &RangeKey<'_>, names: &[RecordName]) -> Result<Vec<usize>, AllocError>
    ensures { IfOk result (λ numbers. numbers.items ≡ numbers_at (batch_of key.now.batch) key.now.slots names.now) }
{
    let mut numbers = Vec::new(key.batch().alloc());
    for name in names {
        put_number(key, *name, &mut numbers)?;
    }
    Ok(numbers)
}

// The names of the records that a done place ends, in order, by a pass that can read for it; it only learns. An error means out of memory.
fn names_told<'b, 'a, N: Named>(
    key: &'b RangeKey<'a>,
    words: &'b BatchWords<RangeKey<'a>>,
    holding: Holding,
    index: usize,
) -> (Holding, Result<Vec<RecordName>, AllocError>)
    requires reads { CanRead words.now key.now holding index }
    requires named { (Some words.now ≡ N.words) × (N.known ≡ holding.view.known) }
    requires done { was_done (serial_words (batch_of key.now.batch) index) ≡ true }
    ensures ends { IfOk result.1 (λ names. AreEndedBy (batch_of key.now.batch) index names.items) }
    ensures order { IfOk result.1 (λ names. IsStrictlyIncreasing names.items) }
    ensures same { IsSamePass holding result.0 }
    ensures bodies { result.0.bodies ≡ holding.bodies }
    ensures learns { OnlyLearns holding.view result.0.view }
{
    let reader = PassReader::<'_, '_, N> {
        key,
        words,
        holding,
        index,
        named: PhantomData,
    };
    let (reader, names) = ends_by_source(key.batch().alloc(), key.batch(), reader);
    let PassReader {
        key: _,
        words: _,
        holding,
        index: _,
        named: _,
    } = reader;
    (holding, names)
}

// The numbers of the ends that a done place sets, from the names of the records.
fn ends_numbered(
    key: &RangeKey<'_>,
    index: usize,
    names: &[RecordName],
) -> Result<Vec<usize>, AllocError>
    requires order { IsStrictlyIncreasing names.now }
    requires ends { AreEndedBy (batch_of key.now.batch) index names.now }
    ensures { IfOk result (λ ends. IsEnding (batch_of key.now.batch) key.now.slots index ends.items) }
{
    slots_stand_in_order();
    let _places = key.places();
    let _ends = key.ends();
    let _index = index;
    numbers_of(key, names)
}

// The numbers of the ends that a place with these own words sets, which for one that wasn't done or has no revocation are none. The pass
// can read for it, and only learns. An error means out of memory, which only a revocation may have.
pub(crate) fn ends_of<'b, 'a>(
    key: &'b RangeKey<'a>,
    words: &'b BatchWords<RangeKey<'a>>,
    holding: Holding,
    index: usize,
    own: &[u64],
) -> (Holding, Result<Vec<usize>, AllocError>)
    requires reads { CanRead words.now key.now holding index }
    requires own { own.now ≡ serial_words (batch_of key.now.batch) index }
    ensures ends { IfOk result.1 (λ ends. IsEnding (batch_of key.now.batch) key.now.slots index ends.items) }
    ensures revokes { OnErr result.1 (IsRevocation (batch_of key.now.batch) index) }
    ensures same { IsSamePass holding result.0 }
    ensures bodies { result.0.bodies ≡ holding.bodies }
    ensures learns { OnlyLearns holding.view result.0.view }
{
    if !was_revoking(key.batch(), index, own) {
        return (holding, Ok(no_ends(key, index)));
    }
    let (holding, names) = names_told::<Brand>(key, words, holding, index);
    match names {
        Ok(names) => (holding, ends_numbered(key, index, names.as_slice())),
        Err(fault) => (holding, Err(fault)),
    }
}
