//! The words of a batch of which all is placed, before they are shared.

ghost use Rattle.std.specs.Prelude.{◌≡◌, ◌<◌, ◌+◌, true};
ghost use Rattle.words.specs.Layout.{front_begin, reference_begin};
ghost use Rattle.words.specs.Passes.{AreReferences};
ghost use Rattle.words.specs.Written.{IsWritten};

use crate::batch_data::BatchData;

/// Stores the references of a place.
fn write_references<K: BatchData>(key: &K, row: &mut [u64], begin: usize, index: usize)
    requires placed { K.placed key.now ≡ true }
    requires within { index < (K.batch key.now).size }
    requires begin { begin ≡ reference_begin (K.batch key.now) index }
    requires written { IsWritten (K.batch key.now) (K.listed key.now) row.old index 0 0 }
    ensures { IsWritten (K.batch key.now) (K.listed key.now) row.new (index + 1) 0 0 }
{
    for number in 0..key.references_length(index) {
        row[begin + number] = key.reference_word(index, number);
    }
}

/// Stores the references of all places.
pub(crate) fn write_all_references<K: BatchData>(
    key: &K,
    row: &mut [u64],
    begins: &[usize],
    fronts: usize,
)
    requires placed { K.placed key.now ≡ true }
    requires begins { AreReferences (K.batch key.now) begins.now fronts }
    requires written { IsWritten (K.batch key.now) (K.listed key.now) row.old 0 0 0 }
    ensures { IsWritten (K.batch key.now) (K.listed key.now) row.new (K.batch key.now).size 0 0 }
{
    let places = key.places();
    for index in 0..places {
        write_references(key, row, begins[index], index);
    }
}

/// Stores all fronts.
pub(crate) fn write_fronts<K: BatchData>(key: &K, row: &mut [u64], begin: usize)
    requires begin { begin ≡ front_begin (K.batch key.now) }
    requires written { IsWritten (K.batch key.now) (K.listed key.now) row.old (K.batch key.now).size 0 0 }
    ensures { IsWritten (K.batch key.now) (K.listed key.now) row.new (K.batch key.now).size 0 (K.batch key.now).partitions }
{
    let places = key.places();
    let partitions = key.partitions();
    for partition in 0..partitions {
        row[begin + partition * 8] = places as u64;
    }
}
