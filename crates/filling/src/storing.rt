//! What a placer stores of a place.

ghost use Rattle.std.specs.Prelude.{◌≡◌, ◌<◌, ◌+◌, length};
ghost use Rattle.bohm_core_base.specs.Batch.{reference_words};
ghost use Rattle.model_base.specs.References.{tables_of};
ghost use Rattle.model_base.specs.Versions.{accesses_of};
ghost use Rattle.log_batch.specs.Laws.{word_of};
ghost use Rattle.log_batch.specs.Supplied.{batch_of};
ghost use Rattle.words.specs.Layout.{partition_at, reference_at};
ghost use Rattle.words.specs.Passes.{IsPlacerOf};
ghost use Rattle.words.specs.Views.{front_in};
ghost use Rattle.filling.specs.Placers.{IsAt, OnlyStores, StoredBelow};

use crate::key::RangeKey;
use log_batch::word_of;
use model_base::{Reference, Statement};
use placing::{Finder, partition_of, partition_of_table};
use words::{BatchData, BatchWords, Placer};

// Stores a reference of the place at the front, if it is into the placer's partition.
fn store_reference<'a>(
    key: &RangeKey<'a>,
    words: &BatchWords<RangeKey<'a>>,
    token: &mut Placer,
    number: usize,
    partition: usize,
    reference: Reference,
)
    requires key { words.now.key ≡ key.now }
    requires same_table { IsPlacerOf words.now token.old }
    requires within { front_in token.old.view < words.now.key.batch.size }
    requires number { number < length (reference_words (batch_of words.now.key.batch) (front_in token.old.view)) }
    requires partition { partition ≡ partition_at (batch_of words.now.key.batch) (front_in token.old.view) number }
    requires right { partition ≡ token.old.view.partition
        → word_of words.now.key.batch.first reference ≡ reference_at (batch_of words.now.key.batch) (front_in token.old.view) number }
    requires before { StoredBelow (batch_of words.now.key.batch) token.old.view number }
    ensures only { OnlyStores token.old token.new }
    ensures stored { StoredBelow (batch_of words.now.key.batch) token.new.view (number + 1) }
{
    if partition == token.partition() {
        let _places = key.places();
        let word = word_of(key.batch().first_place(), reference);
        words.set_reference(token, number, word);
    }
}

// Stores the references of the accesses of the place at the front.
pub(crate) fn store_rows<'a>(
    key: &RangeKey<'a>,
    words: &BatchWords<RangeKey<'a>>,
    token: &mut Placer,
    finder: &Finder,
    statement: &Statement,
)
    requires at { IsAt words.now key.now token.old finder.now.latest statement.now }
    ensures only { OnlyStores token.old token.new }
    ensures stored { StoredBelow (batch_of words.now.key.batch) token.new.view (length (accesses_of statement.now.form)) }
{
    let partitions = key.batch().partition_count();
    for (number, access) in statement.accesses().iter().enumerate() {
        let partition = partition_of(access.key, partitions);
        store_reference(key, words, token, number, partition, finder.writer(access));
    }
}

// Stores the references of the tables of the place at the front, after those of its accesses.
pub(crate) fn store_tables<'a>(
    key: &RangeKey<'a>,
    words: &BatchWords<RangeKey<'a>>,
    token: &mut Placer,
    finder: &Finder,
    statement: &Statement,
)
    requires at { IsAt words.now key.now token.old finder.now.latest statement.now }
    requires tables { finder.now.tables.items ≡ tables_of statement.now.form }
    requires before { StoredBelow (batch_of words.now.key.batch) token.old.view (length (accesses_of statement.now.form)) }
    ensures only { OnlyStores token.old token.new }
    ensures stored { StoredBelow (batch_of words.now.key.batch) token.new.view
        (length (accesses_of statement.now.form) + length (tables_of statement.now.form)) }
{
    let partitions = key.batch().partition_count();
    let rows = statement.accesses().len();
    for (number, table) in finder.tables().iter().enumerate() {
        let partition = partition_of_table(*table, partitions);
        store_reference(
            key,
            words,
            token,
            rows + number,
            partition,
            finder.prior(*table),
        );
    }
}
