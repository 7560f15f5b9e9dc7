//! The placers of a batch of a log.

ghost use Rattle.std.specs.Prelude.{◌≡◌, ◌<◌, ◌+◌, Some, OnOk, length, slice_get};
ghost use Rattle.model_base.specs.declared.statement.Statement.{Statement};
ghost use Rattle.model_base.specs.References.{tables_of};
ghost use Rattle.placing.specs.Latest.{IsLatest, IsUpTo};
ghost use Rattle.words.specs.Passes.{placed_on};
ghost use Rattle.words.specs.Views.{with_placing};
ghost use Rattle.filling.specs.Placers.{IsAt};

use crate::key::RangeKey;
use crate::storing::{store_rows, store_tables};
use filling_base::{Batch, BatchPlacer};
use log_batch::LogBatch;
use model_base::{Place, Statement};
use placing::Finder;
use std::alloc::AllocError;
use words::BatchWords;

/// The placer of one partition of a batch of a log, which places one place after another.
#[derive(Drop)]
pub struct Placer {
    pub(crate) token: words::Placer,
    pub(crate) finder: Finder,
}

// Notes the place before an index, if the batch has one, and finds the tables of the index. On `Err`, out of memory, the
// same can be tried again.
fn find(finder: &mut Finder, batch: &LogBatch<'_>, index: usize) -> Result<(), AllocError>
    requires within { index < batch.now.size }
    requires up_to { IsUpTo finder.old.latest batch.now.log.statements batch.now.first index }
    ensures partition { finder.new.latest.partition ≡ finder.old.latest.partition }
    ensures partitions { finder.new.latest.partitions ≡ finder.old.latest.partitions }
    ensures up_to { IsUpTo finder.new.latest batch.now.log.statements batch.now.first index }
    ensures latest { OnOk result (IsLatest finder.new.latest batch.now.log.statements batch.now.first (batch.now.first + index)) }
    ensures tables { OnOk result ((statement : Statement)
        → slice_get batch.now.log.statements (batch.now.first + index) ≡ Some statement
        → finder.new.tables.items ≡ tables_of statement.form) }
{
    note_before(finder, batch, index)?;
    finder.find(batch.statement(index))
}

// Notes the place before an index, if the batch has one.
fn note_before(finder: &mut Finder, batch: &LogBatch<'_>, index: usize) -> Result<(), AllocError>
    requires within { index < batch.now.size }
    requires up_to { IsUpTo finder.old.latest batch.now.log.statements batch.now.first index }
    ensures partition { finder.new.latest.partition ≡ finder.old.latest.partition }
    ensures partitions { finder.new.latest.partitions ≡ finder.old.latest.partitions }
    ensures up_to { IsUpTo finder.new.latest batch.now.log.statements batch.now.first index }
    ensures latest { OnOk result (IsLatest finder.new.latest batch.now.log.statements batch.now.first (batch.now.first + index)) }
{
    if index == 0 {
        return Ok(());
    }
    let place = batch.first_place() + (index as u64 - 1);
    finder.note(batch.statement(index - 1), place)
}

// Stores the references of the place at the front into the placer's partition, and then its front.
fn place_statement<'a>(
    key: &RangeKey<'a>,
    words: &BatchWords<RangeKey<'a>>,
    token: &mut words::Placer,
    finder: &Finder,
    statement: &Statement,
)
    requires at { IsAt words.now key.now token.old finder.now.latest statement.now }
    requires partition { token.old.view.partition < words.now.key.batch.partitions }
    requires tables { finder.now.tables.items ≡ tables_of statement.now.form }
    ensures { token.new ≡ placed_on token.old (with_placing token.old.view) }
{
    store_rows(key, words, token, finder, statement);
    store_tables(key, words, token, finder, statement);
    words.advance(token);
}

impl Placer {
    ghost use Rattle.std.specs.Prelude.{◌≡◌};
    ghost use Rattle.filling.specs.Placers.{AdvancedMeans, IsPlacerIn, placer_front};

    /// Its partition.
    pub fn partition(&self) -> usize
        ensures { result ≡ self.now.token.view.partition }
    {
        self.token.partition()
    }

    /// How many places of the batch it has placed, which is the index of the one that it places next.
    pub fn front(&self) -> usize
        ensures { result ≡ placer_front self.now }
    {
        self.token.front()
    }

    /// Places the next place of the batch for the placer's partition, and returns it, or `None` after the last: it stores the place's
    /// references, and then the partition's front. On `Err`, out of memory: the next call places the same place.
    pub fn place_next(&mut self, batch: &Batch<RangeKey<'_>>) -> Result<Option<Place>, AllocError>
        requires same_table { IsPlacerIn batch.now self.old }
        ensures same_table { IsPlacerIn batch.now self.new }
        ensures tells { AdvancedMeans batch.now.key.batch self.old result self.new }
    {
        let key = batch.key();
        let range = key.batch();
        let index = self.front();
        if index >= range.size() {
            return Ok(None);
        }
        match find(&mut self.finder, range, index) {
            Ok(()) => {
                let statement = range.statement(index);
                place_statement(key, batch.words(), &mut self.token, &self.finder, statement);
                Ok(Some(range.first_place() + index as u64))
            }
            Err(error) => Err(error),
        }
    }
}

impl<'a> BatchPlacer<RangeKey<'a>> for Placer {
    ghost use Rattle.filling.specs.Placers.{IsPlacerIn, placer_front};

    ghost is_of = { IsPlacerIn };

    ghost front = { placer_front };

    fn partition(&self) -> usize {
        self.token.partition()
    }

    fn advance(&mut self, batch: &Batch<RangeKey<'a>>) -> Result<Option<Place>, AllocError> {
        self.place_next(batch)
    }
}
