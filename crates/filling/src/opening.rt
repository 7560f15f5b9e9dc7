//! How a batch of a log is opened.

ghost use Rattle.std.specs.Prelude.{◌≡◌, ◌<◌, IfOk, false, true};
ghost use Rattle.words.specs.Passes.{IsPassOf, gone_on, open_pass};
ghost use Rattle.words.specs.Views.{In, with_cut};
ghost use Rattle.filling.specs.Placers.{AreNewPlacers, IsNewPlacer, with_all_cut};

use crate::key::RangeKey;
use crate::placer::Placer;
use filling_base::Batch;
use log_batch::LogBatch;
use placing::Finder;
use std::alloc::{AllocError, Global};
use words::Pass;

// The placer of a partition, cut off the first pass.
fn cut_placer(batch: &Batch<RangeKey<'_>>, pass: Pass, partition: usize) -> (Pass, Placer)
    requires same_table { IsPassOf batch.now pass }
    requires within { partition < batch.now.key.batch.partitions }
    requires sole { pass.view.sole ≡ true }
    requires open { pass.view.placed ≡ false }
    requires uncut { ¬ (In partition pass.view.cut) }
    ensures pass { result.0 ≡ gone_on pass (with_cut pass.view partition) }
    ensures placer { IsNewPlacer batch.now partition result.1 }
{
    let range = batch.key().batch();
    let finder = Finder::new(range.alloc(), partition, range.partition_count());
    let (pass, token) = batch.words().cut_placer(pass, partition);
    (pass, Placer { token, finder })
}

// The placers of all partitions, in order, cut off the first pass. An error is out of memory.
fn cut_placers(batch: &Batch<RangeKey<'_>>, pass: Pass) -> Result<(Pass, Vec<Placer>), AllocError>
    requires { pass ≡ open_pass batch.now }
    ensures { IfOk result (λ made. (made.0 ≡ gone_on pass (with_all_cut pass.view batch.now.key.batch.partitions))
        × AreNewPlacers batch.now batch.now.key.batch.partitions made.1.items) }
{
    let range = batch.key().batch();
    let mut first = pass;
    let mut placers = Vec::new(range.alloc());
    for partition in 0..range.partition_count() {
        let (rest, placer) = cut_placer(batch, first, partition);
        first = rest;
        placers.push(placer)?;
    }
    Ok((first, placers))
}

/// The words of a batch that has a place and isn't placed, with all places free; its first pass; and the placer of each of its
/// partitions, in order. Nothing is placed yet: each placer has its first place before it. An error is out of memory.
pub fn open<'a>(
    alloc: Global,
    batch: LogBatch<'a>,
) -> Result<(Batch<RangeKey<'a>>, Pass, Vec<Placer>), AllocError>
    requires some { 0 < batch.size }
    requires open { batch.placed ≡ false }
    ensures batch { IfOk result (λ made. made.0.key.batch ≡ batch.entry) }
    ensures pass { IfOk result (λ made. made.1
        ≡ gone_on (open_pass made.0) (with_all_cut (open_pass made.0).view batch.entry.partitions)) }
    ensures placers { IfOk result (λ made. AreNewPlacers made.0 batch.entry.partitions made.2.items) }
{
    let key = RangeKey::of(alloc, batch)?;
    let (words, pass) = Batch::open(alloc, key)?;
    let (pass, placers) = cut_placers(&words, pass)?;
    Ok((words, pass, placers))
}
