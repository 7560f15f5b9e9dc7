//! A batch, run.

ghost use Rattle.std.specs.Prelude.{◌≡◌, ◌≢◌, ◌<◌, ◌≤◌, Err, IfErr, IfOk, false, true};
ghost use Rattle.words.specs.Passes.{IsPassOf};
ghost use Rattle.filling.specs.Finished.{IsFinished};
ghost use Rattle.engine.specs.Known.{AreKnown};
ghost use Rattle.engine.specs.RunState.{IsBookState};
ghost use Rattle.workers.specs.Faults.{IsRunFault};
ghost use Rattle.workers.specs.Working.{KnowsAll};

use filling::{Finished, RangeKey, finish, open};
use filling_base::Batch;
use grants::Book;
use line_io::EngineFault;
use log_batch::LogBatch;
use std::alloc::Global;
use std::sync::Wait;
use std::thread::Threads;
use words::Pass;
use workers::{Gate, Workers, run_workers};

/// The pass, which knows all places done, and knows from now on that all is placed too.
fn settled(batch: &Batch<RangeKey<'_>>, pass: Pass) -> Pass
    requires same_table { IsPassOf batch.now pass }
    requires all { KnowsAll batch.now.key.batch.size pass.view }
    ensures same_table { IsPassOf batch.now result }
    ensures placed { result.view.placed ≡ true }
{
    let _partitions = batch.key().batch().partition_count();
    let (pass, is_placed) = batch.all_placed(pass);
    if !is_placed {
        unreachable!()
    }
    pass
}

/// Places and runs all places of a batch that isn't placed, on shared words, by this many workers, of which this thread is the first, and
/// returns what they result in after the book before it, whatever the workers do in which order. An error is out of memory, or a
/// worker's thread that could not be started. No thread runs any more afterwards.
pub fn execute<R: Threads + Wait + Sync, G: Gate + Sync>(
    rt: &R,
    alloc: Global,
    book: &Book,
    batch: LogBatch<'_>,
    gate: &G,
    workers: usize,
) -> Result<Finished, EngineFault>
    requires open { batch.placed ≡ false }
    requires some { 0 < batch.size }
    requires known { AreKnown batch.log.statements }
    requires stands { IsBookState batch.log.statements batch.first book.now }
    ensures done { IfOk result (λ done. IsFinished batch.entry.log.statements batch.entry.first batch.entry.size book.now done) }
    ensures fault { IfErr result IsRunFault }
    // One worker starts no thread.
    ensures alone { workers ≤ 1 → result ≢ Err EngineFault.Spawn }
{
    let start = batch.first_place();
    let (words, pass, placers) = open(alloc, batch)?;
    let crew = Workers {
        rt,
        alloc,
        gate,
        count: workers,
    };
    let (pass, worked) = run_workers(&crew, &words, start, pass, placers);
    worked?;
    let pass = settled(&words, pass);
    let (key, closed) = words.close(pass);
    Ok(finish(alloc, book, &key, &closed)?)
}
