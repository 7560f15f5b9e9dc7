//! Workers on places that add 1 to a row, or to some rows one after another.

ghost use Rattle.words.specs.Passes.{IsPassOf};
ghost use Rattle.workers.specs.Placing.{HavePlaced};

use crate::places::Places;
use crate::telling::Teller;
use engine::EngineFault;
use filling_base::{Batch, BatchPlacer};
use model_base::{DeedDone, Outcome, Place};
use std::alloc::AllocError;
use std::sync::Wait;
use std::sync::atomic::{AtomicUsize, Ordering};
use std::thread::Threads;
use trials_base::Attempt;
use words::{BatchData, Pass};
use workers::{Gate, Workers, run_workers};

/// Counts the places that workers were known done.
#[derive(Drop)]
struct Counting {
    done: AtomicUsize,
}

impl Gate for Counting {
    fn before(&self, _place: Place) {}

    fn after(&self, _place: Place) {
        self.done.fetch_add(1, Ordering::SeqCst);
    }
}

/// What workers leave of places that add.
#[derive(Clone, Copy)]
pub struct Work {
    worked: Result<(), EngineFault>,
    /// Whether each worker was given each place.
    told: bool,
    /// How many places have the output of the run in order.
    right: usize,
    bodies: u64,
    is_placed: bool,
}

/// Whether a place is done with the output of this turn alone.
fn is_output(found: &Result<Option<Outcome>, AllocError>, turn: usize) -> bool {
    let wanted = i64::try_from(turn).unwrap_or(i64::MAX).saturating_add(1);
    match found {
        Ok(
            Some(
                Outcome::Done {
                    outputs,
                    deed: DeedDone::None,
                },
            ),
        ) => outputs.as_slice() == [wanted].as_slice(),
        _ => false,
    }
}

/// How many of the places that add to this many rows are done and have the outcome of the run in order.
fn count_right<K: Places>(batch: &Batch<K>, pass: Pass, rows: usize) -> (Pass, usize)
    requires { IsPassOf batch.now pass }
    ensures { IsPassOf batch.now result.0 }
{
    let mut right = 0usize;
    let mut last = pass;
    for index in 0..batch.key().places() {
        let (next, found) = K::outcome(batch, last, index);
        last = next;
        right = right.saturating_add(usize::from(is_output(&found, index / rows.max(1))));
    }
    (last, right)
}

/// Places and runs places that add to this many rows by this many workers, or only runs them where there are no placers.
pub fn work_of<K: Places + Sync, P: BatchPlacer<K> + Send, R: Threads + Wait + Sync>(
    teller: &Teller<'_, R>,
    batch: &Batch<K>,
    pass: Pass,
    placers: Vec<P>,
    workers: usize,
    rows: usize,
) -> Work
    requires pass { IsPassOf batch.now pass }
    requires placers { HavePlaced P.is_of P.front batch.now 0 placers.items }
{
    let gate = Counting {
        done: AtomicUsize::new(0),
    };
    let wanted = batch.key().places().saturating_mul(workers.max(1));
    let team = Workers {
        rt: teller.rt,
        alloc: teller.alloc,
        gate: &gate,
        count: workers,
    };
    let (pass, worked) = run_workers(&team, batch, 0, pass, placers);
    let told = gate.done.load(Ordering::SeqCst) == wanted;
    let bodies = pass.bodies();
    let (pass, right) = count_right(batch, pass, rows);
    let (_pass, is_placed) = batch.all_placed(pass);
    Work {
        worked,
        told,
        right,
        bodies,
        is_placed,
    }
}

impl Work {
    /// Whether all of this many places came out right, each run once.
    pub fn is_whole(&self, places: usize) -> bool {
        self.worked.is_ok()
            && self.told
            && self.right == places
            && self.bodies == places as u64
            && self.is_placed
    }
}

/// Prints what workers left of a chain of this many places.
pub fn print_work(
    rt: &impl Print,
    workers: usize,
    placers: usize,
    places: usize,
    work: &Work,
) -> Attempt<()> {
    let (worked, told) = (work.worked, work.told);
    println!(rt;
        "{workers} workers and {placers} placers on a chain of {places} places: {worked:?}, each was told all: {told}"
    )?;
    let (right, bodies, is_placed) = (work.right, work.bodies, work.is_placed);
    println!(rt;
        "  {right} have their output, {bodies} bodies were run, all is placed: {is_placed}"
    )?;
    Ok(())
}

/// Prints in how many rounds all came out right.
pub fn tell_rounds(
    rt: &impl Print,
    workers: usize,
    placers: usize,
    places: u64,
    right: u32,
) -> Attempt<()> {
    println!(rt;
        "{workers} workers and {placers} placers on {places} places over {workers} rows, 200 rounds: in {right} each place has its output and each body was run once"
    )?;
    Ok(())
}
