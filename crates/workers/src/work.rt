//! Several workers.

ghost use Rattle.std.specs.Prelude.{◌≡◌, ◌≢◌, ◌<◌, ◌≤◌, ◌+◌, ◌*◌, ◌/◌, ◌^◌, [], All, IfErr, IfOk, OnOk, Err, Ok, is_ok, length, true, vec_capacity, ◌&&◌};
ghost use Rattle.words.specs.Passes.{IsPassOf};
ghost use Rattle.workers.specs.Placing.{HavePlaced, HaveDealt};
ghost use Rattle.workers.specs.Faults.{IsRunFault, run_outcome};
ghost use Rattle.workers.specs.Working.{GoesOn, KnowsAll};

use crate::gate::Gate;
use crate::placing::{deal, place_all};
use crate::rounds::{all_places, go_round, look};
use crate::shared::Shared;
use crate::stop::{Stop, Stopped};
use filling_base::{Batch, BatchPlacer, Fills};
use line_io::EngineFault;
use model_base::Place;
use std::alloc::{AllocError, Global};
use std::sync::Wait;
use std::thread;
use std::thread::{Promise, PromisedHandle, Scope, Threads};
use words::Pass;

/// Where a worker begins: the places are cut into as many parts as there are workers, and it begins with its own.
fn first_of(worker: usize, workers: usize, size: usize) -> usize
    requires { worker < workers }
    ensures within { result ≤ size }
    ensures share { result ≡ worker * size / workers }
{
    (worker as u128 * size as u128 / workers as u128) as usize
}

/// One worker: it places its partitions, and then goes round over the places, from this one on, until each is done or the workers are
/// stopped. After a round in which none was done it lets other threads run. On `Err`, memory ran out or the workers were stopped.
fn work<K: Fills, P: BatchPlacer<K>, G: Gate, R: Wait>(
    rt: &R,
    shared: &Shared<'_, K, G>,
    pass: Pass,
    mut placers: Vec<P>,
    first: usize,
) -> (Pass, Result<(), Stopped>)
    requires same_table { IsPassOf shared.now pass }
    requires placers { HavePlaced P.is_of P.front shared.now 0 placers.items }
    requires first { first ≤ (K.batch shared.now.key).size }
    ensures on { GoesOn pass result.0 }
    ensures all { OnOk result.1 (KnowsAll (K.batch shared.now.key).size result.0.view) }
{
    let Ok(mut rest) = all_places(shared.alloc, first, shared.places()) else {
        return (pass, Err(shared.stop.tell()));
    };
    if let Err(stopped) = place_all(shared, &mut placers) {
        return (pass, Err(stopped));
    }
    let mut last = pass;
    for _ in rt.forever() {
        let count = rest.len();
        if count == 0 {
            return (last, Ok(()));
        }
        let looked = look(shared.batch, last);
        let (next, asked) = go_round(shared, looked, &mut rest);
        last = next;
        match asked {
            Ok(()) => {}
            Err(stopped) => return (last, Err(stopped)),
        }
        if rest.len() == count {
            thread::yield_now();
        }
    }
    unreachable!()
}

/// The outcome of two workers: where one was stopped, so are both.
fn both(one: Result<(), Stopped>, other: Result<(), Stopped>) -> Result<(), Stopped>
    ensures { is_ok result ≡ (is_ok one && is_ok other) }
{
    match one {
        Ok(()) => other,
        Err(stopped) => Err(stopped),
    }
}

/// The outcome of a batch whose workers were started and worked so.
fn outcome(started: Result<(), Stopped>, worked: Result<(), Stopped>) -> Result<(), EngineFault>
    ensures { result ≡ run_outcome started worked }
{
    match (started, worked) {
        (Err(_stopped), _) => Err(EngineFault::Spawn),
        (Ok(()), Err(_stopped)) => Err(EngineFault::NoMemory),
        (Ok(()), Ok(())) => Ok(()),
    }
}

/// That a worker's pass is one of the batch.
struct OfBatch<'a, K: Fills>(&'a Batch<K>);

impl<K: Fills> Drop for OfBatch<'_, K> {
    fn drop(self) {
        let OfBatch(_) = self;
    }
}

impl<'a, K: Fills> Promise<(Pass, Result<(), Stopped>)> for OfBatch<'a, K> {
    ghost kept_by = { λ promise ended. IsPassOf promise.0.now ended.0 };
}

/// Starts each of these workers but the lowest on a thread of its own, the last one first. On `Err`, a thread couldn't be started, and all
/// are stopped. There is room for the threads.
fn start_others<
    's,
    E,
    K: Fills + Sync,
    P: BatchPlacer<K> + Send + 's,
    G: Gate + Sync,
    R: Threads + Wait + Sync,
>(
    rt: &'s R,
    scope: &Scope<'s, E>,
    shared: &'s Shared<'s, K, G>,
    pass: Pass,
    hands: &mut Vec<Vec<P>>,
    threads: &mut Vec<PromisedHandle<(Pass, Result<(), Stopped>), OfBatch<'s, K>>>,
) -> (Pass, Result<(), Stopped>)
    requires same_table { IsPassOf shared.now pass }
    requires hands { HaveDealt (λ hand. hand.items) P.is_of P.front shared.now hands.old.items }
    requires some { 0 < length hands.old.items }
    requires none { threads.old.items ≡ [] }
    requires room { length hands.old.items ≤ vec_capacity threads.old }
    ensures on { GoesOn pass result.0 }
    ensures hands { HaveDealt (λ hand. hand.items) P.is_of P.front shared.now hands.new.items }
    ensures some { 0 < length hands.new.items }
    ensures helpers { All (λ thread. thread.promise.0.now ≡ shared.now) threads.new.items }
    ensures each { OnOk result.1 ((length hands.new.items ≡ 1) × (length threads.new.items + 1 ≡ length hands.old.items)) }
    ensures alone { length hands.old.items ≤ 1 → result.1 ≡ Ok tt }
{
    let count = hands.len();
    let mut rest = pass;
    'hands: while hands.len() > 1 {
        let Some(placers) = hands.pop() else {
            unreachable!()
        };
        let first = first_of(hands.len(), count, shared.places());
        let (kept, other) = shared.batch.split(rest);
        rest = kept;
        let Ok(thread) = scope.spawn_with(
            OfBatch(shared.batch),
            move || -> (Pass, Result<(), Stopped>)
                requires { IsPassOf shared.now other × HavePlaced P.is_of P.front shared.now 0 placers.items
                    × (first ≤ (K.batch shared.now.key).size) }
                ensures { IsPassOf shared.entry.now result.0 }
            { work(rt, shared, other, placers, first) },
        ) else {
            return (rest, Err(shared.stop.tell()));
        };
        threads.push_reserved(thread);
    }
    (rest, Ok(()))
}

/// Joins the threads of the other workers. The pass knows what it knew and what they know.
fn join_others<'a, K: Fills, G, R: Threads>(
    rt: &R,
    shared: &Shared<'a, K, G>,
    pass: Pass,
    worked: Result<(), Stopped>,
    mut threads: Vec<PromisedHandle<(Pass, Result<(), Stopped>), OfBatch<'a, K>>>,
) -> (Pass, Result<(), Stopped>)
    requires same_table { IsPassOf shared.now pass }
    requires helpers { All (λ thread. thread.promise.0.now ≡ shared.now) threads.items }
    ensures on { GoesOn pass result.0 }
    ensures done { is_ok result.1 ≡ true → is_ok worked ≡ true }
{
    let mut known = pass;
    let mut worst = worked;
    'threads: while let Some(thread) = threads.pop() {
        let (other, theirs) = thread.join(rt);
        known = shared.batch.join(known, other);
        worst = both(worst, theirs);
    }
    (known, worst)
}

/// The placers of a batch, dealt to this many workers. An error is out of memory.
fn hands_of<K: Fills, P: BatchPlacer<K>>(
    alloc: Global,
    batch: &Batch<K>,
    placers: Vec<P>,
    workers: usize,
) -> Result<Vec<Vec<P>>, AllocError>
    requires some { 0 < workers }
    requires placers { HavePlaced P.is_of P.front batch.now 0 placers.items }
    ensures len { IfOk result (λ hands. length hands.items ≡ workers) }
    ensures placers { IfOk result (λ hands. HaveDealt (λ hand. hand.items) P.is_of P.front batch.now hands.items) }
{
    let _batch = batch;
    let hands = deal(alloc, placers, workers)?;
    Ok(hands)
}

/// Workers that together place and run a batch: the caller's thread is the first, and each further one has a thread of its own.
#[derive_where(Clone, Copy)]
pub struct Workers<'a, R, G> {
    /// Starts their threads.
    pub rt: &'a R,
    pub alloc: Global,
    /// Is notified of the places that they place, ask for and find done.
    pub gate: &'a G,
    /// How many they are, where 0 is taken as 1.
    pub count: usize,
}

/// Places and runs a batch. Worker w of W has the placers whose numbers have the remainder w. Each goes round over the places from a part
/// of its own, and notifies the gate before it asks for one.
pub fn run_workers<
    K: Fills + Sync,
    P: BatchPlacer<K> + Send,
    G: Gate + Sync,
    R: Threads + Wait + Sync,
>(
    workers: &Workers<'_, R, G>,
    batch: &Batch<K>,
    start: Place,
    pass: Pass,
    placers: Vec<P>,
) -> (Pass, Result<(), EngineFault>)
    requires same_table { IsPassOf batch.now pass }
    requires placers { HavePlaced P.is_of P.front batch.now 0 placers.items }
    requires places { start + (K.batch batch.now.key).size < 2 ^ 64 }
    ensures on { GoesOn pass result.0 }
    ensures all { result.1 ≡ Ok tt → KnowsAll (K.batch batch.now.key).size result.0.view }
    ensures fault { IfErr result.1 IsRunFault }
    // One worker starts no thread.
    ensures alone { workers.now.count ≤ 1 → result.1 ≢ Err EngineFault.Spawn }
{
    let rt = workers.rt;
    let alloc = workers.alloc;
    let count = workers.count.max(1);
    let Ok(hands) = hands_of(alloc, batch, placers, count) else {
        return (pass, Err(EngineFault::NoMemory));
    };
    let stop = Stop::new();
    let shared = &Shared {
        alloc,
        batch,
        gate: workers.gate,
        stop: &stop,
        start,
    };
    thread::scope(
        thread::scope_env(),
        rt,
        move |scope| -> (Pass, Result<(), EngineFault>)
            requires { IsPassOf shared.now pass × HaveDealt (λ hand. hand.items) P.is_of P.front shared.now hands.items
                × (0 < length hands.items) }
            ensures { GoesOn pass result.0
                × (result.1 ≡ Ok tt → KnowsAll (K.batch shared.entry.now.key).size result.0.view)
                × IfErr result.1 IsRunFault × (length hands.items ≤ 1 → result.1 ≢ Err EngineFault.Spawn) }
        {
            let mut hands = hands;
            let Ok(mut threads) = Vec::with_capacity(shared.alloc, hands.len()) else {
                return (pass, Err(EngineFault::NoMemory));
            };
            let (pass, started) = start_others(rt, scope, shared, pass, &mut hands, &mut threads);
            let Some(placers) = hands.pop() else {
                unreachable!()
            };
            let (pass, ended) = work(rt, shared, pass, placers, 0);
            let (pass, worked) = join_others(rt, shared, pass, ended, threads);
            (pass, outcome(started, worked))
        },
    )
}
