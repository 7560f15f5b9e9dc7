//! Gates: who waits for whom, and of what workers notify them.

use crate::driver::{Call, number_in};
use crate::engines::run_by;
use engine::Engine;
use model_base::Place;
use std::alloc::Global;
use std::sync::Wait;
use std::sync::atomic::{AtomicBool, AtomicUsize, Ordering};
use std::thread;
use std::thread::Threads;
use trials_base::{Attempt, TrialFault, beside};
use workers::Gate;

/// How often a gate looks whether a place is done, before it gives up.
const LOOKS: u32 = 100_000_000;

/// Who is held back until a place is done.
#[derive(Clone, Copy, PartialEq, Eq)]
enum Held {
    Nobody,
    /// Who is the first to ask for a place.
    Asker(Place),
    /// The placer of a partition, once it has placed the place that it waits for.
    Placer(usize),
}

/// Holds back one until a place is done, and counts how often it is known of places that they are done.
#[derive(Drop)]
struct Watch {
    held: Held,
    awaited: Place,
    asked: AtomicUsize,
    done: AtomicBool,
    /// How often the place was waited for in vain.
    vain: AtomicUsize,
    second: AtomicUsize,
    third: AtomicUsize,
    others: AtomicUsize,
}

impl Watch {
    /// Holds back this one until this place is done, which it isn't yet.
    fn new(held: Held, awaited: Place) -> Self {
        Watch {
            held,
            awaited,
            asked: AtomicUsize::new(0),
            done: AtomicBool::new(false),
            vain: AtomicUsize::new(0),
            second: AtomicUsize::new(0),
            third: AtomicUsize::new(0),
            others: AtomicUsize::new(0),
        }
    }

    /// Waits until the place is done, and counts where that doesn't come.
    fn wait(&self) {
        for _ in 0..LOOKS {
            if self.done.load(Ordering::SeqCst) {
                return;
            }
            thread::yield_now();
        }
        self.vain.fetch_add(1, Ordering::SeqCst);
    }
}

impl Gate for Watch {
    fn before(&self, place: Place) {
        if place < 2 || place > 3 {
            self.others.fetch_add(1, Ordering::SeqCst);
        }
        if self.held == Held::Asker(place) && self.asked.fetch_add(1, Ordering::SeqCst) == 0 {
            self.wait();
        }
    }

    fn after(&self, place: Place) {
        let count = match place {
            2 => &self.second,
            3 => &self.third,
            _ => &self.others,
        };
        count.fetch_add(1, Ordering::SeqCst);
        if place == self.awaited {
            self.done.store(true, Ordering::SeqCst);
        }
    }

    fn placed(&self, partition: usize, place: Place) {
        if self.held == Held::Placer(partition) && place == self.awaited {
            self.wait();
        }
    }
}

/// Who a word says is held back: `nobody`, `asker:PLACE` or `placer:PARTITION`.
fn held_of(word: &str) -> Attempt<Held> {
    let (name, number) = word.split_once(':').unwrap_or((word, "0"));
    let number = number_in(number);
    match name {
        "nobody" => Ok(Held::Nobody),
        "asker" => Ok(Held::Asker(number)),
        "placer" => Ok(Held::Placer(number as usize)),
        _ => Err(TrialFault::NotText),
    }
}

/// How often the place was waited for in vain, and how often the gate is notified that 2 and 3 are done, and of others.
fn watched(alloc: Global, ended: &str, gate: &Watch) -> Attempt<String> {
    let vain = gate.vain.load(Ordering::SeqCst);
    let second = gate.second.load(Ordering::SeqCst);
    let third = gate.third.load(Ordering::SeqCst);
    let others = gate.others.load(Ordering::SeqCst);
    beside(format!(in alloc;
        "{ended}, {vain} in vain; {second} told of 2, {third} of 3, {others} of others"
    ))
}

/// Runs a range by workers and partitions, one of whom a gate holds back until a place is done: `START END WORKERS PARTITIONS HELD PLACE`.
pub fn gated<R: Threads + Wait + Sync>(
    rt: &R,
    alloc: Global,
    engine: &mut Engine,
    call: &Call<'_>,
) -> Attempt<String> {
    let held = held_of(call.word(4))?;
    let gate = Watch::new(held, call.number(5));
    let ended = run_by(rt, alloc, engine, call, &gate)?;
    watched(alloc, ended.as_str(), &gate)
}
