//! Passes that claim places, side by side on threads of their own.

ghost use Rattle.std.specs.Prelude.{◌<◌};
ghost use Rattle.std.specs.Thread.{IsSync};
ghost use Rattle.words.specs.Passes.{IsPassOf};

use crate::calls::count_held;
use filling_base::{Batch, Fills};
use std::thread;
use std::thread::Threads;
use trials_base::Attempt;
use words::{BatchData, Claimed, Holding, Pass};

/// How many places the pass wins. It is dropped then.
fn claim_all<K: Fills>(batch: &Batch<K>, pass: Pass) -> usize
    requires { IsPassOf batch.now pass }
{
    let mut holding = Holding::begin(pass);
    let mut won = 0usize;
    for index in 0..batch.key().places() {
        if holding.knows_placed() && batch.words().claim(&mut holding, index) == Claimed::Won {
            won = won.saturating_add(1);
        }
    }
    won
}

/// A thread of its own and those of lower numbers, each with a pass that claims all places. Returns how many places they win together.
fn claim_by<K: Fills + Sync, R: Threads + Sync>(
    rt: &R,
    batch: &Batch<K>,
    pass: Pass,
    thread: usize,
) -> usize
    requires { IsPassOf batch.now pass }
{
    if thread == 0 {
        return claim_all(batch, pass);
    }
    let (pass, other) = batch.split(pass);
    let (first, second) = thread::join(
        rt,
        move || -> usize
            requires { IsPassOf batch.now other }
        { claim_all(batch, other) },
        move || -> usize
            requires { IsSync K.row × IsSync R.row × IsPassOf batch.now pass × (0 < thread) }
        { claim_by(rt, batch, pass, thread - 1) },
    );
    first.saturating_add(second)
}

/// Tells how many places sixteen threads win together, and how many are held then: all, so each was won once.
pub fn print_claiming<K: Fills + Sync, R: Threads + Print + Sync>(
    rt: &R,
    batch: &Batch<K>,
    pass: Pass,
) -> Attempt<()>
    requires { IsPassOf batch.now pass }
{
    let places = batch.key().places();
    let (pass, given) = batch.split(pass);
    let won = claim_by(rt, batch, given, 15);
    let held = count_held(batch, pass);
    println!(rt; "sixteen threads claim each of {places} places: {won} are won, {held} are held")?;
    Ok(())
}
