//! Trials of the places of a log from one on.

ghost use Rattle.std.specs.Prelude.{◌<◌, ◌≤◌, length};
ghost use Rattle.words.specs.Passes.{IsPassOf};
ghost use Rattle.workers.specs.Placing.{HavePlaced};
ghost use Rattle.engine.specs.RunState.{IsRunState};

use crate::by_hand::{parse_storing, print_storing};
use crate::closing::try_closed;
use crate::machine::try_machine;
use crate::opening::{Call, opened, placed};
use crate::places::Places;
use crate::section::{Kind, Section, parse_log, parse_section};
use crate::steps::{print_row, print_turns};
use crate::telling::{NO_MEMORY, Teller};
use crate::threads::print_claiming;
use crate::working::{print_work, tell_rounds, work_of};
use engine::RunState;
use filling::Placer;
use filling_base::{Batch, BatchPlacer};
use model_base::MOST_PARTITIONS;
use std::rt::Files;
use std::sync::Wait;
use std::thread::Threads;
use trials_base::{Attempt, TrialFault, WholeLog, before_place, read_file, text_of};
use words::{BatchData, Pass};

/// Makes a trial on a batch. Returns 1 if workers did all right in it.
fn try_batch<K: Places + Sync, P: BatchPlacer<K> + Send, R: Threads + Wait + Print + Sync>(
    teller: &Teller<'_, R>,
    batch: &Batch<K>,
    pass: Pass,
    placers: Vec<P>,
    section: &Section<'_>,
) -> Attempt<u32>
    requires pass { IsPassOf batch.now pass }
    requires placers { HavePlaced P.is_of P.front batch.now 0 placers.items }
{
    let (places, crew, workers) = (batch.key().places(), placers.len(), section.workers);
    match section.kind {
        Kind::Claims => print_claiming(teller.rt, batch, pass)?,
        Kind::Open => print_turns(teller, batch, pass, placers, section.steps)?,
        Kind::Rounds => {
            let work = work_of(teller, batch, pass, placers, workers, workers);
            return Ok(u32::from(work.is_whole(places)));
        }
        Kind::Work | Kind::Run => {
            let work = work_of(teller, batch, pass, placers, workers, 1);
            print_work(teller.rt, workers, crew, places, &work)?;
        }
        _ => {
            let _pass = print_row(teller, batch, pass, section.steps)?;
        }
    }
    Ok(0)
}

/// Makes a trial on a batch that is placed.
fn try_placed<R: Threads + Wait + Print + Sync>(
    teller: &Teller<'_, R>,
    log: &WholeLog,
    before: &RunState,
    partitions: usize,
    section: &Section<'_>,
) -> Result<Attempt<()>, Call>
    requires partitions { 0 < partitions }
    requires few { partitions ≤ MOST_PARTITIONS }
    requires within { section.now.first < length log.now.statements }
    requires before { IsRunState log.now.statements section.now.first before.now.chains before.now.book }
{
    let _tail = log.tail();
    let (batch, pass) = placed(teller.alloc, log, before, section.first, partitions)?;
    if section.kind == Kind::Close {
        return try_closed(teller, before, batch, pass, section.steps);
    }
    let none = Vec::<Placer>::new(teller.alloc);
    Ok(try_batch(teller, &batch, pass, none, section).map(|_| ()))
}

/// Makes the steps of a trial and finishes the batch, after a pass that held a place stored words of it, or all, and was dropped.
fn try_stored<R: Print>(
    teller: &Teller<'_, R>,
    log: &WholeLog,
    before: &RunState,
    partitions: usize,
    section: &Section<'_>,
) -> Result<Attempt<()>, Call>
    requires partitions { 0 < partitions }
    requires few { partitions ≤ MOST_PARTITIONS }
    requires within { section.now.first < length log.now.statements }
    requires before { IsRunState log.now.statements section.now.first before.now.chains before.now.book }
{
    let (row, steps) = match parse_storing(section.steps) {
        Ok(found) => found,
        Err(fault) => return Ok(Err(fault)),
    };
    let _tail = log.tail();
    let (other, done) = placed(teller.alloc, log, before, section.first, partitions)?;
    let (batch, pass) = placed(teller.alloc, log, before, section.first, partitions)?;
    match print_storing(teller, &batch, pass, &other, done, &row) {
        Ok(pass) => try_closed(teller, before, batch, pass, steps),
        Err(fault) => Ok(Err(fault)),
    }
}

/// Makes a trial on a batch while it is placed, and rounds each on a batch of its own.
fn try_opened<R: Threads + Wait + Print + Sync>(
    teller: &Teller<'_, R>,
    log: &WholeLog,
    before: &RunState,
    partitions: usize,
    section: &Section<'_>,
) -> Result<Attempt<()>, Call>
    requires partitions { 0 < partitions }
    requires few { partitions ≤ MOST_PARTITIONS }
    requires within { section.now.first < length log.now.statements }
    requires before { IsRunState log.now.statements section.now.first before.now.chains before.now.book }
{
    let rounds = if section.kind == Kind::Rounds { 200 } else { 1 };
    let mut right = 0u32;
    for _ in 0..rounds {
        let (batch, pass, placers) = opened(teller.alloc, log, before, section.first, partitions)?;
        match try_batch(teller, &batch, pass, placers, section) {
            Ok(count) => right = right.saturating_add(count),
            Err(fault) => return Ok(Err(fault)),
        }
    }
    if section.kind != Kind::Rounds {
        return Ok(Ok(()));
    }
    let places = log.len() - section.first;
    Ok(tell_rounds(teller.rt, section.workers, partitions, places, right))
}

/// Makes a trial. An error is a call that was refused memory before anything was printed.
fn try_once<R: Threads + Wait + Print + Sync>(
    teller: &Teller<'_, R>,
    log: &WholeLog,
    before: &RunState,
    partitions: usize,
    section: &Section<'_>,
) -> Result<Attempt<()>, Call>
    requires partitions { 0 < partitions }
    requires few { partitions ≤ MOST_PARTITIONS }
    requires within { section.now.first < length log.now.statements }
    requires before { IsRunState log.now.statements section.now.first before.now.chains before.now.book }
{
    match section.kind {
        Kind::Events | Kind::List => try_machine(teller, log, before, partitions, section),
        Kind::Open | Kind::Work | Kind::Rounds => try_opened(
            teller, log, before, partitions, section,
        ),
        Kind::Stored => try_stored(teller, log, before, partitions, section),
        Kind::Row | Kind::Close | Kind::Claims | Kind::Run => {
            try_placed(teller, log, before, partitions, section)
        }
    }
}

/// Makes a trial, again if one of the calls that make and end its batch was refused memory.
fn try_section<R: Threads + Wait + Print + Sync>(
    teller: &Teller<'_, R>,
    log: &WholeLog,
    section: &Section<'_>,
) -> Attempt<()> {
    if section.first >= log.len() {
        return Err(TrialFault::Call);
    }
    let partitions = section.partitions.clamp(1, MOST_PARTITIONS);
    let before = before_place(teller.alloc, log, section.first)?;
    match try_once(teller, log, &before, partitions, section) {
        Ok(done) => done,
        Err(call) => {
            teller.refused(call.name(), "as before", true)?;
            try_once(teller, log, &before, partitions, section).unwrap_or(Err(NO_MEMORY))
        }
    }
}

/// Makes the trials of a text.
fn try_text<R: Threads + Wait + Print + Sync>(teller: &Teller<'_, R>, text: &str) -> Attempt<()> {
    let (lines, trials) = text.split_once("\nbatch ").ok_or(TrialFault::NotText)?;
    let log = parse_log(teller.alloc, lines)?;
    for trial in trials.split("\nbatch ") {
        try_section(teller, &log, &parse_section(teller.alloc, trial)?)?;
    }
    Ok(())
}

/// Makes the trials of a file.
pub fn try_file<R: Files + Threads + Wait + Print + Sync>(
    teller: &Teller<'_, R>,
    path: &str,
) -> Attempt<()> {
    println!(teller.rt; "{path}")?;
    let text = read_file(teller.rt, teller.alloc, path)?;
    try_text(teller, text_of(text.as_slice())?)
}
