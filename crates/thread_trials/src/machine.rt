//! The machine over places of a log: its events, one by one or at once, and what places and records result in.

ghost use Rattle.std.specs.Prelude.{◌<◌, ◌≤◌, length};
ghost use Rattle.engine.specs.RunState.{IsRunState};

use crate::events::events_of;
use crate::opening::Call;
use crate::section::{Kind, Section};
use crate::telling::Teller;
use bohm_core::{Machine, State, Statements};
use bohm_core_base::Event;
use engine::RunState;
use log_machine::{OfLog, done_outcome, done_words};
use model_base::{MOST_PARTITIONS, Place};
use std::alloc::{AllocError, Global};
use trials_base::{Attempt, WholeLog, new_batch};

/// All that is stored.
fn picture<S: Statements + Drop>(
    alloc: Global,
    machine: &Machine<S>,
) -> Result<String, AllocError> {
    let state = machine.state();
    let partitions = machine.statements().partitions();
    let mut text = String::new(alloc);
    for index in 0..state.places().max(state.slots()).max(partitions) {
        let (front, hold, end) = (state.front(index), state.hold(index), state.end(index));
        let (references, own) = (state.references(index), state.own(index));
        let part = format!(in alloc; "{front} {references:?} {hold:?} {own:?} {end:?}; ")?;
        text.push_str(part.as_str())?;
    }
    Ok(text)
}

/// What an event is about, as it is stored now.
fn concerned(alloc: Global, state: &State, event: &Event) -> Result<String, AllocError> {
    match *event {
        Event::Place { partition } => {
            let front = state.front(partition);
            format!(in alloc; "{front} placed")
        }
        Event::Fill { index, .. } => {
            let own = state.own(index);
            format!(in alloc; "{own:?}")
        }
        Event::End { slot, .. } => {
            let end = state.end(slot);
            format!(in alloc; "{end:?}")
        }
        Event::Claim { index, .. } | Event::Finish { index, .. } | Event::GiveBack { index, .. } =>
            {
                let hold = state.hold(index);
                format!(in alloc; "{hold:?}")
            }
    }
}

/// Makes an event, again if it was refused memory, and prints what is stored now of what it is about, if anything changed.
fn print_event<S: Statements + Drop, R: Print>(
    teller: &Teller<'_, R>,
    machine: &mut Machine<S>,
    line: &str,
    event: &Event,
) -> Attempt<()> {
    let alloc = teller.alloc;
    let before = picture(alloc, machine)?;
    if machine.apply(event).is_err() {
        let left = picture(alloc, machine)?;
        teller.refused("Machine::apply", "as before", left == before)?;
        machine.apply(event)?;
    }
    if picture(alloc, machine)? == before {
        println!(teller.rt; "{line}: nothing changes")?;
    } else {
        let now = concerned(alloc, machine.state(), event)?;
        println!(teller.rt; "{line}: {now}")?;
    }
    Ok(())
}

/// Whether a machine has what another has after some of the events, of which that makes as many.
fn is_part_way<S: Statements + Drop>(
    alloc: Global,
    machine: &Machine<S>,
    other: &mut Machine<S>,
    events: &[Event],
) -> Result<bool, AllocError> {
    let found = picture(alloc, machine)?;
    for event in events {
        if picture(alloc, other)? == found {
            return Ok(true);
        }
        other.apply(event)?;
    }
    Ok(false)
}

/// Makes the events at once, again if they were refused memory. Those that were made before change nothing then, but that a partition
/// places the next place, which leaves less to place.
fn make_list<S: Statements + Drop, R: Print>(
    teller: &Teller<'_, R>,
    machine: &mut Machine<S>,
    other: &mut Machine<S>,
    events: &[Event],
) -> Attempt<()> {
    if machine.run_events(events).is_err() {
        let begun = is_part_way(teller.alloc, machine, other, events)?;
        teller.refused("Machine::run_events", "after a beginning", begun)?;
        machine.run_events(events)?;
    }
    Ok(())
}

/// Makes the events of a trial, with a second machine to compare with.
fn make_events<S: Statements + Drop, R: Print>(
    teller: &Teller<'_, R>,
    machine: &mut Machine<S>,
    other: &mut Machine<S>,
    section: &Section<'_>,
) -> Attempt<()> {
    let (lines, events) = events_of(teller.alloc, section.steps)?;
    if section.kind == Kind::List {
        return make_list(teller, machine, other, events.as_slice());
    }
    for (line, event) in lines.iter().zip(events.iter()) {
        print_event(teller, machine, line, event)?;
    }
    Ok(())
}

/// Prints what each place resulted in, and where the record of each slot ended.
fn print_found(rt: &impl Print, alloc: Global, machine: &Machine<OfLog<'_>>) -> Attempt<()> {
    let (state, batch) = (machine.state(), machine.statements().batch());
    for index in 0..batch.size() {
        match done_outcome(alloc, machine, index)? {
            None => println!(rt; "index {index} is not done")?,
            Some(outcome) => {
                let references = state.references(index);
                let own = done_words(machine, index).unwrap_or(&[]);
                println!(rt;
                    "index {index} refers to {references:?} and has {own:?}: {outcome:?}"
                )?;
            }
        }
    }
    for slot in 0..batch.slot_count() {
        let (place, end) = (batch.grant(slot).place, state.end(slot));
        println!(rt; "slot {slot}: the grant of {place} ended at {end:?}")?;
    }
    Ok(())
}

/// The machine over the places of a log from one on, before any event. An error is the call that was refused memory.
fn machine_of<'a>(
    alloc: Global,
    log: &'a WholeLog,
    before: &'a RunState,
    first: Place,
    partitions: usize,
) -> Result<Machine<OfLog<'a>>, Call>
    requires partitions { 0 < partitions }
    requires few { partitions ≤ MOST_PARTITIONS }
    requires within { first < length log.now.statements }
    requires before { IsRunState log.now.statements first before.now.chains before.now.book }
{
    let Ok(batch) = new_batch(alloc, log, before, first..log.len(), partitions) else {
        return Err(Call::Place);
    };
    match Machine::new(alloc, OfLog::new(batch)) {
        Ok(machine) => Ok(machine),
        Err(_) => Err(Call::Machine),
    }
}

/// Makes a trial of the machine.
pub fn try_machine<R: Print>(
    teller: &Teller<'_, R>,
    log: &WholeLog,
    before: &RunState,
    partitions: usize,
    section: &Section<'_>,
) -> Result<Attempt<()>, Call>
    requires partitions { 0 < partitions }
    requires few { partitions ≤ MOST_PARTITIONS }
    requires within { section.now.first < length log.now.statements }
    requires before { IsRunState log.now.statements section.now.first before.now.chains before.now.book }
{
    let mut machine = machine_of(teller.alloc, log, before, section.first, partitions)?;
    let mut other = machine_of(teller.alloc, log, before, section.first, partitions)?;
    match make_events(teller, &mut machine, &mut other, section) {
        Ok(()) => Ok(print_found(teller.rt, teller.alloc, &machine)),
        Err(fault) => Ok(Err(fault)),
    }
}
