//! The machine: a batch's statements, with a state that some events reached.

ghost use Rattle.std.specs.Prelude.{◌≡◌, IfOk, OnErr, OnOk, true};
ghost use Rattle.bohm_core.specs.Running.{IsPartWay, IsReached, after_event, after_events, started};
ghost use Rattle.bohm_core.specs.Storage.{takes_memory};

use crate::apply::apply;
use crate::state::State;
use crate::statements::Statements;
use bohm_core_base::Event;
use std::alloc::{AllocError, Global};
use std::marker::Model;

/// The statements of a batch, and what is stored of it. Only events change what is stored, so each state of the machine is
/// one that a list of events reaches, and what `done_places_are_serial` says of such states it says of this one.
#[derive(Drop)]
pub struct Machine<S: Statements> {
    statements: S,
    state: State,
}

impl<S: Statements> Model for Machine<S> {
    ghost use Rattle.bohm_core.specs.Running.{IsReached, Running};

    ghost Value = { Running S };

    ghost view = { λ machine. record { statements = machine.statements; state = machine.state } };

    ghost invariant = { λ machine. IsReached (S.Statements.batch machine.statements) machine.state };
}

impl<S: Statements + Drop> Machine<S> {
    /// The machine before any event. An error means out of memory.
    #[tactic(auto, using(crate::proofs::Reached::reached_start))]
    pub fn new(alloc: Global, statements: S) -> Result<Self, AllocError>
        ensures { IfOk result (λ machine. machine ≡ started S.Statements.batch statements) }
    {
        let _places = statements.places();
        let state = State::new(alloc, &statements)?;
        Ok(Machine { statements, state })
    }

    /// What is stored.
    pub fn state(&self) -> &State
        ensures value { result.now ≡ self.now.state }
        ensures reached { IsReached (S.Statements.batch self.now.statements) self.now.state }
    {
        &self.state
    }

    /// The statements.
    pub fn statements(&self) -> &S
        ensures { result.now ≡ self.now.statements }
    {
        &self.statements
    }

    /// Makes one event; one whose guard fails changes nothing. An error means out of memory, after which nothing has changed; an actor
    /// takes a place and gives it back without any.
    #[tactic(auto, using(crate::proofs::Reached::reached_after))]
    pub fn apply(&mut self, event: &Event) -> Result<(), AllocError>
        ensures ok { OnOk result (self.new ≡ after_event S.Statements.batch self.old event.now) }
        ensures err { OnErr result (self.new ≡ self.old) }
        ensures memory { OnErr result (takes_memory event.now ≡ true) }
    {
        apply(&self.statements, &mut self.state, event)
    }

    /// Makes the events one after another. After an error, which means out of memory, those before some event are made.
    pub fn run_events(&mut self, events: &[Event]) -> Result<(), AllocError>
        ensures ok { OnOk result (self.new ≡ after_events S.Statements.batch self.old events.now) }
        ensures err { OnErr result (IsPartWay S.Statements.batch self.old self.new events.now) }
    {
        for event in events {
            self.apply(event)?;
        }
        Ok(())
    }
}
