//! What calls are made on.

use crate::both::Both;
use crate::driver::Call;
use crate::{book, engines, log, versions};
use chains::Chains;
use engine::Engine;
use std::alloc::{AllocError, Global};
use std::rt::Files;
use std::sync::Wait;
use std::thread::Threads;
use trials_base::{Attempt, TrialFault, WholeLog};

/// What calls are made on: an engine, a book beside the plain one, a store of versions, or a log.
#[derive(Drop)]
pub enum World {
    Engine(Engine),
    Book(Both),
    Store(Chains),
    Log(WholeLog),
}

impl World {
    /// A new world, by the name with which its files begin.
    pub fn named(alloc: Global, name: &str) -> Attempt<World> {
        match name {
            "engine" => Ok(World::Engine(Engine::new(alloc))),
            "book" => Ok(World::Book(Both::new(alloc))),
            "versions" => Ok(World::Store(Chains::new(alloc))),
            "log" => Ok(World::Log(WholeLog::new(alloc))),
            _ => Err(TrialFault::Call),
        }
    }

    /// Makes a call, and says what it results in.
    pub fn make<R: Files + Threads + Wait + Sync>(
        &mut self,
        rt: &R,
        alloc: Global,
        call: &Call<'_>,
    ) -> Attempt<String> {
        match self {
            World::Engine(engine) => engines::make(rt, alloc, engine, call),
            World::Book(both) => book::make(alloc, both, call),
            World::Store(chains) => versions::make(alloc, chains, call),
            World::Log(log) => log::make(alloc, log, call),
        }
    }

    /// All that calls have made of it, as text.
    pub fn picture(&self, alloc: Global) -> Result<String, AllocError> {
        match self {
            World::Engine(engine) => engines::picture(alloc, engine),
            World::Book(both) => book::picture(alloc, both),
            World::Store(chains) => versions::picture(alloc, chains),
            World::Log(log) => format!(in alloc; "{} places", log.len()),
        }
    }
}
