//! The machine of a batch as plain data, with its steps.
//!
//! `State` is what is stored: fronts, references, holds, own words and ends. `Machine` has it with the batch's
//! `Statements`, which say what a place stores and ends by what the state shows it. Only `apply` and `run_events`
//! change a state, so each is one that events reach, of which `done_places_are_serial` speaks. An event whose guard
//! fails changes nothing; on `Err`, out of memory, that event isn't made.
//!
//! The program doesn't use it: tests compare with it.
//!
//! After J. M. Faleiro and D. J. Abadi, "Rethinking Serializable Multiversion Concurrency Control", PVLDB 8 (2015),
//! section 3.
#![tactic(auto)]

mod apply;
mod machine;
mod start;
mod state;
mod statements;

pub use bohm_core_base::{Event, Hold, done_places_are_serial};
pub use machine::Machine;
pub use state::State;
pub use statements::Statements;
