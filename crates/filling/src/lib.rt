//! Places of a log placed and run on shared words, up to the end of the batch.
//!
//! `open` makes the words of a range and a `Placer` for each partition, whose `place_next` stores the references of the
//! next place. `run_place` runs a place after those that it refers to. `finish` runs the places that aren't done and
//! decodes each once: outcomes, versions, changes of the book. Each outcome is the log's. A place costs
//! what it stores and reads. On `Err`, out of memory.
//!
//! After J. M. Faleiro and D. J. Abadi, "Rethinking Serializable Multiversion Concurrency Control", PVLDB 8 (2015),
//! section 3: a transaction runs once the versions that it reads are there, and then fills its placeholders.
#![tactic(auto)]

mod bodies;
mod completion;
mod ends;
mod fill;
mod key;
mod loads;
mod opening;
mod outcomes;
mod own;
mod placer;
mod reader;
mod running;
mod slots;
mod storing;

pub use completion::{Finished, creates, finish};
pub use key::RangeKey;
pub use opening::open;
pub use outcomes::outcome;
pub use placer::Placer;
pub use running::{Ran, run_place};
pub use slots::slot_in;
