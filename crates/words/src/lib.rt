//! The words that the threads of a batch share, and the passes that step on them.
//!
//! Passes `claim`, `look`, `give_back`, `fill`, `set_end` and `finish_place`; placers `set_reference` and `advance`.
//! Each is one atomic load, store or compare-exchange; none waits or allocates. Words and passes always show events of
//! the machine, so what a pass finds done is the serial run's. What it knows is its `Knowledge`, in proofs alone. `split`
//! and `join` cut and join passes, a `Holding` may hold places, `close` ends a batch.
//!
//! After J. M. Faleiro and D. J. Abadi, "Rethinking Serializable Multiversion Concurrency Control", PVLDB 8 (2015),
//! section 3: a thread claims a transaction by one compare-and-swap, and marks it complete once its versions are
//! filled.
#![tactic(auto)]

mod batch_data;
mod claims;
mod close;
mod fills;
mod fronts;
mod holding;
mod knowledge;
mod laws;
mod optional;
mod steps;
mod table;
mod words;
mod written;

pub use batch_data::{
    BatchData, MOST_GRANTS_OF_A_PLACE, MOST_REFERENCES_OF_A_PLACE, MOST_WORDS_OF_A_PLACE,
};
pub use claims::{Claimed, DONE, FREE, HELD, Seen};
pub use close::Closed;
pub use knowledge::Knowledge;
pub use laws::{
    events_are_their_actors, own_events_tell_what_is_held, passes_keep_the_fronts_that_they_know,
    passes_keep_what_they_know, places_are_finished_once, views_tell_the_state,
};
pub use table::{BatchWords, Holding, Pass, Placer};
