//! A place of a batch, evaluated by the rows and grants that its references name.
//!
//! `own_words` judges a statement by a view of records, runs its body over a window and writes its outcome and version
//! cells; `ended` returns what its revocation ends. `ReadSource` is a trait, what a place may read of others. `words_by_source` and
//! `ends_by_source` return by it what the log has at the place, whoever implements it. Only lists of ends allocate.
//!
//! After J. M. Faleiro and D. J. Abadi, "Rethinking Serializable Multiversion Concurrency Control", PVLDB 8 (2015),
//! section 3: a transaction is evaluated by the versions that it may read. That grants are read likewise is this
//! project's own.
#![tactic(auto)]

mod in_force;
mod judged;
mod judging;
mod laws;
mod place_words;
mod read_source;
mod records;
mod revoking;
mod rows;
mod tables;

pub use judged::{ends_by_source, was_done, words_by_source};
pub use laws::{outcomes_fit_their_forms, words_tell_outcomes};
pub use place_words::own_words;
pub use read_source::ReadSource;
pub use revoking::ended;
