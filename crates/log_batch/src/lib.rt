//! A range of a log as a batch of the machine, and the grants that it may end.
//!
//! `LogBatch` has the range with what is before it. `ended_slots` lists the grants that a revocation of the range names,
//! and what was granted on their options.
//! `batches_of_logs_are_sound` and `done_places_of_logs_are_serial` say that the machine's law holds of every range.
//!
//! A slot is found by halving, or by the book's index. Making a batch allocates.
//!
//! After J. M. Faleiro and D. J. Abadi, "Rethinking Serializable Multiversion Concurrency Control", PVLDB 8 (2015),
//! section 3: a transaction is shown only what its references name. Here that includes grants.
#![tactic(auto)]

mod asking;
mod batch;
mod batch_range;
mod ended;
mod holders;
mod laws;
mod own_length;
mod reach;
mod reference_word;
mod referred;
mod revoked;
mod state_before;

pub use batch::LogBatch;
pub use batch_range::BatchRange;
pub use ended::ended_slots;
pub use laws::{
    batches_of_logs_are_sound, done_places_of_logs_are_serial, references_are_of_the_log,
    serial_answers_tell, serial_ends_are_of_the_log, serial_runs_agree,
    serial_words_are_of_the_log,
};
pub use own_length::{columns_in, columns_of, header_length, words_length};
pub use reference_word::word_of;
pub use state_before::StateBefore;
