//! The machine over the statements of a log.
//!
//! `OfLog` is a range of a log as `Statements` of the machine: what a place stores and ends is judged by `evaluation`.
//! `done_words`, `done_ends` and `done_outcome` return what a place that is done stored and ended, and its outcome,
//! which are the log's. Words are made again for each word that is stored: it is there to be compared with, and the
//! program doesn't use it.
//!
//! After J. M. Faleiro and D. J. Abadi, "Rethinking Serializable Multiversion Concurrency Control", PVLDB 8 (2015),
//! section 3.
#![tactic(auto)]

mod answers;
mod by_state;
mod done;
mod log_statements;
mod of_log;
mod stored;

pub use done::{done_ends, done_outcome, done_words};
pub use of_log::OfLog;
