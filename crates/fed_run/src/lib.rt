//! The run of a text that its caller feeds, in order on one thread.
//!
//! Bytes of a log go in and bytes of its report come out, each in whatever pieces the caller has (`FedRun`). It runs on the caller's
//! thread, starts none and waits for none.
#![tactic(auto)]

mod fault;
mod fed;
mod keeping;
mod laws;

pub use fault::{AskFault, FeedFault};
pub use fed::{FedRun, Step};
pub use laws::what_was_given_begins_the_report;
