//! The counts of a report's lines by their words.
//!
//! `summary_text` runs a log and writes the counts of its report, whose lines `put_counts` makes. `Tally` is a writer that hands on a report
//! and counts its lines; `Counting` keeps nothing of it but the counts. A line is counted by its first `HEAD_BYTES`.
#![tactic(auto)]

mod counting;
mod counts;
mod putting;
mod running;
mod summing;
mod tally;
mod wording;

pub use counting::{Counting, HEAD_BYTES};
pub use counts::Counts;
pub use putting::put_counts;
pub use summing::summary_text;
pub use tally::Tally;
pub use wording::{OUTCOME_WORDS, REFUSAL_WORDS};
