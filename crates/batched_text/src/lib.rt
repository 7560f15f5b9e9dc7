//! A text read, run in batches, and reported as batches finish.
//!
//! `LineRun` takes lines, runs them as batches and gives their report. `report_in_order` runs on the calling thread while
//! others read lines ahead (`ReadingAhead`), `report_alone` without; `report_text` by any `Settings`; `run_text` keeps log
//! and outcomes; `run_quietly_to` runs up to a place, without a report, and a `QuietRun` batch by batch. After a fault a
//! beginning of the report was written. Where nothing is kept, memory grows with rows, names and grants alone; in order,
//! and of `Live` logs, whole lines are reported before further reads.
//!
//! After J. M. Faleiro and D. J. Abadi, "Rethinking Serializable Multiversion Concurrency Control", PVLDB 8 (2015),
//! section 3: the input is cut into batches.
#![tactic(auto)]

mod buffered;
mod foretold;
mod history;
mod laws;
mod line_run;
mod lines;
mod lookahead;
mod quiet;
mod reaching;
mod reporting;
mod runner;
mod running;
mod settings;
mod stretches;

pub use laws::reports_stand;
pub use line_run::LineRun;
pub use lookahead::ReadingAhead;
pub use quiet::QuietRun;
pub use reaching::run_quietly_to;
pub use reporting::{named_grantees, put_place};
pub use runner::{Alone, Executor, Runner};
pub use running::{report_alone, report_in_order, report_text, run_text};
pub use settings::{Arrival, Batches, QUIET_BATCH, Settings};
