//! A log run batch by batch.
//!
//! `Engine` has a log, outcomes, rows and book. `push` and `push_read` take statements; `run_to` and `run_batch` run the
//! next range, in order (`run_in_order`) or by a `Crew` of several workers (`execute`, `advance`), under one contract: the
//! outcomes are the log's. `run_foretold` runs a statement from where it is. `forget` drops finished statements and
//! outcomes, `trim` and `sweep` old rows. `grantees_of` says to whom some records are. On `Err`, out of memory or a
//! thread that couldn't be started, the engine is unchanged. `RememberingBook` remembers needs found held, up to the next
//! revocation.
//!
//! A place costs its needs, its steps and the rows that it writes. Log, rows and book are never copied.
#![tactic(auto)]

mod booking;
mod commit;
mod crew;
mod executing;
mod grantees;
mod held;
mod in_order;
mod line_log;
mod remembering;
mod run;
mod state;

pub use commit::advance;
pub use crew::Crew;
pub use executing::execute;
pub use filling::slot_in;
pub use in_order::run_in_order;
pub use line_io::EngineFault;
pub use remembering::RememberingBook;
pub use run::Engine;
pub use state::RunState;
