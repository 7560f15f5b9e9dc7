//! The log, in which statements get places and names get numbers.
//!
//! `Catalog::admit` takes a statement as the next place, or refuses it by the first test that it fails; after a refusal
//! the catalog is unchanged, and out of memory is returned only if no test refuses. `Log` keeps every statement.
//! `LogTail` may `forget` the first, into a `Past` of no bytes, so clauses speak of the whole log. A `LineLog` takes
//! lines. `Catalog::foretell` numbers a statement before its turn, and the result holds whatever is admitted before it;
//! `LogTail::pass_foretold` takes it, and `catch_up` learns another catalog's names.
//!
//! A name is found by its hash, and a statement costs its accesses and steps. Lists come from forgotten statements, by
//! `StatementBuffers`.
#![tactic(auto)]

mod admitting;
mod catalog;
mod foretelling;
mod forgetting;
mod growing;
mod line_log;
mod log;
mod names;
mod numbering;
mod past;
mod raw_run;
mod refused;
mod statement_buffers;
mod tail;
mod testing;

pub use catalog::Catalog;
pub use foretelling::Recent;
pub use forgetting::forget_first;
pub use line_log::LineLog;
pub use log::Log;
pub use names::NameTable;
pub use past::Past;
pub use refused::Refused;
pub use statement_buffers::StatementBuffers;
pub use tail::LogTail;
