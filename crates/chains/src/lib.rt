//! The versions of rows over all batches of a log.
//!
//! `append` adds the versions of the next places, `row_before` returns a row before a place from the mark to the end.
//! In order, `fill_window` and `put_place` go by place. `trim` moves the mark and drops what newer versions replaced
//! below it, `sweep` takes out rows that are absent, `cut` takes places back. A store that is right for a log stays so.
//! On `Err`, out of memory, it is unchanged.
//!
//! A newest version is found by hash; trimming costs what was written since.
//!
//! After J. M. Faleiro and D. J. Abadi, "Rethinking Serializable Multiversion Concurrency Control", PVLDB 8 (2015),
//! section 3: a reader takes the newest version older than itself.
#![tactic(auto)]

mod finding;
mod laws;
mod listing;
mod replaced;
mod rows;
mod store;
mod version;
mod writes;

pub use laws::{right_stores_stay_right, versions_have_the_cells, versions_of_logs_are_in_order};
pub use listing::RowThere;
pub use store::{BadMark, Chains, Trimmed};
pub use version::Version;
