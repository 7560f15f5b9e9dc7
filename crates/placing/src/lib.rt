//! Where each place of a batch finds the rows that it reads and its grants.
//!
//! `place` goes through a batch for one partition and returns its `Part`; `merge` makes `Refs` of the parts, the same
//! for every number of partitions. `Finder` does so place by place: `find`, `writer`, `prior`, and `note` once a place
//! was placed. A step for each place and reference; on `Err`, out of memory.
//!
//! After J. M. Faleiro and D. J. Abadi, "Rethinking Serializable Multiversion Concurrency Control", PVLDB 8 (2015),
//! section 3: each partition is gone through in the order of the log, without the others. References to deeds are this
//! project's own.
#![tactic(auto)]

mod finder;
mod latest;
mod laws;
mod part;
mod partition;
mod placer;
mod refs;
mod tables;

pub use finder::Finder;
pub use laws::references_are_last;
pub use part::{Found, Part};
pub use partition::{partition_of, partition_of_table};
pub use placer::place;
pub use refs::{Refs, merge};
pub use tables::{find_tables, has_need};
