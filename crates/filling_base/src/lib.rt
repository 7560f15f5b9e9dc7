//! Runs a place on shared words, and first the places that it refers to.
//!
//! `Batch::try_run` runs a place and what it waits for, by a walk with a stack of its own. It returns `Done`, `Busy`
//! with a place that another pass holds, `NotPlaced`, or out of memory; then it holds nothing. It waits for nobody and
//! tries nothing twice. `Fills` says how a place is filled, `BatchPlacer` how a partition is placed. A call costs what
//! it fills, and a look at each on its way.
//!
//! After J. M. Faleiro and D. J. Abadi, "Rethinking Serializable Multiversion Concurrency Control", PVLDB 8 (2015),
//! section 3: a thread that needs a version which isn't filled runs the transaction that fills it.
#![tactic(auto)]

mod batch;
mod fills;
mod fronts;
mod laws;
mod placer;
mod release;
mod run;
mod step;
mod storing;
mod walk;

pub use batch::Batch;
pub use fills::Fills;
pub use laws::{counts_go_on, learning_comes_before_storing};
pub use placer::BatchPlacer;
pub use run::Tried;
pub use storing::store;
