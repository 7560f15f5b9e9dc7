//! Threads that together place and run all places of a batch.
//!
//! `run_workers` runs `Workers`, the caller's thread first. Worker w of W places the partitions q with q mod W
//! = w, then goes round over the places that it hasn't found done. A round asks once for each of them; after one in
//! vain the worker yields. If memory runs out or a thread can't be started, all stop. All are joined. A `Gate` is
//! given each place as it is placed, asked for and done.
//!
//! After J. M. Faleiro and D. J. Abadi, "Rethinking Serializable Multiversion Concurrency Control", PVLDB 8 (2015),
//! section 3: each thread goes over the batch and leaves alone what another holds.
#![tactic(auto)]

mod gate;
mod placing;
mod rounds;
mod shared;
mod stop;
mod work;

pub use gate::{Gate, NoGate};
pub use work::{Workers, run_workers};
