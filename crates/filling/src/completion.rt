//! A batch completed on one thread, and what its places result in.

mod batch_progress;
mod below;
mod cells;
mod changes;
mod copying;
mod ends;
mod finished;
mod lists;
mod places;
mod running;

pub use changes::creates;
pub use finished::Finished;
pub use running::finish;
