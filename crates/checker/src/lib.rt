//! Whether a statement may run.
//!
//! `admit` looks each need up in a view, in order: the kinds of each access, and the option of a grant's kinds. It
//! returns that all are held, or the first need that isn't, with the cause of its denial. The view has to cover the
//! tables of the needs. It doesn't allocate, and costs the look-ups of `grants`.
#![tactic(auto)]

mod admission;
mod missing;

pub use admission::{Admission, admit};
