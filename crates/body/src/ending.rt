//! How a body ends.

use model_base::Reason;

/// How a body ends. Steps are counted from 0.
#[derive(Clone, Copy, PartialEq, Eq)]
pub enum BodyEnd {
    /// Each step was done or passed over.
    Completed,
    /// This step could not be done, for this reason.
    Aborted { step: u64, reason: Reason },
    /// This step touches a row that the statement doesn't declare, or in a way that it doesn't declare.
    Undeclared { step: u64 },
}
