//! What a place of the log results in.

use crate::deed::{Cause, Need, RecordName};
use crate::list::Items;
use crate::row::Outputs;

/// Why a body was aborted.
#[derive(Clone, Copy, PartialEq, Eq, Debug)]
pub enum Reason {
    /// The row that a step reads, changes or deletes is absent.
    NoRow,
    /// The row that a step inserts is there.
    RowExists,
    /// A sum, a difference or a product doesn't fit 64 bits.
    Overflow,
    /// A checked register holds 0.
    Check,
}

/// What the deed of a completed transaction resulted in.
#[derive(Debug, Drop)]
pub enum DeedDone {
    /// The transaction has no deed.
    None,
    Granted,
    /// The records of the grants that the revocation took out of force, in order.
    Revoked(Items<RecordName>),
}

/// The outcome of one place. Only `Done` changes rows and makes the transaction's deed.
#[derive(Debug, Drop)]
pub enum Outcome {
    Created,
    Done { outputs: Outputs, deed: DeedDone },
    /// The first need that isn't held, and why it isn't.
    Denied { need: Need, cause: Cause },
    /// The body was aborted at this step, counted from 0.
    Aborted { step: u64, reason: Reason },
    /// At this step, counted from 0, the body touched a row or a kind that its statement doesn't declare.
    Undeclared { step: u64 },
}
