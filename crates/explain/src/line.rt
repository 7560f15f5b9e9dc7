//! A line of an explanation.

use model_base::{Items, Need, Place, RecordName};

/// How a need is held, or how it was lost. Grants are named by their records.
#[derive(Debug, Drop)]
pub enum Shown {
    /// The user owns the table.
    Owner,
    /// A chain of grants in force leads from the table's owner to the need.
    Grants(Items<RecordName>),
    /// It isn't held, and never was.
    Never,
    /// It isn't held: the revocation of this place took it last, and until then this chain of grants bore it.
    Taken(Place, Items<RecordName>),
}

/// A need, and what is shown of it.
#[derive(Debug, Drop)]
pub struct Line {
    pub need: Need,
    pub shown: Shown,
}
