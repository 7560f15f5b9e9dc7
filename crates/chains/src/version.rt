//! A version of a row.

use model_base::{Key, Place, Row};

/// What a row was after a place of the log that declared to write it: `None` where it was absent.
#[derive(Clone, Copy)]
pub struct Version {
    pub place: Place,
    pub key: Key,
    pub row: Option<Row>,
}
