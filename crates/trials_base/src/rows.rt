//! What engines say of rows.

use engine::Engine;
use model_base::{Key, Place, RowNumber, Table};
use std::alloc::{AllocError, Global};

/// What the engine says of a row of the first table before a place.
pub fn row_text(
    alloc: Global,
    engine: &Engine,
    row: RowNumber,
    place: Place,
) -> Result<String, AllocError> {
    if place > engine.finished() {
        return String::from_str(alloc, "not finished");
    }
    let key = Key {
        table: Table(0),
        row,
    };
    match engine.row_before(place, key) {
        Ok(Some(found)) => format!(in alloc; "{:?}", found.as_slice()),
        Ok(None) => String::from_str(alloc, "absent"),
        Err(_trimmed) => String::from_str(alloc, "trimmed"),
    }
}
