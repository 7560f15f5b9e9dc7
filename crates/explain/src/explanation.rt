//! What explains a place.

use crate::line::Line;
use model_base::Place;

/// Why the statement of a place was admitted or denied: what it needs of its user, in order, up to and with the first need that
/// isn't held, and of each how it is held or was lost.
#[derive(Drop)]
pub struct Explanation {
    /// The place of the statement.
    pub place: Place,
    /// A line for each need.
    pub lines: Vec<Line>,
}
