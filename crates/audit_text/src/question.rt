//! What an auditor asks.

use model_base::Place;

/// What is asked about a place of a log.
#[derive(Clone, Copy)]
pub struct Question {
    /// The place: the index of a statement among those that the log accepted, from 0 on.
    pub place: Place,
    /// Whether the answer is checked, and ends with `checked` where the check accepts it.
    pub is_checked: bool,
}
