//! What workers say of the places that they ask for.

use model_base::Place;

/// Who is notified of what workers do, by places of the log.
pub trait Gate {
    /// A worker will ask for a place.
    fn before(&self, place: Place);

    /// A worker found that a place is done, which it finds once for each place.
    fn after(&self, place: Place);

    /// The placer of a partition has placed a place.
    fn placed(&self, _partition: usize, _place: Place) {}
}

/// Nobody.
#[derive(Clone, Copy)]
pub struct NoGate;

impl Gate for NoGate {
    fn before(&self, _place: Place) {}

    fn after(&self, _place: Place) {}
}
