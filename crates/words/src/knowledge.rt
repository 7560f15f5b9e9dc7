//! What a pass knows, and what a placer does.

use bohm_core_base::Event;
use std::collections::LinkedList;

/// What a pass knows, or what a placer did. No value of it is made.
#[derive(Drop)]
pub struct Knowledge {
    /// Its own events, in order.
    pub events: LinkedList<Event>,
    /// The lists of the passes that it took in, each with its number.
    pub kept: LinkedList<(u64, LinkedList<Event>)>,
    /// The places that it knows done.
    pub known: LinkedList<usize>,
    /// The places that it found held by another pass, each with the number of its own events by then.
    pub sightings: LinkedList<(usize, usize)>,
    /// The fronts that it knows: a partition, and a number of places, each of which the partition has placed.
    pub fronts: LinkedList<(usize, usize)>,
    /// The fronts that it found: a partition, how many places it had placed, and the number of its own events by then.
    pub front_sightings: LinkedList<(usize, usize, usize)>,
    /// It knows that every partition has placed every place.
    pub placed: bool,
    /// It is the first pass, and was never split.
    pub sole: bool,
    /// The partitions whose placers were cut from it.
    pub cut: LinkedList<usize>,
    /// It is not a pass's, but a placer's.
    pub placer: bool,
    /// Of a placer: its partition.
    pub partition: usize,
    /// Of a placer: its events, in order.
    pub placings: LinkedList<Event>,
    /// Of a placer: the references that it stored of the place that it places next, by their numbers.
    pub stored: LinkedList<usize>,
    /// It was taken in by another pass.
    pub spent: bool,
}
