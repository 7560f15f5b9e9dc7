//! Where a place of a batch finds what it reads.

use crate::name::Place;

/// What a place of a batch is referred to: what was there before the batch, or an earlier place of the batch. BOHM stores such a reference
/// for each read before anything runs (Faleiro and Abadi, PVLDB 8, 2015, section 3).
#[derive(Clone, Copy, Debug)]
pub enum Reference {
    Base,
    At(Place),
}
