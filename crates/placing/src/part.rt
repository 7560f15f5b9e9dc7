//! What one partition's placer finds.

use model_base::{Place, Reference};
use std::alloc::{AllocError, Global};
use std::marker::Model;

/// That the reference of this index, among all references of the batch, is to a place.
#[derive(Clone, Copy)]
pub struct Found {
    pub index: usize,
    pub place: Place,
}

/// The references of one partition, for all places of a batch: where the references of each place end, in the list of all,
/// and which of them the partition's placer found to be to places. The others are to the base, or another partition's.
#[derive(Drop)]
pub struct Part {
    ends: Vec<usize>,
    count: usize,
    found: Vec<Found>,
}

impl Model for Part {
    ghost use Rattle.placing.specs.Parts.{AreRisingEnds, PartOf};

    ghost Value = { PartOf };

    ghost view = { λ part. record { ends = part.ends.items; count = part.count; found = part.found.items } };

    ghost invariant = { λ part. AreRisingEnds 0 part.ends.items part.count };
}

impl Part {
    ghost use Rattle.std.specs.Prelude.{◌≡◌, ◌<◌, ◌^◌, OnOk};
    ghost use Rattle.placing.specs.Parts.{AreRisingEnds, empty_part, with_end, with_reference};

    /// Of no place. It doesn't allocate.
    pub(crate) fn new(alloc: Global) -> Self
        ensures { result ≡ empty_part }
    {
        Part {
            ends: Vec::new(alloc),
            count: 0,
            found: Vec::new(alloc),
        }
    }

    /// Passes one more reference, which is kept if it is to a place.
    #[tactic(auto, using(crate::proofs::Ends::ends_more))]
    pub(crate) fn pass(&mut self, reference: Reference) -> Result<(), AllocError>
        requires { self.old.count < 2 ^ 63 }
        ensures { OnOk result (self.new ≡ with_reference self.old reference) }
    {
        if let Reference::At(place) = reference {
            self.found.push(Found {
                index: self.count,
                place,
            })?;
        }
        self.count += 1;
        Ok(())
    }

    /// Ends the references of a place.
    #[tactic(auto, using(crate::proofs::Ends::ends_snoc))]
    pub(crate) fn end_place(&mut self) -> Result<(), AllocError>
        ensures { OnOk result (self.new ≡ with_end self.old) }
    {
        self.ends.push(self.count)?;
        Ok(())
    }

    /// How many references there are.
    pub(crate) fn count(&self) -> usize
        ensures { result ≡ self.now.count }
    {
        self.count
    }

    /// Which references were found to be to places.
    pub(crate) fn found(&self) -> &[Found]
        ensures { result.now ≡ self.now.found }
    {
        self.found.as_slice()
    }

    /// Where the references of each place end.
    pub(crate) fn into_ends(self) -> Vec<usize>
        ensures ends { result.items ≡ self.ends }
        ensures sound { AreRisingEnds 0 self.ends self.count }
    {
        self.ends
    }
}
