//! The references of a batch.

ghost use Rattle.std.specs.Prelude.{◌≡◌, ◌+◌, ◌<◌, ℕ, List, Some, IfOk, fold, length, replicate, slice_get};
ghost use Rattle.model_base.specs.declared.reference.Reference.TheVariants.{Base};
ghost use Rattle.model_base.specs.declared.statement.Statement.{Statement};
ghost use Rattle.model_base.specs.References.{batch_references};
ghost use Rattle.placing.specs.Parts.{ArePartsOf, AreRisingEnds};
ghost use Rattle.placing.specs.Refs.{first_count, first_ends, pieces, start_at, with_found, with_part};

use crate::part::{Found, Part};
use model_base::Reference;
use std::alloc::{AllocError, Global};
use std::marker::Model;

/// What each place of a batch is referred to: for each of its accesses in order, and then for each table of its needs and of its deed, in
/// the order in which these first appear.
#[derive(Drop)]
pub struct Refs {
    ends: Vec<usize>,
    references: Vec<Reference>,
}

impl Model for Refs {
    ghost use Rattle.std.specs.Prelude.{List, length};
    ghost use Rattle.model_base.specs.declared.reference.Reference.{Reference};
    ghost use Rattle.placing.specs.Parts.{AreRisingEnds};
    ghost use Rattle.placing.specs.Refs.{pieces};

    ghost Value = { List (List Reference) };

    ghost view = { λ refs. pieces 0 refs.ends.items refs.references.items };

    ghost invariant = { λ refs. AreRisingEnds 0 refs.ends.items (length refs.references.items) };
}

impl Refs {
    ghost use Rattle.std.specs.Prelude.{◌≡◌, ◌<◌, Some, length, slice_get};

    /// How many places the batch has.
    #[tactic(auto, using(crate::proofs::Ends::length_pieces))]
    pub fn len(&self) -> usize
        ensures { result ≡ length self.now }
    {
        self.ends.len()
    }

    /// What the place of this index in the batch is referred to.
    #[tactic(auto, using(crate::proofs::Ends::length_pieces))]
    pub fn of(&self, index: usize) -> &[Reference]
        requires { index < length self.now }
        ensures { slice_get self.now index ≡ Some result.now }
    {
        piece(&self.ends, &self.references, index)
    }
}

/// Where the piece of this index begins.
fn start_at(ends: &[usize], index: usize) -> usize
    requires { index < length ends.now }
    ensures { result ≡ start_at 0 ends.now index }
{
    if index == 0 { 0 } else { ends[index - 1] }
}

/// The piece of this index.
fn piece<'a>(ends: &[usize], references: &'a [Reference], index: usize) -> &'a [Reference]
    requires sound { AreRisingEnds 0 ends.now (length references.now) }
    requires below { index < length ends.now }
    ensures { slice_get (pieces 0 ends.now references.now) index ≡ Some result.now }
{
    &references[start_at(ends, index)..ends[index]]
}

/// This many references to the base.
fn bases(alloc: Global, count: usize) -> Result<Vec<Reference>, AllocError>
    ensures { IfOk result (λ references. references.items ≡ replicate count Base) }
{
    vec![in alloc; Reference::Base; count]
}

/// Writes what was found at its index.
fn put_found(references: &mut [Reference], found: &[Found])
    ensures { references.new ≡ fold with_found references.old found.now }
{
    for one in found {
        if one.index < references.len() {
            references[one.index] = Reference::At(one.place);
        }
    }
}

/// How many references the batch has, by the first part.
fn first_count(parts: &[Part]) -> usize
    ensures { result ≡ first_count parts.now }
{
    match parts {
        [] => 0,
        [first, ..] => first.count(),
    }
}

/// Where the references of each place end, by the first part.
fn first_ends(alloc: Global, mut parts: Vec<Part>) -> Vec<usize>
    ensures ends { result.items ≡ first_ends parts.items }
    ensures sound { AreRisingEnds 0 (first_ends parts.items) (first_count parts.items) }
{
    if parts.is_empty() {
        Vec::new(alloc)
    } else {
        parts.remove(0).into_ends()
    }
}

/// Writes together what the placers of all partitions found, in the order of the partitions: the references of the batch, the same for
/// every number of partitions. The cost is a step for each place and each reference. `Err` says that memory ran out.
pub fn merge(alloc: Global, parts: Vec<Part>) -> Result<Refs, AllocError>
    ensures { IfOk result (λ refs. (partitions : ℕ) (log : List Statement) (first places : ℕ)
        → ArePartsOf parts.items partitions log first places → refs ≡ batch_references log first (first + places)) }
{
    let mut references = bases(alloc, first_count(&parts))?;
    for part in &parts {
        put_found(&mut references, part.found());
    }
    let ends = first_ends(alloc, parts);
    Ok(Refs { ends, references })
}
