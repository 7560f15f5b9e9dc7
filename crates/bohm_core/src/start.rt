//! The lists of a state at first.

ghost use Rattle.std.specs.Prelude.{◌≡◌, ◌≤◌, ℕ, IfOk, [], replicate};
ghost use Rattle.bohm_core_base.specs.Batch.{Batch};
ghost use Rattle.bohm_core_base.specs.Machine.{empty_references, start};
ghost use Rattle.bohm_core_base.specs.declared.hold.Hold.TheVariants.{Free};
ghost use Rattle.bohm_core.specs.Storage.{lists_of};

use crate::statements::Statements;
use bohm_core_base::Hold;
use model_base::Place;
use std::alloc::{AllocError, Global};

/// This many zeros.
pub fn zeros(alloc: Global, length: usize) -> Result<Vec<usize>, AllocError>
    ensures { IfOk result (λ zeros. zeros.items ≡ replicate length 0) }
{
    vec![in alloc; 0; length]
}

/// This many places that nobody holds.
pub fn free_holds(alloc: Global, places: usize) -> Result<Vec<Hold>, AllocError>
    ensures { IfOk result (λ holds. holds.items ≡ replicate places Free) }
{
    vec![in alloc; Hold::Free; places]
}

/// The references of this many places, before any is stored.
pub fn no_references<S: Statements>(
    alloc: Global,
    statements: &S,
    places: usize,
) -> Result<Vec<Vec<usize>>, AllocError>
    requires { places ≤ (S.batch statements.now).size }
    ensures { IfOk result (λ references. lists_of references.items ≡ empty_references (S.batch statements.now) places) }
{
    let mut references = Vec::with_capacity(alloc, places)?;
    for index in 0..places {
        references.push(zeros(alloc, statements.references_length(index))?)?;
    }
    Ok(references)
}

/// The own words of this many places, before any is stored.
pub fn no_words(alloc: Global, places: usize) -> Result<Vec<Vec<u64>>, AllocError>
    ensures { IfOk result (λ own. lists_of own.items ≡ replicate places []) }
{
    let mut own = Vec::with_capacity(alloc, places)?;
    for index in 0..places {
        own.push(Vec::new(alloc))?;
    }
    Ok(own)
}

/// Of each slot the place that ended its record before the batch.
pub fn ends_before<S: Statements>(
    alloc: Global,
    statements: &S,
) -> Result<Vec<Option<Place>>, AllocError>
    ensures { IfOk result (λ ends. ends.items ≡ (start (S.batch statements.now)).ends) }
{
    let mut ends = Vec::with_capacity(alloc, statements.slots())?;
    for slot in 0..statements.slots() {
        ends.push(statements.end_before(slot))?;
    }
    Ok(ends)
}
