//! To whom the records of grants are.

ghost use Rattle.std.specs.Prelude.{◌≡◌, IfOk, filter_map};
ghost use Rattle.model_base.specs.RecordGrantees.{grantee_at};

use model_base::{Grantee, RecordName, Statement};
use std::alloc::{AllocError, Global};

/// To whom the record was granted, if the statement of its place names somebody at its position.
fn grantee_of(statements: &[Statement], name: RecordName) -> Option<Grantee>
    ensures { result ≡ grantee_at statements.now name }
{
    match statements.get(name.place as usize) {
        Some(statement) => statement.form.grantee(name.position),
        None => None,
    }
}

/// To whom the records were granted, in their order. A record whose statement names nobody at its position is passed over.
pub(crate) fn granted_to(
    alloc: Global,
    statements: &[Statement],
    names: &[RecordName],
) -> Result<Vec<Grantee>, AllocError>
    ensures { IfOk result (λ grantees. grantees.items ≡ filter_map (grantee_at statements.now) names.now) }
{
    let mut grantees = Vec::with_capacity(alloc, names.len())?;
    for name in names {
        if let Some(grantee) = grantee_of(statements, *name) {
            grantees.push(grantee)?;
        }
    }
    Ok(grantees)
}
