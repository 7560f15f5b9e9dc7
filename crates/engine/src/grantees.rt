//! To whom the grants of a book were made.

ghost use Rattle.std.specs.Prelude.{◌≡◌, IfOk};
ghost use Rattle.model_base.specs.Laws.{IsRising};
ghost use Rattle.model_base.specs.Records.{recorded};
ghost use Rattle.engine.specs.Grantees.{recorded_grantee, recorded_grantees};

use filling::slot_in;
use model_base::{Grantee, Record, RecordName};
use std::alloc::{AllocError, Global};

/// The grantee of a record, if it is one of these. Its time grows with the logarithm of their number.
fn recorded_grantee(records: &[Record], name: RecordName) -> Option<Grantee>
    requires { IsRising (recorded records.now) }
    ensures { result ≡ recorded_grantee records.now name }
{
    let slot = slot_in(records, name);
    if slot < records.len() {
        let record = records[slot];
        if record.grant.name().is_same(name) {
            return Some(record.grant.grantee);
        }
    }
    None
}

/// The grantees of some records in order, of those that are among these. On `Err`, out of memory.
pub(crate) fn recorded_grantees(
    alloc: Global,
    records: &[Record],
    names: &[RecordName],
) -> Result<Vec<Grantee>, AllocError>
    requires { IsRising (recorded records.now) }
    ensures { IfOk result (λ found. found.items ≡ recorded_grantees records.now names.now) }
{
    let mut found = Vec::new(alloc);
    for name in names {
        if let Some(grantee) = recorded_grantee(records, *name) {
            found.push(grantee)?;
        }
    }
    Ok(found)
}
