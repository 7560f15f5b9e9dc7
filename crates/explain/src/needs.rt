//! What a statement's user must hold, one need after the other, without memory.

ghost use Rattle.std.specs.Prelude.{◌≡◌, ◌+◌, MatchOption, slice_get, if◌then◌else◌, true};
ghost use Rattle.std.specs.List.{flat_map};
ghost use Rattle.model_base.specs.Outcomes.{kinds_in, needs, needs_of_access, needs_of_deed};
ghost use Rattle.explain.specs.Indexed.{IsItemAt};

use model_base::{Access, DeedForm, Form, Kind, Kinds, Need};

/// An index as it counts after an item, if that is there; `None` where it is the item's own.
fn behind(there: bool, index: usize) -> Option<usize>
    ensures { MatchOption result ((there ≡ true) × (index ≡ 0)) (λ left. index ≡ (if there then left + 1 else left)) }
{
    if there {
        index.checked_sub(1)
    } else {
        Some(index)
    }
}

/// The kind of an index among some kinds in order; an error is by how much the index lies past their end.
fn kind_at(kinds: &Kinds, index: usize) -> Result<Kind, usize>
    ensures { IsItemAt (kinds_in kinds.now) index result }
{
    let Some(later) = behind(kinds.read, index) else {
        return Ok(Kind::Read);
    };
    let Some(later) = behind(kinds.insert, later) else {
        return Ok(Kind::Insert);
    };
    let Some(later) = behind(kinds.update, later) else {
        return Ok(Kind::Update);
    };
    let Some(later) = behind(kinds.delete, later) else {
        return Ok(Kind::Delete);
    };
    Err(later)
}

/// The need of an index among those of an access, or by how much the index lies past their end.
fn need_of_access(access: &Access, index: usize) -> Result<Need, usize>
    ensures { IsItemAt (needs_of_access access.now) index result }
{
    match kind_at(&access.kinds, index) {
        Ok(kind) => Ok(Need {
            table: access.key.table,
            kind,
            option: false,
        }),
        Err(left) => Err(left),
    }
}

/// The need of an index among those of some accesses, or by how much the index lies past their end.
fn need_of_accesses(accesses: &[Access], index: usize) -> Result<Need, usize>
    ensures { IsItemAt (flat_map needs_of_access accesses.now) index result }
{
    let mut left = index;
    for access in accesses {
        match need_of_access(access, left) {
            Ok(need) => return Ok(need),
            Err(later) => left = later,
        }
    }
    Err(left)
}

/// The need of an index among those of a deed: a grant needs each of its kinds with the option, a revocation nothing.
fn need_of_deed(deed: &DeedForm, index: usize) -> Option<Need>
    ensures { result ≡ slice_get (needs_of_deed deed.now) index }
{
    match *deed {
        DeedForm::Grant { kinds, table, .. } => match kind_at(&kinds, index) {
            Ok(kind) => Some(Need {
                table,
                kind,
                option: true,
            }),
            Err(_) => None,
        },
        DeedForm::Revoke { .. } => None,
    }
}

/// The need of an index among those of a statement in order, or `None` past their end. It looks at each access once.
pub(crate) fn need_at(form: &Form, index: usize) -> Option<Need>
    ensures { result ≡ slice_get (needs form.now) index }
{
    match form {
        Form::Create { .. } => None,
        Form::Run { accesses, deed, .. } => match need_of_accesses(accesses.as_slice(), index) {
            Ok(need) => Some(need),
            Err(left) => match deed {
                Some(deed) => need_of_deed(deed, left),
                None => None,
            },
        },
        Form::Deed(deed) => need_of_deed(deed, index),
    }
}
