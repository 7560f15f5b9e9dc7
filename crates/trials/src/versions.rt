//! Versions of rows, and marks.

ghost use Rattle.std.specs.Prelude.{◌≡◌, ◌+◌, IfOk};
ghost use Rattle.chains.specs.Store.{AreBetween};

use crate::driver::Call;
use chains::{Chains, Trimmed, Version};
use model_base::{Key, Place, Row, Table};
use std::alloc::{AllocError, Global};
use trials_base::{Attempt, TrialFault, beside};

/// The row of a version: of one number, if there is one.
fn row_of(is_there: bool, value: u64) -> Option<Row> {
    if !is_there {
        return None;
    }
    let mut row = Row::new();
    row.push(i64::try_from(value).unwrap_or(i64::MAX));
    Some(row)
}

/// A row, by its number after that of its table.
fn key_of(call: &Call<'_>, index: usize) -> Key {
    Key {
        table: Table(call.count(index)),
        row: call.count(index.saturating_add(1)),
    }
}

/// Appends one version, after which the store ends here.
fn put(alloc: Global, chains: &mut Chains, version: Version, new_end: Place) -> Attempt<()> {
    if version.place < chains.end() || new_end <= version.place {
        return Err(TrialFault::Call);
    }
    match vec![in alloc; version] {
        Ok(versions) => Ok(chains.append(versions, new_end)?),
        Err(_) => Err(TrialFault::Beside),
    }
}

/// A version of a row of the first table, which holds its place.
fn version_of(place: Place, row: u32) -> Version
    ensures { result.place ≡ place }
{
    let mut values = Row::new();
    values.push(i64::try_from(place).unwrap_or(i64::MAX));
    Version {
        place,
        key: Key {
            table: Table(0),
            row,
        },
        row: Some(values),
    }
}

/// Versions of two rows at a place.
fn pair_of(alloc: Global, place: u32, rows: (u32, u32)) -> Result<Vec<Version>, AllocError>
    ensures { IfOk result (λ versions. AreBetween place (place + 1) versions.items) }
{
    let place = Place::from(place);
    let (one, other) = (version_of(place, rows.0), version_of(place, rows.1));
    Ok(vec![in alloc; one, other]?)
}

/// Appends versions of two rows at a place: `PLACE ROW ROW`.
fn put_pair(alloc: Global, chains: &mut Chains, call: &Call<'_>) -> Attempt<()> {
    let place = call.count(0);
    if chains.end() != Place::from(place) {
        return Err(TrialFault::Call);
    }
    match pair_of(alloc, place, (call.count(1), call.count(2))) {
        Ok(versions) => Ok(chains.append(versions, Place::from(place) + 1)?),
        Err(AllocError) => Err(TrialFault::Beside),
    }
}

/// What a store says of a row before a place.
fn row_text(alloc: Global, chains: &Chains, place: Place, key: Key) -> Result<String, AllocError> {
    if chains.end() < place {
        return String::from_str(alloc, "past the end");
    }
    match chains.row_before(place, key) {
        Err(Trimmed) => String::from_str(alloc, "trimmed"),
        Ok(None) => String::from_str(alloc, "none"),
        Ok(Some(found)) => format!(in alloc; "{:?}", found.as_slice()),
    }
}

/// Appends a version, of a row or of none: `PLACE TABLE ROW END VALUE`.
fn put_one(alloc: Global, chains: &mut Chains, call: &Call<'_>, is_there: bool) -> Attempt<()> {
    let version = Version {
        place: call.number(0),
        key: key_of(call, 1),
        row: row_of(is_there, call.number(4)),
    };
    put(alloc, chains, version, call.number(3))
}

/// Changes a store: `new`; `put PLACE TABLE ROW END VALUE` and `delete PLACE TABLE ROW END`, which append a version; `pair PLACE ROW ROW`.
fn change(alloc: Global, chains: &mut Chains, call: &Call<'_>) -> Attempt<()> {
    match call.verb {
        "put" => put_one(alloc, chains, call, true),
        "delete" => put_one(alloc, chains, call, false),
        "pair" => put_pair(alloc, chains, call),
        "new" => {
            *chains = Chains::new(alloc);
            Ok(())
        }
        _ => Err(TrialFault::NotText),
    }
}

/// Moves the mark of a store, or sweeps it: `trim MARK`; `sweep`.
fn drop_versions(
    alloc: Global,
    chains: &mut Chains,
    call: &Call<'_>,
) -> Result<String, AllocError> {
    if call.verb == "sweep" {
        return format!(in alloc; "{}", chains.sweep());
    }
    let trimmed = chains.trim(call.number(0));
    format!(in alloc; "{trimmed:?}")
}

/// The mark and the end of a store.
fn bounds(alloc: Global, chains: &Chains) -> Result<String, AllocError> {
    let (mark, end) = (chains.mark(), chains.end());
    format!(in alloc; "mark {mark}, end {end}")
}

/// `row TABLE ROW PLACE`; `trim MARK`; `sweep`; `bounds`; or a change.
pub fn make(alloc: Global, chains: &mut Chains, call: &Call<'_>) -> Attempt<String> {
    match call.verb {
        "row" => beside(row_text(alloc, chains, call.number(2), key_of(call, 0))),
        "trim" | "sweep" => beside(drop_versions(alloc, chains, call)),
        "bounds" => beside(bounds(alloc, chains)),
        _ => {
            change(alloc, chains, call)?;
            beside(String::from_str(alloc, "ok"))
        }
    }
}

/// What is at the end of the first rows of the first table, and where the store ends.
pub fn picture(alloc: Global, chains: &Chains) -> Result<String, AllocError> {
    let end = chains.end();
    let mut text = bounds(alloc, chains)?;
    for row in 0..16_u32 {
        let key = Key {
            table: Table(0),
            row,
        };
        let found = row_text(alloc, chains, end, key)?;
        text.push_str(found.as_str())?;
    }
    Ok(text)
}
