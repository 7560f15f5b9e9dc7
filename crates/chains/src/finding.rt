//! Where the entry of a key is in a map.

ghost use Rattle.std.specs.Prelude.{◌≡◌, None, IfNone, IfSome, slice_get};
ghost use Rattle.std.specs.Map.{lookup};
ghost use Rattle.body.specs.RowMap.{key_eq};

use crate::replaced::Dated;
use indexmap::IndexMap;
use model_base::{HashSeed, Key};

/// The index of the key's entry, or of none where the key has no entry.
#[inline(never)]
fn index_by_hash(newest: &IndexMap<Key, Dated, HashSeed>, key: &Key) -> usize
    ensures there { IfSome (slice_get newest.now.entries result) (λ entry. entry.0 ≡ key.now) }
    ensures absent { IfNone (slice_get newest.now.entries result) (lookup (key_eq key.now) newest.now.entries ≡ None) }
{
    match newest.get_full(key) {
        None => newest.len(),
        Some((index, _at, _dated)) => index,
    }
}

/// The index of the key's entry, or of none where the key has no entry. Nothing is hashed where the entry is at the index at
/// which it was found before.
#[inline(always)]
pub(crate) fn index_of(newest: &IndexMap<Key, Dated, HashSeed>, key: &Key, found: usize) -> usize
    ensures there { IfSome (slice_get newest.now.entries result) (λ entry. entry.0 ≡ key.now) }
    ensures absent { IfNone (slice_get newest.now.entries result) (lookup (key_eq key.now) newest.now.entries ≡ None) }
{
    match newest.get_index(found) {
        Some((at, _dated)) if at == key => found,
        _ => index_by_hash(newest, key),
    }
}
