//! Places of the log that wrote a key, in order.

ghost use Rattle.std.specs.Prelude.{◌≡◌, ◌+◌, ◌++◌, ◌∷◌, [], ◌<◌, ◌≤◌, ℕ, IfSome, IfNone, List, if◌then◌else◌, filter, length, map, nat_lt};
ghost use Rattle.std.specs.Option.{is_none, option_to_list};
ghost use Rattle.std.specs.VecDeque.{deque_capacity, deque_len};
ghost use Rattle.chains.specs.Kept.{AreWrittenInOrder, IsFrom, is_absent, written_by};
ghost use Rattle.chains.specs.declared.writes.Written.{Written as Noted};

use crate::version::Version;
use model_base::{Key, Place, Row};
use std::collections::VecDeque;

/// A place of the log that wrote a key.
#[derive(Clone, Copy)]
pub(crate) struct Written {
    pub(crate) place: Place,
    pub(crate) key: Key,
}

/// Takes out the first write and returns it, if its place is below the mark.
pub(crate) fn take_write_below(writes: &mut VecDeque<Written>, mark: Place) -> Option<Written>
    ensures items { writes.old.items ≡ option_to_list result ++ writes.new.items }
    ensures len { deque_len writes.new + length (option_to_list result) ≡ deque_len writes.old }
    ensures below { IfSome result (λ write. write.place < mark) }
    ensures rest { IfNone result (IsFrom mark writes.new.items) }
{
    let below = match writes.front() {
        None => false,
        Some(write) => write.place < mark,
    };
    if below { writes.pop_front() } else { None }
}

/// Adds the place of a version after the others, if the row is absent in it.
pub(crate) fn note_if_absent(
    writes: &mut VecDeque<Written>,
    place: Place,
    key: Key,
    row: &Option<Row>,
)
    requires { deque_len writes.old < deque_capacity writes.old }
    ensures items { writes.new.items ≡ (if is_none row.now
        then writes.old.items ++ record { place = place; key = key } ∷ [] else writes.old.items) }
    ensures len { deque_len writes.new ≤ deque_len writes.old + 1 }
    ensures capacity { deque_capacity writes.new ≡ deque_capacity writes.old }
{
    match row {
        None => writes.push_back_reserved(Written { place, key }),
        Some(_) => {}
    }
}

/// Adds the places of the versions in which the row is absent after the others.
pub(crate) fn note_absent(writes: &mut VecDeque<Written>, versions: &[Version])
    requires { deque_len writes.old + length versions.now ≤ deque_capacity writes.old }
    ensures { writes.new.items ≡ writes.old.items ++ map written_by (filter is_absent versions.now) }
{
    for version in versions {
        note_if_absent(writes, version.place, version.key, &version.row);
    }
}

/// Takes out the last write and returns it, if its place isn't below this one.
fn take_write_from(writes: &mut VecDeque<Written>, first: Place) -> Option<Written>
    ensures items { writes.old.items ≡ writes.new.items ++ option_to_list result }
    ensures len { deque_len writes.new + length (option_to_list result) ≡ deque_len writes.old }
    ensures from { IfSome result (λ write. first ≤ write.place) }
    ensures rest { IfNone result ((earlier : List Noted) (last : Noted)
        → writes.new.items ≡ earlier ++ last ∷ [] → last.place < first) }
{
    let from = match writes.back() {
        None => false,
        Some(write) => first <= write.place,
    };
    if from { writes.pop_back() } else { None }
}

/// Takes out the writes of this place and of later ones. It doesn't allocate.
pub(crate) fn cut_writes(writes: &mut VecDeque<Written>, first: Place)
    requires { (from : ℕ) × (end : ℕ) × AreWrittenInOrder from end writes.old.items }
    ensures { writes.new.items ≡ filter (λ (write : Noted). nat_lt write.place first) writes.old.items }
{
    while let Some(_write) = take_write_from(writes, first) {}
}
