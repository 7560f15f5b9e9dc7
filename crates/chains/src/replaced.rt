//! Versions that newer ones replaced.

ghost use Rattle.std.specs.Prelude.{◌≡◌, ◌+◌, ◌++◌, ◌∷◌, [], ◌<◌, ◌≤◌, None, IfSome, IfNone, List, length, map, slice_set};
ghost use Rattle.std.specs.Option.{option_to_list};
ghost use Rattle.std.specs.VecDeque.{deque_len};
ghost use Rattle.chains.specs.Kept.{AreWrittenBelow, IsFrom};
ghost use Rattle.chains.specs.Keyed.{newest_below, replaced_of, replacing_write};
ghost use Rattle.chains.specs.declared.replaced.Replaced.{Replaced as Older};

use body::Window;
use model_base::{Key, MOST_ACCESSES, Place, Row};
use std::collections::VecDeque;

/// What a row was after a place that declared to write it: a version without its key.
#[derive(Clone, Copy)]
pub(crate) struct Dated {
    pub(crate) place: Place,
    pub(crate) row: Option<Row>,
}

/// A version that a newer one of its key replaced, and the place of the newer one.
#[derive(Clone, Copy)]
pub(crate) struct Replaced {
    pub(crate) by: Place,
    pub(crate) key: Key,
    pub(crate) version: Dated,
}

/// The row of the last replaced version of the key whose place is below this one, or `None`. It looks from the last on.
#[inline(never)]
pub(crate) fn replaced_before(older: &VecDeque<Replaced>, place: Place, key: Key) -> Option<Row>
    ensures { result ≡ newest_below None (replaced_of key older.now.items) place }
{
    for index in (0..older.len()).rev() {
        let one = older[index];
        if one.key == key && one.version.place < place {
            return one.version.row;
        }
    }
    None
}

/// Sets the row of an access of a window to what `replaced_before` returns, with the index of the key's entry. A run in order never comes
/// here: apart from `Rows::find` its row costs that no stack.
#[inline(never)]
pub(crate) fn set_replaced(
    older: &VecDeque<Replaced>,
    place: Place,
    key: Key,
    access: usize,
    index: usize,
    window: &mut Window,
)
    requires { access < MOST_ACCESSES }
    ensures rows { window.new.rows ≡ slice_set window.old.rows access (newest_below None (replaced_of key older.now.items) place) }
    ensures outputs { window.new.outputs ≡ window.old.outputs }
{
    let row = replaced_before(older, place, key);
    window.set_found(access, &row, index);
}

/// Takes out the first and returns it, if it was replaced below the mark.
fn take_first_below(older: &mut VecDeque<Replaced>, mark: Place) -> Option<Replaced>
    ensures items { older.old.items ≡ option_to_list result ++ older.new.items }
    ensures len { deque_len older.new + length (option_to_list result) ≡ deque_len older.old }
    ensures below { IfSome result (λ one. one.by < mark) }
    ensures rest { IfNone result (IsFrom mark (map replacing_write older.new.items)) }
{
    let below = match older.front() {
        None => false,
        Some(one) => one.by < mark,
    };
    if below { older.pop_front() } else { None }
}

/// Takes out those that were replaced below the mark, from the first up to one that wasn't, and returns how many there were.
pub(crate) fn take_below(older: &mut VecDeque<Replaced>, mark: Place) -> usize
    ensures taken { (taken : List Older) × (older.old.items ≡ taken ++ older.new.items)
        × (result ≡ length taken) × AreWrittenBelow mark (map replacing_write taken) }
    ensures rest { IsFrom mark (map replacing_write older.new.items) }
{
    let before = older.len();
    while let Some(_one) = take_first_below(older, mark) {}
    before - older.len()
}

/// Takes out the last and returns it, if it wasn't replaced below the place.
pub(crate) fn take_last_from(older: &mut VecDeque<Replaced>, first: Place) -> Option<Replaced>
    ensures items { older.old.items ≡ older.new.items ++ option_to_list result }
    ensures from { IfSome result (λ one. first ≤ one.by) }
    ensures rest { IfNone result ((earlier : List Older) (last : Older) → older.new.items ≡ earlier ++ last ∷ [] → last.by < first) }
{
    let from = match older.back() {
        None => false,
        Some(one) => first <= one.by,
    };
    if from { older.pop_back() } else { None }
}
