//! The first of the items that are kept, dropped.

ghost use Rattle.std.specs.Prelude.{◌≡◌, ◌≤◌, ◌++◌, drop, length, take};

use crate::past::Past;

/// Drops the first items of those that are kept, this many, and appends them to those that were dropped before. It doesn't allocate, and
/// costs what there is to drop and to move.
#[tactic(auto, using(crate::proofs::Rotated::first_gone))]
pub fn forget_first<T: Drop>(past: &mut Past<T>, kept: &mut Vec<T>, count: usize)
    requires { count ≤ length kept.old.items }
    ensures past { past.new.items ≡ past.old.items ++ take count kept.old.items }
    ensures kept { kept.new.items ≡ drop count kept.old.items }
{
    past.append(&kept[..count]);
    let rest = kept.len() - count;
    kept.rotate_left(count);
    kept.truncate(rest);
}
