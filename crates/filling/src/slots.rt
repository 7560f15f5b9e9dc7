//! Where the records of grants lie: those of a book, and after them those of grants that aren't in it yet.

ghost use Rattle.std.specs.Prelude.{◌≡◌, ◌<◌, ◌≤◌, ◌++◌, ℕ, Some, length, slice_get};
ghost use Rattle.model_base.specs.declared.deed.Grant.{Grant};
ghost use Rattle.model_base.specs.declared.deed.Record.{Record};
ghost use Rattle.model_base.specs.Laws.{IsRising};
ghost use Rattle.model_base.specs.Ranks.{rank};
ghost use Rattle.model_base.specs.Records.{recorded};

use grants::Book;
use model_base::{Grant, Record, RecordName};

/// The index of the record's grant among some, whose records are in order, if it is one of them; else how many of them are before it.
fn index_in(grants: &[Grant], name: RecordName) -> usize
    requires { IsRising grants.now }
    ensures value { (index : ℕ) (grant : Grant) → slice_get grants.now index ≡ Some grant → rank grant ≡ name → result ≡ index }
    ensures bound { result ≤ length grants.now }
{
    grants.partition_point(|grant| grant.name().is_before(name))
}

/// The slot of a record among some, which are in order, if it is one of them; else how many of them are before it. Its time grows with the
/// logarithm of their number.
pub fn slot_in(records: &[Record], name: RecordName) -> usize
    requires { IsRising (recorded records.now) }
    ensures below { (k : ℕ) (entry : Record) → slice_get records.now k ≡ Some entry → k < result → rank entry.grant < name }
    ensures above { (k : ℕ) (entry : Record) → slice_get records.now k ≡ Some entry → result ≤ k → name ≤ rank entry.grant }
{
    records.partition_point(|record| record.grant.name().is_before(name))
}

/// The slot of a record, if there is one: in the book, or after its records among those of the other grants. Its time grows with the
/// logarithm of the number of grants.
pub(crate) fn slot_of(book: &Book, grants: &[Grant], name: RecordName) -> usize
    requires { IsRising (recorded book.now.records ++ grants.now) }
    ensures { (slot : ℕ) (grant : Grant) → slice_get (recorded book.now.records ++ grants.now) slot ≡ Some grant
        → rank grant ≡ name → result ≡ slot }
{
    let records = book.records();
    let slot = slot_in(records, name);
    if slot < records.len() {
        return slot;
    }
    let last = index_in(grants, name);
    records.len() + last
}
