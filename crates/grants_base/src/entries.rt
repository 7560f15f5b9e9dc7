//! Tables and records in order.

ghost use Rattle.std.specs.Prelude.{filter, nat_lt, vec_capacity, vec_len, ◌+◌, ◌≤◌, ◌≡◌, ◌<◌, ◌++◌, ℕ, Some, length, slice_get, take};
ghost use Rattle.model_base.specs.declared.deed.Record.{Record};
ghost use Rattle.model_base.specs.Laws.{IsRising};
ghost use Rattle.model_base.specs.Records.{recorded};
ghost use Rattle.grants_base.specs.Book.{AreRising, end_slot, lies_below, reopened};
ghost use Rattle.grants_base.specs.declared.entries.Creation.{Creation};

use model_base::{Place, Record, User};

/// Who created a table, and at which place.
#[derive(Clone, Copy, PartialEq, Eq, Debug)]
pub struct Creation {
    pub owner: User,
    pub place: Place,
}

/// That the record of a slot ends at a place.
#[derive(Clone, Copy)]
pub struct End {
    pub slot: usize,
    pub place: Place,
}

/// Whether the grant and its end lie below the place.
pub fn lies_below(entry: &Record, place: Place) -> bool
    ensures { result ≡ lies_below place entry.now }
{
    entry.grant.place < place && entry.end.is_none_or(|end| end < place)
}

/// Adds the tables after the others, for which there is room.
pub fn append_tables(tables: &mut Vec<Creation>, more: &[Creation])
    requires { vec_len tables.old + length more.now ≤ vec_capacity tables.old }
    ensures { tables.new.items ≡ tables.old.items ++ more.now }
{
    for creation in more {
        tables.push_reserved(*creation);
    }
}

/// Ends the record of the slot.
pub(crate) fn set_end(records: &mut [Record], slot: usize, place: Place)
    requires { slot < length records.old }
    ensures { records.new ≡ end_slot records.old slot place }
{
    records[slot].end = Some(place);
}

/// The record, without an end that doesn't lie below the place.
pub fn reopened(entry: Record, place: Place) -> Record
    ensures { result ≡ reopened place entry }
{
    Record {
        grant: entry.grant,
        end: entry.end.filter(|end| *end < place),
    }
}

/// How many of the tables, whose places rise, were created below the place. It takes a time that grows with the logarithm of
/// their number.
pub fn tables_below(tables: &[Creation], place: Place) -> usize
    requires { AreRising tables.now }
    ensures { take result tables.now ≡ filter (λ (creation : Creation). nat_lt creation.place place) tables.now }
{
    tables.partition_point(|creation| creation.place < place)
}

/// How many of the records, which are in order, are of grants that were made below the place: this many come first. It takes a time that
/// grows with the logarithm of their number.
pub fn records_below(records: &[Record], place: Place) -> usize
    requires { IsRising (recorded records.now) }
    ensures first { take result records.now ≡ filter (λ (entry : Record). nat_lt entry.grant.place place) records.now }
    ensures below { (k : ℕ) (entry : Record) → slice_get records.now k ≡ Some entry → k < result → entry.grant.place < place }
    ensures above { (k : ℕ) (entry : Record) → slice_get records.now k ≡ Some entry → result ≤ k → place ≤ entry.grant.place }
{
    records.partition_point(|record| record.grant.place < place)
}
