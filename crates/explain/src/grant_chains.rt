//! Whether records are those of a chain of grants that bears a need. Nothing here searches for a chain, or follows what grants
//! rest on: each grant is looked up by its record's name, and compared with the one before it.

ghost use Rattle.std.specs.Prelude.{◌≡◌, ◌<◌, ℕ, Decides, List, Some, length, slice_get};
ghost use Rattle.model_base.specs.Laws.{IsRising};
ghost use Rattle.model_base.specs.Records.{is_in_force_at, recorded};
ghost use Rattle.model_base.specs.declared.deed.Deed.{Deed};
ghost use Rattle.grants_base.specs.Book.{ShowsBook, owners_of};
ghost use Rattle.explain.specs.Lines.{IsChain, kept_before};
ghost use Rattle.explain.specs.Steps.{bears_path, leads_to_next, grant_at, in_force_at, leads_on};

use crate::paths::option_of;
use engine::slot_in;
use grants::Book;
use model_base::{Grant, Need, Place, Record, RecordName, Table, User};

/// Whether the record's grant is in force before a place.
fn is_in_force(entry: &Record, place: Place) -> bool
    ensures { result ≡ is_in_force_at place entry.now }
{
    entry.grant.place < place && entry.end.is_none_or(|end| place <= end)
}

/// Whether the next grant goes on from this one: it has a later place, and is by who has the option from this one.
fn goes_on(grant: &Grant, next: &Grant) -> bool
    ensures { result ≡ leads_to_next grant.now next.now }
{
    grant.place < next.place && grant.gives(next.grantor, &option_of(next))
}

/// The check of a chain of grants for what a user needs before a place, by the records of all grants.
#[derive(Clone, Copy)]
struct ChainCheck<'a> {
    records: &'a [Record],
    place: Place,
    user: User,
    need: &'a Need,
}

impl ChainCheck<'_> {
    /// The grant of a record, if it is in force before the place. It takes a time that grows with the logarithm of the number of records.
    fn grant_at(&self, name: RecordName) -> Option<Grant>
        requires { IsRising (recorded self.now.records.now) }
        ensures { result ≡ grant_at name (in_force_at self.now.place self.now.records.now) }
    {
        let records = self.records;
        let slot = slot_in(records, name);
        if slot < records.len() {
            let record = records[slot];
            if record.grant.name().is_same(name) && is_in_force(&record, self.place) {
                return Some(record.grant);
            }
        }
        None
    }

    /// Whether the grants of these records, in force before the place, lead on from a grant to what the user needs.
    fn leads_on(&self, first: Grant, later: &[RecordName]) -> bool
        requires { IsRising (recorded self.now.records.now) }
        ensures { result
            ≡ leads_on (in_force_at self.now.place self.now.records.now) first later.now self.now.user self.now.need.now }
    {
        let mut grant = first;
        for name in later {
            match self.grant_at(*name) {
                Some(next) if goes_on(&grant, &next) => grant = next,
                _ => return false,
            }
        }
        grant.gives(self.user, self.need)
    }

    /// Whether the grant of a record is one by the owner from which those of the later ones lead on to the need.
    fn bears(&self, owner: User, name: RecordName, later: &[RecordName]) -> bool
        requires { IsRising (recorded self.now.records.now) }
        ensures { let grants = in_force_at self.now.place self.now.records.now in
            result ≡ bears_path grants owner self.now.user self.now.need.now later.now (grant_at name grants) }
    {
        match self.grant_at(name) {
            Some(first) => {
                first.table == self.need.table
                    && first.grantor == owner
                    && self.leads_on(first, later)
            }
            None => false,
        }
    }
}

/// Who owns the table.
pub(crate) fn owner_of(book: &Book, table: Table) -> User
    requires covered { table < length book.now.tables }
    ensures { slice_get (owners_of book.now.tables) table ≡ Some result }
{
    book.tables()[table.0 as usize].owner
}

/// Whether the records are those of a chain of grants, in force before a place, that bears what the user needs: there is at least one,
/// their places rise, the table's owner made the first, each gives the grantor of the next the option, and the last gives the user what is
/// needed. It may be another chain than the path. It doesn't allocate, and takes for each record a time that grows with the logarithm of
/// the number of grants.
pub fn is_chain(book: &Book, place: Place, user: User, need: &Need, names: &[RecordName]) -> bool
    requires covered { need.now.table < length book.now.tables }
    ensures { (owners : List ℕ) (deeds : List Deed) → ShowsBook book.now owners deeds
        → Decides result (IsChain owners (kept_before owners deeds place) user need.now names.now) }
{
    let owner = owner_of(book, need.table);
    let records = book.records();
    let Some((name, later)) = names.split_first() else {
        return false;
    };
    let check = ChainCheck {
        records,
        place,
        user,
        need,
    };
    check.bears(owner, *name, later)
}
