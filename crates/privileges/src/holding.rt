//! Who holds a privilege before a place.

ghost use Rattle.std.specs.Prelude.{◌≡◌, ◌==◌, ◌<◌, ◌&&◌, not, false, ℕ, List, IfOk, Some, length, slice_get};
ghost use Rattle.std.specs.List.{list_any};
ghost use Rattle.std.specs.Option.{option_map_or};
ghost use Rattle.model_base.specs.declared.deed.Deed.{Deed};
ghost use Rattle.model_base.specs.declared.deed.Record.{Record};
ghost use Rattle.model_base.specs.Privileges.{deeds_below};
ghost use Rattle.model_base.specs.Records.{is_in_force_at};
ghost use Rattle.grants_base.specs.Book.{ShowsBook, owners_of};
ghost use Rattle.grants_base.specs.Index.{is_one_of};
ghost use Rattle.privileges.specs.Holders.{AreHolders, gives_by_name, gives_everyone, is_given_to_all};

use crate::in_force::is_in_force_at;
use grants::{Book, Holder, is_to};
use model_base::{Grant, Grantee, Need, Place, Record, Table, User};
use std::alloc::{AllocError, Global};
use std::collections::BTreeSet;

/// The user to whom the grant of the record, in force before the place, gives what is needed by name.
fn holder_by(entry: &Record, place: Place, need: &Need) -> Option<User>
    ensures { (user : ℕ) → option_map_or (λ holder. holder == user) result false
        ≡ (is_in_force_at place entry.now && gives_by_name entry.now.grant user need.now) }
{
    match entry.grant.grantee {
        Grantee::User(user) if is_in_force_at(entry, place) && entry.grant.gives(user, need) => {
            Some(user)
        }
        _ => None,
    }
}

/// The users to whom a grant in force before the place gives what is needed by name.
fn named(
    alloc: Global,
    book: &Book,
    place: Place,
    need: &Need,
) -> Result<BTreeSet<User>, AllocError>
    ensures { IfOk result (λ users. (user : ℕ) → is_one_of users.keys user
        ≡ list_any (λ (entry : Record). is_in_force_at place entry && gives_by_name entry.grant user need.now) book.now.records) }
{
    let mut users = BTreeSet::new(alloc);
    for record in book.records() {
        if let Some(user) = holder_by(record, place, need) {
            users.insert(user)?;
        }
    }
    Ok(users)
}

/// The users in order.
fn listed(alloc: Global, mut users: BTreeSet<User>) -> Result<Vec<User>, AllocError>
    ensures { IfOk result (λ found. found.items ≡ users.keys) }
{
    let mut found = Vec::new(alloc);
    while let Some(user) = users.pop_first() {
        found.push(user)?;
    }
    Ok(found)
}

/// Who owns the table.
fn owner_of(book: &Book, table: Table) -> User
    requires covered { table < length book.now.tables }
    ensures { slice_get (owners_of book.now.tables) table ≡ Some result }
{
    book.tables()[table.0 as usize].owner
}

/// The users to whom a grant in force before the place gives what is needed by name, but for the table's owner: by number, each once. It
/// goes once through the records.
pub fn holders(
    alloc: Global,
    book: &Book,
    place: Place,
    need: &Need,
) -> Result<Vec<User>, AllocError>
    requires covered { need.now.table < length book.now.tables }
    ensures { IfOk result (λ found. (owners : List ℕ) (deeds : List Deed) → ShowsBook book.now owners deeds
        → AreHolders owners (deeds_below place deeds) need.now found.items) }
{
    let mut users = named(alloc, book, place, need)?;
    users.remove(&owner_of(book, need.table));
    let found = listed(alloc, users)?;
    Ok(found)
}

/// Whether the grant gives every user what is needed.
fn gives_everyone(grant: &Grant, need: &Need) -> bool
    ensures { result ≡ gives_everyone grant.now need.now }
{
    let public = Holder {
        grantee: Grantee::Public,
        kind: need.kind,
        table: need.table,
    };
    !need.option && is_to(grant, public)
}

/// Whether a grant to PUBLIC, in force before the place, gives what is needed. It goes once through the records.
pub fn is_given_to_all(book: &Book, place: Place, need: &Need) -> bool
    ensures { (owners : List ℕ) (deeds : List Deed) → ShowsBook book.now owners deeds
        → result ≡ is_given_to_all owners (deeds_below place deeds) need.now }
{
    for record in book.records() {
        if is_in_force_at(record, place) && gives_everyone(&record.grant, need) {
            return true;
        }
    }
    false
}
