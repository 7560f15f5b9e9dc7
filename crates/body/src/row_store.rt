//! What holds the rows of all tables: a window is filled from it, and a completed body's rows go back into it.
//!
//! To write a row may take memory, which may be refused when some rows are written and some aren't. So a store has two steps: room is made
//! for each row first, which changes no row, and then the rows are written, which can't fail. Nothing has to be undone. In the end each
//! entry whose row is absent is given up again, so a store keeps no entry for rows that were only looked for, or that were deleted.

ghost use Rattle.std.specs.Prelude.{◌≡◌, ◌≢◌, ◌≤◌, ℕ, [], length, OnErr, OnOk, IfOk};
ghost use Rattle.model_base.specs.Outcomes.{body};
ghost use Rattle.model_base.specs.Versions.{accesses_of};
ghost use Rattle.body.specs.Ending.{ending_of};
ghost use Rattle.body.specs.Premises.{IsRunnable};
ghost use Rattle.body.specs.Shown.{WindowShows, with_rows};
ghost use Rattle.body.specs.Room.{HasRoomFrom, IsLean, IsLeanBelow, IsLeanWhereAbsent, MakesRoomBelow};

use crate::ending::BodyEnd;
use crate::run;
use crate::window::Window;
use model_base::{Access, Key, MOST_ACCESSES, Outputs, Row, Statement};
use std::alloc::AllocError;

/// What holds the rows of all tables.
pub trait RowSource {
    ghost use Rattle.std.specs.Prelude.{◌≡◌};
    ghost use Rattle.model_base.specs.Rows.{Rows};

    ghost rows: { Self → Rows };

    /// The row of a key, if it is there.
    fn row(&self, key: Key) -> Option<Row>
        ensures { result ≡ rows self.now key.table key.row };
}

/// What holds the rows of all tables, and takes new ones. A trait, so that what is proved of writing rows back names no map.
pub trait RowStore: RowSource {
    ghost use Rattle.std.specs.Prelude.{◌≡◌, ℕ, false, IsSome, OnOk};
    ghost use Rattle.model_base.specs.Rows.{with_row};
    ghost use Rattle.body.specs.Room.{same_key};

    ghost has_room: { Self → ℕ → ℕ → Type 0 };

    /// Makes room for the row of a key. All rows stay as they are, also if memory runs out.
    fn reserve_row(&mut self, key: Key) -> Result<(), AllocError>
        ensures room { OnOk result (has_room self.new key.table key.row) }
        ensures rows { Self.rows self.new ≡ Self.rows self.old }
        ensures keeps_room { (table row : ℕ) → has_room self.old table row → has_room self.new table row }
        ensures elsewhere { (table row : ℕ) → same_key key.table key.row table row ≡ false
            → has_room self.new table row → has_room self.old table row };

    /// Writes a row, or its absence, at a key. It doesn't allocate, since a row goes where room was made.
    fn put_row(&mut self, key: Key, row: &Option<Row>)
        requires { IsSome row.now → has_room self.old key.table key.row }
        ensures rows { Self.rows self.new ≡ with_row (Self.rows self.old) key.table key.row row.now }
        ensures keeps_room { (table row : ℕ) → has_room self.old table row → has_room self.new table row }
        ensures no_more { (table row : ℕ) → has_room self.new table row → has_room self.old table row };

    /// Gives up the room at a key whose row is absent. All rows stay as they are.
    fn release_row(&mut self, key: Key)
        ensures rows { Self.rows self.new ≡ Self.rows self.old }
        ensures released { has_room self.new key.table key.row → IsSome (Self.rows self.new key.table key.row) }
        ensures no_more { (table row : ℕ) → has_room self.new table row → has_room self.old table row };
}

/// Fills a window, whatever it held, with the rows that the statement's accesses have in the source. It has no output then.
pub fn fill<S: RowSource>(statement: &Statement, source: &S, window: &mut Window)
    requires { length (accesses_of statement.now.form) ≤ MOST_ACCESSES }
    ensures shows { WindowShows (accesses_of statement.now.form) window.new (S.rows source.now) }
    ensures fresh { window.new.outputs ≡ [] }
{
    let accesses = statement.accesses();
    window.clear_outputs();
    for (place, access) in accesses.iter().enumerate() {
        window.set(place, source.row(access.key));
    }
}

/// Makes room for each row that the window has, at the keys of the accesses. It changes no row. On `Err` memory was
/// refused, and room may have been made for some of them: `release_rows` gives it up.
pub fn reserve_rows<S: RowStore>(
    accesses: &[Access],
    window: &Window,
    store: &mut S,
) -> Result<(), AllocError>
    requires { length accesses.now ≤ MOST_ACCESSES }
    ensures room { OnOk result (HasRoomFrom (S.has_room store.new) accesses.now window.now.rows) }
    ensures rows { S.rows store.new ≡ S.rows store.old }
    ensures elsewhere { MakesRoomBelow (S.has_room store.old) (S.has_room store.new) (length accesses.now) accesses.now }
{
    for (place, access) in accesses.iter().enumerate() {
        if window.row(place).is_some() {
            store.reserve_row(access.key)?;
        }
    }
    Ok(())
}

/// Writes the rows of the window at the keys of the accesses, where `reserve_rows` made room for them. It doesn't allocate. If two accesses
/// name one key, the row of the first counts.
pub fn put_rows<S: RowStore>(accesses: &[Access], window: &Window, store: &mut S)
    requires places { length accesses.now ≤ MOST_ACCESSES }
    requires room { HasRoomFrom (S.has_room store.old) accesses.now window.now.rows }
    ensures rows { S.rows store.new ≡ with_rows accesses.now window.now.rows (S.rows store.old) }
    ensures no_more { (table row : ℕ) → S.has_room store.new table row → S.has_room store.old table row }
{
    let mut place = accesses.len();
    while place > 0 {
        place -= 1;
        store.put_row(accesses[place].key, window.row(place));
    }
}

/// Gives up the room at the keys of the accesses that no row needs. It changes no row.
pub fn release_rows<S: RowStore>(accesses: &[Access], store: &mut S)
    ensures rows { S.rows store.new ≡ S.rows store.old }
    ensures lean { IsLeanBelow (S.has_room store.new) (S.rows store.new) (length accesses.now) accesses.now }
    ensures no_more { (table row : ℕ) → S.has_room store.new table row → S.has_room store.old table row }
{
    for access in accesses {
        store.release_row(access.key);
    }
}

/// Gives up the room at the key of each access whose row the window doesn't have. Once the rows of the window are written, no room is left
/// that no row needs.
pub fn release_absent<S: RowStore>(accesses: &[Access], window: &Window, store: &mut S)
    requires { length accesses.now ≤ MOST_ACCESSES }
    ensures rows { S.rows store.new ≡ S.rows store.old }
    ensures lean { IsLeanWhereAbsent (S.has_room store.new) (S.rows store.new) (length accesses.now) accesses.now window.now.rows }
    ensures no_more { (table row : ℕ) → S.has_room store.new table row → S.has_room store.old table row }
{
    for (place, Access { key, .. }) in accesses.iter().enumerate() {
        if window.row(place).is_none() {
            store.release_row(*key);
        }
    }
}

/// Writes the rows of the window at the keys of the statement's accesses. Where memory runs out, all rows of the store are as they were.
/// If two accesses name one key, the row of the first counts. A store that had room only for rows that are there has so afterwards,
/// whatever happened.
pub fn write_back<S: RowStore>(
    statement: &Statement,
    window: &Window,
    store: &mut S,
) -> Result<(), AllocError>
    requires { length (accesses_of statement.now.form) ≤ MOST_ACCESSES }
    ensures ok { OnOk result (S.rows store.new ≡ with_rows (accesses_of statement.now.form) window.now.rows (S.rows store.old)) }
    ensures err { OnErr result (S.rows store.new ≡ S.rows store.old) }
    ensures lean { IsLean (S.has_room store.old) (S.rows store.old) → IsLean (S.has_room store.new) (S.rows store.new) }
{
    let accesses = statement.accesses();
    let reserved = reserve_rows(accesses, window, store);
    if reserved.is_ok() {
        put_rows(accesses, window, store);
        release_absent(accesses, window, store);
    } else {
        release_rows(accesses, store);
    }
    reserved
}

/// Runs the body of a statement on the rows of a store. Only a completed body changes them and has outputs. Where memory
/// is refused, all rows of the store are as they were.
pub fn run_on<S: RowStore>(
    statement: &Statement,
    store: &mut S,
) -> Result<(BodyEnd, Outputs), AllocError>
    requires { IsRunnable statement.now }
    ensures ends { IfOk result (λ done.
        body (S.rows store.old) statement.now.form ≡ ending_of done.0 (S.rows store.new) done.1) }
    ensures all_or_nothing { IfOk result (λ done. done.0 ≢ BodyEnd.Completed → (S.rows store.new ≡ S.rows store.old) × (done.1 ≡ [])) }
    ensures err { OnErr result (S.rows store.new ≡ S.rows store.old) }
    ensures lean { IsLean (S.has_room store.old) (S.rows store.old) → IsLean (S.has_room store.new) (S.rows store.new) }
{
    let mut window = Window::new();
    fill(statement, store, &mut window);
    let end = run(statement, &mut window);
    if end != BodyEnd::Completed {
        return Ok((end, Outputs::new()));
    }
    write_back(statement, &window, store)?;
    Ok((end, window.outputs()))
}
