//! The versions of all rows, found by their keys.

use crate::finding::index_of;
use crate::listing::{RowThere, rows_in, sort_rows};
use crate::replaced::{Dated, Replaced, replaced_before, set_replaced, take_below, take_last_from};
use crate::version::Version;
use crate::writes::{Written, take_write_below};
use body::Window;
use indexmap::IndexMap;
use model_base::{HashSeed, Key, MOST_ACCESSES, Place, Row};
use std::alloc::{AllocError, Global};
use std::collections::VecDeque;
use std::marker::Model;

/// For each key that has versions the newest of them, and the others of all keys in the order in which they were replaced.
/// A key without an entry has no replaced version.
#[derive(Drop)]
pub(crate) struct Rows {
    newest: IndexMap<Key, Dated, HashSeed>,
    older: VecDeque<Replaced>,
}

impl Model for Rows {
    ghost use Rattle.chains.specs.Keyed.{AreBacked, Held, held_in};

    ghost Value = { Held };

    ghost view = { λ rows. held_in rows.older.items rows.newest.entries };

    ghost invariant = { λ rows. AreBacked rows.older.items rows.newest.entries };
}

impl Rows {
    ghost use Rattle.std.specs.Prelude.{◌≡◌, ◌+◌, ◌≤◌, ◌<◌, ◌&&◌, ◌++◌, ◌∷◌, [], List, None, ℕ, IfOk, OnOk, OnErr, false, is_none, length, map, nat_lt, not, slice_set, true};
    ghost use Rattle.std.specs.Bool.{OnTrue, OnFalse};
    ghost use Rattle.model_base.specs.declared.row.Key.{Key as RowKey};
    ghost use Rattle.chains.specs.Kept.{AreChained, AreNoted, AreWrittenBelow, AreWrittenInOrder, IsFrom, IsStoreKept, next_swept, replacing_after, written_by};
    ghost use Rattle.chains.specs.Keyed.{held_below, without_last};
    ghost use Rattle.chains.specs.Store.{AreBetween, is_spent, newest_or, of_key, swept, trimmed};
    ghost use Rattle.chains.specs.RowsThere.{AreRowsThere};
    ghost use Rattle.chains.specs.declared.writes.Written.{Written as Noted};

    /// No version, and keys are found under this seed. It doesn't allocate.
    pub(crate) fn seeded(alloc: Global, seed: HashSeed) -> Self
        ensures { result ≡ record { versions = []; replacing = [] } }
    {
        Rows {
            newest: IndexMap::with_hasher(alloc, seed),
            older: VecDeque::new(alloc),
        }
    }

    /// Adds the version of a place after the others of its key, whose entry is looked for at this index first. On `Err` memory was
    /// refused, and the rows are as they were.
    #[inline(always)]
    pub(crate) fn put(
        &mut self,
        place: Place,
        key: Key,
        row: &Option<Row>,
        found: usize,
    ) -> Result<(), AllocError>
        ensures added { OnOk result ((other : RowKey) → of_key other self.new.versions
            ≡ of_key other (self.old.versions ++ record { place = place; key = key; row = row.now } ∷ [])) }
        ensures replacing { OnOk result (self.new.replacing
            ≡ replacing_after self.old (record { place = place; key = key; row = row.now })) }
        ensures below { OnOk result ((first : ℕ) → first ≤ place → held_below first self.new ≡ held_below first self.old) }
        ensures err { OnErr result (self.new ≡ self.old) }
    {
        self.older.reserve(1)?;
        let index = index_of(&self.newest, &key, found);
        match self.newest.get_index_mut(index) {
            None => {
                let dated = Dated { place, row: *row };
                self.newest.insert(key, dated)?;
            }
            Some(newest) => {
                self.older.push_back_reserved(Replaced {
                    by: place,
                    key,
                    version: *newest,
                });
                newest.place = place;
                newest.row = *row;
            }
        }
        Ok(())
    }

    /// Takes out the last version that replaced another one, if its place isn't below this one, and returns whether it did.
    fn take_last(&mut self, first: Place) -> bool
        ensures taken { OnTrue result ((write : Noted) × (first ≤ write.place) × (self.old.replacing ≡ self.new.replacing ++ write ∷ [])
            × (self.new.versions ≡ without_last write.key self.old.versions)) }
        ensures same { OnFalse result (self.new ≡ self.old) }
        ensures none { OnFalse result ((earlier : List Noted) (last : Noted)
            → self.new.replacing ≡ earlier ++ last ∷ [] → last.place < first) }
    {
        let Some(last) = take_last_from(&mut self.older, first) else {
            return false;
        };
        match self.newest.get_mut(&last.key) {
            None => return false,
            Some(newest) => *newest = last.version,
        }
        true
    }

    /// Takes out the versions that replaced another one at this place or later.
    fn take_back(&mut self, first: Place)
        requires { (end : ℕ) × AreChained self.old end }
        ensures below { held_below first self.new ≡ held_below first self.old }
        ensures chained { (end : ℕ) → AreChained self.old end → AreChained self.new end }
        ensures gone { AreWrittenBelow first self.new.replacing }
    {
        while self.take_last(first) {}
    }

    /// Takes out the versions of this place and of later ones, where none of them replaced another one.
    fn keep_below(&mut self, first: Place)
        requires chained { (end : ℕ) × AreChained self.old end }
        requires gone { AreWrittenBelow first self.old.replacing }
        ensures { self.new ≡ held_below first self.old }
    {
        self.newest.retain(
            |_key: &Key, newest: &mut Dated| -> bool
                ensures { (result ≡ nat_lt newest.old.place first) × (newest.new ≡ newest.old) }
            { newest.place < first },
        );
    }

    /// Takes out the versions of this place and of later ones. It doesn't allocate, and costs what the rows hold.
    pub(crate) fn cut(&mut self, first: Place)
        requires { (end : ℕ) × AreChained self.old end }
        ensures { self.new ≡ held_below first self.old }
    {
        self.take_back(first);
        self.keep_below(first);
    }

    /// Adds these versions, each after the others of its key. All others are of places below the first. On `Err` memory was
    /// refused, and the rows are as they were.
    pub(crate) fn put_all(&mut self, versions: &[Version], first: Place) -> Result<(), AllocError>
        requires chained { AreChained self.old first }
        requires between { (end : ℕ) × AreBetween first end versions.now }
        ensures added { OnOk result ((key : RowKey) → of_key key self.new.versions ≡ of_key key (self.old.versions ++ versions.now)) }
        ensures chained { OnOk result ((end : ℕ) → AreBetween first end versions.now → AreChained self.new end) }
        ensures rising { OnOk result ((from end : ℕ) → AreWrittenInOrder from end (self.old.replacing ++ map written_by versions.now)
            → AreWrittenInOrder from end self.new.replacing) }
        ensures err { OnErr result (self.new ≡ self.old) }
    {
        for version in versions {
            if let Err(refused) = self.put(version.place, version.key, &version.row, usize::MAX) {
                self.cut(first);
                return Err(refused);
            }
        }
        Ok(())
    }

    /// Takes out of each key the versions below the mark, but the newest of them, and returns how many there were.
    pub(crate) fn trim(&mut self, mark: Place) -> usize
        requires { (absent : List Noted) × (first : ℕ) × (end : ℕ) × (mark ≤ end) × IsStoreKept self.old absent first end }
        ensures left { (key : RowKey) → of_key key self.new.versions ≡ trimmed mark (of_key key self.old.versions) }
        ensures newest { (place : ℕ) (key : RowKey) → mark ≤ place
            → newest_or None self.new.versions place key ≡ newest_or None self.old.versions place key }
        ensures kept { (absent : List Noted) (first end : ℕ) → IsStoreKept self.old absent first end → first ≤ mark → mark ≤ end
            → IsStoreKept self.new absent mark end }
        ensures noted { (absent : List Noted) → AreNoted self.old absent → AreNoted self.new absent }
        ensures gone { result + length self.new.versions ≡ length self.old.versions }
    {
        take_below(&mut self.older, mark)
    }

    /// The row of the newest version of the key that is older than the place. Where that isn't the newest of all, it looks
    /// through the replaced versions of all keys.
    #[inline(always)]
    pub(crate) fn newest_before(&self, place: Place, key: Key) -> Option<Row>
        ensures { result ≡ newest_or None self.now.versions place key }
    {
        match self.newest.get(&key) {
            None => None,
            Some(newest) if newest.place < place => newest.row,
            Some(_) => replaced_before(&self.older, place, key),
        }
    }

    /// Sets the row of an access of a window to what `newest_before` returns, with the index of the key's entry.
    #[inline(always)]
    pub(crate) fn find(&self, place: Place, key: Key, access: usize, window: &mut Window)
        requires { access < MOST_ACCESSES }
        ensures rows { window.new.rows ≡ slice_set window.old.rows access (newest_or None self.now.versions place key) }
        ensures outputs { window.new.outputs ≡ window.old.outputs }
    {
        match self.newest.get_full(&key) {
            None => window.set_found(access, &None, usize::MAX),
            Some((index, _key, newest)) if newest.place < place => {
                window.set_found(access, &newest.row, index)
            }
            Some((index, _key, _newest)) => {
                set_replaced(&self.older, place, key, access, index, window)
            }
        }
    }

    /// The rows that are there, by table and then by number.
    pub(crate) fn there(&self, alloc: Global) -> Result<Vec<RowThere>, AllocError>
        ensures { IfOk result (λ found. (absent : List Noted) (mark end : ℕ) → IsStoreKept self.now absent mark end
            → AreRowsThere (λ table row. newest_or None self.now.versions end (record { table = table; row = row })) found.items) }
    {
        let mut found = rows_in(alloc, &self.newest)?;
        sort_rows(&mut found);
        Ok(found)
    }

    /// Whether the key has a single version, below the mark, in which the row is absent. One that replaced another one isn't
    /// below the mark.
    fn is_spent(&self, mark: Place, key: Key) -> bool
        requires { (absent : List Noted) × (end : ℕ) × IsStoreKept self.now absent mark end }
        ensures { result ≡ is_spent mark (of_key key self.now.versions) }
    {
        match self.newest.get(&key) {
            None => false,
            Some(newest) => newest.place < mark && newest.row.is_none(),
        }
    }

    /// Takes out the version of the key, if it is a single one that says nothing, and returns how many it took.
    fn take_spent(&mut self, mark: Place, key: Key) -> usize
        requires { (absent : List Noted) × (end : ℕ) × IsStoreKept self.old absent mark end }
        ensures left { (other : RowKey) → of_key other self.new.versions ≡ of_key other (next_swept mark self.old.versions key) }
        ensures replacing { self.new.replacing ≡ self.old.replacing }
        ensures gone { result + length self.new.versions ≡ length self.old.versions }
        ensures one { result ≤ 1 }
    {
        if !self.is_spent(mark, key) {
            return 0;
        }
        self.newest.swap_remove(&key);
        1
    }

    /// Takes out the single versions that lie below the mark and say nothing but that the row is absent, and returns how many there were.
    /// The notes that it goes by are those of versions in which a row is absent.
    pub(crate) fn sweep(&mut self, absent: &mut VecDeque<Written>, mark: Place) -> usize
        requires kept { (end : ℕ) × IsStoreKept self.old absent.old.items mark end }
        requires noted { AreNoted self.old absent.old.items }
        ensures left { (key : RowKey) → of_key key self.new.versions ≡ swept mark (of_key key self.old.versions) }
        ensures newest { (place : ℕ) (key : RowKey)
            → newest_or None self.new.versions place key ≡ newest_or None self.old.versions place key }
        ensures kept { (end : ℕ) → IsStoreKept self.old absent.old.items mark end → IsStoreKept self.new absent.new.items mark end }
        ensures noted { AreNoted self.new absent.new.items }
        ensures used { IsFrom mark absent.new.items }
        ensures gone { result + length self.new.versions ≡ length self.old.versions }
    {
        let _waiting = absent.len();
        let mut gone = 0;
        while let Some(write) = take_write_below(absent, mark) {
            gone += self.take_spent(mark, write.key);
        }
        gone
    }

    /// Takes out the single versions that lie below the mark and say nothing but that the row is absent, where some aren't noted, and
    /// returns how many there were. From then on all are. It costs what the rows hold, and so is called after a cut alone.
    pub(crate) fn sweep_all(&mut self, mark: Place, is_noted: &mut bool) -> usize
        requires cut { is_noted.old ≡ false }
        requires kept { (absent : List Noted) × (end : ℕ) × IsStoreKept self.old absent mark end }
        ensures left { (key : RowKey) → of_key key self.new.versions ≡ swept mark (of_key key self.old.versions) }
        ensures newest { (place : ℕ) (key : RowKey)
            → newest_or None self.new.versions place key ≡ newest_or None self.old.versions place key }
        ensures kept { (absent : List Noted) (end : ℕ) → IsStoreKept self.old absent mark end → IsStoreKept self.new absent mark end }
        ensures noted { (absent : List Noted) (end : ℕ) → IsStoreKept self.old absent mark end → AreNoted self.new absent }
        ensures whole { is_noted.new ≡ true }
        ensures gone { result + length self.new.versions ≡ length self.old.versions }
    {
        *is_noted = true;
        let before = self.newest.len();
        self.newest.retain(
            |_key: &Key, newest: &mut Dated| -> bool
                ensures { (result ≡ not (nat_lt newest.old.place mark && is_none newest.old.row)) × (newest.new ≡ newest.old) }
            { !(newest.place < mark && newest.row.is_none()) },
        );
        before - self.newest.len()
    }
}
