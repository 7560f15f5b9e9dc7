//! The store of the versions of rows.

use crate::listing::RowThere;
use crate::rows::Rows;
use crate::version::Version;
use crate::writes::{Written, cut_writes, note_absent, note_if_absent};
use body::{RowSource, Window};
use model_base::{Access, HashSeed, Key, MOST_ACCESSES, Place, Row, Statement};
use std::alloc::{AllocError, Global};
use std::collections::VecDeque;
use std::marker::Model;
use thiserror::Error;

/// The row before a place was asked for that lies below the mark, where the versions that would give it may be gone.
#[derive(Clone, Copy, PartialEq, Eq, Debug, Error)]
#[error("rows before a place below the mark are gone")]
pub struct Trimmed;

/// The store was to be trimmed to a mark that lies above its end or below its mark.
#[derive(Clone, Copy, PartialEq, Eq, Debug, Error)]
#[error("the mark lies above the end or below the mark of the store")]
pub struct BadMark;

/// The versions of rows that the places of a log made, found by their keys. It says the row before each place from its mark to its end.
#[derive(Drop)]
pub struct Chains {
    rows: Rows,
    absent: VecDeque<Written>,
    /// Whether each version that says nothing is in `absent`: until places are cut off.
    is_noted: bool,
    mark: Place,
    end: Place,
}

impl Model for Chains {
    ghost use Rattle.std.specs.Prelude.{◌≡◌, true};
    ghost use Rattle.chains.specs.Kept.{AreNoted, IsStoreKept};
    ghost use Rattle.chains.specs.Store.{Store};

    ghost Value = { Store };

    ghost view = { λ chains. record { versions = chains.rows.versions; mark = chains.mark; end = chains.end } };

    ghost invariant = { λ chains. IsStoreKept chains.rows chains.absent.items chains.mark chains.end
        × (chains.is_noted ≡ true → AreNoted chains.rows chains.absent.items) };
}

impl Chains {
    ghost use Rattle.std.specs.Prelude.{◌≡◌, ◌+◌, ◌<◌, ◌≤◌, ◌^◌, ◌||◌, ◌++◌, ◌∷◌, [], ℕ, List, IfOk, OnErr, OnOk, is_err, length, nat_lt};
    ghost use Rattle.model_base.specs.declared.row.Key.{Key};
    ghost use Rattle.model_base.specs.declared.statement.Statement.{Statement};
    ghost use Rattle.model_base.specs.Versions.{accesses_of};
    ghost use Rattle.model_base.specs.Outcomes.{rows_before};
    ghost use Rattle.body.specs.Shown.{WindowShows};
    ghost use Rattle.chains.specs.RowsThere.{AreRowsThere};
    ghost use Rattle.chains.specs.Store.{AreBetween, Gains, IsRight, Sweeps, Trims, cut_store, of_key, row_in, rows_at_end, versions_at, versions_between, versions_by};

    /// The store before the first place. It doesn't allocate.
    pub fn new(alloc: Global) -> Self
        ensures mark { result.mark ≡ 0 }
        ensures end { result.end ≡ 0 }
        ensures none { (place : ℕ) (key : Key) → row_in result place key ≡ None }
        ensures empty { result.versions ≡ [] }
        ensures right { (log : List Statement) → IsRight log result }
    {
        Chains::seeded(alloc, HashSeed::fixed())
    }

    /// The store before the first place, whose rows are found under this seed. It doesn't allocate.
    pub fn seeded(alloc: Global, seed: HashSeed) -> Self
        ensures mark { result.mark ≡ 0 }
        ensures end { result.end ≡ 0 }
        ensures none { (place : ℕ) (key : Key) → row_in result place key ≡ None }
        ensures empty { result.versions ≡ [] }
        ensures right { (log : List Statement) → IsRight log result }
    {
        Chains {
            rows: Rows::seeded(alloc, seed),
            absent: VecDeque::new(alloc),
            is_noted: true,
            mark: 0,
            end: 0,
        }
    }

    /// The first place before which the rows are kept.
    pub fn mark(&self) -> Place
        ensures value { result ≡ self.now.mark }
        ensures within { self.now.mark ≤ self.now.end }
        ensures whole { cut_store self.now.end self.now ≡ self.now }
    {
        self.mark
    }

    /// The place up to which the versions go: the last before which the rows are known.
    pub fn end(&self) -> Place
        ensures { result ≡ self.now.end }
    {
        self.end
    }

    /// Takes the versions of the places from the end to below the new one: one for each write that a place declares, in
    /// order, whatever its outcome. On `Err`, out of memory, the store is as it was.
    pub fn append(&mut self, cells: Vec<Version>, new_end: Place) -> Result<(), AllocError>
        requires { AreBetween self.old.end new_end cells.items }
        ensures ok { OnOk result (Gains self.old self.new cells.items new_end) }
        ensures versions { OnOk result ((key : Key) → of_key key self.new.versions ≡ of_key key (self.old.versions ++ cells.items)) }
        ensures right { OnOk result ((log : List Statement) → IsRight log self.old
            → cells.items ≡ versions_between log self.old.end new_end → IsRight log self.new) }
        ensures err { OnErr result (self.new ≡ self.old) }
    {
        self.absent.reserve(cells.len())?;
        let versions = cells.as_slice();
        self.rows.put_all(versions, self.end)?;
        note_absent(&mut self.absent, versions);
        self.end = new_end;
        Ok(())
    }

    /// The row of the key before the place, which is at most the end: that of the newest version older than the place, or `None` where the
    /// row is absent. `Trimmed` is returned exactly where the place lies below the mark. It doesn't allocate. Where no version of the key
    /// is of the place or later, it costs one look in the map; else it costs at most the versions that were replaced since the mark.
    pub fn row_before(&self, place: Place, key: Key) -> Result<Option<Row>, Trimmed>
        requires { place ≤ self.now.end }
        ensures trimmed { is_err result ≡ nat_lt place self.now.mark }
        ensures value { IfOk result (λ row. row ≡ row_in self.now place key) }
        ensures right { IfOk result (λ row. (log : List Statement) → IsRight log self.now
            → row ≡ rows_before log place key.table key.row) }
    {
        if place < self.mark {
            return Err(Trimmed);
        }
        Ok(self.rows.newest_before(place, key))
    }

    /// The rows that are there at the end, by table and then by number, each once. It costs what the store holds, and on `Err` memory was
    /// refused.
    pub fn rows_there(&self, alloc: Global) -> Result<Vec<RowThere>, AllocError>
        ensures { IfOk result (λ found. AreRowsThere (rows_at_end self.now) found.items) }
    {
        self.rows.there(alloc)
    }

    /// Drops for each key all versions of places below the mark but the newest of them, and returns how many they were. From then on the
    /// rows before the places below the mark aren't known. `BadMark` is returned exactly where the mark lies above the end or below the
    /// store's mark, and nothing changes then. It doesn't allocate, and costs what it drops.
    ///
    /// After Faleiro and Abadi, section 3.3: a version that is replaced is needed no more once no reader is left below
    /// the place that replaced it.
    pub fn trim(&mut self, mark: Place) -> Result<usize, BadMark>
        ensures bad { is_err result ≡ (nat_lt mark self.old.mark || nat_lt self.old.end mark) }
        ensures ok { IfOk result (λ gone. Trims self.old self.new mark gone) }
        ensures right { OnOk result ((log : List Statement) → IsRight log self.old → IsRight log self.new) }
        ensures err { OnErr result (self.new ≡ self.old) }
    {
        if mark < self.mark || self.end < mark {
            return Err(BadMark);
        }
        let gone = self.rows.trim(mark);
        self.mark = mark;
        Ok(gone)
    }

    /// Takes out the versions that say nothing: those below the mark that are the only ones of their keys, and in which the row is absent.
    /// It returns how many they were. What the store gives stays the same. It doesn't allocate, and costs what was appended without a row
    /// and has fallen below the mark since the last call; after a `cut` it costs, once, what the store holds.
    pub fn sweep(&mut self) -> usize
        ensures swept { Sweeps self.old self.new result }
        ensures right { (log : List Statement) → IsRight log self.old → IsRight log self.new }
    {
        if self.is_noted {
            return self.rows.sweep(&mut self.absent, self.mark);
        }
        self.rows.sweep_all(self.mark, &mut self.is_noted)
    }

    /// Fills a window, whatever it held, with the rows that the statement's accesses have at the end, as `fill` does, and notes in it
    /// where each was found: `put_place` looks there first. It has no output then.
    #[inline(always)]
    pub fn fill_window(&self, statement: &Statement, window: &mut Window)
        requires { length (accesses_of statement.now.form) ≤ MOST_ACCESSES }
        ensures shows { WindowShows (accesses_of statement.now.form) window.new (rows_at_end self.now) }
        ensures fresh { window.new.outputs ≡ [] }
    {
        let accesses = statement.accesses();
        window.clear_outputs();
        for (index, access) in accesses.iter().enumerate() {
            self.rows.find(self.end, access.key, index, window);
        }
    }

    /// Moves the end on over one place.
    fn pass(&mut self)
        requires { self.old.end + 1 < 2 ^ 64 }
        ensures { self.new ≡ record self.old { end = self.old.end + 1 } }
    {
        self.end += 1;
    }

    /// Adds the version that an access of the place before the end leaves, if it may change its row. On `Err`, out of memory,
    /// and the store is as it was.
    fn put(
        &mut self,
        place: Place,
        access: &Access,
        row: &Option<Row>,
        found: usize,
    ) -> Result<(), AllocError>
        requires last { place + 1 ≡ self.old.end }
        requires mark { self.old.mark ≤ place }
        ensures added { OnOk result ((key : Key) → of_key key self.new.versions
            ≡ of_key key (self.old.versions ++ versions_by place (access.now ∷ []) (row.now ∷ []))) }
        ensures mark { self.new.mark ≡ self.old.mark }
        ensures end { self.new.end ≡ self.old.end }
        ensures cut { (first : ℕ) → first ≤ place → cut_store first self.new ≡ cut_store first self.old }
    {
        if !access.is_writing() {
            return Ok(());
        }
        self.absent.reserve(1)?;
        self.rows.put(place, access.key, row, found)?;
        note_if_absent(&mut self.absent, place, access.key, row);
        Ok(())
    }

    /// Adds the rows that the next place leaves, a version for each access that may change its row, and moves the end on over
    /// it. The window has the row of each access. Where `fill_window` filled it, no key is hashed that had a version then; where
    /// it notes another index, the key is. On `Err`, out of memory, some of the versions may be there: `cut` takes them
    /// out.
    pub fn put_place(&mut self, accesses: &[Access], window: &Window) -> Result<(), AllocError>
        requires places { length accesses.now ≤ MOST_ACCESSES }
        requires room { self.old.end + 1 < 2 ^ 64 }
        ensures ok { OnOk result (Gains self.old self.new (versions_by self.old.end accesses.now window.now.rows) (self.old.end + 1)) }
        ensures versions { OnOk result ((key : Key) → of_key key self.new.versions
            ≡ of_key key (self.old.versions ++ versions_by self.old.end accesses.now window.now.rows)) }
        ensures right { OnOk result ((log : List Statement)
            → versions_by self.old.end accesses.now window.now.rows ≡ versions_at log self.old.end
            → IsRight log self.old → IsRight log self.new) }
        ensures end { self.new.end ≡ self.old.end + 1 }
        ensures mark { self.new.mark ≡ self.old.mark }
        ensures cut { (first : ℕ) → first ≤ self.old.end → cut_store first self.new ≡ cut_store first self.old }
    {
        let place = self.end;
        self.pass();
        for (index, access) in accesses.iter().enumerate() {
            self.put(place, access, window.row(index), window.found(index))?;
        }
        Ok(())
    }

    /// Takes out the versions of this place and of later ones; the end is this place then. It doesn't allocate, and costs what the store
    /// holds, as does the next sweep.
    pub fn cut(&mut self, first: Place)
        requires mark { self.old.mark ≤ first }
        requires end { first ≤ self.old.end }
        ensures { self.new ≡ cut_store first self.old }
    {
        self.rows.cut(first);
        cut_writes(&mut self.absent, first);
        self.is_noted = false;
        self.end = first;
    }
}

impl RowSource for Chains {
    ghost use Rattle.chains.specs.Store.{rows_at_end};

    ghost rows = { rows_at_end };

    fn row(&self, key: Key) -> Option<Row> {
        self.rows.newest_before(self.end, key)
    }
}
