//! The end of a log, of which the first statements aren't kept.

ghost use Rattle.std.specs.Prelude.{◌≡◌, ◌<◌, ◌≤◌, ◌+◌, None, Some, [], drop, length, max, slice_get, vec_capacity, All};
ghost use Rattle.log_text.specs.LineBuffers.{sentence_of};
ghost use Rattle.log_text.specs.Statement.{IsInGrammar, Sentence};
ghost use Rattle.model_base.specs.Growing.{NeedsOwnTables};
ghost use Rattle.sequencer.specs.Foretelling.{IsForetold};
ghost use Rattle.sequencer.specs.Log.{empty_log, in_version, with_accepted};
ghost use Rattle.sequencer.specs.Pushing.{Pushes};
ghost use Rattle.sequencer.specs.Whole.{IsWhole};

use crate::catalog::Catalog;
use crate::forgetting::forget_first;
use crate::past::Past;
use crate::refused::Refused;
use crate::statement_buffers::StatementBuffers;
use log_text::{LineBuffers, RawForm, RawStatement, Version};
use model_base::{Form, HashSeed, MOST_COLUMNS, MOST_PLACES, Place, Statement, Table, User};
use std::alloc::Global;
use std::marker::Model;
use std::mem;

/// A log whose first statements may be dropped once nobody reads them any more: the names of the whole log, and the statements
/// that are kept. A statement has the same place as in the whole log.
#[derive(Drop)]
pub struct LogTail {
    catalog: Catalog,
    past: Past<Statement>,
    kept: Vec<Statement>,
    /// Statements that were dropped, and whose memory later ones take.
    spare: Vec<Statement>,
}

impl Model for LogTail {
    ghost use Rattle.std.specs.Prelude.{◌++◌, length};
    ghost use Rattle.sequencer.specs.Tail.{Tail};
    ghost use Rattle.sequencer.specs.Whole.{IsKept};

    ghost Value = { Tail };

    ghost view = { λ tail. record {
      log = record { names = tail.catalog; statements = tail.past.items ++ tail.kept.items };
      dropped = length tail.past.items;
    } };

    ghost invariant = { λ tail. IsKept record { names = tail.catalog; statements = tail.past.items ++ tail.kept.items } };
}

/// The room of the last RUN that was dropped, or another room where there is none.
fn lend(spare: &mut Vec<Statement>, other: StatementBuffers) -> StatementBuffers {
    'dropped: while let Some(statement) = spare.pop() {
        if let Form::Run {
            accesses,
            steps,
            ..
        } = statement.form
        {
            return StatementBuffers {
                accesses: accesses.into_vec(),
                steps: steps.into_vec(),
            };
        }
    }
    other
}

/// Room for a statement that was read, as `lend`. Only a RUN takes any.
fn room_for(
    spare: &mut Vec<Statement>,
    room: StatementBuffers,
    form: &RawForm<'_>,
) -> StatementBuffers {
    match form {
        RawForm::Run { .. } => lend(spare, room),
        RawForm::Create { .. } | RawForm::Deed(_) => room,
    }
}

/// Drops the statements that are kept. Those for which there is room stay as spare ones. It doesn't allocate.
fn drop_kept(spare: &mut Vec<Statement>, kept: &mut Vec<Statement>)
    ensures kept { kept.new.items ≡ [] }
    ensures few { length spare.new.items ≤ max (vec_capacity spare.old) (vec_capacity kept.old) }
{
    if spare.len() < kept.len() {
        mem::swap(spare, kept);
    }
    if kept.len() <= spare.capacity() - spare.len() {
        let _appended = spare.append(kept);
    }
    kept.clear();
}

impl LogTail {
    /// The log without statements. It doesn't allocate.
    pub fn new(alloc: Global) -> Self
        ensures { result ≡ record { log = empty_log; dropped = 0 } }
    {
        LogTail::seeded(alloc, HashSeed::fixed())
    }

    /// The log without statements, whose names are found under this seed. It doesn't allocate.
    #[tactic(auto, using(crate::proofs::WholeLogs::kept_empty))]
    pub fn seeded(alloc: Global, seed: HashSeed) -> Self
        ensures { result ≡ record { log = empty_log; dropped = 0 } }
    {
        LogTail {
            catalog: Catalog::seeded(alloc, seed),
            past: Past::new(),
            kept: Vec::new(alloc),
            spare: Vec::new(alloc),
        }
    }

    /// Sets the version of the grammar of the next lines.
    #[tactic(auto, using(crate::proofs::WholeLogs::kept_in_version))]
    pub fn set_version(&mut self, version: Version)
        ensures { self.new ≡ record self.old { log = in_version version self.old.log } }
    {
        self.catalog.set_version(version);
    }

    /// Takes a statement as the next place. The first test that it doesn't pass refuses it. Its accesses and steps take the memory of a
    /// dropped statement where that is enough.
    #[inline(always)]
    pub fn push(&mut self, statement: &RawStatement<'_>) -> Result<Place, Refused>
        ensures { Pushes self.old.log statement.now result self.old self.new
            (record self.old { log = with_accepted self.old.log statement.now }) }
    {
        if self.kept.reserve(1).is_err() {
            return Err(self.catalog.refused(statement));
        }
        let place = self.catalog.places();
        let none = self.catalog.no_room();
        let mut room = room_for(&mut self.spare, none, statement.form());
        self.catalog.admit(statement, &mut room, &mut self.kept)?;
        Ok(place)
    }

    /// Takes a RUN that was read, as `push`, from where it stays.
    #[inline(always)]
    fn push_run(&mut self, read: &LineBuffers<'_>) -> Result<Place, Refused>
        requires run { read.now.other ≡ None }
        requires grammar { IsInGrammar (sentence_of read.now) }
        ensures { Pushes self.old.log (sentence_of read.now) result self.old self.new
            (record self.old { log = with_accepted self.old.log (sentence_of read.now) }) }
    {
        if self.kept.reserve(1).is_err() {
            return Err(self.catalog.refused_run(read));
        }
        let place = self.catalog.places();
        let none = self.catalog.no_room();
        let mut room = lend(&mut self.spare, none);
        self.catalog.admit_read(read, &mut room, &mut self.kept)?;
        Ok(place)
    }

    /// Takes the statement that a line was read as, as `push`, from where it stays.
    #[inline(always)]
    pub fn push_read(&mut self, read: &LineBuffers<'_>) -> Result<Place, Refused>
        requires { IsInGrammar (sentence_of read.now) }
        ensures { Pushes self.old.log (sentence_of read.now) result self.old self.new
            (record self.old { log = with_accepted self.old.log (sentence_of read.now) }) }
    {
        match &read.other {
            Some(statement) => self.push(statement),
            None => self.push_run(read),
        }
    }

    /// Takes a statement that was foretold as the next place, which is the length until then, and keeps nothing of it. No statement is kept
    /// before it.
    pub fn pass_foretold(&mut self, statement: &Statement)
        requires none { self.old.dropped ≡ length self.old.log.statements }
        requires place { length self.old.log.statements < MOST_PLACES }
        requires foretold { (sentence : Sentence) × (IsInGrammar sentence × IsForetold self.old.log.names sentence statement.now) }
        ensures { (sentence : Sentence) → IsForetold self.old.log.names sentence statement.now
            → self.new ≡ record { log = with_accepted self.old.log sentence; dropped = self.old.dropped + 1 } }
    {
        self.catalog.take_foretold();
        self.past = self.past.with(statement);
    }

    /// How many statements were accepted, which is the place of the next one.
    pub fn len(&self) -> Place
        ensures count { result ≡ length self.now.log.statements }
        ensures most { length self.now.log.statements ≤ MOST_PLACES }
    {
        self.catalog.places()
    }

    /// How many of the first statements were dropped: the first place whose statement is kept.
    pub fn dropped(&self) -> Place
        ensures count { result ≡ self.now.dropped }
        ensures within { self.now.dropped ≤ length self.now.log.statements }
        ensures whole { IsWhole self.now.log }
        ensures own_tables { NeedsOwnTables self.now.log.statements }
    {
        self.catalog.places() - self.kept.len() as u64
    }

    /// The statement of a place that is kept.
    pub fn statement(&self, place: Place) -> &Statement
        requires kept { self.now.dropped ≤ place }
        requires within { place < length self.now.log.statements }
        ensures at { slice_get self.now.log.statements place ≡ Some result.now }
        ensures whole { IsWhole self.now.log }
        ensures own_tables { NeedsOwnTables self.now.log.statements }
    {
        let dropped = self.catalog.places() - self.kept.len() as u64;
        &self.kept[(place - dropped) as usize]
    }

    /// The statements that are kept, in order: the first of them is that of the first place that wasn't dropped.
    pub fn kept_statements(&self) -> &[Statement]
        ensures { result.now ≡ drop self.now.dropped self.now.log.statements }
    {
        &self.kept
    }

    /// Drops the statements below a place. It doesn't allocate, and costs what there is to drop and to move.
    pub fn forget(&mut self, place: Place)
        requires order { self.old.dropped ≤ place }
        requires within { place ≤ length self.old.log.statements }
        ensures { self.new ≡ record self.old { dropped = place } }
    {
        let dropped = self.catalog.places() - self.kept.len() as u64;
        forget_first(&mut self.past, &mut self.kept, (place - dropped) as usize);
    }

    /// Drops all statements, whose memory later ones take. It doesn't allocate itself.
    pub fn forget_all(&mut self)
        ensures { self.new ≡ record self.old { dropped = length self.old.log.statements } }
    {
        self.past.append(&self.kept);
        drop_kept(&mut self.spare, &mut self.kept);
    }

    /// What the log knows of names: a user or a table is of this log where its number is below their count.
    pub fn catalog(&self) -> &Catalog
        ensures { result.now ≡ self.now.log.names }
    {
        &self.catalog
    }

    /// The user who created a table of this log.
    pub fn owner(&self, table: Table) -> User
        requires { table < length self.now.log.names.tables }
        ensures { slice_get self.now.log.names.owners table ≡ Some result }
    {
        self.catalog.owner(table)
    }

    /// How many columns each table has, by the tables' numbers.
    pub fn all_columns(&self) -> &[u8]
        ensures value { result.now ≡ self.now.log.names.columns }
        ensures narrow { All (λ count. count ≤ MOST_COLUMNS) self.now.log.names.columns }
        ensures each { length self.now.log.names.columns ≡ length self.now.log.names.tables }
    {
        self.catalog.all_columns()
    }
}
