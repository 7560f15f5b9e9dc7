//! How a statement is numbered before its turn, by the names of an earlier place.

ghost use Rattle.std.specs.Prelude.{◌≡◌, ◌<◌, ◌+◌, IfSome, OnErr, OnOk, OnSome, length, map, true};
ghost use Rattle.log_text.specs.LineBuffers.{sentence_of};
ghost use Rattle.sequencer.specs.Admitting.{deed_by, run_sentence};
ghost use Rattle.sequencer.specs.Catalog.{numbered_deed, numbered_grantee};
ghost use Rattle.sequencer.specs.Foretelling.{Begins, Foretells, Knows, KnowsDeed, KnowsDeedIn, foretold_as, is_known_grantee, with_one_place, with_tables_of};
ghost use Rattle.sequencer.specs.Known.{HasRoom};
ghost use Rattle.sequencer.specs.Names.{is_known, number_of};
ghost use Rattle.std.specs.List.{AllByRecursion};
ghost use Rattle.std.specs.Option.{option_map};

use crate::catalog::Catalog;
use crate::names::{RECENT_NUMBERS, recent_place};
use crate::numbering::deed_form;
use crate::raw_run::RawRun;
use crate::statement_buffers::StatementBuffers;
use crate::testing::names_in;
use log_text::{LineBuffers, Name, RawDeed, RawForm, RawGrantee, RawGrantees, RawStatement};
use model_base::{DeedForm, Form, Grantee, Grantees, MOST_PLACES, Statement, Table, User};
use std::alloc::AllocError;
use std::mem;

/// Users and the table that were found last. They say nothing of the names: they are only tried first.
#[derive(Clone, Copy)]
pub struct Recent {
    /// By the last bytes of their names, as a `NameTable` remembers its own.
    users: [u32; RECENT_NUMBERS],
    table: Table,
}

impl Recent {
    /// The first user and the first table.
    pub fn new() -> Self {
        Recent {
            users: [0; RECENT_NUMBERS],
            table: Table(0),
        }
    }
}

impl Catalog {
    /// A grantee by number, if it is known. PUBLIC is.
    fn foretold_grantee(&self, grantee: &RawGrantee<'_>) -> Option<Grantee>
        ensures number { IfSome result (λ g. g ≡ numbered_grantee self.now.users grantee.now) }
        ensures known { OnSome result (is_known_grantee self.now.users grantee.now ≡ true) }
    {
        match grantee {
            RawGrantee::Named(name) => {
                let number = self.users.find(name.as_str())?;
                Some(Grantee::User(User(number)))
            }
            RawGrantee::Public => Some(Grantee::Public),
        }
    }

    /// Grantees by number, if each is known.
    fn foretold_grantees(&self, grantees: &RawGrantees<'_>) -> Option<Grantees>
        ensures numbers { IfSome result (λ gs. gs ≡ map (numbered_grantee self.now.users) grantees.now) }
        ensures known { OnSome result (AllByRecursion (λ g. is_known_grantee self.now.users g ≡ true) grantees.now) }
    {
        let mut left = grantees.all();
        let first = left.next().unwrap();
        let mut found = Grantees::of(self.foretold_grantee(&first)?);
        'grantees: while let Some(grantee) = left.next() {
            found.push(self.foretold_grantee(&grantee)?);
        }
        Some(found)
    }

    /// A deed by number, if its table and its grantees are known.
    fn foretold_deed(&self, recent: &mut Recent, deed: &RawDeed<'_>) -> Option<DeedForm>
        ensures number { IfSome result (λ d. d ≡ numbered_deed self.now deed.now) }
        ensures knows { OnSome result (KnowsDeed self.now deed.now) }
    {
        let (table, grantees) = names_in(deed);
        let Ok(table) = self.known_table(&mut recent.table, table) else {
            return None;
        };
        let grantees = self.foretold_grantees(grantees)?;
        Some(deed_form(deed, table, grantees))
    }

    /// The deed of a RUN by number, where it has one, as `foretold_deed`.
    fn foretold_last_deed(
        &self,
        recent: &mut Recent,
        deed: &Option<RawDeed<'_>>,
    ) -> Option<Option<DeedForm>>
        ensures number { IfSome result (λ d. d ≡ option_map (numbered_deed self.now) deed.now) }
        ensures knows { OnSome result (KnowsDeedIn self.now deed.now) }
    {
        match deed {
            None => Some(None),
            Some(deed) => {
                let deed = self.foretold_deed(recent, deed)?;
                Some(Some(deed))
            }
        }
    }

    /// The user of a statement by number, if it is known.
    fn foretold_user(&self, recent: &mut Recent, user: &Name<'_>) -> Option<User>
        ensures number { IfSome result (λ u. u ≡ number_of self.now.users user.now) }
        ensures known { OnSome result (is_known self.now.users user.now ≡ true) }
    {
        let place = recent_place(user.as_str().as_bytes());
        let number = self.users.find_near(recent.users[place], user.as_str())?;
        recent.users[place] = number;
        Some(User(number))
    }

    /// A RUN, as `foretell`. Its accesses and steps go where room was made, and take it.
    fn foretell_run(
        &self,
        recent: &mut Recent,
        run: &RawRun<'_, '_>,
        room: &mut StatementBuffers,
    ) -> Option<Statement>
        requires { HasRoom room.old (run_sentence run.now).form }
        ensures number { IfSome result (λ s. s ≡ foretold_as self.now (run_sentence run.now)) }
        ensures knows { OnSome result (Knows self.now (run_sentence run.now)) }
    {
        let user = self.foretold_user(recent, run.user)?;
        let found = mem::replace(&mut room.accesses, Vec::new(self.alloc));
        let Ok(accesses) = self.numbered_accesses(&mut recent.table, run.accesses, found) else {
            return None;
        };
        let found = mem::replace(&mut room.steps, Vec::new(self.alloc));
        let Ok(steps) = self.numbered_steps(&mut recent.table, run.steps, found) else {
            return None;
        };
        let deed = self.foretold_last_deed(recent, run.deed)?;
        Some(Statement {
            user,
            form: Form::Run {
                accesses,
                steps,
                deed,
            },
        })
    }

    /// A deed by itself, as `foretell`.
    fn foretell_deed(
        &self,
        recent: &mut Recent,
        user: &Name<'_>,
        deed: &RawDeed<'_>,
    ) -> Option<Statement>
        ensures number { IfSome result (λ s. s ≡ foretold_as self.now (deed_by user.now deed.now)) }
        ensures knows { OnSome result (Knows self.now (deed_by user.now deed.now)) }
    {
        let user = self.foretold_user(recent, user)?;
        let deed = self.foretold_deed(recent, deed)?;
        let form = Form::Deed(deed);
        Some(Statement { user, form })
    }

    /// A statement that was read, as `foretell`, wherever it stays.
    fn foretell_whole(
        &self,
        recent: &mut Recent,
        statement: &RawStatement<'_>,
        room: &mut StatementBuffers,
    ) -> Option<Statement>
        ensures { IfSome result (λ s. Foretells self.now statement.now s) }
    {
        let _tables = self.tables();
        if room.reserve(statement.form()).is_err() {
            return None;
        }
        let user = statement.name();
        match statement.form() {
            RawForm::Create { .. } => None,
            RawForm::Run {
                accesses,
                steps,
                deed,
            } => {
                let run = RawRun::of(user, accesses, steps, deed);
                self.foretell_run(recent, &run, room)
            }
            RawForm::Deed(deed) => self.foretell_deed(recent, user, deed),
        }
    }

    /// The statement that a line becomes at any later place of the log, whatever is accepted before: it passes the tests, makes no table
    /// and names nobody new. Nothing is promised where `None` is returned. Room is lent as to `admit`.
    #[inline(always)]
    pub fn foretell(
        &self,
        recent: &mut Recent,
        read: &LineBuffers<'_>,
        room: &mut StatementBuffers,
    ) -> Option<Statement>
        ensures { IfSome result (λ s. Foretells self.now (sentence_of read.now) s) }
    {
        if let Some(statement) = &read.other {
            return self.foretell_whole(recent, statement, room);
        }
        if room
            .reserve_for(read.accesses.len(), read.steps.len())
            .is_err()
        {
            return None;
        }
        let _tables = self.tables();
        let run = RawRun {
            user: &read.user,
            accesses: &read.accesses,
            steps: &read.steps,
            deed: &read.deed,
        };
        self.foretell_run(recent, &run, room)
    }

    /// Takes a statement that was foretold as the next place of the log.
    pub fn take_foretold(&mut self)
        requires { self.old.places < MOST_PLACES }
        ensures { self.new ≡ with_one_place self.old }
    {
        self.places += 1;
    }

    /// Learns a table from a later catalog, whose tables these begin. On `Err`, out of memory, nothing has changed.
    fn learn_table(&mut self, later: &Catalog, table: Table) -> Result<(), AllocError>
        requires within { table < length later.now.tables }
        requires next { self.old ≡ with_tables_of self.old later.now table }
        ensures ok { OnOk result (self.new ≡ with_tables_of self.old later.now (table + 1)) }
        ensures err { OnErr result (self.new ≡ self.old) }
    {
        self.owners.reserve(1)?;
        self.columns.reserve(1)?;
        self.tables.add(later.tables.new_name(table.0))?;
        self.owners.push_reserved(later.owner(table));
        self.columns.push_reserved(later.columns(table));
        Ok(())
    }

    /// Learns the users and the tables that a later catalog has beyond these. On `Err`, out of memory, the first of them
    /// may be learned. The places and the version stay what they are.
    pub fn catch_up(&mut self, later: &Catalog) -> Result<(), AllocError>
        requires { Begins self.old later.now }
        ensures ok { OnOk result (self.new ≡ record later.now { places = self.old.places; version = self.old.version }) }
        ensures begins { Begins self.new later.now }
        ensures places { self.new.places ≡ self.old.places }
        ensures version { self.new.version ≡ self.old.version }
    {
        self.users.catch_up(&later.users)?;
        for index in self.tables.len()..later.tables.len() {
            self.learn_table(later, Table(index as u32))?;
        }
        self.recent = later.recent;
        Ok(())
    }
}
