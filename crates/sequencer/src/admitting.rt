//! How a statement is taken.

ghost use Rattle.std.specs.Prelude.{◌≡◌, ◌<◌, ◌++◌, ◌∷◌, [], None, Some, option_map, IfOk, IfErr, OnOk, OnErr, vec_capacity, vec_len};
ghost use Rattle.log_text.specs.LineBuffers.{sentence_of};
ghost use Rattle.log_text.specs.Statement.{IsInGrammar};
ghost use Rattle.sequencer.specs.Names.{number_of};
ghost use Rattle.sequencer.specs.Catalog.{numbered, numbered_deed, with_statement, with_users};
ghost use Rattle.sequencer.specs.Admitting.{Admits, create_by, deed_by, entry_refusal, run_sentence};
ghost use Rattle.sequencer.specs.Known.{HasRoom};
ghost use Rattle.sequencer.specs.Whole.{HasFilledRows, IsAccepted};
ghost use Rattle.sequencer.specs.Refusal.{IsRefusal, refusal};

use crate::catalog::Catalog;
use crate::numbering::deed_form;
use crate::raw_run::RawRun;
use crate::refused::Refused;
use crate::statement_buffers::StatementBuffers;
use crate::testing::{names_in, test_name};
use log_text::{LineBuffers, Name, RawDeed, RawForm, RawStatement};
use model_base::{DeedForm, Form, MOST_PLACES, Statement, Table, User};
use std::mem;

impl Catalog {
    /// Enters the user of a statement and then the grantees of its deed, and returns them by number. The deed's table has to be known.
    /// After a refusal nothing has changed.
    #[inline(always)]
    #[tactic(auto, using(crate::proofs::RefusalLemmas::refusal_of_test))]
    fn enter_deed(
        &mut self,
        user: &Name<'_>,
        deed: &RawDeed<'_>,
    ) -> Result<(User, DeedForm), Refused>
        ensures user { IfOk result (λ r. r.0 ≡ number_of self.old.users user.now) }
        ensures deed { IfOk result (λ r. r.1 ≡ numbered_deed (with_users self.old user.now (Some deed.now)) deed.now) }
        ensures names { OnOk result (self.new ≡ with_users self.old user.now (Some deed.now)) }
        ensures passes { OnOk result (entry_refusal self.old user.now (Some deed.now) ≡ None) }
        ensures refused { IfErr result (λ r. IsRefusal r (entry_refusal self.old user.now (Some deed.now))) }
        ensures err { OnErr result (self.new ≡ self.old) }
    {
        let (table, grantees) = names_in(deed);
        let mut recent = self.recent;
        let table = self.known_table(&mut recent, table)?;
        let (user, grantees) = self.users.enter_parties(user.as_str(), grantees)?;
        Ok((User(user), deed_form(deed, table, grantees)))
    }

    /// Enters the user of a statement, and then the grantees of its deed where it has one, as `enter_deed`.
    #[inline(always)]
    fn enter_users(
        &mut self,
        user: &Name<'_>,
        deed: &Option<RawDeed<'_>>,
    ) -> Result<(User, Option<DeedForm>), Refused>
        ensures user { IfOk result (λ r. r.0 ≡ number_of self.old.users user.now) }
        ensures deed { IfOk result (λ r. r.1 ≡ option_map (numbered_deed (with_users self.old user.now deed.now)) deed.now) }
        ensures names { OnOk result (self.new ≡ with_users self.old user.now deed.now) }
        ensures passes { OnOk result (entry_refusal self.old user.now deed.now ≡ None) }
        ensures refused { IfErr result (λ r. IsRefusal r (entry_refusal self.old user.now deed.now)) }
        ensures err { OnErr result (self.new ≡ self.old) }
    {
        match deed {
            None => {
                let (number, _) = self.users.enter(user.as_str())?;
                Ok((User(number), None))
            }
            Some(deed) => {
                let (user, deed) = self.enter_deed(user, deed)?;
                Ok((user, Some(deed)))
            }
        }
    }

    /// Takes a RUN, as `admit`, where a place is left. Its accesses and steps go where room was made, and take it, and the statement goes
    /// where there is room for it.
    #[inline(always)]
    #[tactic(auto, using(crate::proofs::RefusalLemmas::refusal_of_test))]
    fn admit_run(
        &mut self,
        run: &RawRun<'_, '_>,
        room: &mut StatementBuffers,
        kept: &mut Vec<Statement>,
    ) -> Result<(), Refused>
        requires kept { vec_len kept.old < vec_capacity kept.old }
        requires place { self.old.places < MOST_PLACES }
        requires room { HasRoom room.old (run_sentence run.now).form }
        ensures { Admits (run_sentence run.now) result self.old self.new kept.old.items kept.new.items }
    {
        let mut recent = self.recent;
        let found = mem::replace(&mut room.accesses, Vec::new(self.alloc));
        let accesses = self.numbered_accesses(&mut recent, run.accesses, found)?;
        let found = mem::replace(&mut room.steps, Vec::new(self.alloc));
        let steps = self.numbered_steps(&mut recent, run.steps, found)?;
        self.recent = recent;
        let (user, deed) = self.enter_users(run.user, run.deed)?;
        self.places += 1;
        kept.push_reserved(Statement {
            user,
            form: Form::Run {
                accesses,
                steps,
                deed,
            },
        });
        Ok(())
    }

    /// Takes a deed by itself, as `admit`, where a place is left.
    fn admit_deed(
        &mut self,
        user: &Name<'_>,
        deed: &RawDeed<'_>,
        kept: &mut Vec<Statement>,
    ) -> Result<(), Refused>
        requires kept { vec_len kept.old < vec_capacity kept.old }
        requires place { self.old.places < MOST_PLACES }
        ensures { Admits (deed_by user.now deed.now) result self.old self.new kept.old.items kept.new.items }
    {
        let (user, deed) = self.enter_deed(user, deed)?;
        self.places += 1;
        let form = Form::Deed(deed);
        kept.push_reserved(Statement { user, form });
        Ok(())
    }

    /// Takes a CREATE that passes the tests. It is refused only for lack of memory, and then nothing has changed.
    fn create_table(
        &mut self,
        user: &Name<'_>,
        table: &Name<'_>,
        columns: u32,
        kept: &mut Vec<Statement>,
    ) -> Result<(), Refused>
        requires kept { vec_len kept.old < vec_capacity kept.old }
        requires passes { refusal self.old (create_by user.now table.now columns) ≡ None }
        ensures ok { OnOk result (kept.new.items ≡ kept.old.items ++ numbered self.old (create_by user.now table.now columns) ∷ []) }
        ensures names { OnOk result (self.new ≡ with_statement self.old (create_by user.now table.now columns)) }
        ensures refused { IfErr result (λ r. r ≡ Refused.NoMemory) }
        ensures err { OnErr result (self.new ≡ self.old) }
        ensures none { OnErr result (kept.new.items ≡ kept.old.items) }
    {
        self.owners.reserve(1)?;
        self.columns.reserve(1)?;
        let (owner, is_new) = self.users.enter(user.as_str())?;
        let owner = User(owner);
        let number = match self.tables.add(table.as_str()) {
            Ok(number) => number,
            Err(error) => {
                if is_new {
                    self.users.forget_last();
                }
                return Err(Refused::from(error));
            }
        };
        self.owners.push_reserved(owner);
        self.columns.push_reserved(columns as u8);
        self.places += 1;
        let form = Form::Create {
            table: Table(number),
            columns: columns as u8,
        };
        kept.push_reserved(Statement { user: owner, form });
        Ok(())
    }

    /// Takes a CREATE, as `admit`, where a place is left.
    #[tactic(auto, using(crate::proofs::RefusalLemmas::refusal_of_test))]
    fn admit_create(
        &mut self,
        user: &Name<'_>,
        table: &Name<'_>,
        columns: u32,
        kept: &mut Vec<Statement>,
    ) -> Result<(), Refused>
        requires kept { vec_len kept.old < vec_capacity kept.old }
        requires place { self.old.places < MOST_PLACES }
        ensures { Admits (create_by user.now table.now columns) result self.old self.new kept.old.items kept.new.items }
    {
        self.test_create(table, columns)?;
        test_name(&self.users, user.as_str())?;
        test_name(&self.tables, table.as_str())?;
        self.create_table(user, table, columns, kept)
    }

    /// Takes a statement as the next place of the log: its users and tables are numbered, the names that it is the first to name are
    /// entered, and a CREATE makes its table known. The first test that it doesn't pass refuses it, as in `test`; one that passes is
    /// refused only for lack of memory. After a refusal nothing has changed. The statement is appended to those that are kept, where there
    /// is room for it. Its accesses and steps take the room that is lent, and memory only where it isn't enough.
    #[tactic(auto, using(crate::proofs::RefusalLemmas::refusal_of_test))]
    pub fn admit(
        &mut self,
        statement: &RawStatement<'_>,
        room: &mut StatementBuffers,
        kept: &mut Vec<Statement>,
    ) -> Result<(), Refused>
        requires { vec_len kept.old < vec_capacity kept.old }
        ensures ok { OnOk result (kept.new.items ≡ kept.old.items ++ numbered self.old statement.now ∷ []) }
        ensures taken { OnOk result (IsAccepted self.new (numbered self.old statement.now)) }
        ensures filled { OnOk result (HasFilledRows (numbered self.old statement.now).form) }
        ensures passes { OnOk result (refusal self.old statement.now ≡ None) }
        ensures names { OnOk result (self.new ≡ with_statement self.old statement.now) }
        ensures refused { IfErr result (λ r. IsRefusal r (refusal self.old statement.now)) }
        ensures err { OnErr result (self.new ≡ self.old) }
        ensures none { OnErr result (kept.new.items ≡ kept.old.items) }
    {
        if self.places() >= MOST_PLACES {
            return Err(Refused::LogFull);
        }
        if room.reserve(statement.form()).is_err() {
            return Err(self.refused(statement));
        }
        let user = statement.name();
        match statement.form() {
            RawForm::Create { table, columns } => self.admit_create(user, table, *columns, kept),
            RawForm::Run {
                accesses,
                steps,
                deed,
            } => {
                let run = RawRun::of(user, accesses, steps, deed);
                self.admit_run(&run, room, kept)
            }
            RawForm::Deed(deed) => self.admit_deed(user, deed, kept),
        }
    }

    /// Takes a RUN that was read as the next place of the log, as `admit`, from where it stays.
    #[inline(always)]
    pub(crate) fn admit_read(
        &mut self,
        read: &LineBuffers<'_>,
        room: &mut StatementBuffers,
        kept: &mut Vec<Statement>,
    ) -> Result<(), Refused>
        requires run { read.now.other ≡ None }
        requires grammar { IsInGrammar (sentence_of read.now) }
        requires kept { vec_len kept.old < vec_capacity kept.old }
        ensures ok { OnOk result (kept.new.items ≡ kept.old.items ++ numbered self.old (sentence_of read.now) ∷ []) }
        ensures taken { OnOk result (IsAccepted self.new (numbered self.old (sentence_of read.now))) }
        ensures filled { OnOk result (HasFilledRows (numbered self.old (sentence_of read.now)).form) }
        ensures passes { OnOk result (refusal self.old (sentence_of read.now) ≡ None) }
        ensures names { OnOk result (self.new ≡ with_statement self.old (sentence_of read.now)) }
        ensures refused { IfErr result (λ r. IsRefusal r (refusal self.old (sentence_of read.now))) }
        ensures err { OnErr result (self.new ≡ self.old) }
        ensures none { OnErr result (kept.new.items ≡ kept.old.items) }
    {
        if self.places() >= MOST_PLACES {
            return Err(Refused::LogFull);
        }
        if room
            .reserve_for(read.accesses.len(), read.steps.len())
            .is_err()
        {
            return Err(self.refused_run(read));
        }
        let run = RawRun {
            user: &read.user,
            accesses: &read.accesses,
            steps: &read.steps,
            deed: &read.deed,
        };
        self.admit_run(&run, room, kept)
    }
}
