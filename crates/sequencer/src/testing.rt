//! The tests that a statement has to pass, in their order.

ghost use Rattle.std.specs.Prelude.{◌≡◌, ◌<◌, [], length, nat_le, None, Some, IfOk};
ghost use Rattle.std.specs.List.{list_any};
ghost use Rattle.log_text.specs.LineBuffers.{sentence_of};
ghost use Rattle.sequencer.specs.Names.{is_known, number_of};
ghost use Rattle.sequencer.specs.Catalog.{deed_in, raw_grantees, named_table_of};
ghost use Rattle.sequencer.specs.Refusal.{IsAnswer, IsAnswerOf, IsRefusal, accesses_refusal, column_refusal, create_refusal, deed_refusal, form_refusal, is_new_beside, name_refusal, or_refused, parties_refusal, refusal, same_row, step_refusal, steps_refusal, table_refusal, refuse_unless, users_refusal, width_refusal};

use crate::catalog::Catalog;
use crate::names::NameTable;
use crate::refused::Refused;
use log_text::{
    LineBuffers, Name, RawAccess, RawDeed, RawForm, RawGrantee, RawGrantees, RawStatement, RawStep,
};
use model_base::{MOST_COLUMNS, MOST_NAMES, MOST_PLACES, Table};

/// Whether the two accesses are to one row.
fn is_same_row(access: &RawAccess<'_>, other: &RawAccess<'_>) -> bool
    ensures { result ≡ same_row access.now other.now }
{
    access.row == other.row && access.table.as_str() == other.table.as_str()
}

/// Whether the access is to the row of an earlier one.
#[inline(always)]
pub(crate) fn is_repeated(access: &RawAccess<'_>, earlier: &[RawAccess<'_>]) -> bool
    ensures { result ≡ list_any (same_row access.now) earlier.now }
{
    !earlier.is_empty() && earlier.iter().any(|other| is_same_row(access, other))
}

/// A new name has to find room.
pub(crate) fn test_name(names: &NameTable, name: &str) -> Result<(), Refused>
    ensures { IsAnswer result (name_refusal names.now name.now) }
{
    if names.len() < MOST_NAMES || names.find(name).is_some() {
        return Ok(());
    }
    Err(Refused::TooManyNames)
}

/// Whether the name of a grantee is neither the user's nor one of these. PUBLIC has no name.
fn is_new(users: &NameTable, user: &str, grantee: &RawGrantee<'_>) -> bool
    ensures { result ≡ is_new_beside users.now user.now grantee.now }
{
    match grantee {
        RawGrantee::Named(name) => name.as_str() != user && users.find(name.as_str()).is_none(),
        RawGrantee::Public => false,
    }
}

/// A new user and new grantees have to find room, the user before the grantees. PUBLIC is no user.
pub(crate) fn test_parties(
    users: &NameTable,
    user: &str,
    grantees: &RawGrantees<'_>,
) -> Result<(), Refused>
    ensures { IsAnswer result (parties_refusal users.now user.now grantees.now) }
{
    test_name(users, user)?;
    let mut count = users.len() + usize::from(users.find(user).is_none());
    let mut left = grantees.all();
    'grantees: while let Some(grantee) = left.next() {
        if is_new(users, user, &grantee) {
            if count >= MOST_NAMES {
                return Err(Refused::TooManyNames);
            }
            count += 1;
        }
    }
    Ok(())
}

/// The table and the grantees that a deed names.
pub(crate) fn names_in<'a, 'l>(deed: &'l RawDeed<'a>) -> (&'l Name<'a>, &'l RawGrantees<'a>)
    ensures table { result.0.now ≡ named_table_of deed.now }
    ensures grantees { result.1.now ≡ raw_grantees deed.now }
{
    match deed {
        RawDeed::Grant {
            table,
            grantees,
            ..
        }
        | RawDeed::Revoke {
            table,
            grantees,
            ..
        } => { (table, grantees) }
    }
}

/// A SKIP has to pass over no more steps than there are after it.
pub(crate) fn test_skip(steps: u32, later: usize) -> Result<(), Refused>
    ensures { IsAnswer result (refuse_unless (nat_le steps later) Refused.SkipPastEnd) }
{
    if steps as usize <= later {
        return Ok(());
    }
    Err(Refused::SkipPastEnd)
}

impl Catalog {
    /// The table of a name that has to be known. The recent table is tried first, and the one that is returned is the recent one then.
    #[inline(always)]
    pub(crate) fn known_table(&self, recent: &mut Table, name: &Name<'_>) -> Result<Table, Refused>
        ensures answer { IsAnswerOf result (refuse_unless (is_known self.now.tables name.now) Refused.UnknownTable)
            (number_of self.now.tables name.now) }
        ensures known { IfOk result (λ t. t < length self.now.tables) }
    {
        if self.tables().is_name(recent.0, name.as_str()) {
            return Ok(*recent);
        }
        self.other_table(recent, name)
    }

    /// The table of a name that has to be known, as `known_table`, where it isn't the recent one.
    #[inline(never)]
    fn other_table(&self, recent: &mut Table, name: &Name<'_>) -> Result<Table, Refused>
        ensures answer { IsAnswerOf result (refuse_unless (is_known self.now.tables name.now) Refused.UnknownTable)
            (number_of self.now.tables name.now) }
        ensures known { IfOk result (λ t. t < length self.now.tables) }
    {
        match self.tables().find(name.as_str()) {
            Some(number) => {
                *recent = Table(number);
                Ok(Table(number))
            }
            None => Err(Refused::UnknownTable),
        }
    }

    /// The accesses, from left to right.
    fn test_accesses(&self, accesses: &[RawAccess<'_>]) -> Result<(), Refused>
        ensures { IsAnswer result (accesses_refusal self.now [] accesses.now) }
    {
        let mut recent = self.recent;
        for (index, access) in accesses.iter().enumerate() {
            self.numbered_access(&mut recent, &accesses[..index], access)?;
        }
        Ok(())
    }

    /// The table of a column. It has to be a column of a known table.
    #[inline(always)]
    pub(crate) fn table_with_column(
        &self,
        recent: &mut Table,
        table: &Name<'_>,
        column: u32,
    ) -> Result<Table, Refused>
        ensures { IsAnswerOf result (column_refusal self.now table.now column) (number_of self.now.tables table.now) }
    {
        let table = self.known_table(recent, table)?;
        if column < u32::from(self.columns(table)) {
            return Ok(table);
        }
        Err(Refused::BadColumnNumber)
    }

    /// The table of a new row. The row has to have as many numbers as its table has columns.
    #[inline(always)]
    pub(crate) fn table_of_width(
        &self,
        recent: &mut Table,
        table: &Name<'_>,
        width: usize,
    ) -> Result<Table, Refused>
        ensures { IsAnswerOf result (width_refusal self.now table.now width) (number_of self.now.tables table.now) }
    {
        let table = self.known_table(recent, table)?;
        if width == usize::from(self.columns(table)) {
            return Ok(table);
        }
        Err(Refused::BadColumns)
    }

    /// A step, after which there are this many, has to fit the table that it names, and to pass over no more steps than there are.
    fn test_step(&self, recent: &mut Table, later: usize, step: &RawStep<'_>) -> Result<(), Refused>
        ensures { IsAnswer result (step_refusal self.now later step.now) }
    {
        match step {
            RawStep::Has { table, .. } | RawStep::Delete { table, .. } => {
                self.known_table(recent, table)?;
                Ok(())
            }
            RawStep::Load { table, column, .. } | RawStep::Store { table, column, .. } => {
                self.table_with_column(recent, table, *column)?;
                Ok(())
            }
            RawStep::Insert { table, from, .. } => {
                self.table_of_width(recent, table, from.as_slice().len())?;
                Ok(())
            }
            RawStep::Skip { steps, .. } => test_skip(*steps, later),
            _ => Ok(()),
        }
    }

    /// The steps, from left to right.
    fn test_steps(&self, steps: &[RawStep<'_>]) -> Result<(), Refused>
        ensures { IsAnswer result (steps_refusal self.now steps.now) }
    {
        let mut recent = self.recent;
        for (index, step) in steps.iter().enumerate() {
            self.test_step(&mut recent, steps.len() - index - 1, step)?;
        }
        Ok(())
    }

    /// A new table has to have a new name and one to `MOST_COLUMNS` columns.
    pub(crate) fn test_create(&self, table: &Name<'_>, columns: u32) -> Result<(), Refused>
        ensures { IsAnswer result (create_refusal self.now table.now columns) }
    {
        if self.tables().find(table.as_str()).is_some() {
            return Err(Refused::TableExists);
        }
        if columns < 1 || columns > MOST_COLUMNS as u32 {
            return Err(Refused::BadColumns);
        }
        Ok(())
    }

    /// A deed has to be on a known table.
    fn test_deed(&self, deed: &RawDeed<'_>) -> Result<(), Refused>
        ensures { IsAnswer result (deed_refusal self.now (Some deed.now)) }
    {
        let mut recent = self.recent;
        self.known_table(&mut recent, names_in(deed).0)?;
        Ok(())
    }

    /// What a RUN asks for.
    fn test_run(
        &self,
        accesses: &[RawAccess<'_>],
        steps: &[RawStep<'_>],
        deed: &Option<RawDeed<'_>>,
    ) -> Result<(), Refused>
        ensures { IsAnswer result (form_refusal self.now (RawForm.Run accesses.now steps.now deed.now)) }
    {
        self.test_accesses(accesses)?;
        self.test_steps(steps)?;
        match deed {
            Some(deed) => self.test_deed(deed),
            None => Ok(()),
        }
    }

    /// What a statement asks for.
    fn test_form(&self, form: &RawForm<'_>) -> Result<(), Refused>
        ensures { IsAnswer result (form_refusal self.now form.now) }
    {
        match form {
            RawForm::Create { table, columns } => self.test_create(table, *columns),
            RawForm::Run {
                accesses,
                steps,
                deed,
            } => self.test_run(accesses.as_slice(), steps.as_slice(), deed),
            RawForm::Deed(deed) => self.test_deed(deed),
        }
    }

    /// The names of a new user, and of new grantees where there is a deed, have to find room.
    fn test_users(&self, user: &str, deed: &Option<RawDeed<'_>>) -> Result<(), Refused>
        ensures { IsAnswer result (users_refusal self.now.users user.now deed.now) }
    {
        match deed {
            Some(deed) => test_parties(self.users(), user, names_in(deed).1),
            None => test_name(self.users(), user),
        }
    }

    /// The names of a new user, of new grantees and of a new table have to find room.
    fn test_names(&self, user: &str, form: &RawForm<'_>) -> Result<(), Refused>
        ensures { IsAnswer result (or_refused (users_refusal self.now.users user.now (deed_in form.now))
            (table_refusal self.now form.now)) }
    {
        match form {
            RawForm::Create { table, .. } => {
                test_name(self.users(), user)?;
                test_name(self.tables(), table.as_str())
            }
            RawForm::Run { deed, .. } => self.test_users(user, deed),
            RawForm::Deed(deed) => test_parties(self.users(), user, names_in(deed).1),
        }
    }

    /// The first test that a statement doesn't pass refuses it. It doesn't allocate.
    pub fn test(&self, statement: &RawStatement<'_>) -> Result<(), Refused>
        ensures { IsAnswer result (refusal self.now statement.now) }
    {
        if self.places() >= MOST_PLACES {
            return Err(Refused::LogFull);
        }
        self.test_form(statement.form())?;
        self.test_names(statement.user(), statement.form())
    }

    /// The first test that a RUN which was read doesn't pass refuses it, as in `test`.
    fn test_read(&self, read: &LineBuffers<'_>) -> Result<(), Refused>
        requires { read.now.other ≡ None }
        ensures { IsAnswer result (refusal self.now (sentence_of read.now)) }
    {
        if self.places() >= MOST_PLACES {
            return Err(Refused::LogFull);
        }
        self.test_run(&read.accesses, &read.steps, &read.deed)?;
        self.test_users(read.user.as_str(), &read.deed)
    }

    /// The refusal of a RUN that was read, and for which there is no memory.
    #[cold]
    #[tactic(auto, using(crate::proofs::RefusalLemmas::refusal_of_test))]
    pub(crate) fn refused_run(&self, read: &LineBuffers<'_>) -> Refused
        requires { read.now.other ≡ None }
        ensures { IsRefusal result (refusal self.now (sentence_of read.now)) }
    {
        match self.test_read(read) {
            Ok(()) => Refused::NoMemory,
            Err(refused) => refused,
        }
    }

    /// The refusal of a statement for which there is no memory.
    #[tactic(auto, using(crate::proofs::RefusalLemmas::refusal_of_test))]
    pub(crate) fn refused(&self, statement: &RawStatement<'_>) -> Refused
        ensures { IsRefusal result (refusal self.now statement.now) }
    {
        match self.test(statement) {
            Ok(()) => Refused::NoMemory,
            Err(refused) => refused,
        }
    }
}
