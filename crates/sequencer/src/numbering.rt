//! Names become numbers, where they pass the tests.

ghost use Rattle.std.specs.Prelude.{◌≡◌, ◌<◌, ◌≤◌, [], length, map, nat_le, vec_capacity, vec_len};
ghost use Rattle.sequencer.specs.Catalog.{Names, raw_grantees, numbered_access, numbered_deed, numbered_grantee, numbered_step, named_table_of};
ghost use Rattle.sequencer.specs.Names.{number_of};
ghost use Rattle.sequencer.specs.Admitting.{AppendsStep};
ghost use Rattle.sequencer.specs.Refusal.{IsAnswerOf, access_refusal, accesses_refusal, column_refusal, known_refusal, refuse_unless, step_refusal, steps_refusal, width_refusal};

use crate::catalog::Catalog;
use crate::refused::Refused;
use crate::testing::{is_repeated, test_skip};
use log_text::{Name, RawAccess, RawDeed, RawStep};
use model_base::{
    Access, DeedForm, Grantees, Items, Key, Register, Registers, RowName, Step, Table,
};

/// The deed with its table and its grantees by number.
#[inline(always)]
pub(crate) fn deed_form(deed: &RawDeed<'_>, table: Table, grantees: Grantees) -> DeedForm
    ensures { (names : Names) → table ≡ number_of names.tables (named_table_of deed.now)
        → grantees ≡ map (numbered_grantee names.users) (raw_grantees deed.now) → result ≡ numbered_deed names deed.now }
{
    match deed {
        RawDeed::Grant { kinds, option, .. } => DeedForm::Grant {
            kinds: *kinds,
            table,
            grantees,
            option: *option,
        },
        RawDeed::Revoke { kinds, .. } => DeedForm::Revoke {
            kinds: *kinds,
            table,
            grantees,
        },
    }
}

/// A SKIP, where this many steps come later. It has to pass over no more than these.
#[inline(always)]
fn skip_step(of: Register, steps: u32, later: usize) -> Result<Step, Refused>
    ensures { IsAnswerOf result (refuse_unless (nat_le steps later) Refused.SkipPastEnd) (Step.Skip of steps) }
{
    test_skip(steps, later)?;
    Ok(Step::Skip { of, steps })
}

impl Catalog {
    /// The access with its table by number. It has to be to a known table, and to another row than those before it.
    #[inline(always)]
    pub(crate) fn numbered_access(
        &self,
        recent: &mut Table,
        earlier: &[RawAccess<'_>],
        access: &RawAccess<'_>,
    ) -> Result<Access, Refused>
        ensures { IsAnswerOf result (access_refusal self.now earlier.now access.now) (numbered_access self.now access.now) }
    {
        let table = self.known_table(recent, &access.table)?;
        if is_repeated(access, earlier) {
            return Err(Refused::DuplicateAccess);
        }
        Ok(Access {
            key: Key {
                table,
                row: access.row,
            },
            kinds: access.kinds,
        })
    }

    /// The accesses with their tables by number, from left to right. They go where room was made.
    #[inline(always)]
    pub(crate) fn numbered_accesses(
        &self,
        recent: &mut Table,
        accesses: &[RawAccess<'_>],
        mut found: Vec<Access>,
    ) -> Result<Items<Access>, Refused>
        requires empty { found.items ≡ [] }
        requires room { length accesses.now ≤ vec_capacity found }
        ensures { IsAnswerOf result (accesses_refusal self.now [] accesses.now) (map (numbered_access self.now) accesses.now) }
    {
        for (index, access) in accesses.iter().enumerate() {
            found.push_reserved(self.numbered_access(recent, &accesses[..index], access)?);
        }
        Ok(Items::new(found))
    }

    /// Appends a HAS with its table by number. It has to be on a known table.
    #[inline(always)]
    fn push_has(
        &self,
        recent: &mut Table,
        found: &mut Vec<Step>,
        to: &Register,
        table: &Name<'_>,
        row: &RowName,
    ) -> Result<(), Refused>
        requires { vec_len found.old < vec_capacity found.old }
        ensures { AppendsStep result (known_refusal self.now table.now) found.old found.new
            (Step.Has to.now (number_of self.now.tables table.now) row.now) }
    {
        let table = self.known_table(recent, table)?;
        found.push_reserved(Step::Has {
            to: *to,
            table,
            row: *row,
        });
        Ok(())
    }

    /// Appends a LOAD of a column of a row, with its table by number. It has to be of a column of a known table.
    #[inline(always)]
    fn push_load(
        &self,
        recent: &mut Table,
        found: &mut Vec<Step>,
        to: &Register,
        from: (&Name<'_>, &RowName, &u32),
    ) -> Result<(), Refused>
        requires { vec_len found.old < vec_capacity found.old }
        ensures { AppendsStep result (column_refusal self.now from.entry.0.now from.entry.2.now) found.old found.new
            (Step.Load to.now (number_of self.now.tables from.entry.0.now) from.entry.1.now from.entry.2.now) }
    {
        let (table, row, column) = from;
        let table = self.table_with_column(recent, table, *column)?;
        found.push_reserved(Step::Load {
            to: *to,
            table,
            row: *row,
            column: *column,
        });
        Ok(())
    }

    /// Appends a STORE to a column of a row, with its table by number. It has to be to a column of a known table.
    #[inline(always)]
    fn push_store(
        &self,
        recent: &mut Table,
        found: &mut Vec<Step>,
        to: (&Name<'_>, &RowName, &u32),
        from: &Register,
    ) -> Result<(), Refused>
        requires { vec_len found.old < vec_capacity found.old }
        ensures { AppendsStep result (column_refusal self.now to.entry.0.now to.entry.2.now) found.old found.new
            (Step.Store (number_of self.now.tables to.entry.0.now) to.entry.1.now to.entry.2.now from.now) }
    {
        let (table, row, column) = to;
        let table = self.table_with_column(recent, table, *column)?;
        found.push_reserved(Step::Store {
            table,
            row: *row,
            column: *column,
            from: *from,
        });
        Ok(())
    }

    /// Appends an INSERT with its table by number. It has to be on a known table, with as many registers as that has columns.
    #[inline(always)]
    fn push_insert(
        &self,
        recent: &mut Table,
        found: &mut Vec<Step>,
        table: &Name<'_>,
        row: &RowName,
        from: &Registers,
    ) -> Result<(), Refused>
        requires { vec_len found.old < vec_capacity found.old }
        ensures { AppendsStep result (width_refusal self.now table.now (length from.now)) found.old found.new
            (Step.Insert (number_of self.now.tables table.now) row.now from.now) }
    {
        let table = self.table_of_width(recent, table, from.len())?;
        found.push_reserved(Step::Insert {
            table,
            row: *row,
            from: *from,
        });
        Ok(())
    }

    /// Appends a DELETE with its table by number. It has to be on a known table.
    #[inline(always)]
    fn push_delete(
        &self,
        recent: &mut Table,
        found: &mut Vec<Step>,
        table: &Name<'_>,
        row: &RowName,
    ) -> Result<(), Refused>
        requires { vec_len found.old < vec_capacity found.old }
        ensures { AppendsStep result (known_refusal self.now table.now) found.old found.new
            (Step.Delete (number_of self.now.tables table.now) row.now) }
    {
        let table = self.known_table(recent, table)?;
        found.push_reserved(Step::Delete { table, row: *row });
        Ok(())
    }

    /// Appends the step with its table by number, where this many steps come later. It has to fit the table, and to pass over no more steps
    /// than there are.
    #[inline(always)]
    fn push_step(
        &self,
        recent: &mut Table,
        later: usize,
        step: &RawStep<'_>,
        found: &mut Vec<Step>,
    ) -> Result<(), Refused>
        requires { vec_len found.old < vec_capacity found.old }
        ensures { AppendsStep result (step_refusal self.now later step.now) found.old found.new (numbered_step self.now step.now) }
    {
        match step {
            RawStep::Const { to, value } => found.push_reserved(Step::Const {
                to: *to,
                value: *value,
            }),
            RawStep::Compute {
                operation,
                to,
                left,
                right,
            } => found.push_reserved(Step::Compute {
                operation: *operation,
                to: *to,
                left: *left,
                right: *right,
            }),
            RawStep::Has { to, table, row } => self.push_has(recent, found, to, table, row)?,
            RawStep::Load {
                to,
                table,
                row,
                column,
            } => self.push_load(recent, found, to, (table, row, column))?,
            RawStep::Store {
                table,
                row,
                column,
                from,
            } => self.push_store(recent, found, (table, row, column), from)?,
            RawStep::Insert { table, row, from } => {
                self.push_insert(recent, found, table, row, from)?;
            }
            RawStep::Delete { table, row } => self.push_delete(recent, found, table, row)?,
            RawStep::Check { of } => found.push_reserved(Step::Check { of: *of }),
            RawStep::Skip { of, steps } => found.push_reserved(skip_step(*of, *steps, later)?),
            RawStep::Out { of } => found.push_reserved(Step::Out { of: *of }),
        }
        Ok(())
    }

    /// The steps with their tables by number, from left to right. They go where room was made.
    #[inline(always)]
    pub(crate) fn numbered_steps(
        &self,
        recent: &mut Table,
        steps: &[RawStep<'_>],
        mut found: Vec<Step>,
    ) -> Result<Items<Step>, Refused>
        requires empty { found.items ≡ [] }
        requires room { length steps.now ≤ vec_capacity found }
        ensures { IsAnswerOf result (steps_refusal self.now steps.now) (map (numbered_step self.now) steps.now) }
    {
        let mut later = steps.len();
        for step in steps.iter() {
            later -= 1;
            self.push_step(recent, later, step, &mut found)?;
        }
        Ok(Items::new(found))
    }
}
