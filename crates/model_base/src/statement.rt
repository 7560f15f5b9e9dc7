//! The statements of a log.

use crate::deed::{Grantee, Kinds, Position, Revocation};
use crate::deeds::Deeds;
use crate::grantees::Grantees;
use crate::limits::{MOST_COLUMNS, MOST_REGISTERS};
use crate::list::Items;
use crate::name::{Place, RowNumber, Table, User};
use crate::row::Key;
use std::marker::Model;

/// One of the `MOST_REGISTERS` registers of a body.
#[derive(Clone, Copy, Debug)]
pub struct Register(u8);

impl Model for Register {
    ghost use Rattle.std.specs.Prelude.{ℕ, ◌<◌};
    ghost use Rattle.model_base.specs.declared.limits.TheConstants.{MOST_REGISTERS};

    ghost Value = { ℕ };

    ghost view = { λ register. register.0 };

    ghost invariant = { λ register. register.0 < MOST_REGISTERS };

    ghost inverse = { λ number. record { 0 = number } };
}

impl Register {
    ghost use Rattle.std.specs.Prelude.{◌≡◌, ◌<◌};

    /// The register of this number.
    pub fn new(number: u8) -> Self
        requires { number < MOST_REGISTERS }
        ensures { result ≡ number }
    {
        Register(number)
    }

    /// Its number, from 0.
    pub fn index(self) -> usize
        ensures number { result ≡ self }
        ensures below { result < MOST_REGISTERS }
    {
        self.0 as usize
    }
}

/// Up to `MOST_COLUMNS` registers in order, kept in the value itself, so that a step is a plain value and doesn't allocate of its own.
#[derive(Clone, Copy, Debug)]
pub struct Registers {
    len: u8,
    registers: [Register; MOST_COLUMNS],
}

impl Model for Registers {
    ghost use Rattle.std.specs.Prelude.{List, ℕ};

    ghost Value = { List ℕ };

    ghost use Rattle.model_base.specs.Registers.{registers_of, IsPadded, padded, padded-undoes};

    ghost view = { registers_of };

    ghost invariant = { IsPadded };

    ghost inverse = { padded };

    ghost inverse_ok = { padded-undoes };
}

impl Registers {
    ghost use Rattle.std.specs.Prelude.{◌≡◌, ◌<◌, ◌≤◌, ◌++◌, ◌∷◌, [], length};

    /// The list of one register.
    pub fn of(register: Register) -> Self
        ensures { result ≡ register ∷ [] }
    {
        let mut registers = [Register(0); MOST_COLUMNS];
        registers[0] = register;
        Registers { len: 1, registers }
    }

    /// How many there are.
    pub fn len(&self) -> usize
        ensures count { result ≡ length self.now }
        ensures most { result ≤ MOST_COLUMNS }
    {
        self.len as usize
    }

    /// The registers, in order.
    pub fn as_slice(&self) -> &[Register]
        ensures { result.now ≡ self.now }
    {
        &self.registers[..self.len as usize]
    }

    /// Appends a register to the others.
    pub fn push(&mut self, register: Register)
        requires { length self.old < MOST_COLUMNS }
        ensures { self.new ≡ self.old ++ register ∷ [] }
    {
        self.registers[self.len as usize] = register;
        self.len += 1;
    }
}

/// How a step names its row.
#[derive(Clone, Copy, Debug)]
pub enum RowName {
    /// By its number.
    Number(RowNumber),
    /// By the register that holds its number.
    Held(Register),
}

/// A row that a statement declares, and what its body may do with it.
#[derive(Clone, Copy, Debug)]
pub struct Access {
    pub key: Key,
    pub kinds: Kinds,
}

impl Access {
    ghost use Rattle.std.specs.Prelude.{◌≡◌};
    ghost use Rattle.model_base.specs.Versions.{is_writing};

    /// Whether it declares a kind that changes rows.
    pub fn is_writing(&self) -> bool
        ensures { result ≡ is_writing self.now }
    {
        self.kinds.insert || self.kinds.update || self.kinds.delete
    }
}

/// What a step computes of two numbers: their sum, difference or product, or 1 or 0 as they compare.
#[derive(Clone, Copy, Debug)]
pub enum Operation {
    Add,
    Sub,
    Mul,
    Less,
    Same,
}

/// One step of a body. Registers are named by `to`, `left`, `right`, `from` and `of`; columns are numbered from 0.
#[derive(Clone, Copy, Debug)]
pub enum Step {
    Const {
        to: Register,
        value: i64,
    },
    Compute {
        operation: Operation,
        to: Register,
        left: Register,
        right: Register,
    },
    Has {
        to: Register,
        table: Table,
        row: RowName,
    },
    Load {
        to: Register,
        table: Table,
        row: RowName,
        column: u32,
    },
    Store {
        table: Table,
        row: RowName,
        column: u32,
        from: Register,
    },
    Insert {
        table: Table,
        row: RowName,
        from: Registers,
    },
    Delete {
        table: Table,
        row: RowName,
    },
    Check {
        of: Register,
    },
    Skip {
        of: Register,
        steps: u32,
    },
    Out {
        of: Register,
    },
}

/// Grants or a revocation as a statement names them; their grantor is the statement's user. A grant of several kinds to several grantees
/// makes one of each kind to each of them.
#[derive(Clone, Copy, Debug)]
pub enum DeedForm {
    Grant {
        kinds: Kinds,
        table: Table,
        grantees: Grantees,
        option: bool,
    },
    Revoke {
        kinds: Kinds,
        table: Table,
        grantees: Grantees,
    },
}

impl DeedForm {
    ghost use Rattle.std.specs.Prelude.{◌≡◌};
    ghost use Rattle.model_base.specs.DeedsLeft.{revocation_of};
    ghost use Rattle.model_base.specs.Outcomes.{deeds_at};
    ghost use Rattle.model_base.specs.RecordGrantees.{deed_grantees};
    ghost use Rattle.model_base.specs.References.{table_of};

    /// The table on which the deeds are.
    pub fn table(&self) -> Table
        ensures { result ≡ table_of self.now }
    {
        match self {
            DeedForm::Grant { table, .. } | DeedForm::Revoke { table, .. } => *table,
        }
    }

    /// Its grantees.
    fn grantees(&self) -> &Grantees
        ensures { result.now ≡ deed_grantees self.now }
    {
        match self {
            DeedForm::Grant { grantees, .. } | DeedForm::Revoke { grantees, .. } => grantees,
        }
    }

    /// The deeds of a user at a place.
    #[inline(always)]
    pub fn deeds_at(&self, place: Place, user: User) -> Deeds<'_>
        ensures { result ≡ deeds_at place user self.now }
    {
        match self {
            DeedForm::Grant {
                kinds,
                table,
                grantees,
                option,
            } => Deeds::granting(place, user, *table, *option, grantees, *kinds),
            DeedForm::Revoke {
                kinds,
                table,
                grantees,
            } => Deeds::revoking(Revocation {
                place,
                grantor: user,
                grantees: *grantees,
                kinds: *kinds,
                table: *table,
            }),
        }
    }

    /// The revocation of a user at a place, if it is one.
    #[inline(always)]
    pub fn revocation_at(&self, place: Place, user: User) -> Option<Revocation>
        ensures { result ≡ revocation_of (deeds_at place user self.now) }
    {
        match *self {
            DeedForm::Grant { .. } => None,
            DeedForm::Revoke {
                kinds,
                table,
                grantees,
            } => Some(Revocation {
                place,
                grantor: user,
                grantees,
                kinds,
                table,
            }),
        }
    }
}

/// What a statement asks for.
#[derive(Debug, Drop)]
pub enum Form {
    Create {
        table: Table,
        columns: u8,
    },
    Run {
        accesses: Items<Access>,
        steps: Items<Step>,
        deed: Option<DeedForm>,
    },
    Deed(DeedForm),
}

impl Form {
    ghost use Rattle.std.specs.Prelude.{◌≡◌, slice_get};
    ghost use Rattle.model_base.specs.Ranks.{position_code};
    ghost use Rattle.model_base.specs.RecordGrantees.{grantees_in};

    /// The grantee at a position of the form's deed, if there is one.
    pub fn grantee(&self, position: Position) -> Option<Grantee>
        ensures { result ≡ slice_get (grantees_in self.now) (position_code position) }
    {
        match self {
            Form::Run {
                deed: Some(deed),
                ..
            }
            | Form::Deed(deed) => deed.grantees().get(position),
            Form::Run { deed: None, .. } | Form::Create { .. } => None,
        }
    }
}

/// One statement of a log, whose users and tables are named by number.
#[derive(Debug, Drop)]
pub struct Statement {
    pub user: User,
    pub form: Form,
}

impl Statement {
    ghost use Rattle.std.specs.Prelude.{◌≡◌, option_to_list};
    ghost use Rattle.model_base.specs.DeedsLeft.{revocation_of};
    ghost use Rattle.model_base.specs.Outcomes.{deeds_of};
    ghost use Rattle.model_base.specs.References.{deed_tables};
    ghost use Rattle.model_base.specs.Versions.{accesses_of};

    /// Its accesses; a statement that creates a table, or only makes a deed, has none.
    pub fn accesses(&self) -> &[Access]
        ensures { result.now ≡ accesses_of self.now.form }
    {
        match &self.form {
            Form::Run { accesses, .. } => accesses.as_slice(),
            Form::Create { .. } | Form::Deed(_) => &[],
        }
    }

    /// The table on which its deeds are, if it has any.
    pub fn deed_table(&self) -> Option<Table>
        ensures { option_to_list result ≡ deed_tables self.now.form }
    {
        match &self.form {
            Form::Run {
                deed: Some(deed),
                ..
            }
            | Form::Deed(deed) => Some(deed.table()),
            Form::Run { deed: None, .. } | Form::Create { .. } => None,
        }
    }

    /// The deeds that the statement makes at a place, if its body completes. It doesn't allocate.
    #[inline(always)]
    pub fn deeds_at(&self, place: Place) -> Deeds<'_>
        ensures { result ≡ deeds_of place self.now.user self.now.form }
    {
        match &self.form {
            Form::Run {
                deed: Some(deed),
                ..
            }
            | Form::Deed(deed) => deed.deeds_at(place, self.user),
            Form::Run { deed: None, .. } | Form::Create { .. } => Deeds::none(),
        }
    }

    /// The revocation that the statement makes at a place, if its body completes and its deed is one.
    #[inline(always)]
    pub fn revocation_at(&self, place: Place) -> Option<Revocation>
        ensures { result ≡ revocation_of (deeds_of place self.now.user self.now.form) }
    {
        match &self.form {
            Form::Run {
                deed: Some(deed),
                ..
            }
            | Form::Deed(deed) => deed.revocation_at(place, self.user),
            Form::Run { deed: None, .. } | Form::Create { .. } => None,
        }
    }
}
