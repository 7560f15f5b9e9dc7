//! Statements with names as text, as a line spells them.

use crate::grantees::RawGrantees;
use line_words::{Name, RawAccess};
use model_base::{Items, Kinds, Operation, Register, Registers, RowName};
use std::marker::Model;

/// One step of a body, with its table's name.
#[derive(Drop)]
pub enum RawStep<'a> {
    Const {
        to: Register,
        value: i64,
    },
    Compute {
        operation: Operation,
        to: Register,
        left: Register,
        right: Register,
    },
    Has {
        to: Register,
        table: Name<'a>,
        row: RowName,
    },
    Load {
        to: Register,
        table: Name<'a>,
        row: RowName,
        column: u32,
    },
    Store {
        table: Name<'a>,
        row: RowName,
        column: u32,
        from: Register,
    },
    /// A row of one to `MOST_COLUMNS` numbers.
    Insert {
        table: Name<'a>,
        row: RowName,
        from: Registers,
    },
    Delete {
        table: Name<'a>,
        row: RowName,
    },
    Check {
        of: Register,
    },
    Skip {
        of: Register,
        steps: u32,
    },
    Out {
        of: Register,
    },
}

/// A grant or a revocation. Its grantor is the statement's user.
#[derive(Drop)]
pub enum RawDeed<'a> {
    /// Of each kind to each grantee. With the option the grantees may grant further; a list with PUBLIC never has it.
    Grant {
        kinds: Kinds,
        table: Name<'a>,
        grantees: RawGrantees<'a>,
        option: bool,
    },
    Revoke {
        kinds: Kinds,
        table: Name<'a>,
        grantees: RawGrantees<'a>,
    },
}

/// What a statement asks for.
#[derive(Drop)]
pub enum RawForm<'a> {
    /// A table with this many columns, which the line may give as any number of 32 bits.
    Create {
        table: Name<'a>,
        columns: u32,
    },
    /// One to `MOST_ACCESSES` accesses, at most `MOST_STEPS` steps, at most `MOST_OUTPUTS` of them `Out`, and perhaps a deed.
    Run {
        accesses: Items<RawAccess<'a>>,
        steps: Items<RawStep<'a>>,
        deed: Option<RawDeed<'a>>,
    },
    Deed(RawDeed<'a>),
}

/// A statement as a line spells it. `parse_line` alone makes one, so it keeps to the limits of the grammar.
#[derive(Drop)]
pub struct RawStatement<'a> {
    user: Name<'a>,
    form: RawForm<'a>,
}

impl<'a> Model for RawStatement<'a> {
    ghost use Rattle.log_text.specs.Statement.{Sentence, IsInGrammar};

    ghost Value = { Sentence };

    ghost view = { λ s. record { user = s.user; form = s.form } };

    ghost invariant = { λ s. IsInGrammar record { user = s.user; form = s.form } };
}

impl<'a> RawStatement<'a> {
    ghost use Rattle.std.specs.Prelude.{◌≡◌};
    ghost use Rattle.log_text.specs.Statement.{IsInGrammar};

    /// The name of the user who makes it.
    pub fn user(&self) -> &'a str
        ensures value { result.now ≡ self.now.user }
        ensures grammar { IsInGrammar self.now }
    {
        self.user.as_str()
    }

    /// That user's name, as the line has it.
    pub fn name(&self) -> &Name<'a>
        ensures { result.now ≡ self.now.user }
    {
        &self.user
    }

    /// What it asks for.
    pub fn form(&self) -> &RawForm<'a>
        ensures value { result.now ≡ self.now.form }
        ensures grammar { IsInGrammar self.now }
    {
        &self.form
    }

    /// The statement of these parts.
    pub(crate) fn of(user: Name<'a>, form: RawForm<'a>) -> RawStatement<'a>
        requires { IsInGrammar record { user = user; form = form } }
        ensures { result ≡ record { user = user.entry; form = form.entry } }
    {
        RawStatement { user, form }
    }
}
