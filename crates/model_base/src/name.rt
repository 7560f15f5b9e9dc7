//! The numbers under which a log names its places, users, tables and rows.

use std::marker::Model;

/// An index of the log, from 0. A transaction's timestamp is its place (Faleiro and Abadi, PVLDB 8, 2015, section 3).
pub type Place = u64;

/// The number of a row in its table.
pub type RowNumber = u32;

/// A user, by its number in the order in which the accepted statements first name users.
#[derive(Clone, Copy, PartialEq, Eq, PartialOrd, Ord, Hash, Debug)]
pub struct User(pub u32);

impl Model for User {
    ghost use Rattle.std.specs.Prelude.{ℕ};

    ghost Value = { ℕ };

    ghost view = { λ user. user.0 };

    ghost inverse = { λ number. record { 0 = number } };
}

/// A table, by its number in the order in which the tables are created.
#[derive(Clone, Copy, PartialEq, Eq, PartialOrd, Ord, Hash, Debug)]
pub struct Table(pub u32);

impl Model for Table {
    ghost use Rattle.std.specs.Prelude.{ℕ};

    ghost Value = { ℕ };

    ghost view = { λ table. table.0 };

    ghost inverse = { λ number. record { 0 = number } };
}
