//! Keys, rows and outputs.

use crate::limits::MOST_VALUES;
use crate::name::{RowNumber, Table};
use std::marker::Model;

/// Which row: its table, and its number there.
#[derive(Clone, Copy, PartialEq, Eq, PartialOrd, Ord, Hash, Debug)]
pub struct Key {
    pub table: Table,
    pub row: RowNumber,
}

/// A row: a number for each column of its table.
pub type Row = Values;

/// What a body answers: the numbers that its OUT steps gave, in order.
pub type Outputs = Values;

/// Up to `MOST_VALUES` numbers, kept in the value itself, so that a copy doesn't allocate.
#[derive(Clone, Copy, Debug)]
pub struct Values {
    len: u8,
    values: [i64; MOST_VALUES],
}

impl Model for Values {
    ghost use Rattle.std.specs.Prelude.{List, ℤ};

    ghost Value = { List ℤ };

    ghost use Rattle.model_base.specs.Values.{values_of, IsPadded, padded, padded-undoes};

    ghost view = { values_of };

    ghost invariant = { IsPadded };

    ghost inverse = { padded };

    ghost inverse_ok = { padded-undoes };
}

impl Values {
    ghost use Rattle.std.specs.Prelude.{◌≡◌, ◌<◌, ◌++◌, ◌∷◌, [], length, pos, slice_index_or, slice_set};

    /// No number.
    pub fn new() -> Self
        ensures { result ≡ [] }
    {
        Values {
            len: 0,
            values: [0; MOST_VALUES],
        }
    }

    /// How many there are.
    pub fn len(&self) -> usize
        ensures { result ≡ length self.now }
    {
        self.len as usize
    }

    /// The numbers, in order.
    pub fn as_slice(&self) -> &[i64]
        ensures { result.now ≡ self.now }
    {
        &self.values[..self.len as usize]
    }

    /// Appends a number to the others.
    pub fn push(&mut self, value: i64)
        requires { length self.old < MOST_VALUES }
        ensures { self.new ≡ self.old ++ value ∷ [] }
    {
        self.values[self.len as usize] = value;
        self.len += 1;
    }

    /// The number in this column, or 0 past the last.
    pub fn column(&self, column: u32) -> i64
        ensures { result ≡ slice_index_or self.now column (pos 0) }
    {
        if column < u32::from(self.len) {
            self.values[column as usize]
        } else {
            0
        }
    }

    /// Writes a number into a column, if there is one.
    pub fn set_column(&mut self, column: u32, value: i64)
        ensures { self.new ≡ slice_set self.old column value }
    {
        if column < u32::from(self.len) {
            self.values[column as usize] = value;
        }
    }
}
