//! The rows that a body works on.

ghost use Rattle.std.specs.Prelude.{◌≡◌, ◌<◌, ◌++◌, ◌∷◌, [], List, None, Some, ℤ, length, replicate, slice_index_or, slice_set};
ghost use Rattle.std.specs.Bool.{OnFalse, OnTrue};

use model_base::{MOST_ACCESSES, MOST_OUTPUTS, Outputs, Row};

/// The row of each access of a statement, or its absence, by the access's place; where a store found it; and the outputs so far.
#[derive(Clone, Copy)]
pub struct Window {
    rows: [Option<Row>; MOST_ACCESSES],
    /// Where a store found the rows. It may look there first, and trusts none of them.
    found: [usize; MOST_ACCESSES],
    outputs: Outputs,
}

impl Window {
    /// The window of a body that hasn't begun: its rows are all absent, and there is no output.
    pub fn new() -> Self
        ensures rows { result.rows ≡ replicate MOST_ACCESSES None }
        ensures outputs { result.outputs ≡ [] }
    {
        Window {
            rows: [None; MOST_ACCESSES],
            found: [0; MOST_ACCESSES],
            outputs: Outputs::new(),
        }
    }

    /// The row of the access at this place, from 0.
    pub fn row(&self, access: usize) -> &Option<Row>
        requires { access < MOST_ACCESSES }
        ensures row { result.now ≡ slice_index_or self.now.rows access None }
        ensures whole { length self.now.rows ≡ MOST_ACCESSES }
    {
        &self.rows[access]
    }

    /// Writes a row, or its absence, at this place, from 0.
    pub fn set(&mut self, access: usize, row: Option<Row>)
        requires { access < MOST_ACCESSES }
        ensures rows { self.new.rows ≡ slice_set self.old.rows access row }
        ensures outputs { self.new.outputs ≡ self.old.outputs }
    {
        self.rows[access] = row;
    }

    /// Sets the row at this place, from 0, or its absence, and notes at which of its indexes a store found it.
    #[inline(always)]
    pub fn set_found(&mut self, access: usize, row: &Option<Row>, index: usize)
        requires { access < MOST_ACCESSES }
        ensures rows { self.new.rows ≡ slice_set self.old.rows access row.now }
        ensures found { self.new.found ≡ slice_set self.old.found access index }
        ensures outputs { self.new.outputs ≡ self.old.outputs }
    {
        self.rows[access] = *row;
        self.found[access] = index;
    }

    /// The index that was noted for the access at this place, from 0. Rows that the body changed since don't change it.
    #[inline(always)]
    pub fn found(&self, access: usize) -> usize
        requires { access < MOST_ACCESSES }
        ensures { result ≡ slice_index_or self.now.found access 0 }
    {
        self.found[access]
    }

    /// Sets a column of the row at this place, from 0, where there is a row with such a column, and returns whether there is a row.
    pub(crate) fn set_column(&mut self, access: usize, column: u32, value: i64) -> bool
        requires { access < MOST_ACCESSES }
        ensures some { OnTrue result ((row : List ℤ) × (slice_index_or self.old.rows access None ≡ Some row)
            × (self.new.rows ≡ slice_set self.old.rows access (Some (slice_set row column value)))) }
        ensures none { OnFalse result ((slice_index_or self.old.rows access None ≡ None) × (self.new.rows ≡ self.old.rows)) }
        ensures outputs { self.new.outputs ≡ self.old.outputs }
        ensures whole { length self.old.rows ≡ MOST_ACCESSES }
    {
        match &mut self.rows[access] {
            None => false,
            Some(row) => {
                row.set_column(column, value);
                true
            }
        }
    }

    /// The outputs, in order.
    pub fn outputs(&self) -> Outputs
        ensures { result ≡ self.now.outputs }
    {
        self.outputs
    }

    /// Forgets the outputs.
    pub fn clear_outputs(&mut self)
        ensures outputs { self.new.outputs ≡ [] }
        ensures rows { self.new.rows ≡ self.old.rows }
        ensures whole { length self.new.rows ≡ MOST_ACCESSES }
    {
        self.outputs = Outputs::new();
    }

    /// Appends an output to the others, of which there are fewer than `MOST_OUTPUTS`.
    pub(crate) fn push_output(&mut self, value: i64)
        requires { length self.old.outputs < MOST_OUTPUTS }
        ensures outputs { self.new.outputs ≡ self.old.outputs ++ value ∷ [] }
        ensures rows { self.new.rows ≡ self.old.rows }
    {
        self.outputs.push(value);
    }
}
