//! What each step does.

ghost use Rattle.std.specs.Prelude.{◌≡◌, ◌<◌, ◌≤◌, ◌+◌, [], length, map, pos, IfSome, slice_index_or};
ghost use Rattle.std.specs.List.{position};
ghost use Rattle.model_base.specs.Rows.{Rows};
ghost use Rattle.model_base.specs.Body.{is_of, meaning, row_number};
ghost use Rattle.body.specs.Ending.{ending_of};
ghost use Rattle.body.specs.Premises.{FitsWindow, IsNarrow, outputs_of_step};
ghost use Rattle.body.specs.Shown.{WindowShows, with_rows};
ghost use Rattle.body.specs.Work.{IsPlace, Performs};

use crate::ending::BodyEnd;
use crate::registers::{check, compute, flag, read, skip, write};
use crate::window::Window;
use model_base::{
    Access, Kind, MOST_ACCESSES, MOST_COLUMNS, MOST_OUTPUTS, MOST_REGISTERS, Reason, Register,
    Registers, Row, RowName, Step, Table,
};

/// What one step results in.
#[derive(Drop)]
pub(crate) enum StepEnd {
    GoesOn(u32),
    Aborts(Reason),
    Undeclared,
}

/// A column of a row, as a step names it.
#[derive(Clone, Copy)]
struct CellName {
    table: Table,
    row: RowName,
    column: u32,
}

impl CellName {
    /// The column of this number of the row.
    fn new(table: Table, row: RowName, column: u32) -> Self
        ensures { result ≡ record { table = table; row = row; column = column } }
    {
        CellName { table, row, column }
    }
}

/// The number of a row, as a step gives it.
fn number(registers: &[i64; MOST_REGISTERS], row: RowName) -> i64
    ensures { result ≡ row_number registers.now row }
{
    match row {
        RowName::Number(number) => i64::from(number),
        RowName::Held(register) => read(registers, register),
    }
}

/// Whether the access is to the table's row of this number.
fn is_of(access: &Access, table: Table, number: i64) -> bool
    ensures { result ≡ is_of table number access.now }
{
    access.key.table == table && i64::from(access.key.row) == number
}

/// The place of the access to the table's row of this number.
fn position(accesses: &[Access], table: Table, number: i64) -> Option<usize>
    ensures { result ≡ position (is_of table number) accesses.now }
{
    accesses
        .iter()
        .position(|access| is_of(access, table, number))
}

/// The place of the access that declares this kind for the row that a step names.
fn place_of(
    accesses: &[Access],
    registers: &[i64; MOST_REGISTERS],
    kind: Kind,
    table: Table,
    row: RowName,
) -> Option<usize>
    ensures place { IsPlace accesses.now kind table (row_number registers.now row) result }
    ensures within { IfSome result (λ place. place < length accesses.now) }
{
    match position(accesses, table, number(registers, row)) {
        Some(place) => {
            if accesses[place].kinds.contains(kind) {
                Some(place)
            } else {
                None
            }
        }
        None => None,
    }
}

/// Whether the row is there.
fn has(
    accesses: &[Access],
    window: &Window,
    registers: &mut [i64; MOST_REGISTERS],
    to: Register,
    table: Table,
    row: RowName,
) -> StepEnd
    requires { length accesses.now ≤ MOST_ACCESSES }
    ensures { Performs accesses.now (Step.Has to table row) window.now registers.old result window.now registers.new }
{
    match place_of(accesses, registers, Kind::Read, table, row) {
        None => StepEnd::Undeclared,
        Some(place) => {
            let found = window.row(place);
            write(registers, to, flag(found.is_some()))
        }
    }
}

/// The number in a column of a row.
fn load(
    accesses: &[Access],
    window: &Window,
    registers: &mut [i64; MOST_REGISTERS],
    to: Register,
    cell: CellName,
) -> StepEnd
    requires { length accesses.now ≤ MOST_ACCESSES }
    ensures { Performs accesses.now (Step.Load to cell.table cell.row cell.column)
        window.now registers.old result window.now registers.new }
{
    match place_of(accesses, registers, Kind::Read, cell.table, cell.row) {
        None => StepEnd::Undeclared,
        Some(place) => match window.row(place) {
            None => StepEnd::Aborts(Reason::NoRow),
            Some(found) => { write(registers, to, found.column(cell.column)) }
        },
    }
}

/// Writes a number into a column of a row.
fn store(
    accesses: &[Access],
    window: &mut Window,
    registers: &[i64; MOST_REGISTERS],
    cell: CellName,
    from: Register,
) -> StepEnd
    requires { length accesses.now ≤ MOST_ACCESSES }
    ensures effect { Performs accesses.now (Step.Store cell.table cell.row cell.column from)
        window.old registers.now result window.new registers.now }
    ensures outputs { window.new.outputs ≡ window.old.outputs }
{
    match place_of(accesses, registers, Kind::Update, cell.table, cell.row) {
        None => StepEnd::Undeclared,
        Some(place) => {
            if window.set_column(place, cell.column, read(registers, from)) {
                StepEnd::GoesOn(0)
            } else {
                StepEnd::Aborts(Reason::NoRow)
            }
        }
    }
}

/// The numbers in these registers.
fn gathered(registers: &[i64; MOST_REGISTERS], from: &[Register]) -> Row
    requires { length from.now ≤ MOST_COLUMNS }
    ensures { result ≡ map (λ register. slice_index_or registers.now register (pos 0)) from.now }
{
    let mut row = Row::new();
    for register in from {
        row.push(read(registers, *register));
    }
    row
}

/// Writes a row where there is none.
fn insert(
    accesses: &[Access],
    window: &mut Window,
    registers: &[i64; MOST_REGISTERS],
    table: Table,
    row: RowName,
    from: &Registers,
) -> StepEnd
    requires places { length accesses.now ≤ MOST_ACCESSES }
    requires columns { length from.now ≤ MOST_COLUMNS }
    ensures effect { Performs accesses.now (Step.Insert table row from.now) window.old registers.now result window.new registers.now }
    ensures outputs { window.new.outputs ≡ window.old.outputs }
{
    match place_of(accesses, registers, Kind::Insert, table, row) {
        None => StepEnd::Undeclared,
        Some(place) => match window.row(place) {
            None => {
                window.set(place, Some(gathered(registers, from.as_slice())));
                StepEnd::GoesOn(0)
            }
            Some(_) => StepEnd::Aborts(Reason::RowExists),
        },
    }
}

/// Takes a row away.
fn delete(
    accesses: &[Access],
    window: &mut Window,
    registers: &[i64; MOST_REGISTERS],
    table: Table,
    row: RowName,
) -> StepEnd
    requires { length accesses.now ≤ MOST_ACCESSES }
    ensures effect { Performs accesses.now (Step.Delete table row) window.old registers.now result window.new registers.now }
    ensures outputs { window.new.outputs ≡ window.old.outputs }
{
    match place_of(accesses, registers, Kind::Delete, table, row) {
        None => StepEnd::Undeclared,
        Some(place) => match window.row(place) {
            None => StepEnd::Aborts(Reason::NoRow),
            Some(_) => {
                window.set(place, None);
                StepEnd::GoesOn(0)
            }
        },
    }
}

/// Does one step.
fn perform(
    accesses: &[Access],
    step: &Step,
    window: &mut Window,
    registers: &mut [i64; MOST_REGISTERS],
) -> StepEnd
    requires places { length accesses.now ≤ MOST_ACCESSES }
    requires columns { IsNarrow step.now }
    requires room { length window.old.outputs + outputs_of_step step.now ≤ MOST_OUTPUTS }
    ensures effect { Performs accesses.now step.now window.old registers.old result window.new registers.new }
    ensures outputs { length window.new.outputs ≤ length window.old.outputs + outputs_of_step step.now }
{
    match step {
        Step::Const { to, value } => write(registers, *to, *value),
        Step::Compute {
            operation,
            to,
            left,
            right,
        } => compute(registers, *operation, *to, *left, *right),
        Step::Has { to, table, row } => has(accesses, window, registers, *to, *table, *row),
        Step::Load {
            to,
            table,
            row,
            column,
        } => {
            let cell = CellName::new(*table, *row, *column);
            load(accesses, window, registers, *to, cell)
        }
        Step::Store {
            table,
            row,
            column,
            from,
        } => {
            let cell = CellName::new(*table, *row, *column);
            store(accesses, window, registers, cell, *from)
        }
        Step::Insert { table, row, from } => insert(
            accesses, window, registers, *table, *row, from,
        ),
        Step::Delete { table, row } => delete(accesses, window, registers, *table, *row),
        Step::Check { of } => check(registers, *of),
        Step::Skip { of, steps } => skip(registers, *of, *steps),
        Step::Out { of } => {
            window.push_output(read(registers, *of));
            StepEnd::GoesOn(0)
        }
    }
}

/// Does the steps in order.
pub(crate) fn run_steps(accesses: &[Access], steps: &[Step], window: &mut Window) -> BodyEnd
    requires fits { FitsWindow accesses.now steps.now }
    requires fresh { window.old.outputs ≡ [] }
    ensures { (rows : Rows) → WindowShows accesses.now window.old rows
        → meaning steps.now accesses.now rows
        ≡ ending_of result (with_rows accesses.now window.new.rows rows) window.new.outputs }
{
    let mut registers = [0; MOST_REGISTERS];
    let mut passed = 0;
    for (number, step) in steps.iter().enumerate() {
        if passed > 0 {
            passed -= 1;
            continue;
        }
        match perform(accesses, step, window, &mut registers) {
            StepEnd::GoesOn(next) => passed = next,
            StepEnd::Aborts(reason) => {
                return BodyEnd::Aborted {
                    step: number as u64,
                    reason,
                };
            }
            StepEnd::Undeclared => {
                return BodyEnd::Undeclared {
                    step: number as u64,
                };
            }
        }
    }
    BodyEnd::Completed
}
