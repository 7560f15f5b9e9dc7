//! What every run of a body keeps.

ghost use Rattle.model_base.specs.Outcomes.{body};
ghost use Rattle.model_base.specs.Rows.{Rows};
ghost use Rattle.model_base.specs.declared.statement.Form.{Form};
ghost use Rattle.body.specs.Laws.{DependsOnDeclared, KeepsOthers, LeavesOthers, LeavesUnwritten, ShowsRows};
ghost use Rattle.body.specs.Shape.{KeepsColumns, KeepsShape, LogsHaveShape};
ghost use Rattle.body.specs.Steps.{EndsWithin, steps_of};

/// A completed body leaves each row alone that its statement does not declare.
pub fn leaves_others()
    ensures { LeavesOthers }
{}

/// A completed body leaves each row alone for which its statement declares no kind that changes rows.
pub fn leaves_unwritten()
    ensures { LeavesUnwritten }
{}

/// What a body results in depends on no row but those that its statement declares: over two maps that agree on these, it ends in the same
/// way, with the same outputs, and with maps that agree on these again.
pub fn depends_on_declared()
    ensures { DependsOnDeclared }
{}

/// A completed body whose constants have 64 bits, and whose inserted rows have the columns of their tables, leaves rows of that shape after
/// if it finds such, and its outputs have 64 bits.
pub fn keeps_shape()
    ensures { KeepsShape }
{}

/// Whatever the numbers of the rows, such a body leaves rows with the columns of their tables, if it finds such.
pub fn keeps_columns()
    ensures { KeepsColumns }
{}

/// Before each place of a log of such statements, each row has the columns of its table, and its numbers have 64 bits.
pub fn logs_have_shape()
    ensures { LogsHaveShape }
{}

/// A map with the rows of a window at the declared keys has the window's row at each of them, if no two are one key.
pub fn shows_rows()
    ensures { ShowsRows }
{}

/// A map with the rows of a window at the declared keys has at every other key the row that it had.
pub fn keeps_others()
    ensures { KeepsOthers }
{}

/// A completed body gives no more outputs than it has OUT steps, and any other ends at one of its steps.
pub fn ends_within_steps()
    ensures { (form : Form) (rows : Rows) → EndsWithin (steps_of form) (body rows form) }
{}
