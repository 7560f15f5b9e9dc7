//! Statements printed as the lines that they were read from.
ghost use Rattle.std.specs.Prelude.{◌≡◌, ◌++◌, ◌||◌, ◌∷◌, [], ◌<◌, IfOk, OnOk, List, ℕ, string_bytes, codes, map};
ghost use Rattle.std.specs.Fmt.{decimal};
ghost use Rattle.std.specs.List.{flat_map};
ghost use Rattle.model_base.specs.Outcomes.{kind_if};
ghost use Rattle.model_base.specs.Privileges.{has_kind};
ghost use Rattle.line_words.specs.StepWords.{operation_word};
ghost use Rattle.line_words.specs.Words.{words};
ghost use Rattle.line_words.specs.Access.{letters, letter_if, access_word};
ghost use Rattle.log_text.specs.Statement.{spelling, deed_words, further_step, kinds_word, last_deed, row_word, statement_words};
ghost use Rattle.log_text.specs.Grantees.{grantees_word};
ghost use Rattle.log_text.specs.Parsing.{kind_text, spaced};
ghost use Rattle.log_text.specs.declared.statement.RawStep.{RawStep};

use crate::grantees::RawGrantees;
use crate::kind::kind_word;
use crate::statement::{RawDeed, RawForm, RawStatement, RawStep};
use line_words::{Name, RawAccess};
use model_base::{Kind, Kinds, Operation, Register, RowName};
use std::alloc::{AllocError, Global};

/// Appends the row, as a step gives it.
fn push_row(text: &mut String, row: RowName) -> Result<(), AllocError>
    ensures { OnOk result (string_bytes text.new ≡ string_bytes text.old ++ row_word row) }
{
    match row {
        RowName::Number(number) => {
            write!(text, "{number}")?;
        }
        RowName::Held(register) => {
            write!(text, "r{}", register.index())?;
        }
    }
    Ok(())
}

/// Appends a space and each of the registers.
fn push_registers(text: &mut String, registers: &[Register]) -> Result<(), AllocError>
    ensures { OnOk result (string_bytes text.new ≡ string_bytes text.old ++ spaced (map decimal registers.now)) }
{
    for register in registers {
        write!(text, " {}", register.index())?;
    }
    Ok(())
}

/// Appends a bar and a CONST.
fn push_constant(text: &mut String, to: Register, value: i64) -> Result<(), AllocError>
    ensures { OnOk result (string_bytes text.new ≡ string_bytes text.old ++ spaced (further_step (RawStep.Const to value))) }
{
    write!(text, " | CONST {} {value}", to.index())?;
    Ok(())
}

/// The word of an operation.
fn operation_word(operation: Operation) -> &'static str
    ensures { result.now ≡ operation_word operation }
{
    match operation {
        Operation::Add => "ADD",
        Operation::Sub => "SUB",
        Operation::Mul => "MUL",
        Operation::Less => "LESS",
        Operation::Same => "SAME",
    }
}

/// Appends a bar, and a step that sets a register to what it computes of two.
fn push_operation(
    text: &mut String,
    operation: Operation,
    to: Register,
    left: Register,
    right: Register,
) -> Result<(), AllocError>
    ensures { OnOk result (string_bytes text.new ≡ string_bytes text.old
        ++ spaced (further_step (RawStep.Compute operation to left right))) }
{
    let word = operation_word(operation);
    let (to, left, right) = (to.index(), left.index(), right.index());
    write!(text, " | {word} {to} {left} {right}")?;
    Ok(())
}

/// Appends a bar and a HAS.
fn push_has(
    text: &mut String,
    to: Register,
    table: &Name<'_>,
    row: RowName,
) -> Result<(), AllocError>
    ensures { OnOk result (string_bytes text.new ≡ string_bytes text.old ++ spaced (further_step (RawStep.Has to table.now row))) }
{
    write!(text, " | HAS {} {table} ", to.index())?;
    push_row(text, row)?;
    Ok(())
}

/// Appends a bar and a LOAD.
fn push_load(
    text: &mut String,
    to: Register,
    table: &Name<'_>,
    row: RowName,
    column: u32,
) -> Result<(), AllocError>
    ensures { OnOk result (string_bytes text.new ≡ string_bytes text.old ++ spaced (further_step (RawStep.Load to table.now row column))) }
{
    write!(text, " | LOAD {} {table} ", to.index())?;
    push_row(text, row)?;
    write!(text, " {column}")?;
    Ok(())
}

/// Appends a bar and a STORE.
fn push_store(
    text: &mut String,
    table: &Name<'_>,
    row: RowName,
    column: u32,
    from: Register,
) -> Result<(), AllocError>
    ensures { OnOk result (string_bytes text.new
        ≡ string_bytes text.old ++ spaced (further_step (RawStep.Store table.now row column from))) }
{
    write!(text, " | STORE {table} ")?;
    push_row(text, row)?;
    write!(text, " {column} {}", from.index())?;
    Ok(())
}

/// Appends a bar and an INSERT.
fn push_insert(
    text: &mut String,
    table: &Name<'_>,
    row: RowName,
    from: &[Register],
) -> Result<(), AllocError>
    ensures { OnOk result (string_bytes text.new
        ≡ string_bytes text.old ++ spaced (codes "|" ∷ codes "INSERT" ∷ table.now ∷ row_word row ∷ map decimal from.now)) }
{
    write!(text, " | INSERT {table} ")?;
    push_row(text, row)?;
    push_registers(text, from)?;
    Ok(())
}

/// Appends a bar and a DELETE.
fn push_delete(text: &mut String, table: &Name<'_>, row: RowName) -> Result<(), AllocError>
    ensures { OnOk result (string_bytes text.new ≡ string_bytes text.old ++ spaced (further_step (RawStep.Delete table.now row))) }
{
    write!(text, " | DELETE {table} ")?;
    push_row(text, row)?;
    Ok(())
}

/// Appends a bar, and a step of one register.
fn push_use(text: &mut String, word: &str, of: Register) -> Result<(), AllocError>
    ensures { OnOk result (string_bytes text.new ≡ string_bytes text.old ++ spaced (codes "|" ∷ word.now ∷ decimal of ∷ [])) }
{
    write!(text, " | {word} {}", of.index())?;
    Ok(())
}

/// Appends a bar and a SKIP.
fn push_skip(text: &mut String, of: Register, steps: u32) -> Result<(), AllocError>
    ensures { OnOk result (string_bytes text.new ≡ string_bytes text.old ++ spaced (further_step (RawStep.Skip of steps))) }
{
    write!(text, " | SKIP {} {steps}", of.index())?;
    Ok(())
}

/// Appends a bar and the step.
fn push_step(text: &mut String, step: &RawStep<'_>) -> Result<(), AllocError>
    ensures { OnOk result (string_bytes text.new ≡ string_bytes text.old ++ spaced (further_step step.now)) }
{
    match step {
        RawStep::Const { to, value } => push_constant(text, *to, *value),
        RawStep::Compute {
            operation,
            to,
            left,
            right,
        } => push_operation(text, *operation, *to, *left, *right),
        RawStep::Has { to, table, row } => push_has(text, *to, table, *row),
        RawStep::Load {
            to,
            table,
            row,
            column,
        } => push_load(text, *to, table, *row, *column),
        RawStep::Store {
            table,
            row,
            column,
            from,
        } => push_store(text, table, *row, *column, *from),
        RawStep::Insert { table, row, from } => push_insert(text, table, *row, from.as_slice()),
        RawStep::Delete { table, row } => push_delete(text, table, *row),
        RawStep::Check { of } => push_use(text, "CHECK", *of),
        RawStep::Skip { of, steps } => push_skip(text, *of, *steps),
        RawStep::Out { of } => push_use(text, "OUT", *of),
    }
}

/// Appends the letter, if it is wanted.
fn push_letter(text: &mut String, wanted: bool, letter: char) -> Result<(), AllocError>
    requires { letter < 128 }
    ensures { OnOk result (string_bytes text.new ≡ string_bytes text.old ++ letter_if wanted letter) }
{
    if wanted {
        text.push(letter)?;
    }
    Ok(())
}

/// Appends the letters of the kinds.
fn push_letters(text: &mut String, kinds: Kinds) -> Result<(), AllocError>
    ensures { OnOk result (string_bytes text.new ≡ string_bytes text.old ++ letters kinds) }
{
    push_letter(text, kinds.read, 'R')?;
    push_letter(text, kinds.insert, 'I')?;
    push_letter(text, kinds.update, 'U')?;
    push_letter(text, kinds.delete, 'D')?;
    Ok(())
}

/// Appends a space and each of the accesses.
fn push_accesses(text: &mut String, accesses: &[RawAccess<'_>]) -> Result<(), AllocError>
    ensures { OnOk result (string_bytes text.new ≡ string_bytes text.old ++ spaced (map access_word accesses.now)) }
{
    for access in accesses {
        write!(text, " {}:{}:", access.table, access.row)?;
        push_letters(text, access.kinds)?;
    }
    Ok(())
}

/// Appends a bar and each of the steps.
fn push_steps(text: &mut String, steps: &[RawStep<'_>]) -> Result<(), AllocError>
    ensures { OnOk result (string_bytes text.new ≡ string_bytes text.old ++ spaced (flat_map further_step steps.now)) }
{
    for step in steps {
        push_step(text, step)?;
    }
    Ok(())
}

/// Appends the kind and what is between it and the one before it, if the kind is one of these.
fn push_kind(
    text: &mut String,
    kinds: Kinds,
    kind: Kind,
    is_later: bool,
) -> Result<bool, AllocError>
    ensures text { OnOk result (string_bytes text.new ≡ string_bytes text.old ++ kind_text is_later (kind_if kinds kind)) }
    ensures later { IfOk result (λ later. later ≡ (is_later || has_kind kinds kind)) }
{
    if !kinds.contains(kind) {
        return Ok(is_later);
    }
    if is_later {
        text.push(',')?;
    }
    text.push_str(kind_word(kind))?;
    Ok(true)
}

/// Appends the kinds, with commas between them.
fn push_kinds(text: &mut String, kinds: Kinds) -> Result<(), AllocError>
    ensures { OnOk result (string_bytes text.new ≡ string_bytes text.old ++ kinds_word kinds) }
{
    let later = push_kind(text, kinds, Kind::Read, false)?;
    let later = push_kind(text, kinds, Kind::Insert, later)?;
    let later = push_kind(text, kinds, Kind::Update, later)?;
    push_kind(text, kinds, Kind::Delete, later)?;
    Ok(())
}

/// Appends the kinds, a table and the grantees of a deed, each after a space.
fn push_parties(
    text: &mut String,
    kinds: Kinds,
    table: &Name<'_>,
    grantees: &RawGrantees<'_>,
) -> Result<(), AllocError>
    ensures { OnOk result (string_bytes text.new
        ≡ string_bytes text.old ++ spaced (kinds_word kinds ∷ table.now ∷ grantees_word grantees.now ∷ [])) }
{
    text.push(' ')?;
    push_kinds(text, kinds)?;
    write!(text, " {table} {}", grantees.word())?;
    Ok(())
}

/// Appends a grant or a revocation, each word after a space.
fn push_deed(text: &mut String, deed: &RawDeed<'_>) -> Result<(), AllocError>
    ensures { OnOk result (string_bytes text.new ≡ string_bytes text.old ++ spaced (deed_words deed.now)) }
{
    match deed {
        RawDeed::Grant {
            kinds,
            table,
            grantees,
            option,
        } => {
            text.push_str(" GRANT")?;
            push_parties(text, *kinds, table, grantees)?;
            if *option {
                text.push_str(" OPTION")?;
            }
        }
        RawDeed::Revoke {
            kinds,
            table,
            grantees,
        } => {
            text.push_str(" REVOKE")?;
            push_parties(text, *kinds, table, grantees)?;
        }
    }
    Ok(())
}

/// Appends a bar and the deed, if there is one.
fn push_last_deed(text: &mut String, deed: &Option<RawDeed<'_>>) -> Result<(), AllocError>
    ensures { OnOk result (string_bytes text.new ≡ string_bytes text.old ++ spaced (last_deed deed.now)) }
{
    if let Some(deed) = deed {
        text.push_str(" |")?;
        push_deed(text, deed)?;
    }
    Ok(())
}

/// The line of a RUN.
fn run_text(
    alloc: Global,
    user: &str,
    accesses: &[RawAccess<'_>],
    steps: &[RawStep<'_>],
    deed: &Option<RawDeed<'_>>,
) -> Result<String, AllocError>
    ensures { IfOk result (λ text. string_bytes text
        ≡ user.now ++ codes " RUN" ++ spaced (map access_word accesses.now)
        ++ spaced (flat_map further_step steps.now) ++ spaced (last_deed deed.now)) }
{
    let mut text = format!(in alloc; "{user} RUN")?;
    push_accesses(&mut text, accesses)?;
    push_steps(&mut text, steps)?;
    push_last_deed(&mut text, deed)?;
    Ok(text)
}

/// The line of a deed by itself.
fn deed_text(alloc: Global, user: &str, deed: &RawDeed<'_>) -> Result<String, AllocError>
    ensures { IfOk result (λ text. string_bytes text ≡ user.now ++ spaced (deed_words deed.now)) }
{
    let mut text = format!(in alloc; "{user}")?;
    push_deed(&mut text, deed)?;
    Ok(text)
}

/// The one line that reads as the statement, without an end of line. It fails only where the allocator refused.
#[tactic(auto, using(crate::proofs::Grammar::line_is_spelling, crate::proofs::Joined::run_spelling, crate::proofs::Joined::deed_spelling))]
pub fn print_statement(alloc: Global, statement: &RawStatement<'_>) -> Result<Vec<u8>, AllocError>
    // The line is the statement's words, joined by single spaces.
    ensures text { IfOk result (λ text. text.items ≡ spelling statement.now) }
    // A line of which these are the words is that line, byte for byte.
    ensures back { IfOk result (λ text. (line : List ℕ) → words line ≡ statement_words statement.now → text.items ≡ line) }
{
    let user = statement.user();
    match statement.form() {
        RawForm::Create { table, columns } => {
            let text = format!(in alloc; "{user} CREATE {table} {columns}")?;
            Ok(text.into_bytes())
        }
        RawForm::Run {
            accesses,
            steps,
            deed,
        } => {
            let text = run_text(alloc, user, accesses.as_slice(), steps.as_slice(), deed)?;
            Ok(text.into_bytes())
        }
        RawForm::Deed(deed) => {
            let text = deed_text(alloc, user, deed)?;
            Ok(text.into_bytes())
        }
    }
}
