//! The steps that touch a row.
ghost use Rattle.std.specs.Prelude.{◌≡◌, ◌∷◌, ◌<◌, length, Some, List, IfOk, IfErr, IsTrue, ◌^◌};
ghost use Rattle.std.specs.Fmt.{decimal};
ghost use Rattle.line_words.specs.Words.{first_word, is_name};
ghost use Rattle.log_text.specs.Statement.{row_word, IsRowNumber};
ghost use Rattle.log_text.specs.Fault.{Expected, OfName, OfRow, OfPlain, fault_from, misfit};
ghost use Rattle.log_text.specs.Parsing.{AreInsertable, FailAsRegisters, FitAsRegisters, ReadsStep, TakesRegisters};
ghost use Rattle.line_words.specs.declared.step_name.StepName.TheVariants.{Has, Load, Store, Insert, Delete};

use super::fields::{bar_or_end, name, number, register, register_of, row};
use crate::statement::RawStep;
use line_words::{LineFault, Name, Words};
use model_base::{MOST_COLUMNS, Registers, RowName};

/// Takes a table's name. One name is compared first: where it is the same, its bytes aren't gone over one by one.
#[inline(always)]
fn table<'a>(words: &mut Words<'a>, near: &Name<'a>) -> Result<Name<'a>, LineFault>
    ensures ok { IfOk result (λ n. (words.old ≡ n ∷ words.new) × IsTrue (is_name n)) }
    ensures fault { IfErr result (λ f. misfit OfName (first_word words.old) ≡ Some f) }
{
    if words.next_same(near) {
        return Ok(Name::of(near.as_str().as_bytes()));
    }
    name(words)
}

/// What is after HAS, up to the next step or the end.
#[inline(always)]
pub(super) fn has<'a>(
    words: &mut Words<'a>,
    near: &Name<'a>,
    step: &mut RawStep<'a>,
) -> Result<bool, LineFault>
    ensures { ReadsStep Has result step.new words.old words.new }
{
    let to = register(words)?;
    let table = table(words, near)?;
    let row = row(words)?;
    *step = RawStep::Has { to, table, row };
    bar_or_end(words)
}

/// Takes a table's name, a row and a column.
#[inline(always)]
fn cell<'a>(words: &mut Words<'a>, near: &Name<'a>) -> Result<(Name<'a>, RowName, u32), LineFault>
    ensures ok { IfOk result (λ r. (words.old ≡ r.0 ∷ row_word r.1 ∷ decimal r.2 ∷ words.new)
        × IsTrue (is_name r.0) × IsRowNumber r.1 × (r.2 < 2 ^ 32)) }
    ensures fits { IfOk result (λ r. (others : List Expected)
        → fault_from (OfName ∷ OfRow ∷ OfPlain ∷ others) words.old ≡ fault_from others words.new) }
    ensures fault { IfErr result (λ f. (others : List Expected) → fault_from (OfName ∷ OfRow ∷ OfPlain ∷ others) words.old ≡ Some f) }
{
    let table = table(words, near)?;
    let row = row(words)?;
    let column = number(words)?;
    Ok((table, row, column))
}

/// What is after LOAD, up to the next step or the end.
#[inline(always)]
pub(super) fn load<'a>(
    words: &mut Words<'a>,
    near: &Name<'a>,
    step: &mut RawStep<'a>,
) -> Result<bool, LineFault>
    ensures { ReadsStep Load result step.new words.old words.new }
{
    let to = register(words)?;
    let (table, row, column) = cell(words, near)?;
    *step = RawStep::Load {
        to,
        table,
        row,
        column,
    };
    bar_or_end(words)
}

/// What is after STORE, up to the next step or the end.
#[inline(always)]
pub(super) fn store<'a>(
    words: &mut Words<'a>,
    near: &Name<'a>,
    step: &mut RawStep<'a>,
) -> Result<bool, LineFault>
    ensures { ReadsStep Store result step.new words.old words.new }
{
    let (table, row, column) = cell(words, near)?;
    let from = register(words)?;
    *step = RawStep::Store {
        table,
        row,
        column,
        from,
    };
    bar_or_end(words)
}

/// The further registers of an INSERT, up to the next step or the end.
#[inline(always)]
fn more_registers(words: &mut Words<'_>, registers: &mut Registers) -> Result<bool, LineFault>
    requires { AreInsertable registers.old }
    ensures ok { IfOk result (λ more. TakesRegisters registers.old words.old registers.new more words.new) }
    ensures registers { AreInsertable registers.new }
    ensures fits { IfOk result (λ more. FitAsRegisters (length registers.old) words.old more words.new) }
    ensures fault { IfErr result (λ fault. FailAsRegisters (length registers.old) words.old fault) }
{
    'registers: loop {
        let Some(word) = words.next() else {
            return Ok(false);
        };
        if word == b"|".as_slice() {
            return Ok(true);
        }
        if registers.len() >= MOST_COLUMNS {
            return Err(LineFault::UnknownWord);
        }
        let register = register_of(word)?;
        registers.push(register);
    }
}

/// What is after INSERT, up to the next step or the end.
#[inline(always)]
pub(super) fn insert<'a>(
    words: &mut Words<'a>,
    near: &Name<'a>,
    step: &mut RawStep<'a>,
) -> Result<bool, LineFault>
    ensures { ReadsStep Insert result step.new words.old words.new }
{
    let table = table(words, near)?;
    let row = row(words)?;
    let first = register(words)?;
    let mut from = Registers::of(first);
    let more = more_registers(words, &mut from)?;
    *step = RawStep::Insert { table, row, from };
    Ok(more)
}

/// What is after DELETE, up to the next step or the end.
#[inline(always)]
pub(super) fn delete<'a>(
    words: &mut Words<'a>,
    near: &Name<'a>,
    step: &mut RawStep<'a>,
) -> Result<bool, LineFault>
    ensures { ReadsStep Delete result step.new words.old words.new }
{
    let table = table(words, near)?;
    let row = row(words)?;
    *step = RawStep::Delete { table, row };
    bar_or_end(words)
}
