//! The steps that touch no row.
ghost use Rattle.log_text.specs.Parsing.{ReadsStep};
ghost use Rattle.line_words.specs.declared.step_name.StepName.TheVariants.{Const, Compute, Check, Skip, Out};

use super::fields::{bar_or_end, number, register, whole_number};
use crate::statement::RawStep;
use line_words::{LineFault, Words};
use model_base::Operation;

/// What is after CONST, up to the next step or the end.
#[inline(always)]
pub(super) fn constant<'a>(words: &mut Words<'a>, step: &mut RawStep<'a>) -> Result<bool, LineFault>
    ensures { ReadsStep Const result step.new words.old words.new }
{
    let to = register(words)?;
    let value = whole_number(words)?;
    *step = RawStep::Const { to, value };
    bar_or_end(words)
}

/// What is after the word of an operation, up to the next step or the end.
#[inline(always)]
pub(super) fn compute<'a>(
    operation: Operation,
    words: &mut Words<'a>,
    step: &mut RawStep<'a>,
) -> Result<bool, LineFault>
    ensures { ReadsStep (Compute operation) result step.new words.old words.new }
{
    let to = register(words)?;
    let left = register(words)?;
    let right = register(words)?;
    *step = RawStep::Compute {
        operation,
        to,
        left,
        right,
    };
    bar_or_end(words)
}

/// What is after CHECK, up to the next step or the end.
#[inline(always)]
pub(super) fn check<'a>(words: &mut Words<'a>, step: &mut RawStep<'a>) -> Result<bool, LineFault>
    ensures { ReadsStep Check result step.new words.old words.new }
{
    let of = register(words)?;
    *step = RawStep::Check { of };
    bar_or_end(words)
}

/// What is after SKIP, up to the next step or the end.
#[inline(always)]
pub(super) fn skip<'a>(words: &mut Words<'a>, step: &mut RawStep<'a>) -> Result<bool, LineFault>
    ensures { ReadsStep Skip result step.new words.old words.new }
{
    let of = register(words)?;
    let steps = number(words)?;
    *step = RawStep::Skip { of, steps };
    bar_or_end(words)
}

/// What is after OUT, up to the next step or the end.
#[inline(always)]
pub(super) fn out<'a>(words: &mut Words<'a>, step: &mut RawStep<'a>) -> Result<bool, LineFault>
    ensures { ReadsStep Out result step.new words.old words.new }
{
    let of = register(words)?;
    *step = RawStep::Out { of };
    bar_or_end(words)
}
