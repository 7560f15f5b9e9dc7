//! What the steps that only use registers do.

ghost use Rattle.std.specs.Prelude.{◌≡◌, List, pos, slice_index_or};
ghost use Rattle.model_base.specs.declared.statement.Access.{Access};
ghost use Rattle.model_base.specs.declared.statement.Step.{Step};
ghost use Rattle.model_base.specs.Body.{Machine, computed, flag, perform, put, put_fitting, read_register};
ghost use Rattle.body.specs.Work.{effect_of, if_fits};

use crate::steps::StepEnd;
use model_base::{MOST_REGISTERS, Operation, Reason, Register};

/// The number in a register.
pub(crate) fn read(registers: &[i64; MOST_REGISTERS], register: Register) -> i64
    ensures { result ≡ slice_index_or registers.now register (pos 0) }
{
    registers[register.index()]
}

/// Writes a number into a register.
pub(crate) fn write(
    registers: &mut [i64; MOST_REGISTERS],
    register: Register,
    value: i64,
) -> StepEnd
    ensures { (m : Machine) → m.registers ≡ registers.old
        → effect_of result (record m { registers = registers.new }) ≡ put m register value }
{
    registers[register.index()] = value;
    StepEnd::GoesOn(0)
}

/// 1 for what holds, 0 for what does not.
pub(crate) fn flag(holds: bool) -> i64
    ensures { result ≡ flag holds }
{
    if holds { 1 } else { 0 }
}

/// What an operation makes of two numbers, if it fits.
fn computed(operation: Operation, left: i64, right: i64) -> Option<i64>
    ensures { result ≡ if_fits (computed operation left right) }
{
    match operation {
        Operation::Add => left.checked_add(right),
        Operation::Sub => left.checked_sub(right),
        Operation::Mul => left.checked_mul(right),
        Operation::Less => Some(flag(left < right)),
        Operation::Same => Some(flag(left == right)),
    }
}

/// Writes what an operation makes of two registers into a third, if it fits.
pub(crate) fn compute(
    registers: &mut [i64; MOST_REGISTERS],
    operation: Operation,
    to: Register,
    left: Register,
    right: Register,
) -> StepEnd
    ensures { (m : Machine) → m.registers ≡ registers.old
        → effect_of result (record m { registers = registers.new })
        ≡ put_fitting m to (computed operation (read_register m left) (read_register m right)) }
{
    match computed(operation, read(registers, left), read(registers, right)) {
        Some(value) => write(registers, to, value),
        None => StepEnd::Aborts(Reason::Overflow),
    }
}

/// Goes on, unless the register holds 0.
pub(crate) fn check(registers: &[i64; MOST_REGISTERS], of: Register) -> StepEnd
    ensures { (accesses : List Access) (m : Machine) → m.registers ≡ registers.now
        → effect_of result m ≡ perform accesses (Step.Check of) m }
{
    if read(registers, of) == 0 {
        StepEnd::Aborts(Reason::Check)
    } else {
        StepEnd::GoesOn(0)
    }
}

/// Passes over this many steps, unless the register holds 0.
pub(crate) fn skip(registers: &[i64; MOST_REGISTERS], of: Register, steps: u32) -> StepEnd
    ensures { (accesses : List Access) (m : Machine) → m.registers ≡ registers.now
        → effect_of result m ≡ perform accesses (Step.Skip of steps) m }
{
    let passed = if read(registers, of) == 0 { 0 } else { steps };
    StepEnd::GoesOn(passed)
}
