//! Changes together with their operands.
ghost use Rattle.std.specs.Prelude.{◌≡◌, ◌∷◌, ◌<◌, [], List, slice_get, IsSome, Some, IfOk};
ghost use Rattle.bds_value.specs.declared.change_numbers.TheConstants.{PUSH};
ghost use Rattle.bds_code_frames.specs.Stack.{stack};
ghost use Rattle.bds_machine_values.specs.Changes.{IsChangeOf, args_taken};
ghost use Rattle.bds_machine_values.specs.Updates.{operand_counts};

use crate::operands::take_all;
use bds_code_frames::Frames;
use bds_value::change_numbers::{ADD, ASSIGN, DIVIDE, MULTIPLY, PUSH, SUBTRACT};
use bds_value::{Items, NoMemory, Op, Value};
use std::alloc::Global;

/// What a part of a variable is changed by.
#[derive(Drop)]
pub(crate) enum Change {
    /// A new part.
    Replace(Value),
    /// What is added to the part.
    Add(Value),
    /// An operator, and what stands behind it.
    Operate(Op, Value),
    /// A method that changes the part, by its number, and its arguments.
    Mutate(u8, Items),
}

/// How many operands a change takes besides the steps, by its number.
const OPERAND_COUNTS: [u8; 11] = [1, 1, 1, 1, 1, 1, 1, 2, 1, 1, 1];

fn operand_count(what: u8) -> usize
    requires { IsSome (slice_get operand_counts what) }
    ensures { slice_get operand_counts what ≡ Some result }
{
    OPERAND_COUNTS[what as usize] as usize
}

/// An assignment, by its number.
fn assignment(what: u8, operand: Value) -> Change
    requires { what < PUSH }
    ensures { IsChangeOf what (operand ∷ []) result }
{
    match what {
        ASSIGN => Change::Replace(operand),
        ADD => Change::Add(operand),
        SUBTRACT => Change::Operate(Op::Sub, operand),
        MULTIPLY => Change::Operate(Op::Mul, operand),
        DIVIDE => Change::Operate(Op::Div, operand),
        _ => Change::Operate(Op::Rem, operand),
    }
}

/// Takes the operands of a change. Only those of a method stand in a list.
pub(crate) fn take_change(alloc: Global, what: u8, frames: &mut Frames) -> Result<Change, NoMemory>
    requires { IsSome (args_taken what (stack frames.old)) }
    ensures { IfOk result (λ change. (args : List Value) × (args_taken what (stack frames.old) ≡ Some (args, stack frames.new)) × IsChangeOf what args change) }
{
    if what < PUSH {
        Ok(assignment(what, frames.take_operand()))
    } else {
        let args = take_all(alloc, frames, operand_count(what))?;
        Ok(Change::Mutate(what, args))
    }
}
