//! The row that calls a method.
ghost use Rattle.std.specs.Prelude.{◌≡◌, slice_get, IsSome, Some};
ghost use Rattle.bds_code_frames.specs.Stack.{stack};
ghost use Rattle.bds_machine_values.specs.Faults.{Answers, Leaves};
ghost use Rattle.bds_machine_values.specs.Results.{called};
ghost use Rattle.bds_machine_values.specs.Values.{argument_counts, counts, method_given};

use crate::faults::{RowFault, of_method};
use crate::operands::take_all;
use crate::values::gives;
use bds_code_frames::Frames;
use bds_lib::call;
use bds_value::{Items, Value};
use std::alloc::Global;

/// How many arguments a method takes, by its number.
const ARGUMENT_COUNTS: [u8; 30] = [
    0, 0, 0, 0, 2, 1, 1, 1, 1, 2, 1, 0, 0, 0, 0, 0, 1, 0, 0, 1, 1, 0, 0, 0, 0, 0, 1, 0, 0, 0,
];

fn argument_count(method: u8) -> usize
    requires { IsSome (slice_get argument_counts method) }
    ensures { slice_get argument_counts method ≡ Some result }
{
    ARGUMENT_COUNTS[method as usize] as usize
}

/// Whether a method takes so many arguments.
pub fn takes(method: u8, count: u8) -> bool
    ensures { result ≡ counts count (slice_get argument_counts method) }
{
    // So many methods are in the table.
    if method < 30 {
        argument_count(method) == count as usize
    } else {
        false
    }
}

/// What a method gives of a receiver.
pub fn result_of(
    alloc: Global,
    method: u8,
    receiver: &Value,
    args: &Items,
) -> Result<Value, RowFault>
    requires { IsSome (called method receiver.now args.now) }
    ensures { Answers (called method receiver.now args.now) result }
{
    match call(alloc, method, receiver, args) {
        Ok(value) => Ok(value),
        Err(fault) => Err(of_method(alloc, fault)),
    }
}

/// A method of a receiver, and its arguments behind it.
pub(crate) fn method_given(alloc: Global, method: u8, frames: &mut Frames) -> Result<(), RowFault>
    requires { IsSome (method_given method (stack frames.old)) }
    ensures { Leaves (method_given method (stack frames.old)) (stack frames.new) result }
{
    let args = take_all(alloc, frames, argument_count(method))?;
    let receiver = frames.take_operand();
    let value = result_of(alloc, method, &receiver, &args)?;
    gives(alloc, value, frames)
}
