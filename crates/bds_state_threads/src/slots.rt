//! Whether the values of a frame have the types of its function and place.
ghost use Rattle.std.specs.Prelude.{◌≡◌, ◌+◌, ◌++◌, ℕ, List, reverse, slice_get, Some, IfOk};
ghost use Rattle.std.specs.Bool.{Decides};
ghost use Rattle.std.specs.List.{All};
ghost use Rattle.bds_value.specs.declared.value.Ty.{Ty};
ghost use Rattle.bds_value.specs.Fields.{IsFieldValue};
ghost use Rattle.bds_code.specs.declared.instr.Instr.TheVariants.{Call};
ghost use Rattle.bds_code.specs.Operands.{given};
ghost use Rattle.bds_verify.specs.Threads.{Typed};
ghost use Rattle.bds_state_threads.specs.Judged.{IsCalledFrom, HasRest};

use crate::types::{are_of, are_same};
use bds_code::{Function, Instr};
use bds_value::{NoMemory, Ty, Value};
use std::alloc::Global;

/// Whether slots have the types of a function's parameters and locals.
pub(crate) fn has_slots(
    alloc: Global,
    slots: &[Value],
    function: &Function,
) -> Result<bool, NoMemory>
    requires { All IsFieldValue slots.now }
    ensures { IfOk result (λ has. Decides has (Typed slots.now (function.now.params ++ function.now.locals))) }
{
    let count = function.params.len();
    if slots.len() < count {
        return Ok(false);
    }
    let (first, rest) = slots.split_at(count);
    if !are_of(alloc, first, function.params.as_slice())? {
        return Ok(false);
    }
    are_of(alloc, rest, function.locals.as_slice())
}

/// Whether a place stands behind a call of a function.
pub(crate) fn is_called_from(function: &Function, place: u32, callee: u32) -> bool
    ensures { Decides result (IsCalledFrom function.now place callee) }
{
    if place == 0 {
        return false;
    }
    match function.code.as_slice().get(place as usize - 1) {
        Some(Instr::Call(called)) => *called == callee,
        _ => false,
    }
}

/// Whether operands have the types of a place before a result comes there.
pub(crate) fn has_rest(
    alloc: Global,
    operands: &[Value],
    shape: &[Ty],
    ret: &Ty,
) -> Result<bool, NoMemory>
    requires { All IsFieldValue operands.now }
    ensures { IfOk result (λ has. Decides has (HasRest operands.now shape.now ret.now)) }
{
    match ret {
        Ty::Void => are_of(alloc, operands, shape),
        _ => match shape.split_last() {
            Some((last, rest)) => {
                if !are_same(last, ret) {
                    return Ok(false);
                }
                are_of(alloc, operands, rest)
            }
            None => Ok(false),
        },
    }
}
