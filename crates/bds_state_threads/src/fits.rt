//! Whether frames are valid.
ghost use Rattle.std.specs.Prelude.{◌≡◌, ◌+◌, ◌<◌, length, slice_get, true, Some, IfOk};
ghost use Rattle.std.specs.Bool.{Decides};
ghost use Rattle.std.specs.List.{All};
ghost use Rattle.std.specs.Option.{option_copied};
ghost use Rattle.bds_value.specs.Fields.{IsFieldValue};
ghost use Rattle.bds_code.specs.declared.unit.Function.{Function};
ghost use Rattle.bds_code_frames.specs.declared.frame.Frame.{Frame};
ghost use Rattle.bds_verify.specs.Threads.{Shapes, AreAllShapes};
ghost use Rattle.bds_verify.specs.Verified.{VerifiedUnit};
ghost use Rattle.bds_state_threads.specs.Fields.{IsFieldFrame};
ghost use Rattle.bds_state_threads.specs.Judged.{frame_of, number_of, IsIn, IsCaller, HasOperands, IsPlaced, IsFrame};

use crate::slots::{has_rest, has_slots, is_called_from};
use crate::types::are_of;
use bds_code::{Frames, Function, Unit};
use bds_value::{NoMemory, Ty, Value};
use bds_verify::Verified;
use std::alloc::Global;

fn function_of(unit: &Unit, number: u32) -> Option<&Function>
    ensures { option_copied result ≡ slice_get unit.now.functions number }
{
    unit.functions.as_slice().get(number as usize)
}

/// The function of the frame behind another, which is the newest where there is none.
fn next_function(frames: &Frames, i: u32) -> Option<u32>
    requires { i < length frames.now }
    ensures { result ≡ number_of (slice_get frames.now (i + 1)) }
{
    let total = frames.count();
    if i + 1 < total {
        let (number, _) = frames.head(i + 1);
        Some(number)
    } else {
        None
    }
}

/// Whether place and slots of a frame are those of its function.
fn is_in(alloc: Global, function: &Function, place: u32, slots: &[Value]) -> Result<bool, NoMemory>
    requires { All IsFieldValue slots.now }
    ensures { IfOk result (λ is. Decides is (IsIn function.now place slots.now)) }
{
    if place as usize >= function.code.len() {
        return Ok(false);
    }
    has_slots(alloc, slots, function)
}

/// Whether a frame waits for the result of the function that it called.
fn is_caller(
    alloc: Global,
    unit: &Unit,
    function: &Function,
    callee: u32,
    place: u32,
    operands: &[Value],
    shape: &[Ty],
) -> Result<bool, NoMemory>
    requires { All IsFieldValue operands.now }
    ensures { IfOk result (λ is. Decides is (IsCaller unit.now function.now callee place operands.now shape.now)) }
{
    let Some(called) = function_of(unit, callee) else {
        return Ok(false);
    };
    if !is_called_from(function, place, callee) {
        return Ok(false);
    }
    has_rest(alloc, operands, shape, &called.ret)
}

/// Whether a frame has the operands of its place.
fn has_operands(
    alloc: Global,
    unit: &Unit,
    function: &Function,
    next: Option<u32>,
    place: u32,
    operands: &[Value],
    shape: &[Ty],
) -> Result<bool, NoMemory>
    requires { All IsFieldValue operands.now }
    ensures { IfOk result (λ has. Decides has (HasOperands unit.now function.now next place operands.now shape.now)) }
{
    match next {
        Some(callee) => is_caller(alloc, unit, function, callee, place, operands, shape),
        None => are_of(alloc, operands, shape),
    }
}

/// As `has_operands`, at a place of a function that is there.
fn has_operands_at(
    alloc: Global,
    unit: &Verified,
    function: &Function,
    next: Option<u32>,
    head: (u32, u32),
    operands: &[Value],
) -> Result<bool, NoMemory>
    requires there { slice_get unit.now.functions head.0 ≡ Some function.now }
    requires within { head.1 < length function.now.code }
    requires values { All IsFieldValue operands.now }
    ensures { IfOk result (λ has. (shapes : Shapes unit.now) → AreAllShapes unit.now shapes
        → Decides has (HasOperands unit.now function.now next head.1 operands.now (shapes head.0 head.1))) }
{
    let (number, place) = head;
    let shape = unit.shape_at(alloc, number, place)?;
    has_operands(
        alloc,
        unit.unit(),
        function,
        next,
        place,
        operands,
        shape.as_slice(),
    )
}

/// Whether a frame of these parts is valid before a frame of another function, or as the newest.
fn is_placed(
    alloc: Global,
    unit: &Verified,
    next: Option<u32>,
    head: (u32, u32),
    slots: &[Value],
    operands: &[Value],
) -> Result<bool, NoMemory>
    requires slots { All IsFieldValue slots.now }
    requires operands { All IsFieldValue operands.now }
    ensures { IfOk result (λ is. (shapes : Shapes unit.now) → AreAllShapes unit.now shapes
        → Decides is (IsPlaced unit.now shapes next (frame_of head.0 head.1 slots.now operands.now))) }
{
    let (number, place) = head;
    let Some(function) = function_of(unit.unit(), number) else {
        return Ok(false);
    };
    if !is_in(alloc, function, place, slots)? {
        return Ok(false);
    }
    has_operands_at(alloc, unit, function, next, head, operands)
}

/// Whether a frame is valid.
pub(crate) fn is_frame(
    alloc: Global,
    unit: &Verified,
    frames: &Frames,
    i: u32,
) -> Result<bool, NoMemory>
    requires verified { VerifiedUnit unit.now }
    requires there { i < length frames.now }
    requires values { All IsFieldFrame frames.now }
    ensures { IfOk result (λ is. (x : Frame) → slice_get frames.now i ≡ Some x → Decides is (IsFrame unit.now frames.now i x)) }
{
    let here = frames.head(i);
    let next = next_function(frames, i);
    is_placed(alloc, unit, next, here, frames.slots(i), frames.operands(i))
}
