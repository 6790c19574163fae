//! The rows that go elsewhere: branches, ticks, calls and returns.
ghost use Rattle.std.specs.Prelude.{◌≡◌, ◌<◌, ◌^◌, ℕ, List, [], length, slice_get, true, IsSome, Some, IfOk, OnOk};
ghost use Rattle.std.specs.Prelude.{OnErr};
ghost use Rattle.std.specs.List.{list_all};
ghost use Rattle.bds_value.specs.declared.TheConstants.{MAX_COUNT};
ghost use Rattle.bds_value.specs.declared.value.Value.{Value};
ghost use Rattle.bds_value.specs.declared.faults.RunFault.TheVariants.{CallsTooDeep};
ghost use Rattle.bds_value.specs.Types.{is_void};
ghost use Rattle.bds_value.specs.Readers.{as_bool};
ghost use Rattle.bds_code_frames.specs.Stack.{Stack, stack, moved, slot_added};
ghost use Rattle.bds_verify.specs.Verified.{VerifiedUnit};
ghost use Rattle.bds_verify.specs.Whole.{is_heading, is_value_ty};
ghost use Rattle.bds_machine_values.specs.Operands.{taken_as};
ghost use Rattle.bds_machine.specs.Calls.{On, jumps, tested, stops, ticks as ticked, with_defaults, enters, calls};
ghost use Rattle.bds_machine.specs.Calls.{received, back, result_taken, returns};
ghost use Rattle.bds_machine.specs.Running.{left_at, stepped};

use crate::point::{Point, leave_at};
use bds_code::{Function, Unit};
use bds_code_frames::Frames;
use bds_machine_values::take_bool;
use bds_value::{Boxed, MAX_CALLS, NoMemory, RunFault, Ty, Value};
use std::alloc::Global;

/// Goes on behind a condition, which it takes: at another place where that is false.
pub(crate) fn branch(frames: &mut Frames, to: u32)
    requires { IsSome (tested to [] (stack frames.old) 0) }
    ensures { (g : List Value) (t : ℕ) → tested to g (stack frames.old) t ≡ Some (On g (stack frames.new) t) }
{
    if !take_bool(frames) {
        frames.set_place(to);
    }
}

/// A fault, at the line of an instruction.
pub(crate) fn stop(function: &Function, place: u32, fault: RunFault) -> Point
    requires { IsSome (slice_get function.now.lines place) }
    ensures { (g : List Value) (s : Stack) (t : ℕ) → stops function.now place fault t ≡ Some (left_at result g s t) }
{
    match function.lines.as_slice().get(place as usize) {
        Some(at) => Point::Stop(fault, *at),
        None => unreachable!(),
    }
}

/// Ends with a fault of the row at a place.
#[inline(never)]
pub(crate) fn stop_with(
    alloc: Global,
    function: &Function,
    place: u32,
    fault: Boxed<RunFault>,
) -> Result<Option<Boxed<Point>>, NoMemory>
    requires { IsSome (slice_get function.now.lines place) }
    ensures { IfOk result (λ p. (g : List Value) (s : Stack) (t : ℕ)
        → stops function.now place fault t ≡ Some (stepped p g s t)) }
{
    Ok(leave_at(alloc, stop(function, place, fault.into_inner()))?)
}

/// Counts a tick and goes to the next place. Without a tick the thread stays where it is.
pub(crate) fn tick(
    alloc: Global,
    frames: &mut Frames,
    ticks: &mut u64,
    next: u32,
) -> Result<Option<Boxed<Point>>, NoMemory>
    requires { IsSome (ticked [] (stack frames.old) ticks.old (λ left. jumps next [] (stack frames.old) left)) }
    ensures { IfOk result (λ p. (g : List Value)
        → ticked g (stack frames.old) ticks.old (λ left. jumps next g (stack frames.old) left) ≡ Some
        (stepped p g (stack frames.new) ticks.new)) }
{
    if *ticks == 0 {
        return Ok(leave_at(alloc, Point::Spent)?);
    }
    *ticks -= 1;
    frames.set_place(next);
    Ok(None)
}

/// Adds a slot for each local to the newest call, which has no operands yet.
#[inline(always)]
fn add_locals(alloc: Global, frames: &mut Frames, locals: &[Ty]) -> Result<(), NoMemory>
    requires types { list_all is_value_ty locals.now ≡ true }
    requires alone { (v : Value) → IsSome (slot_added v (stack frames.old)) }
    ensures { OnOk result (with_defaults locals.now (stack frames.old) ≡ Some (stack frames.new)) }
{
    frames.add_defaults(alloc, locals)
}

/// Opens a call of a function, and leaves the caller at a place.
#[inline(always)]
fn enter(
    alloc: Global,
    frames: &mut Frames,
    callee: u32,
    function: &Function,
    place: u32,
) -> Result<(), NoMemory>
    requires whole { is_heading function.now ≡ true }
    requires room { length (stack frames.old) < MAX_COUNT }
    requires fine { IsSome (enters callee function.now place (stack frames.old)) }
    ensures { OnOk result (enters callee function.now place (stack frames.old) ≡ Some (stack frames.new)) }
{
    frames.set_place(place);
    frames.enter(alloc, callee, function.params.len() as u32)?;
    add_locals(alloc, frames, function.locals.as_slice())
}

/// A function that is there.
#[inline(always)]
pub(crate) fn function_at(unit: &Unit, number: u32) -> &Function
    requires { IsSome (slice_get unit.now.functions number) }
    ensures { slice_get unit.now.functions number ≡ Some result.now }
{
    &unit.functions.as_slice()[number as usize]
}

/// Ends with the fault of a call that would be too deep.
#[inline(never)]
fn too_deep(
    alloc: Global,
    function: &Function,
    place: u32,
) -> Result<Option<Boxed<Point>>, NoMemory>
    requires { IsSome (slice_get function.now.lines place) }
    ensures { IfOk result (λ p. (g : List Value) (s : Stack) (t : ℕ)
        → stops function.now place CallsTooDeep t ≡ Some (stepped p g s t)) }
{
    Ok(leave_at(alloc, stop(function, place, RunFault::CallsTooDeep))?)
}

/// Leaves the machine, since no tick is left.
#[inline(never)]
fn spent(alloc: Global) -> Result<Option<Boxed<Point>>, NoMemory>
    ensures { IfOk result (λ p. p ≡ Some Point.Spent) }
{
    Ok(leave_at(alloc, Point::Spent)?)
}

/// Leaves the machine, since the code of the thread has ended.
#[inline(never)]
fn finished(alloc: Global) -> Result<Option<Boxed<Point>>, NoMemory>
    ensures { IfOk result (λ p. p ≡ Some Point.Finished) }
{
    Ok(leave_at(alloc, Point::Finished)?)
}

/// Calls a function from a place. A call that would be too deep counts no tick.
#[inline(never)]
pub(crate) fn call(
    alloc: Global,
    unit: &Unit,
    function: &Function,
    callee: u32,
    place: u32,
    frames: &mut Frames,
    ticks: &mut u64,
) -> Result<Option<Boxed<Point>>, NoMemory>
    requires verified { VerifiedUnit unit.now }
    requires small { place < 2 ^ 24 }
    requires fine { IsSome (calls unit.now function.now callee place [] (stack frames.old) ticks.old) }
    ensures { IfOk result (λ p. (g : List Value)
        → calls unit.now function.now callee place g (stack frames.old) ticks.old ≡ Some
        (stepped p g (stack frames.new) ticks.new)) }
{
    if frames.count() >= MAX_CALLS {
        return Ok(too_deep(alloc, function, place)?);
    }
    if *ticks == 0 {
        return Ok(spent(alloc)?);
    }
    *ticks -= 1;
    let called = function_at(unit, callee);
    enter(alloc, frames, callee, called, place + 1)?;
    Ok(None)
}

/// Adds a result or an answer, where there is one. A refused call leaves the frames as they were.
pub(crate) fn receive(
    alloc: Global,
    frames: &mut Frames,
    value: Option<Value>,
) -> Result<(), NoMemory>
    requires { IsSome (received value (stack frames.old)) }
    ensures ok { OnOk result (received value (stack frames.old) ≡ Some (stack frames.new)) }
    ensures err { OnErr result (frames.new ≡ frames.old) }
{
    match value {
        Some(value) => frames.add_operand(alloc, value),
        None => Ok(()),
    }
}

fn take_result(ret: &Ty, frames: &mut Frames) -> Option<Value>
    requires { IsSome (result_taken ret.now (stack frames.old)) }
    ensures { result_taken ret.now (stack frames.old) ≡ Some (result, stack frames.new) }
{
    match ret {
        Ty::Void => None,
        _ => Some(frames.take_operand()),
    }
}

/// Hands a result to the caller; without one the thread's code has ended.
fn hand_back(
    alloc: Global,
    frames: &mut Frames,
    value: Option<Value>,
) -> Result<Option<Boxed<Point>>, NoMemory>
    requires { IsSome (back value [] (stack frames.old) 0) }
    ensures { IfOk result (λ p. (g : List Value) (t : ℕ)
        → back value g (stack frames.old) t ≡ Some (stepped p g (stack frames.new) t)) }
{
    if frames.count() == 0 {
        return Ok(finished(alloc)?);
    }
    receive(alloc, frames, value)?;
    Ok(None)
}

/// Returns from the newest call.
#[inline(never)]
pub(crate) fn leave(
    alloc: Global,
    ret: &Ty,
    frames: &mut Frames,
) -> Result<Option<Boxed<Point>>, NoMemory>
    requires { IsSome (returns ret.now [] (stack frames.old) 0) }
    ensures { IfOk result (λ p. (g : List Value) (t : ℕ)
        → returns ret.now g (stack frames.old) t ≡ Some (stepped p g (stack frames.new) t)) }
{
    let value = take_result(ret, frames);
    frames.close();
    hand_back(alloc, frames, value)
}
