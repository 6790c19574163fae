//! Threads that begin.
ghost use Rattle.std.specs.Prelude.{◌≡◌, ◌++◌, ◌∷◌, ◌<◌, List, [], length, map, slice_get, Some, IfOk, IsSome, true};
ghost use Rattle.std.specs.List.{list_all};
ghost use Rattle.bds_value.specs.declared.value.Value.{Value};
ghost use Rattle.bds_value.specs.Value.{default_of};
ghost use Rattle.bds_code.specs.declared.unit.Function.{Function};
ghost use Rattle.bds_code_frames.specs.Stack.{stack, call_at};
ghost use Rattle.bds_verify.specs.Threads.{IsThread, Typed};
ghost use Rattle.bds_verify.specs.Whole.{is_value_ty};
ghost use Rattle.bds_state_threads.specs.Made.{IsBegun};

use bds_code::{Frames, Function, Status, Thread, Unit};
use bds_value::{Items, Listed, NoMemory, Ty, Value, default_of};
use bds_verify::Verified;
use std::alloc::Global;

/// Threads by their numbers.
pub type Threads = Listed<Thread>;

fn defaults(alloc: Global, types: &[Ty]) -> Result<Items, NoMemory>
    requires { list_all is_value_ty types.now ≡ true }
    ensures { IfOk result (λ values. values ≡ map default_of types.now) }
{
    let mut values = Listed::new(alloc);
    for ty in types {
        values.push(default_of(alloc, ty)?)?;
    }
    Ok(values)
}

/// The frames of a call at its first place, with arguments as its slots.
fn called(alloc: Global, function: u32, args: Items) -> Result<Frames, NoMemory>
    ensures { IfOk result (λ frames. stack frames ≡ call_at function args ∷ []) }
{
    let mut frames = Frames::new(alloc);
    frames.open(alloc, function, 0)?;
    let mut values = args.into_vec();
    values.reverse();
    while let Some(value) = values.pop() {
        frames.add_slot(alloc, value)?;
    }
    Ok(frames)
}

/// Adds a slot for each local of a call that has its arguments.
fn add_locals(
    alloc: Global,
    function: u32,
    frames: &mut Frames,
    locals: &[Ty],
) -> Result<(), NoMemory>
    requires types { list_all is_value_ty locals.now ≡ true }
    requires call { (args : List Value) × (stack frames.old ≡ call_at function args ∷ []) }
    ensures { IfOk result (λ done. (args : List Value) → stack frames.old ≡ call_at function args ∷ [] → stack frames.new ≡ call_at function (args ++ map default_of locals.now) ∷ []) }
{
    for ty in locals {
        let value = default_of(alloc, ty)?;
        frames.add_slot(alloc, value)?;
    }
    Ok(())
}

fn frames_of(alloc: Global, function: u32, args: Items, locals: &[Ty]) -> Result<Frames, NoMemory>
    requires { list_all is_value_ty locals.now ≡ true }
    ensures { IfOk result (λ frames. stack frames ≡ call_at function (args ++ map default_of locals.now) ∷ []) }
{
    let mut frames = called(alloc, function, args)?;
    add_locals(alloc, function, &mut frames, locals)?;
    Ok(frames)
}

fn function_at(unit: &Unit, number: u32) -> &Function
    requires { number < length unit.now.functions }
    ensures { slice_get unit.now.functions number ≡ Some result.now }
{
    &unit.functions.as_slice()[number as usize]
}

/// A ready thread that a thread made, at the first place of a function: with these arguments and
/// globals, and the default of its type in each local.
pub fn new_thread(
    alloc: Global,
    unit: &Verified,
    parent: u32,
    function: u32,
    args: Items,
    globals: Items,
) -> Result<Thread, NoMemory>
    requires there { function < length unit.now.functions }
    requires args { (f : Function) → slice_get unit.now.functions function ≡ Some f → Typed args f.params }
    requires globals { Typed globals unit.now.globals }
    ensures begun { IfOk result (λ thread. IsBegun unit.now parent function args globals thread) }
    ensures valid { IfOk result (λ thread. IsThread unit.now thread) }
{
    let code = unit.unit();
    let locals = function_at(code, function).locals.as_slice();
    let frames = frames_of(alloc, function, args, locals)?;
    Ok(Thread {
        parent,
        status: Status::Ready,
        globals,
        frames,
    })
}

/// The thread with which a unit begins, in which each global holds the default of its type.
pub fn first_thread(alloc: Global, unit: &Verified) -> Result<Thread, NoMemory>
    ensures begun { IfOk result (λ thread. IsBegun unit.now 0 0 [] (map default_of unit.now.globals) thread) }
    ensures valid { IfOk result (λ thread. IsThread unit.now thread) }
{
    let globals = defaults(alloc, unit.unit().globals.as_slice())?;
    new_thread(alloc, unit, 0, 0, Listed::new(alloc), globals)
}
