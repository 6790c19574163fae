//! What each instruction does.
ghost use Rattle.std.specs.Prelude.{◌≡◌, ◌<◌, ◌^◌, ℕ, ℤ, List, [], slice_get, true, IsSome, Some, Err, IfOk, OnOk};
ghost use Rattle.bds_value.specs.declared.value.Value.{Value};
ghost use Rattle.bds_value.specs.Readers.{as_int, as_text};
ghost use Rattle.bds_value.specs.Statuses.{status_of};
ghost use Rattle.bds_code_frames.specs.Stack.{Stack, stack, place_of, pushed};
ghost use Rattle.bds_verify.specs.Verified.{VerifiedUnit};
ghost use Rattle.bds_machine_values.specs.Operands.{taken_as};
ghost use Rattle.bds_machine.specs.Calls.{On};
ghost use Rattle.bds_machine_values.specs.Faults.{Outcome, Leaves};
ghost use Rattle.bds_machine_values.specs.Worked.{beside};
ghost use Rattle.bds_machine.specs.Table.{onward, asks, changes, exits, fails, behind, row, step};
ghost use Rattle.bds_machine.specs.Running.{left_at, stepped};

use crate::asks::ask;
use crate::calls::{branch, call, leave, stop, stop_with, tick};
use crate::point::{Point, leave_at};
use bds_code::{Function, Instr, Unit};
use bds_code_frames::Frames;
use bds_machine_values::{
    RowFault, change, difference, load, load_global, operated, opposite, store, store_global, sum,
    take_int, take_text,
};
use bds_value::{Boxed, Items, NoMemory, Op, RunFault, Value};
use std::alloc::Global;

/// Leaves the machine with what an instruction asks, or with its fault.
#[inline(never)]
fn asks(
    alloc: Global,
    unit: &Unit,
    function: &Function,
    instr: &Instr,
    at: u32,
    frames: &mut Frames,
) -> Result<Option<Boxed<Point>>, NoMemory>
    requires { IsSome (asks unit.now function.now instr.now at [] (stack frames.old) 0) }
    ensures { IfOk result (λ p. (g : List Value) (t : ℕ)
        → asks unit.now function.now instr.now at g (stack frames.old) t ≡ Some (stepped p g (stack frames.new) t)) }
{
    match ask(alloc, unit, instr, frames) {
        Ok(point) => Ok(leave_at(alloc, point)?),
        Err(RowFault::Fault(fault)) => Ok(stop_with(alloc, function, at, fault)?),
        Err(RowFault::NoMemory) => Err(NoMemory),
    }
}

/// Goes on, or ends with a fault: by a short way where there is one.
#[inline(always)]
fn shortly(
    alloc: Global,
    function: &Function,
    instr: &Instr,
    at: u32,
    globals: &mut Items,
    frames: &mut Frames,
) -> Result<Option<Boxed<Point>>, NoMemory>
    requires { IsSome (changes function.now instr.now at globals.old (stack frames.old) 0) }
    ensures { IfOk result (λ p. (t : ℕ)
        → changes function.now instr.now at globals.old (stack frames.old) t ≡ Some
        (stepped p globals.new (stack frames.new) t)) }
{
    match instr {
        Instr::LoadGlobal(slot) => {
            load_global(alloc, *slot, globals, frames)?;
            Ok(None)
        }
        Instr::StoreGlobal(slot) => {
            store_global(*slot, globals, frames);
            Ok(None)
        }
        Instr::Sub => {
            difference(alloc, frames)?;
            Ok(None)
        }
        Instr::Not => {
            opposite(alloc, frames)?;
            Ok(None)
        }
        _ => changes(alloc, function, instr, at, globals, frames),
    }
}

/// Goes on, or ends with a fault.
#[inline(always)]
fn changes(
    alloc: Global,
    function: &Function,
    instr: &Instr,
    at: u32,
    globals: &mut Items,
    frames: &mut Frames,
) -> Result<Option<Boxed<Point>>, NoMemory>
    requires { IsSome (changes function.now instr.now at globals.old (stack frames.old) 0) }
    ensures { IfOk result (λ p. (t : ℕ)
        → changes function.now instr.now at globals.old (stack frames.old) t ≡ Some
        (stepped p globals.new (stack frames.new) t)) }
{
    match change(alloc, instr, globals, frames) {
        Ok(()) => Ok(None),
        Err(RowFault::Fault(fault)) => Ok(stop_with(alloc, function, at, fault)?),
        Err(RowFault::NoMemory) => Err(NoMemory),
    }
}

/// Goes on behind a row that has changed the frames, or ends with its fault.
#[inline(always)]
fn went_on(
    alloc: Global,
    function: &Function,
    at: u32,
    done: Result<(), RowFault>,
) -> Result<Option<Boxed<Point>>, NoMemory>
    requires { (e : RunFault) → done ≡ Err (RowFault.Fault e) → IsSome (slice_get function.now.lines at) }
    ensures { (o : Outcome Stack) (s : Stack) (g : List Value) (t : ℕ) → Leaves o s done
        → IfOk result (λ p. onward function.now at (beside g o) t (λ x. On x.0 x.1 t) ≡ Some (stepped p g s t)) }
{
    match done {
        Ok(()) => Ok(None),
        Err(RowFault::Fault(fault)) => Ok(stop_with(alloc, function, at, fault)?),
        Err(RowFault::NoMemory) => Err(NoMemory),
    }
}

fn status(n: i64) -> u8
    ensures { result ≡ status_of n }
{
    n.rem_euclid(256) as u8
}

#[inline(never)]
fn exit(frames: &mut Frames) -> Point
    requires { IsSome (taken_as as_int (stack frames.old)) }
    ensures { (g : List Value) (s : Stack) (t : ℕ) → exits (stack frames.old) t ≡ Some (left_at result g s t) }
{
    Point::Exit(status(take_int(frames)))
}

#[inline(never)]
fn fail(function: &Function, at: u32, frames: &mut Frames) -> Point
    requires { IsSome (fails function.now at (stack frames.old) 0) }
    ensures { (g : List Value) (s : Stack) (t : ℕ)
        → fails function.now at (stack frames.old) t ≡ Some (left_at result g s t) }
{
    stop(function, at, RunFault::Error(take_text(frames)))
}

/// Runs an instruction that isn't a call, a return or a jump, behind which the call stands already.
#[inline(always)]
fn behind(
    alloc: Global,
    unit: &Unit,
    function: &Function,
    instr: &Instr,
    at: u32,
    globals: &mut Items,
    frames: &mut Frames,
) -> Result<Option<Boxed<Point>>, NoMemory>
    requires { IsSome (behind unit.now function.now instr.now at globals.old (stack frames.old) 0) }
    ensures { IfOk result (λ p. (t : ℕ)
        → behind unit.now function.now instr.now at globals.old (stack frames.old) t ≡ Some
        (stepped p globals.new (stack frames.new) t)) }
{
    match instr {
        Instr::JumpUnless(to) => {
            branch(frames, *to);
            Ok(None)
        }
        Instr::Stop => Ok(leave_at(alloc, fail(function, at, frames))?),
        Instr::Exit => Ok(leave_at(alloc, exit(frames))?),
        Instr::FileRead
        | Instr::FileWrite
        | Instr::FileRemove
        | Instr::FileStamp(_)
        | Instr::Out
        | Instr::Sys
        | Instr::OutOfDate
        | Instr::NewTask
        | Instr::Declare
        | Instr::Goal
        | Instr::Spawn(_)
        | Instr::Wait
        | Instr::WaitAll
        | Instr::Save
        | Instr::SaveHere => asks(alloc, unit, function, instr, at, frames),
        _ => shortly(alloc, function, instr, at, globals, frames),
    }
}

/// Runs an instruction that stands at a place.
#[inline(always)]
fn row(
    alloc: Global,
    unit: &Unit,
    function: &Function,
    instr: &Instr,
    at: u32,
    globals: &mut Items,
    frames: &mut Frames,
    ticks: &mut u64,
) -> Result<Option<Boxed<Point>>, NoMemory>
    requires verified { VerifiedUnit unit.now }
    requires small { at < 2 ^ 24 }
    requires fine { IsSome (row unit.now function.now instr.now at globals.old (stack frames.old) ticks.old) }
    ensures { IfOk result (λ p. row unit.now function.now instr.now at globals.old (stack frames.old) ticks.old ≡ Some
        (stepped p globals.new (stack frames.new) ticks.new)) }
{
    match instr {
        Instr::Jump(to) => {
            frames.set_place(*to);
            Ok(None)
        }
        Instr::Tick => tick(alloc, frames, ticks, at + 1),
        Instr::Call(callee) => call(alloc, unit, function, *callee, at, frames, ticks),
        Instr::Return => leave(alloc, &function.ret, frames),
        Instr::Load(slot) => {
            frames.set_place(at + 1);
            load(alloc, *slot, frames)?;
            Ok(None)
        }
        Instr::Store(slot) => {
            frames.set_place(at + 1);
            store(*slot, frames);
            Ok(None)
        }
        Instr::PushInt(_) => {
            frames.set_place(at + 1);
            constant(alloc, instr, frames)?;
            Ok(None)
        }
        Instr::Add => {
            frames.set_place(at + 1);
            sum(alloc, frames)?;
            Ok(None)
        }
        Instr::Less => {
            frames.set_place(at + 1);
            went_on(alloc, function, at, operated(alloc, Op::Less, frames))
        }
        Instr::JumpUnless(to) => {
            frames.set_place(at + 1);
            branch(frames, *to);
            Ok(None)
        }
        _ => {
            frames.set_place(at + 1);
            behind(alloc, unit, function, instr, at, globals, frames)
        }
    }
}

/// Pushes the number of an instruction.
#[inline(always)]
fn constant(alloc: Global, instr: &Instr, frames: &mut Frames) -> Result<(), NoMemory>
    requires { (n : ℤ) × (instr.now ≡ Instr.PushInt n) × IsSome (pushed (Value.Int n) (stack frames.old)) }
    ensures { OnOk result ((n : ℤ) → instr.now ≡ Instr.PushInt n
        → pushed (Value.Int n) (stack frames.old) ≡ Some (stack frames.new)) }
{
    match instr {
        Instr::PushInt(n) => frames.add_operand(alloc, Value::Int(*n)),
        _ => unreachable!(),
    }
}

/// The instruction at a place.
#[inline(always)]
pub(crate) fn instr_at(function: &Function, at: u32) -> &Instr
    requires { IsSome (slice_get function.now.code at) }
    ensures { slice_get function.now.code at ≡ Some result.now }
{
    &function.code.as_slice()[at as usize]
}

/// Runs the instruction at the place of the newest call, which is of this function.
#[tactic(auto, unfolding(crate::specs::Table::step))]
#[inline(always)]
pub(crate) fn step(
    alloc: Global,
    unit: &Unit,
    number: u32,
    function: &Function,
    at: u32,
    globals: &mut Items,
    frames: &mut Frames,
    ticks: &mut u64,
) -> Result<Option<Boxed<Point>>, NoMemory>
    requires verified { VerifiedUnit unit.now }
    requires place { place_of (stack frames.old) ≡ Some (number, at) }
    requires function { slice_get unit.now.functions number ≡ Some function.now }
    requires fine { IsSome (step unit.now globals.old (stack frames.old) ticks.old) }
    ensures { IfOk result (λ p. step unit.now globals.old (stack frames.old) ticks.old ≡ Some
        (stepped p globals.new (stack frames.new) ticks.new)) }
{
    let instr = instr_at(function, at);
    row(alloc, unit, function, instr, at, globals, frames, ticks)
}
