//! The rows that loops are made of, each by its shortest way. None of them has a fault.
ghost use Rattle.std.specs.Prelude.{◌≡◌, slice_get, IsSome, Some, Ok, IfOk, OnOk};
ghost use Rattle.bds_code_frames.specs.Stack.{stack, slot_at};
ghost use Rattle.bds_machine_values.specs.Worked.{global_stored};
ghost use Rattle.bds_machine_values.specs.Values.{inverted, loaded, operated, stored};

use crate::operands::take_bool;
use bds_code_frames::Frames;
use bds_value::{Items, NoMemory, Op, Value, add, copy, sub};
use std::alloc::Global;
use std::mem;

/// The value of a slot of the newest call.
#[inline(always)]
pub fn load(alloc: Global, slot: u16, frames: &mut Frames) -> Result<(), NoMemory>
    requires { IsSome (loaded (slot_at slot (stack frames.old)) (stack frames.old)) }
    ensures { OnOk result (loaded (slot_at slot (stack frames.old)) (stack frames.old) ≡ Some (Ok (stack frames.new))) }
{
    match frames.slot(slot as u32) {
        Value::Int(n) => {
            let n = *n;
            frames.add_operand(alloc, Value::Int(n))
        }
        value => {
            let value = copied(alloc, value)?;
            frames.add_operand(alloc, value)
        }
    }
}

/// A copy of a value that is no number.
#[inline(never)]
fn copied(alloc: Global, value: &Value) -> Result<Value, NoMemory>
    ensures { IfOk result (λ copied. copied ≡ value.now) }
{
    copy(alloc, value)
}

/// Puts the last operand into a slot of the newest call.
#[inline(always)]
pub fn store(slot: u16, frames: &mut Frames)
    requires { IsSome (stored slot (stack frames.old)) }
    ensures { stored slot (stack frames.old) ≡ Some (Ok (stack frames.new)) }
{
    let value = frames.take_operand();
    match frames.swap_slot(slot as u32, value) {
        // A number has nothing to be let go.
        Value::Int(_) => {}
        _old => {}
    }
}

/// The sum of the last two operands.
#[inline(always)]
pub fn sum(alloc: Global, frames: &mut Frames) -> Result<(), NoMemory>
    requires { IsSome (operated Op.Add (stack frames.old)) }
    ensures { OnOk result (operated Op.Add (stack frames.old) ≡ Some (Ok (stack frames.new))) }
{
    match frames.take_operand() {
        Value::Int(b) => match frames.take_operand() {
            Value::Int(a) => frames.add_operand(alloc, Value::Int(add(a, b))),
            _ => unreachable!(),
        },
        _ => unreachable!(),
    }
}

/// The difference of the last two operands.
#[inline(always)]
pub fn difference(alloc: Global, frames: &mut Frames) -> Result<(), NoMemory>
    requires { IsSome (operated Op.Sub (stack frames.old)) }
    ensures { OnOk result (operated Op.Sub (stack frames.old) ≡ Some (Ok (stack frames.new))) }
{
    match frames.take_operand() {
        Value::Int(b) => match frames.take_operand() {
            Value::Int(a) => frames.add_operand(alloc, Value::Int(sub(a, b))),
            _ => unreachable!(),
        },
        _ => unreachable!(),
    }
}

/// The other truth value than the last operand.
#[inline(always)]
pub fn opposite(alloc: Global, frames: &mut Frames) -> Result<(), NoMemory>
    requires { IsSome (inverted (stack frames.old)) }
    ensures { OnOk result (inverted (stack frames.old) ≡ Some (Ok (stack frames.new))) }
{
    let b = take_bool(frames);
    frames.add_operand(alloc, Value::Bool(!b))
}

/// The value of a global.
#[inline(always)]
pub fn load_global(
    alloc: Global,
    slot: u16,
    globals: &Items,
    frames: &mut Frames,
) -> Result<(), NoMemory>
    requires { IsSome (loaded (slice_get globals.now slot) (stack frames.old)) }
    ensures { OnOk result (loaded (slice_get globals.now slot) (stack frames.old) ≡ Some (Ok (stack frames.new))) }
{
    match &globals.as_slice()[slot as usize] {
        Value::Int(n) => {
            let n = *n;
            frames.add_operand(alloc, Value::Int(n))
        }
        value => {
            let value = copied(alloc, value)?;
            frames.add_operand(alloc, value)
        }
    }
}

/// Puts the last operand into a global.
#[inline(always)]
pub fn store_global(slot: u16, globals: &mut Items, frames: &mut Frames)
    requires { IsSome (global_stored slot globals.old (stack frames.old)) }
    ensures { global_stored slot globals.old (stack frames.old) ≡ Some (Ok (globals.new, stack frames.new)) }
{
    let value = frames.take_operand();
    match mem::replace(globals.at_mut(slot as usize), value) {
        // A number has nothing to be let go.
        Value::Int(_) => {}
        _old => {}
    }
}
