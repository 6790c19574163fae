//! The row that changes a part of a variable.
ghost use Rattle.std.specs.Prelude.{◌≡◌, List, true, false, IsSome, Some};
ghost use Rattle.bds_code_frames.specs.Stack.{Stack, stack};
ghost use Rattle.bds_machine_values.specs.Faults.{Leaves, and_then};
ghost use Rattle.bds_machine_values.specs.Changes.{places_of, value_after};
ghost use Rattle.bds_machine_values.specs.Updates.{variable, assigned, updated};

use crate::changes::{Change, take_change};
use crate::faults::RowFault;
use crate::route::{Route, take_route};
use crate::updates::change_value;
use bds_code::Kinds;
use bds_code_frames::Frames;
use bds_value::{Items, Value};
use std::alloc::Global;

/// Changes a slot of the newest call. The value is taken out for that, and put back.
fn update_slot(
    alloc: Global,
    slot: u16,
    change: Change,
    route: Route,
    frames: &mut Frames,
) -> Result<(), RowFault>
    requires { (g : List Value) × (v : Value) × (variable false slot g (stack frames.old) ≡ Some v)
        × IsSome (and_then (value_after change (places_of route) v) (λ new. assigned false slot new g (stack frames.old))) }
    ensures { (g : List Value) → (v : Value) → variable false slot g (stack frames.old) ≡ Some v
        → Leaves (and_then (value_after change (places_of route) v) (λ new. assigned false slot new g (stack frames.old))) (g, stack frames.new) result }
{
    let mut value = frames.swap_slot(slot as u32, Value::Bool(false));
    let result = change_value(alloc, change, &mut value, route);
    let _placeholder = frames.swap_slot(slot as u32, value);
    result
}

fn update_global(
    alloc: Global,
    slot: u16,
    change: Change,
    route: Route,
    globals: &mut Items,
) -> Result<(), RowFault>
    requires { (s : Stack) × (v : Value) × (variable true slot globals.old s ≡ Some v)
        × IsSome (and_then (value_after change (places_of route) v) (λ new. assigned true slot new globals.old s)) }
    ensures { (s : Stack) → (v : Value) → variable true slot globals.old s ≡ Some v
        → Leaves (and_then (value_after change (places_of route) v) (λ new. assigned true slot new globals.old s)) (globals.new, s) result }
{
    change_value(alloc, change, globals.at_mut(slot as usize), route)
}

fn update_variable(
    alloc: Global,
    is_global: bool,
    slot: u16,
    change: Change,
    route: Route,
    globals: &mut Items,
    frames: &mut Frames,
) -> Result<(), RowFault>
    requires { (v : Value) × (variable is_global slot globals.old (stack frames.old) ≡ Some v)
        × IsSome (and_then (value_after change (places_of route) v) (λ new. assigned is_global slot new globals.old (stack frames.old))) }
    ensures { (v : Value) → variable is_global slot globals.old (stack frames.old) ≡ Some v
        → Leaves (and_then (value_after change (places_of route) v) (λ new. assigned is_global slot new globals.old (stack frames.old))) (globals.new, stack frames.new) result }
{
    if is_global {
        update_global(alloc, slot, change, route, globals)
    } else {
        update_slot(alloc, slot, change, route, frames)
    }
}

/// Changes a part of a variable, which is a global or a slot of the newest call.
pub(crate) fn update(
    alloc: Global,
    is_global: bool,
    slot: u16,
    kinds: &Kinds,
    what: u8,
    globals: &mut Items,
    frames: &mut Frames,
) -> Result<(), RowFault>
    requires { IsSome (updated is_global slot kinds.now what globals.old (stack frames.old)) }
    ensures { Leaves (updated is_global slot kinds.now what globals.old (stack frames.old)) (globals.new, stack frames.new) result }
{
    let change = take_change(alloc, what, frames)?;
    let route = take_route(alloc, kinds.as_slice(), frames)?;
    update_variable(alloc, is_global, slot, change, route, globals, frames)
}
