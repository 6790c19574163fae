//! A number that is put at the end of a list of numbers, where the list stands.
ghost use Rattle.std.specs.Prelude.{◌≡◌, ◌<◌, ◌++◌, List, [], ◌∷◌, length, slice_get, slice_set, true, false, Some, Ok};
ghost use Rattle.std.specs.Prelude.{IsSome};
ghost use Rattle.bds_value.specs.declared.TheConstants.{MAX_ITEMS};
ghost use Rattle.bds_value.specs.declared.change_numbers.TheConstants.{ADD};
ghost use Rattle.bds_value.specs.declared.value.Value.{Value};
ghost use Rattle.bds_code.specs.declared.instr.Instr.{Instr};
ghost use Rattle.bds_code_frames.specs.Stack.{stack, slot_at, swapped};
ghost use Rattle.bds_machine_values.specs.Updates.{value_changed};
ghost use Rattle.bds_machine.specs.Stretches.{sunk, GoesTo};

use bds_code_frames::Frames;
use bds_value::{Items, MAX_ITEMS, Ty, Value};

/// Puts a number at the end of a list that isn't full, where there is memory for it.
#[inline(always)]
fn put_last(items: &mut Items, n: i64) -> bool
    ensures done { result ≡ true → (length items.old < MAX_ITEMS) × (items.new ≡ items.old ++ Value.Int n ∷ []) }
    ensures same { result ≡ false → items.new ≡ items.old }
{
    (items.len() as u64) < MAX_ITEMS && items.push(Value::Int(n)).is_ok()
}

/// Puts a number at the end of a value that is a list of numbers.
#[inline(always)]
fn grown(value: &mut Value, n: i64) -> bool
    ensures done { result ≡ true → value_changed ADD [] value.old (Value.Int n ∷ []) ≡ Some (Ok value.new) }
    ensures same { result ≡ false → value.new ≡ value.old }
{
    match value {
        Value::List(Ty::Int, items) => match items.get_mut() {
            Some(items) => put_last(items, n),
            None => false,
        },
        _ => false,
    }
}

#[inline(always)]
fn grow_global(slot: u16, n: i64, globals: &mut Items) -> bool
    requires { IsSome (slice_get globals.old slot) }
    ensures done { result ≡ true
        → (new : Value)
        × ((v : Value) → slice_get globals.old slot ≡ Some v
        → value_changed ADD [] v (Value.Int n ∷ []) ≡ Some (Ok new)) × (globals.new ≡ slice_set globals.old slot new) }
    ensures same { result ≡ false → globals.new ≡ globals.old }
{
    grown(globals.at_mut(slot as usize), n)
}

/// The value of the slot is taken out for that, and put back.
#[inline(always)]
fn grow_slot(slot: u16, n: i64, frames: &mut Frames) -> bool
    requires { IsSome (slot_at slot (stack frames.old)) }
    ensures done { result ≡ true
        → (new : Value)
        × ((v : Value) → slot_at slot (stack frames.old) ≡ Some v
        → value_changed ADD [] v (Value.Int n ∷ []) ≡ Some (Ok new))
        × ((old : Value) × (swapped slot new (stack frames.old) ≡ Some (old, stack frames.new))) }
    ensures same { result ≡ false → frames.new ≡ frames.old }
{
    let mut value = frames.swap_slot(slot as u32, Value::Bool(false));
    let done = grown(&mut value, n);
    let _placeholder = frames.swap_slot(slot as u32, value);
    done
}

#[tactic(auto, using(crate::proofs::GoingTo::moved_goes))]
fn grow_global_on(slot: u16, n: i64, next: u32, globals: &mut Items, frames: &mut Frames) -> bool
    requires { IsSome (sunk (Instr.Update true slot [] ADD) (Value.Int n) next globals.old (stack frames.old)) }
    ensures done { result ≡ true
        → sunk (Instr.Update true slot [] ADD) (Value.Int n) next globals.old (stack frames.old) ≡ Some
        (Ok (globals.new, stack frames.new)) }
    ensures same { result ≡ false → (globals.new ≡ globals.old) × (frames.new ≡ frames.old) }
    ensures place { result ≡ true → GoesTo next (stack frames.old) (stack frames.new) }
{
    let done = grow_global(slot, n, globals);
    if done {
        frames.set_place(next);
    }
    done
}

#[tactic(auto, using(crate::proofs::GoingTo::goes_behind))]
fn grow_slot_on(slot: u16, n: i64, next: u32, globals: &Items, frames: &mut Frames) -> bool
    requires { IsSome (sunk (Instr.Update false slot [] ADD) (Value.Int n) next globals.now (stack frames.old)) }
    ensures done { result ≡ true
        → sunk (Instr.Update false slot [] ADD) (Value.Int n) next globals.now (stack frames.old) ≡ Some
        (Ok (globals.now, stack frames.new)) }
    ensures same { result ≡ false → frames.new ≡ frames.old }
    ensures place { result ≡ true → GoesTo next (stack frames.old) (stack frames.new) }
{
    let done = grow_slot(slot, n, frames);
    if done {
        frames.set_place(next);
    }
    done
}

/// Puts a number at the end of a variable that is a list of numbers, and goes to a place.
#[inline(never)]
pub(crate) fn grow(
    is_global: bool,
    slot: u16,
    n: i64,
    next: u32,
    globals: &mut Items,
    frames: &mut Frames,
) -> bool
    requires { IsSome (sunk (Instr.Update is_global slot [] ADD) (Value.Int n) next globals.old (stack frames.old)) }
    ensures done { result ≡ true
        → sunk (Instr.Update is_global slot [] ADD) (Value.Int n) next globals.old (stack frames.old) ≡ Some
        (Ok (globals.new, stack frames.new)) }
    ensures same { result ≡ false → (globals.new ≡ globals.old) × (frames.new ≡ frames.old) }
    ensures place { result ≡ true → GoesTo next (stack frames.old) (stack frames.new) }
{
    if is_global {
        grow_global_on(slot, n, next, globals, frames)
    } else {
        grow_slot_on(slot, n, next, globals, frames)
    }
}
