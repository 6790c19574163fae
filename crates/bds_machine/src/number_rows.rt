//! Whole numbers that rows make without a fault: of a variable, of the code, or seen in a list where it stands.
ghost use Rattle.std.specs.Prelude.{◌≡◌, ◌∷◌, ◌+◌, ◌<◌, ◌≤◌, ◌^◌, [], ℕ, List, slice_get, true, Some, Ok, IsSome};
ghost use Rattle.std.specs.Prelude.{IfSome};
ghost use Rattle.bds_value.specs.declared.value.Value.{Value, out-Value};
ghost use Rattle.bds_value.specs.Path.{child};
ghost use Rattle.bds_value.specs.declared.method_numbers.TheConstants.{LIST_SIZE};
ghost use Rattle.bds_value.specs.declared.value.Place.{Place};
ghost use Rattle.bds_lib.specs.Call.{method_of};
ghost use Rattle.bds_lib.specs.Results.{counted};
ghost use Rattle.bds_code.specs.declared.instr.Instr.{Instr};
ghost use Rattle.bds_code_frames.specs.Stack.{Stack, stack};
ghost use Rattle.bds_machine.specs.Looks.{pushes, is_variable};
ghost use Rattle.bds_machine.specs.Stretches.{Runs, Pushes, IsSize, IsItem, IsIndexed};

use crate::looks::variable;
use crate::table::instr_at;
use bds_code::{Function, Instr};
use bds_code_frames::Frames;
use bds_value::method_numbers::LIST_SIZE;
use bds_value::{Items, Value};

/// The number that a value is.
#[inline(always)]
pub(crate) fn whole(value: &Value) -> Option<i64>
    ensures { IfSome result (λ n. value.now ≡ Value.Int n) }
{
    match value {
        Value::Int(n) => Some(*n),
        _ => None,
    }
}

/// The number that an instruction pushes.
#[inline(always)]
fn number(instr: &Instr, globals: &Items, frames: &Frames) -> Option<i64>
    requires { is_variable instr.now ≡ true → IsSome (pushes instr.now globals.now (stack frames.now)) }
    ensures { IfSome result (λ n. pushes instr.now globals.now (stack frames.now) ≡ Some (Value.Int n)) }
{
    match instr {
        Instr::PushInt(n) => Some(*n),
        Instr::Load(slot) => whole(frames.slot(*slot as u32)),
        Instr::LoadGlobal(slot) => whole(&globals.as_slice()[*slot as usize]),
        _ => None,
    }
}

/// How many items a list has, where an instruction asks for that.
#[inline(always)]
fn asked_size(instr: &Instr, value: &Value) -> Option<i64>
    ensures { IfSome result (λ n. (m : ℕ) × (instr.now ≡ Instr.Method m) × (m ≡ LIST_SIZE)
        × (method_of m value.now [] ≡ Ok (Value.Int n))) }
{
    match instr {
        Instr::Method(method) => if *method == LIST_SIZE {
            list_size(value)
        } else {
            None
        },
        _ => None,
    }
}

/// How many items a list has.
#[inline(always)]
fn list_size(value: &Value) -> Option<i64>
    ensures { IfSome result (λ n. method_of LIST_SIZE value.now [] ≡ Ok (Value.Int n)) }
{
    match value {
        Value::List(_, items) => Some(counted(items.get().len())),
        _ => None,
    }
}

/// A count as a number with a sign.
#[inline(always)]
fn counted(count: usize) -> i64
    ensures { result ≡ counted count }
{
    match i64::try_from(count) {
        Ok(number) => number,
        Err(_) => i64::MAX,
    }
}

/// How many items the list has that is the last operand, where the row at a place asks for that.
#[inline(always)]
fn sized(function: &Function, at: u32, value: &Value) -> Option<i64>
    requires { (g vs : List Value) × (s : Stack) × Runs function.now at (value.now ∷ vs) g s }
    ensures { IfSome result (λ n. IsSize function.now at value.now (Value.Int n)) }
{
    let instr = instr_at(function, at);
    asked_size(instr, value)
}

/// The number at an index of a list, where an instruction asks for that.
#[inline(always)]
fn asked_item(instr: &Instr, value: &Value, index: i64) -> Option<i64>
    ensures { IfSome result (λ n. (instr.now ≡ Instr.Item)
        × (child (Place.Index index) (out-Value value.now) ≡ Some (Value.Int n))) }
{
    match instr {
        Instr::Item => item_number(value, index),
        _ => None,
    }
}

/// The number at an index of a list.
#[inline(always)]
fn item_number(value: &Value, index: i64) -> Option<i64>
    ensures { IfSome result (λ n. child (Place.Index index) (out-Value value.now) ≡ Some (Value.Int n)) }
{
    match value {
        Value::List(_, items) => match usize::try_from(index) {
            Ok(at) => item_at(items.get(), at),
            Err(_) => None,
        },
        _ => None,
    }
}

#[inline(always)]
fn item_at(items: &Items, at: usize) -> Option<i64>
    ensures { IfSome result (λ n. slice_get items.now at ≡ Some (Value.Int n)) }
{
    match items.as_slice().get(at) {
        Some(item) => whole(item),
        None => None,
    }
}

/// The number at an index of the list below it, where the row at a place asks for that.
#[inline(always)]
fn item(function: &Function, at: u32, value: &Value, index: i64) -> Option<i64>
    requires { (g vs : List Value) × (s : Stack) × Runs function.now at (Value.Int index ∷ value.now ∷ vs) g s }
    ensures { IfSome result (λ n. IsItem function.now at value.now index (Value.Int n)) }
{
    let instr = instr_at(function, at);
    asked_item(instr, value, index)
}

/// The number in the list that is the last operand, where the rows from a place on ask for that.
#[inline(always)]
fn indexed(
    function: &Function,
    at: u32,
    value: &Value,
    globals: &Items,
    frames: &Frames,
) -> Option<i64>
    requires small { at < 2 ^ 25 }
    requires runs { (vs : List Value) × Runs function.now at (value.now ∷ vs) globals.now (stack frames.now) }
    ensures { IfSome result (λ n. IsIndexed function.now at value.now globals.now (stack frames.now) (Value.Int n)) }
{
    let instr = instr_at(function, at);
    match number(instr, globals, frames) {
        Some(index) => item(function, at + 1, value, index),
        None => None,
    }
}

/// A number and the place behind the rows that push it.
#[derive(Clone, Copy)]
pub(crate) struct Operand {
    pub(crate) number: i64,
    pub(crate) next: u32,
}

/// The number that rows see in a list, which the instruction at a place loads.
#[inline(always)]
fn seen(
    function: &Function,
    instr: &Instr,
    at: u32,
    globals: &Items,
    frames: &Frames,
) -> Option<Operand>
    requires small { at < 2 ^ 24 + 8 }
    requires here { slice_get function.now.code at ≡ Some instr.now }
    requires variable { is_variable instr.now ≡ true }
    requires runs { (vs : List Value) × Runs function.now at vs globals.now (stack frames.now) }
    ensures { IfSome result (λ r. Pushes function.now at globals.now (stack frames.now) (Value.Int r.number) r.next
        × (r.next ≤ at + 3)) }
{
    let value = variable(instr, globals, frames);
    match sized(function, at + 1, value) {
        Some(number) => Some(Operand {
            number,
            next: at + 2,
        }),
        None => match indexed(function, at + 1, value, globals, frames) {
            Some(number) => Some(Operand {
                number,
                next: at + 3,
            }),
            None => None,
        },
    }
}

/// The number that the rows from a place on push.
#[inline(always)]
pub(crate) fn pushed(
    function: &Function,
    instr: &Instr,
    at: u32,
    globals: &Items,
    frames: &Frames,
) -> Option<Operand>
    requires small { at < 2 ^ 24 + 8 }
    requires here { slice_get function.now.code at ≡ Some instr.now }
    requires runs { (vs : List Value) × Runs function.now at vs globals.now (stack frames.now) }
    ensures { IfSome result (λ r. Pushes function.now at globals.now (stack frames.now) (Value.Int r.number) r.next
        × (r.next ≤ at + 3)) }
{
    match number(instr, globals, frames) {
        Some(number) => Some(Operand {
            number,
            next: at + 1,
        }),
        None => if is_variable(instr) {
            seen(function, instr, at, globals, frames)
        } else {
            None
        },
    }
}

/// Whether an instruction loads a variable.
#[inline(always)]
fn is_variable(instr: &Instr) -> bool
    ensures { result ≡ is_variable instr.now }
{
    match instr {
        Instr::Load(_) => true,
        Instr::LoadGlobal(_) => true,
        _ => false,
    }
}
