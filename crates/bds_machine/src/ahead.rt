//! Which rows look at a value of a variable that is about to be loaded.
ghost use Rattle.std.specs.Prelude.{◌≡◌, ◌+◌, ◌-◌, ◌<◌, ◌≤◌, ◌^◌, nat_le, cond, None, slice_get, true, IsSome, Some, IfSome};
ghost use Rattle.bds_code.specs.declared.instr.Instr.{Instr};
ghost use Rattle.bds_code_frames.specs.Stack.{stack};
ghost use Rattle.bds_machine.specs.Looks.{pushes, is_variable, is_operand, looks, above, above_behind, IsAhead};

use crate::looks::{Look, variable};
use bds_code::{Function, Instr};
use bds_code_frames::Frames;
use bds_machine_values::takes;
use bds_value::{Items, Value};

/// The most rows that are looked through for one that looks at a value.
const MOST_ROWS: u32 = 16;

fn is_large(value: &Value) -> bool {
    match value {
        Value::Bool(_) | Value::Int(_) => false,
        _ => true,
    }
}

/// Whether an instruction loads a value that is more than a number or a truth value.
#[inline(always)]
fn loads_large(instr: &Instr, globals: &Items, frames: &Frames) -> bool
    requires { is_variable instr.now ≡ true → IsSome (pushes instr.now globals.now (stack frames.now)) }
    ensures { result ≡ true → is_variable instr.now ≡ true }
{
    match instr {
        Instr::Load(_) | Instr::LoadGlobal(_) => is_large(variable(instr, globals, frames)),
        _ => false,
    }
}

/// Whether the instruction at a place looks at a value below so many operands.
fn is_look(function: &Function, at: u32, count: u8) -> bool
    ensures { result ≡ looks count (slice_get function.now.code at) }
{
    match function.code.as_slice().get(at as usize) {
        Some(Instr::Item) | Some(Instr::Key) => count == 1,
        Some(Instr::Method(method)) => takes(*method, count),
        _ => false,
    }
}

fn is_operand(function: &Function, at: u32) -> bool
    ensures { result ≡ is_operand (slice_get function.now.code at) }
{
    match function.code.as_slice().get(at as usize) {
        Some(Instr::Load(_))
        | Some(Instr::LoadGlobal(_))
        | Some(Instr::PushInt(_))
        | Some(Instr::PushText(_)) => true,
        _ => false,
    }
}

fn one_taken(depth: u32) -> Option<u32>
    ensures { result ≡ cond (nat_le 1 depth) (Some depth) None }
{
    if 1 <= depth { Some(depth) } else { None }
}

fn two_taken(depth: u32) -> Option<u32>
    ensures { result ≡ cond (nat_le 2 depth) (Some (depth - 1)) None }
{
    if 2 <= depth { Some(depth - 1) } else { None }
}

/// How many operands stand above a value behind an instruction, where it may stand before a look.
fn above(instr: &Instr, depth: u32) -> Option<u32>
    requires { depth < 2 ^ 24 }
    ensures depth { result ≡ above depth instr.now }
    ensures small { IfSome result (λ n. n ≤ depth + 1) }
{
    match instr {
        Instr::Load(_) | Instr::LoadGlobal(_) | Instr::PushInt(_) | Instr::PushText(_) => {
            Some(depth + 1)
        }
        Instr::Show | Instr::Blank => one_taken(depth),
        Instr::Method(method) => if takes(*method, 0) {
            one_taken(depth)
        } else {
            None
        },
        Instr::Add | Instr::Sub | Instr::Mul | Instr::Div | Instr::Rem | Instr::Concat => two_taken(
            depth,
        ),
        _ => None,
    }
}

/// The same behind the instruction at a place.
fn depth_behind(function: &Function, place: u32, depth: u32) -> Option<u32>
    requires { depth < 2 ^ 24 }
    ensures { IfSome result (λ n. (n ≤ depth + 1) × ((i : Instr) × (slice_get function.now.code place ≡ Some i) × (above depth i ≡ Some n))) }
{
    match function.code.as_slice().get(place as usize) {
        Some(instr) => above(instr, depth),
        None => None,
    }
}

/// Whether the instruction at a place looks at the value below one operand, and one is there.
fn is_end(function: &Function, place: u32, depth: u32) -> bool
    ensures { result ≡ true → (depth ≡ 1) × (looks 1 (slice_get function.now.code place) ≡ true) }
{
    depth == 1 && is_look(function, place, 1)
}

/// How many rows stand before the one that looks at the value which the instruction at a place loads.
fn far_look(function: &Function, at: u32) -> Option<u32>
    requires { at < 2 ^ 24 }
    ensures { IfSome result (λ k. (above_behind function.now k (at + 1) 0 ≡ Some 1) × (looks 1 (slice_get function.now.code (at + 1 + k)) ≡ true) × (k < 256)) }
{
    let next = at + 1;
    let mut depth = 0;
    for k in 0..MOST_ROWS {
        let ends = is_end(function, next + k, depth);
        if ends {
            return Some(k);
        }
        match depth_behind(function, next + k, depth) {
            Some(deeper) => depth = deeper,
            None => return None,
        }
    }
    None
}

fn far_behind(function: &Function, instr: &Instr, at: u32) -> Option<Look>
    requires small { at < 2 ^ 24 }
    requires variable { is_variable instr.now ≡ true }
    ensures { IfSome result (λ look. IsAhead look function.now instr.now at) }
{
    match far_look(function, at) {
        Some(k) => Some(Look::Far(k)),
        None => None,
    }
}

/// How the value is looked at that an instruction at a place loads, where it is one of a variable.
fn look_behind(function: &Function, instr: &Instr, at: u32) -> Option<Look>
    requires variable { is_variable instr.now ≡ true }
    requires small { at < 2 ^ 24 }
    ensures { IfSome result (λ look. IsAhead look function.now instr.now at) }
{
    let next = at + 1;
    if is_look(function, next, 0) {
        Some(Look::Alone)
    } else if is_operand(function, next) && is_look(function, next + 1, 1) {
        Some(Look::With)
    } else {
        far_behind(function, instr, at)
    }
}

/// How the value is looked at that an instruction at a place loads, where that saves a copy.
#[inline(always)]
pub(crate) fn look_ahead(
    function: &Function,
    instr: &Instr,
    at: u32,
    globals: &Items,
    frames: &Frames,
) -> Option<Look>
    requires small { at < 2 ^ 24 }
    requires there { is_variable instr.now ≡ true → IsSome (pushes instr.now globals.now (stack frames.now)) }
    ensures { IfSome result (λ look. IsAhead look function.now instr.now at) }
{
    if loads_large(instr, globals, frames) {
        look_behind(function, instr, at)
    } else {
        None
    }
}
