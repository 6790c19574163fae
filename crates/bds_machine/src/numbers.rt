//! Stretches of rows on whole numbers, each in one go: at most the last number becomes an operand.
ghost use Rattle.std.specs.Prelude.{◌≡◌, ◌<◌, ◌+◌, ◌-◌, ◌^◌, List, [], ◌∷◌, slice_get, slice_set, if◌then◌else◌, true};
ghost use Rattle.std.specs.Prelude.{false, Some, Ok, IsSome, IfSome};
ghost use Rattle.bds_value.specs.declared.value.Value.{Value};
ghost use Rattle.bds_code.specs.declared.instr.Instr.{Instr};
ghost use Rattle.bds_code_frames.specs.Stack.{Stack, stack, popped, pushed, swapped};
ghost use Rattle.bds_machine_values.specs.Values.{counts};
ghost use Rattle.bds_machine_values.specs.Updates.{operand_counts, variable, value_changed};
ghost use Rattle.bds_machine.specs.Stretches.{computed, settled, is_sink, sunk, with_pushed, GoesTo, Runs, Leads};

use crate::growing::grow;
use crate::number_rows::{pushed, whole};
use crate::table::instr_at;
use bds_code::{Function, Instr, Kinds};
use bds_code_frames::Frames;
use bds_value::change_numbers::{ADD, MULTIPLY, PUSH, SUBTRACT};
use bds_value::{Items, Value, add, mul, sub};
use std::alloc::Global;

/// The number that an operator gives.
#[inline(always)]
fn computed(instr: &Instr, a: i64, b: i64) -> Option<i64>
    ensures { IfSome result (λ n. computed instr.now (Value.Int a) (Value.Int b) ≡ Some (Ok (Value.Int n))) }
{
    match instr {
        Instr::Add => Some(add(a, b)),
        Instr::Sub => Some(sub(a, b)),
        Instr::Mul => Some(mul(a, b)),
        _ => None,
    }
}

/// Whether two numbers compare as an instruction asks.
#[inline(always)]
fn compared(instr: &Instr, a: i64, b: i64) -> Option<bool>
    ensures { IfSome result (λ holds. computed instr.now (Value.Int a) (Value.Int b) ≡ Some (Ok (Value.Bool holds))) }
{
    match instr {
        Instr::Less => Some(a.cmp(&b).is_lt()),
        Instr::LessEqual => Some(a.cmp(&b).is_le()),
        Instr::Greater => Some(a.cmp(&b).is_gt()),
        Instr::GreaterEqual => Some(a.cmp(&b).is_ge()),
        Instr::Equal => Some(a.cmp(&b).is_eq()),
        Instr::NotEqual => Some(a.cmp(&b).is_ne()),
        _ => None,
    }
}

/// Puts a number in a global, mostly in the place of a number.
#[inline(always)]
fn put_global(slot: u16, n: i64, globals: &mut Items)
    requires { IsSome (slice_get globals.old slot) }
    ensures { globals.new ≡ slice_set globals.old slot (Value.Int n) }
{
    match globals.at_mut(slot as usize) {
        Value::Int(number) => *number = n,
        place => *place = Value::Int(n),
    }
}

/// Puts a number in a slot in the place of what isn't one.
#[inline(never)]
fn replace_slot(slot: u16, n: i64, frames: &mut Frames)
    requires { IsSome (swapped slot (Value.Int n) (stack frames.old)) }
    ensures { (old : Value) × (swapped slot (Value.Int n) (stack frames.old) ≡ Some (old, stack frames.new)) }
{
    let _old = frames.swap_slot(slot as u32, Value::Int(n));
}

/// Puts a number in a slot, mostly in the place of a number.
#[inline(always)]
fn put_slot(slot: u16, n: i64, frames: &mut Frames)
    requires { IsSome (swapped slot (Value.Int n) (stack frames.old)) }
    ensures { (old : Value) × (swapped slot (Value.Int n) (stack frames.old) ≡ Some (old, stack frames.new)) }
{
    if !frames.set_number(slot as u32, n) {
        replace_slot(slot, n, frames);
    }
}

/// Puts a number in a variable, and goes to a place.
#[inline(always)]
#[tactic(auto, using(crate::proofs::GoingTo::moved_goes, crate::proofs::GoingTo::swapped_goes))]
fn settle(is_global: bool, slot: u16, n: i64, next: u32, globals: &mut Items, frames: &mut Frames)
    requires { IsSome (settled is_global slot (Value.Int n) next globals.old (stack frames.old)) }
    ensures done { settled is_global slot (Value.Int n) next globals.old (stack frames.old) ≡ Some
        (Ok (globals.new, stack frames.new)) }
    ensures place { GoesTo next (stack frames.old) (stack frames.new) }
{
    frames.set_place(next);
    if is_global {
        put_global(slot, n, globals);
    } else {
        put_slot(slot, n, frames);
    }
}

/// The number of a variable.
#[inline(always)]
fn held(is_global: bool, slot: u16, globals: &Items, frames: &Frames) -> Option<i64>
    requires { IsSome (variable is_global slot globals.now (stack frames.now)) }
    ensures { IfSome result (λ n. variable is_global slot globals.now (stack frames.now) ≡ Some (Value.Int n)) }
{
    if is_global {
        whole(&globals.as_slice()[slot as usize])
    } else {
        whole(frames.slot(slot as u32))
    }
}

/// A number after a change by another.
#[inline(always)]
fn changed(what: u8, old: i64, n: i64) -> Option<i64>
    ensures { IfSome result (λ new. value_changed what [] (Value.Int old) (Value.Int n ∷ []) ≡ Some
        (Ok (Value.Int new))) }
{
    match what {
        ADD => Some(add(old, n)),
        SUBTRACT => Some(sub(old, n)),
        MULTIPLY => Some(mul(old, n)),
        _ => None,
    }
}

/// Changes a variable that is a number by another, and goes to a place.
#[inline(always)]
fn update(
    is_global: bool,
    slot: u16,
    what: u8,
    n: i64,
    next: u32,
    globals: &mut Items,
    frames: &mut Frames,
) -> Option<u32>
    requires { IsSome (sunk (Instr.Update is_global slot [] what) (Value.Int n) next globals.old (stack frames.old)) }
    ensures done { IsSome result
        → sunk (Instr.Update is_global slot [] what) (Value.Int n) next globals.old (stack frames.old) ≡ Some
        (Ok (globals.new, stack frames.new)) }
    ensures same { result ≡ None → (globals.new ≡ globals.old) × (frames.new ≡ frames.old) }
    ensures place { IfSome result (λ to. GoesTo to (stack frames.old) (stack frames.new)) }
{
    match held(is_global, slot, globals, frames) {
        Some(old) => match changed(what, old, n) {
            Some(new) => {
                settle(is_global, slot, new, next, globals, frames);
                Some(next)
            }
            None => None,
        },
        None => {
            if what == ADD && grow(is_global, slot, n, next, globals, frames) {
                Some(next)
            } else {
                None
            }
        }
    }
}

/// Whether a change is one of a whole variable by one operand.
#[inline(always)]
fn is_plain(kinds: &Kinds, what: u8) -> bool
    ensures { result ≡ true → (kinds.now ≡ []) × (counts 1 (slice_get operand_counts what) ≡ true) }
{
    kinds.len() == 0 && what < PUSH
}

/// Does what an instruction does with a number alone, and goes to a place.
#[inline(always)]
fn sink(instr: &Instr, n: i64, next: u32, globals: &mut Items, frames: &mut Frames) -> Option<u32>
    requires { is_sink instr.now ≡ true → IsSome (sunk instr.now (Value.Int n) next globals.old (stack frames.old)) }
    ensures done { IsSome result
        → (is_sink instr.now ≡ true)
        × (sunk instr.now (Value.Int n) next globals.old (stack frames.old) ≡ Some (Ok (globals.new, stack frames.new))) }
    ensures same { result ≡ None → (globals.new ≡ globals.old) × (frames.new ≡ frames.old) }
    ensures place { IfSome result (λ to. GoesTo to (stack frames.old) (stack frames.new)) }
{
    match instr {
        Instr::Store(slot) => {
            settle(false, *slot, n, next, globals, frames);
            Some(next)
        }
        Instr::StoreGlobal(slot) => {
            settle(true, *slot, n, next, globals, frames);
            Some(next)
        }
        Instr::Update(is_global, slot, kinds, what) => if is_plain(kinds, *what) {
            update(*is_global, *slot, *what, n, next, globals, frames)
        } else {
            None
        },
        _ => None,
    }
}

/// Goes on behind a place with a number, where what stands there takes it alone.
#[inline(always)]
fn sink_at(
    function: &Function,
    at: u32,
    n: i64,
    globals: &mut Items,
    frames: &mut Frames,
) -> Option<u32>
    requires small { at < 2 ^ 25 }
    requires runs { Runs function.now at (Value.Int n ∷ []) globals.old (stack frames.old) }
    ensures done { IsSome result
        → Leads function.now at (Value.Int n ∷ []) globals.old (stack frames.old) globals.new (stack frames.new) }
    ensures same { result ≡ None → (globals.new ≡ globals.old) × (frames.new ≡ frames.old) }
    ensures place { IfSome result (λ to. GoesTo to (stack frames.old) (stack frames.new)) }
{
    let instr = instr_at(function, at);
    sink(instr, n, at + 1, globals, frames)
}

/// Goes to the next place, or to another.
#[inline(always)]
fn target(holds: bool, next: u32, to: u32) -> u32
    ensures { result ≡ (if holds then next else to) }
{
    if holds { next } else { to }
}

/// Does what an instruction does with a truth value alone.
#[inline(always)]
#[tactic(auto, using(crate::proofs::GoingTo::moved_goes))]
fn branch(instr: &Instr, holds: bool, next: u32, frames: &mut Frames) -> Option<u32>
    requires { (g : List Value)
        × (is_sink instr.now ≡ true → IsSome (sunk instr.now (Value.Bool holds) next g (stack frames.old))) }
    ensures done { IsSome result
        → (is_sink instr.now ≡ true)
        × ((g : List Value)
        → sunk instr.now (Value.Bool holds) next g (stack frames.old) ≡ Some (Ok (g, stack frames.new))) }
    ensures same { result ≡ None → frames.new ≡ frames.old }
    ensures place { IfSome result (λ to. GoesTo to (stack frames.old) (stack frames.new)) }
{
    match instr {
        Instr::JumpUnless(to) => {
            let to = target(holds, next, *to);
            frames.set_place(to);
            Some(to)
        }
        _ => None,
    }
}

/// Goes on behind a place with a truth value, where a branch stands there.
#[inline(always)]
fn branch_at(function: &Function, at: u32, holds: bool, frames: &mut Frames) -> Option<u32>
    requires small { at < 2 ^ 25 }
    requires runs { (g : List Value) × Runs function.now at (Value.Bool holds ∷ []) g (stack frames.old) }
    ensures done { IsSome result → (g : List Value)
        → Leads function.now at (Value.Bool holds ∷ []) g (stack frames.old) g (stack frames.new) }
    ensures same { result ≡ None → frames.new ≡ frames.old }
    ensures place { IfSome result (λ to. GoesTo to (stack frames.old) (stack frames.new)) }
{
    let instr = instr_at(function, at);
    branch(instr, holds, at + 1, frames)
}

/// Goes on behind a comparison of two numbers.
#[inline(always)]
fn compare(
    function: &Function,
    instr: &Instr,
    at: u32,
    a: i64,
    b: i64,
    frames: &mut Frames,
) -> Option<u32>
    requires small { at < 2 ^ 25 - 1 }
    requires here { slice_get function.now.code at ≡ Some instr.now }
    requires runs { (g : List Value) × Runs function.now at (Value.Int b ∷ Value.Int a ∷ []) g (stack frames.old) }
    ensures done { IsSome result → (g : List Value)
        → Leads function.now at (Value.Int b ∷ Value.Int a ∷ []) g (stack frames.old) g (stack frames.new) }
    ensures same { result ≡ None → frames.new ≡ frames.old }
    ensures place { IfSome result (λ to. GoesTo to (stack frames.old) (stack frames.new)) }
{
    match compared(instr, a, b) {
        Some(holds) => branch_at(function, at + 1, holds, frames),
        None => None,
    }
}

/// Goes to a place with a number as the last operand, where there is memory for it.
#[inline(always)]
#[tactic(auto, using(crate::proofs::GoingTo::pushed_goes))]
fn rest(alloc: Global, n: i64, next: u32, frames: &mut Frames) -> Option<u32>
    requires { IsSome (pushed (Value.Int n) (stack frames.old)) }
    ensures done { IsSome result → stack frames.new ≡ with_pushed (Value.Int n ∷ []) next (stack frames.old) }
    ensures same { result ≡ None → frames.new ≡ frames.old }
    ensures place { IfSome result (λ to. GoesTo to (stack frames.old) (stack frames.new)) }
{
    match frames.add_operand(alloc, Value::Int(n)) {
        Ok(()) => {
            frames.set_place(next);
            Some(next)
        }
        Err(_) => None,
    }
}

/// Goes on at a place with two numbers, where an operator stands there.
#[inline(always)]
#[tactic(auto, using(crate::proofs::GoingTo::kept_goes))]
fn operate(
    alloc: Global,
    function: &Function,
    at: u32,
    a: i64,
    b: i64,
    globals: &mut Items,
    frames: &mut Frames,
) -> Option<u32>
    requires small { at < 2 ^ 25 - 1 }
    requires runs { Runs function.now at (Value.Int b ∷ Value.Int a ∷ []) globals.old (stack frames.old) }
    ensures done { IsSome result
        → Leads function.now at (Value.Int b ∷ Value.Int a ∷ []) globals.old (stack frames.old) globals.new
        (stack frames.new) }
    ensures same { result ≡ None → (globals.new ≡ globals.old) × (frames.new ≡ frames.old) }
    ensures place { IfSome result (λ to. GoesTo to (stack frames.old) (stack frames.new)) }
{
    let instr = instr_at(function, at);
    match computed(instr, a, b) {
        Some(n) => match sink_at(function, at + 1, n, globals, frames) {
            Some(next) => Some(next),
            None => rest(alloc, n, at + 1, frames),
        },
        None => compare(function, instr, at, a, b, frames),
    }
}

/// Goes on at a place with a number.
#[inline(always)]
fn go_on(
    alloc: Global,
    function: &Function,
    at: u32,
    a: i64,
    globals: &mut Items,
    frames: &mut Frames,
) -> Option<u32>
    requires small { at < 2 ^ 24 + 8 }
    requires runs { Runs function.now at (Value.Int a ∷ []) globals.old (stack frames.old) }
    ensures done { IsSome result
        → Leads function.now at (Value.Int a ∷ []) globals.old (stack frames.old) globals.new (stack frames.new) }
    ensures same { result ≡ None → (globals.new ≡ globals.old) × (frames.new ≡ frames.old) }
    ensures place { IfSome result (λ to. GoesTo to (stack frames.old) (stack frames.new)) }
{
    let instr = instr_at(function, at);
    match pushed(function, instr, at, globals, frames) {
        Some(b) => operate(alloc, function, b.next, a, b.number, globals, frames),
        None => sink(instr, a, at + 1, globals, frames),
    }
}

/// The number that is the last operand.
#[inline(always)]
fn last_number(frames: &Frames) -> Option<i64>
    ensures { IfSome result (λ n. (v : Value) (s : Stack) → popped (stack frames.now) ≡ Some (v, s) → v ≡ Value.Int n) }
{
    match frames.values().last() {
        Some(value) => whole(value),
        None => None,
    }
}

/// Changes a variable that is a number by the number that is the last operand, and goes to a place.
#[inline(always)]
#[tactic(auto, using(crate::proofs::GoingTo::popped_goes))]
fn update_by_last(
    is_global: bool,
    slot: u16,
    what: u8,
    next: u32,
    globals: &mut Items,
    frames: &mut Frames,
) -> Option<u32>
    requires some { IsSome (popped (stack frames.old)) }
    requires there { (v : Value) (s : Stack) → popped (stack frames.old) ≡ Some (v, s)
        → IsSome (sunk (Instr.Update is_global slot [] what) v next globals.old s) }
    ensures done { IsSome result → (v : Value) (s : Stack) → popped (stack frames.old) ≡ Some (v, s)
        → sunk (Instr.Update is_global slot [] what) v next globals.old s ≡ Some (Ok (globals.new, stack frames.new)) }
    ensures same { result ≡ None → (globals.new ≡ globals.old) × (frames.new ≡ frames.old) }
    ensures place { IfSome result (λ to. GoesTo to (stack frames.old) (stack frames.new)) }
{
    match last_number(frames) {
        Some(n) => match held(is_global, slot, globals, frames) {
            Some(old) => match changed(what, old, n) {
                Some(new) => {
                    let _number = frames.take_operand();
                    settle(is_global, slot, new, next, globals, frames);
                    Some(next)
                }
                None => None,
            },
            None => None,
        },
        None => None,
    }
}

/// Does what an instruction does with the number that is the last operand.
#[inline(always)]
fn sink_last(instr: &Instr, next: u32, globals: &mut Items, frames: &mut Frames) -> Option<u32>
    requires some { is_sink instr.now ≡ true → IsSome (popped (stack frames.old)) }
    requires there { is_sink instr.now ≡ true → (v : Value) (s : Stack) → popped (stack frames.old) ≡ Some (v, s)
        → IsSome (sunk instr.now v next globals.old s) }
    ensures done { IsSome result
        → (is_sink instr.now ≡ true) × ((v : Value) (s : Stack) → popped (stack frames.old) ≡ Some (v, s)
        → sunk instr.now v next globals.old s ≡ Some (Ok (globals.new, stack frames.new))) }
    ensures same { result ≡ None → (globals.new ≡ globals.old) × (frames.new ≡ frames.old) }
    ensures place { IfSome result (λ to. GoesTo to (stack frames.old) (stack frames.new)) }
{
    match instr {
        Instr::Update(is_global, slot, kinds, what) => if is_plain(kinds, *what) {
            update_by_last(*is_global, *slot, *what, next, globals, frames)
        } else {
            None
        },
        _ => None,
    }
}

/// Goes through a stretch of rows on whole numbers, where one begins at a place.
#[inline(always)]
#[tactic(auto, using(crate::proofs::GoingTo::kept_goes))]
pub(crate) fn stretch(
    alloc: Global,
    function: &Function,
    instr: &Instr,
    at: u32,
    globals: &mut Items,
    frames: &mut Frames,
) -> Option<u32>
    requires small { at < 2 ^ 24 }
    requires here { slice_get function.now.code at ≡ Some instr.now }
    requires runs { Runs function.now at [] globals.old (stack frames.old) }
    ensures done { IsSome result
        → Leads function.now at [] globals.old (stack frames.old) globals.new (stack frames.new) }
    ensures same { result ≡ None → (globals.new ≡ globals.old) × (frames.new ≡ frames.old) }
    ensures place { IfSome result (λ to. GoesTo to (stack frames.old) (stack frames.new)) }
{
    match pushed(function, instr, at, globals, frames) {
        Some(a) => match go_on(alloc, function, a.next, a.number, globals, frames) {
            Some(next) => Some(next),
            None => rest(alloc, a.number, a.next, frames),
        },
        None => sink_last(instr, at + 1, globals, frames),
    }
}
