//! Rows that look at the value of a variable where it stands: it isn't copied for that.
ghost use Rattle.std.specs.Prelude.{◌≡◌, ◌+◌, ◌<◌, ◌^◌, ℕ, List, [], ◌∷◌, slice_get, true, IsSome, Some, Err, IfOk};
ghost use Rattle.bds_value.specs.declared.value.Value.{Value};
ghost use Rattle.bds_code.specs.declared.instr.Instr.{Instr};
ghost use Rattle.bds_code_frames.specs.Stack.{Stack, stack, place_of};
ghost use Rattle.bds_machine_values.specs.Faults.{Answers, Outcome};
ghost use Rattle.bds_machine.specs.Calls.{stops};
ghost use Rattle.bds_machine.specs.Looks.{pushes, is_variable, is_operand, looks, seen, seen_by, goes_behind, worked_rows, Ran, looked_last, looked, IsAhead};
ghost use Rattle.bds_machine_values.specs.Results.{called};
ghost use Rattle.bds_machine.specs.Running.{stepped};

use crate::calls::stop_with;
use crate::point::Point;
use crate::table::instr_at;
use bds_code::{Function, Instr};
use bds_code_frames::Frames;
use bds_machine_values::{RowFault, entry_at, part, result_of, work};
use bds_value::{Boxed, Items, Listed, NoMemory, Place, RunFault, Value, copy, copy_text};
use std::alloc::Global;

/// How the value is looked at that an instruction loads.
#[derive(Clone, Copy)]
pub(crate) enum Look {
    /// By the next instruction.
    Alone,
    /// By the one behind the next, which pushes an operand.
    With,
    /// By the one behind so many, which make an operand.
    Far(u32),
}

/// The value of a variable.
#[inline(always)]
pub(crate) fn variable<'a>(instr: &Instr, globals: &'a Items, frames: &'a Frames) -> &'a Value
    requires variable { is_variable instr.now ≡ true }
    requires there { IsSome (pushes instr.now globals.now (stack frames.now)) }
    ensures { pushes instr.now globals.now (stack frames.now) ≡ Some result.now }
{
    match instr {
        Instr::Load(slot) => frames.slot(*slot as u32),
        Instr::LoadGlobal(slot) => &globals.as_slice()[*slot as usize],
        _ => unreachable!(),
    }
}

/// The value that an instruction pushes.
fn operand(
    alloc: Global,
    instr: &Instr,
    globals: &Items,
    frames: &Frames,
) -> Result<Value, NoMemory>
    requires operand { is_operand (Some instr.now) ≡ true }
    requires there { IsSome (pushes instr.now globals.now (stack frames.now)) }
    ensures { IfOk result (λ v. pushes instr.now globals.now (stack frames.now) ≡ Some v) }
{
    match instr {
        Instr::PushInt(n) => Ok(Value::Int(*n)),
        Instr::PushText(text) => Ok(Value::Text(copy_text(alloc, text)?)),
        Instr::Load(slot) => copy(alloc, frames.slot(*slot as u32)),
        Instr::LoadGlobal(slot) => copy(alloc, &globals.as_slice()[*slot as usize]),
        _ => unreachable!(),
    }
}

/// What a method gives of a value.
fn seen_alone(alloc: Global, instr: &Instr, value: &Value) -> Result<Value, RowFault>
    requires looks { looks 0 (Some instr.now) ≡ true }
    requires fine { IsSome (seen instr.now value.now []) }
    ensures { Answers (seen instr.now value.now []) result }
{
    match instr {
        Instr::Method(method) => result_of(alloc, *method, value, &Listed::new(alloc)),
        _ => unreachable!(),
    }
}

fn method_with(alloc: Global, method: u8, value: &Value, operand: Value) -> Result<Value, RowFault>
    requires { IsSome (called method value.now (operand ∷ [])) }
    ensures { Answers (called method value.now (operand ∷ [])) result }
{
    let mut args = Listed::new(alloc);
    args.push(operand)?;
    result_of(alloc, method, value, &args)
}

/// The item of a list at an operand.
fn item_seen(alloc: Global, value: &Value, index: Value) -> Result<Value, RowFault>
    requires { IsSome (seen Instr.Item value.now (index ∷ [])) }
    ensures { Answers (seen Instr.Item value.now (index ∷ [])) result }
{
    match index {
        Value::Int(index) => part(alloc, value, Place::Index(index)),
        _ => unreachable!(),
    }
}

/// The value of a map at a key, which stays where it is.
fn entry_by(alloc: Global, value: &Value, key: &Value) -> Result<Value, RowFault>
    requires { IsSome (seen Instr.Key value.now (key.now ∷ [])) }
    ensures { Answers (seen Instr.Key value.now (key.now ∷ [])) result }
{
    match key {
        Value::Text(key) => entry_at(alloc, value, key),
        _ => unreachable!(),
    }
}

/// What an instruction gives of a value below one operand.
fn seen_with(alloc: Global, instr: &Instr, value: &Value, operand: Value) -> Result<Value, RowFault>
    requires looks { looks 1 (Some instr.now) ≡ true }
    requires fine { IsSome (seen instr.now value.now (operand ∷ [])) }
    ensures { Answers (seen instr.now value.now (operand ∷ [])) result }
{
    match instr {
        Instr::Item => item_seen(alloc, value, operand),
        Instr::Key => entry_by(alloc, value, &operand),
        Instr::Method(method) => method_with(alloc, *method, value, operand),
        _ => unreachable!(),
    }
}

/// What an instruction gives of a value below what another one pushes.
fn seen_by(
    alloc: Global,
    instr: &Instr,
    value: &Value,
    pushing: &Instr,
    globals: &Items,
    frames: &Frames,
) -> Result<Value, RowFault>
    requires operand { is_operand (Some pushing.now) ≡ true }
    requires looks { looks 1 (Some instr.now) ≡ true }
    requires fine { IsSome (seen_by instr.now value.now (pushes pushing.now globals.now (stack frames.now))) }
    ensures { Answers (seen_by instr.now value.now (pushes pushing.now globals.now (stack frames.now))) result }
{
    match (instr, pushing) {
        (Instr::Key, Instr::PushText(key)) => entry_at(alloc, value, key),
        (Instr::Key, Instr::Load(_)) => {
            entry_by(alloc, value, variable(pushing, globals, frames))
        }
        (Instr::Key, Instr::LoadGlobal(_)) => {
            entry_by(alloc, value, variable(pushing, globals, frames))
        }
        _ => {
            let above = operand(alloc, pushing, globals, frames)?;
            seen_with(alloc, instr, value, above)
        }
    }
}

/// Goes on behind a place with a value, or ends with the fault of its row.
fn go_behind(
    alloc: Global,
    function: &Function,
    last: u32,
    given: Result<Value, RowFault>,
    frames: &mut Frames,
) -> Result<Option<Boxed<Point>>, NoMemory>
    requires small { last < 2 ^ 25 }
    requires there { IsSome (place_of (stack frames.old)) }
    requires line { (e : RunFault) → given ≡ Err (RowFault.Fault e) → IsSome (slice_get function.now.lines last) }
    ensures { (o : Outcome Value) → Answers o given
        → IfOk result (λ p. (g : List Value) → (t : ℕ) → goes_behind function.now last o g (stack frames.old) t ≡ Some (stepped p g (stack frames.new) t)) }
{
    match given {
        Ok(value) => {
            frames.set_place(last + 1);
            frames.add_operand(alloc, value)?;
            Ok(None)
        }
        Err(RowFault::Fault(fault)) => Ok(stop_with(alloc, function, last, fault)?),
        Err(RowFault::NoMemory) => Err(NoMemory),
    }
}

/// Looks at a variable's value by the next instruction.
fn look_alone(
    alloc: Global,
    function: &Function,
    instr: &Instr,
    at: u32,
    globals: &Items,
    frames: &mut Frames,
) -> Result<Option<Boxed<Point>>, NoMemory>
    requires small { at < 2 ^ 24 }
    requires ahead { IsAhead Look.Alone function.now instr.now at }
    requires fine { IsSome (looked Look.Alone function.now instr.now at globals.now (stack frames.old) 0) }
    ensures { IfOk result (λ p. (t : ℕ) → looked Look.Alone function.now instr.now at globals.now (stack frames.old) t ≡ Some (stepped p globals.now (stack frames.new) t)) }
{
    let next = at + 1;
    let second = instr_at(function, next);
    let value = variable(instr, globals, frames);
    let given = seen_alone(alloc, second, value);
    go_behind(alloc, function, next, given, frames)
}

/// Looks at a variable's value by the instruction behind the next, which pushes an operand.
fn look_with(
    alloc: Global,
    function: &Function,
    instr: &Instr,
    at: u32,
    globals: &Items,
    frames: &mut Frames,
) -> Result<Option<Boxed<Point>>, NoMemory>
    requires small { at < 2 ^ 24 }
    requires ahead { IsAhead Look.With function.now instr.now at }
    requires fine { IsSome (looked Look.With function.now instr.now at globals.now (stack frames.old) 0) }
    ensures { IfOk result (λ p. (t : ℕ) → looked Look.With function.now instr.now at globals.now (stack frames.old) t ≡ Some (stepped p globals.now (stack frames.new) t)) }
{
    let next = at + 1;
    let second = instr_at(function, next);
    let last = next + 1;
    let third = instr_at(function, last);
    let value = variable(instr, globals, frames);
    let given = seen_by(alloc, third, value, second, globals, frames);
    go_behind(alloc, function, last, given, frames)
}

/// Runs so many rows from a place on the newest call alone. A fault comes with its place.
fn run_rows(
    alloc: Global,
    function: &Function,
    from: u32,
    count: u32,
    globals: &Items,
    frames: &mut Frames,
) -> Result<(), (u32, RowFault)>
    requires small { from + count < 2 ^ 26 }
    requires fine { IsSome (worked_rows function.now count from globals.now (stack frames.old)) }
    ensures { Ran (worked_rows function.now count from globals.now (stack frames.old)) (stack frames.new) result }
{
    for k in 0..count {
        let place = from + k;
        match work(alloc, instr_at(function, place), globals, frames) {
            Ok(()) => {}
            Err(fault) => return Err((place, fault)),
        }
    }
    Ok(())
}

/// Looks at a variable's value by the instruction at a place, with the last operand.
fn look_last(
    alloc: Global,
    function: &Function,
    instr: &Instr,
    last: u32,
    globals: &Items,
    frames: &mut Frames,
) -> Result<Option<Boxed<Point>>, NoMemory>
    requires small { last < 2 ^ 25 }
    requires variable { is_variable instr.now ≡ true }
    requires looks { looks 1 (slice_get function.now.code last) ≡ true }
    requires fine { IsSome (looked_last function.now instr.now last globals.now (stack frames.old) 0) }
    ensures { IfOk result (λ p. (t : ℕ) → looked_last function.now instr.now last globals.now (stack frames.old) t ≡ Some (stepped p globals.now (stack frames.new) t)) }
{
    let above = frames.take_operand();
    let third = instr_at(function, last);
    let value = variable(instr, globals, frames);
    let given = seen_with(alloc, third, value, above);
    go_behind(alloc, function, last, given, frames)
}

/// Looks at a variable's value by the instruction behind so many that make an operand.
fn look_far(
    alloc: Global,
    function: &Function,
    instr: &Instr,
    count: u32,
    at: u32,
    globals: &Items,
    frames: &mut Frames,
) -> Result<Option<Boxed<Point>>, NoMemory>
    requires small { at < 2 ^ 24 }
    requires few { count < 256 }
    requires ahead { IsAhead (Look.Far count) function.now instr.now at }
    requires fine { IsSome (looked (Look.Far count) function.now instr.now at globals.now (stack frames.old) 0) }
    ensures { IfOk result (λ p. (t : ℕ) → looked (Look.Far count) function.now instr.now at globals.now (stack frames.old) t ≡ Some (stepped p globals.now (stack frames.new) t)) }
{
    let next = at + 1;
    match run_rows(alloc, function, next, count, globals, frames) {
        Ok(()) => look_last(alloc, function, instr, next + count, globals, frames),
        Err((place, fault)) => stop_at(alloc, function, place, fault),
    }
}

/// Ends with the fault of the row at a place.
fn stop_at(
    alloc: Global,
    function: &Function,
    place: u32,
    fault: RowFault,
) -> Result<Option<Boxed<Point>>, NoMemory>
    requires { (e : RunFault) → fault ≡ RowFault.Fault e → IsSome (slice_get function.now.lines place) }
    ensures { IfOk result (λ p. (e : RunFault) × (fault ≡ RowFault.Fault e) × ((g : List Value) → (s : Stack) → (t : ℕ) → stops function.now place e t ≡ Some (stepped p g s t))) }
{
    match fault {
        RowFault::Fault(fault) => Ok(stop_with(alloc, function, place, fault)?),
        RowFault::NoMemory => Err(NoMemory),
    }
}

/// Looks at a variable's value where it stands, in the place of the rows that load it and look at it.
#[inline(never)]
pub(crate) fn look_at(
    alloc: Global,
    function: &Function,
    instr: &Instr,
    look: Look,
    at: u32,
    globals: &Items,
    frames: &mut Frames,
) -> Result<Option<Boxed<Point>>, NoMemory>
    requires small { at < 2 ^ 24 }
    requires ahead { IsAhead look function.now instr.now at }
    requires fine { IsSome (looked look function.now instr.now at globals.now (stack frames.old) 0) }
    ensures { IfOk result (λ p. (t : ℕ) → looked look function.now instr.now at globals.now (stack frames.old) t ≡ Some (stepped p globals.now (stack frames.new) t)) }
{
    match look {
        Look::Alone => look_alone(alloc, function, instr, at, globals, frames),
        Look::With => look_with(alloc, function, instr, at, globals, frames),
        Look::Far(count) => look_far(alloc, function, instr, count, at, globals, frames),
    }
}
