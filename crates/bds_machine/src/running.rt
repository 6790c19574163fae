//! Rows one after the other, up to the first that leaves the machine.
ghost use Rattle.std.specs.Prelude.{◌≡◌, ◌<◌, ◌^◌, ℕ, List, [], true, false, slice_get, IsSome, Some, None, IfOk};
ghost use Rattle.std.specs.Prelude.{IfSome};
ghost use Rattle.bds_value.specs.declared.ids.Status.TheVariants.{Ready};
ghost use Rattle.bds_code_frames.specs.Stack.{stack, place_of, moved};
ghost use Rattle.bds_value.specs.declared.value.Value.{Value};
ghost use Rattle.bds_verify.specs.Threads.{AreLive, IsThread};
ghost use Rattle.bds_verify.specs.Verified.{VerifiedUnit};
ghost use Rattle.bds_machine.specs.Answers.{is_awaited, IsAtRest, IsLeft};
ghost use Rattle.bds_machine.specs.Calls.{On, jumps, ticks as ticked};
ghost use Rattle.bds_machine.specs.Stretches.{Runs, LeadsOn, Came, GoesTo};
ghost use Rattle.bds_machine.specs.Running.{rows, ComesTo, Turned};

use crate::ahead::look_ahead;
use crate::calls::{call, function_at, leave};
use crate::looks::look_at;
use crate::numbers::stretch;
use crate::point::Point;
use crate::table::{instr_at, step};
use bds_code::{Function, Instr, Thread, Unit};
use bds_code_frames::Frames;
use bds_value::{Boxed, Items, NoMemory};
use bds_verify::Verified;
use std::alloc::Global;

/// The function of the newest call, which is looked up only where it is another than before.
#[inline(always)]
fn function_of<'a>(unit: &'a Unit, before: u32, function: &'a Function, newest: u32) -> &'a Function
    requires before { slice_get unit.now.functions before ≡ Some function.now }
    requires newest { IsSome (slice_get unit.now.functions newest) }
    ensures { slice_get unit.now.functions newest ≡ Some result.now }
{
    if newest == before {
        function
    } else {
        function_at(unit, newest)
    }
}

/// Runs the row at a place of the newest call, which is of this function, or those up to a look.
#[inline(never)]
fn plain(
    alloc: Global,
    unit: &Unit,
    number: u32,
    function: &Function,
    instr: &Instr,
    at: u32,
    globals: &mut Items,
    frames: &mut Frames,
    ticks: &mut u64,
) -> Result<Option<Boxed<Point>>, NoMemory>
    requires verified { VerifiedUnit unit.now }
    requires place { place_of (stack frames.old) ≡ Some (number, at) }
    requires function { slice_get unit.now.functions number ≡ Some function.now }
    requires here { slice_get function.now.code at ≡ Some instr.now }
    requires fine { (n : ℕ) → IsSome (rows unit.now n globals.old (stack frames.old) ticks.old) }
    ensures { IfOk result (λ p. Turned unit.now globals.old (stack frames.old) ticks.old p globals.new
        (stack frames.new) ticks.new) }
{
    match look_ahead(function, instr, at, globals, frames) {
        None => step(alloc, unit, number, function, at, globals, frames, ticks),
        Some(ahead) => look_at(alloc, function, instr, ahead, at, globals, frames),
    }
}

/// Runs a call or a return without a look ahead, and else what `plain` runs.
#[inline(always)]
fn turn(
    alloc: Global,
    unit: &Unit,
    number: u32,
    function: &Function,
    instr: &Instr,
    at: u32,
    globals: &mut Items,
    frames: &mut Frames,
    ticks: &mut u64,
) -> Result<Option<Boxed<Point>>, NoMemory>
    requires verified { VerifiedUnit unit.now }
    requires place { place_of (stack frames.old) ≡ Some (number, at) }
    requires function { slice_get unit.now.functions number ≡ Some function.now }
    requires here { slice_get function.now.code at ≡ Some instr.now }
    requires fine { (n : ℕ) → IsSome (rows unit.now n globals.old (stack frames.old) ticks.old) }
    ensures { IfOk result (λ p. Turned unit.now globals.old (stack frames.old) ticks.old p globals.new
        (stack frames.new) ticks.new) }
{
    match instr {
        Instr::Call(callee) => call(alloc, unit, function, *callee, at, frames, ticks),
        Instr::Return => leave(alloc, &function.ret, frames),
        _ => plain(
            alloc, unit, number, function, instr, at, globals, frames, ticks,
        ),
    }
}

/// Counts a tick and goes to the next place, where a tick is left.
#[inline(always)]
#[tactic(auto, using(crate::proofs::GoingTo::moved_goes))]
fn count(frames: &mut Frames, ticks: &mut u64, next: u32) -> Option<u32>
    requires { IsSome (moved next (stack frames.old)) }
    ensures done { IsSome result
        → (g : List Value)
        → ticked g (stack frames.old) ticks.old (λ left. jumps next g (stack frames.old) left) ≡ Some
        (On g (stack frames.new) ticks.new) }
    ensures same { result ≡ None → (frames.new ≡ frames.old) × (ticks.new ≡ ticks.old) }
    ensures place { IfSome result (λ to. GoesTo to (stack frames.old) (stack frames.new)) }
{
    if *ticks == 0 {
        return None;
    }
    *ticks -= 1;
    frames.set_place(next);
    Some(next)
}

/// Runs a stretch of rows on whole numbers, or a row that only goes elsewhere, and gives the place behind it.
#[inline(always)]
#[tactic(auto, using(crate::proofs::GoingTo::moved_goes))]
fn quick(
    alloc: Global,
    function: &Function,
    instr: &Instr,
    at: u32,
    globals: &mut Items,
    frames: &mut Frames,
    ticks: &mut u64,
) -> Option<u32>
    requires small { at < 2 ^ 24 }
    requires here { slice_get function.now.code at ≡ Some instr.now }
    requires runs { Runs function.now at [] globals.old (stack frames.old) }
    ensures done { IsSome result
        → LeadsOn function.now at globals.old (stack frames.old) ticks.old globals.new (stack frames.new) ticks.new }
    ensures same { result ≡ None
        → (globals.new ≡ globals.old) × (frames.new ≡ frames.old) × (ticks.new ≡ ticks.old) }
    ensures place { IfSome result (λ to. GoesTo to (stack frames.old) (stack frames.new)) }
{
    match instr {
        Instr::Tick => count(frames, ticks, at + 1),
        Instr::Jump(to) => {
            frames.set_place(*to);
            Some(*to)
        }
        _ => stretch(alloc, function, instr, at, globals, frames),
    }
}

/// Runs rows of one call as long as they are quick, and gives the place of the first that isn't.
#[inline(always)]
fn hurry(
    alloc: Global,
    unit: &Unit,
    number: u32,
    function: &Function,
    from: u32,
    globals: &mut Items,
    frames: &mut Frames,
    ticks: &mut u64,
) -> u32
    requires verified { VerifiedUnit unit.now }
    requires live { AreLive unit.now globals.old (stack frames.old) }
    requires place { place_of (stack frames.old) ≡ Some (number, from) }
    requires function { slice_get unit.now.functions number ≡ Some function.now }
    ensures came { Came unit.now globals.old (stack frames.old) ticks.old globals.new (stack frames.new) ticks.new }
    ensures place { place_of (stack frames.new) ≡ Some (number, result) }
{
    let mut at = from;
    loop {
        let instr = instr_at(function, at);
        match quick(alloc, function, instr, at, globals, frames, ticks) {
            Some(next) => at = next,
            None => return at,
        }
    }
}

/// Runs a thread that is ready up to the first row that leaves the machine, and counts its ticks
/// down. A thread that waits for an answer there is given it by `give`.
pub fn run_to_point(
    alloc: Global,
    unit: &Verified,
    thread: &mut Thread,
    ticks: &mut u64,
) -> Result<Point, NoMemory>
    requires valid { IsThread unit.now thread.old }
    requires ready { thread.old.status ≡ Ready }
    ensures run { IfOk result (λ p. ComesTo unit.now thread.old ticks.old p thread.new ticks.new) }
    ensures left { IfOk result (λ p. is_awaited p ≡ true → IsLeft unit.now p thread.new) }
    ensures rest { IfOk result (λ p. IsAtRest unit.now p thread.new) }
{
    let code = unit.unit();
    let (mut number, _) = thread.frames.place();
    let mut function = function_at(code, number);
    loop {
        let (newest, from) = thread.frames.place();
        function = function_of(code, number, function, newest);
        number = newest;
        let at = hurry(
            alloc,
            code,
            number,
            function,
            from,
            &mut thread.globals,
            &mut thread.frames,
            ticks,
        );
        match turn(
            alloc,
            code,
            number,
            function,
            instr_at(function, at),
            at,
            &mut thread.globals,
            &mut thread.frames,
            ticks,
        ) {
            Ok(None) => {}
            Ok(Some(point)) => return Ok(point.into_inner()),
            Err(NoMemory) => return Err(NoMemory),
        }
    }
}
