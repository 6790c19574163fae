//! Jumps that lead ahead: they lead to 0 until their place is known.
ghost use Rattle.std.specs.Prelude.{◌≡◌, ◌++◌, ◌∷◌, [], OnOk, IfOk, length};
ghost use Rattle.bds_code.specs.declared.instr.Instr.TheVariants as jumps;
ghost use Rattle.bds_gen_expr.specs.Gen.{patched, begin_other, end_at, gen};
ghost use Rattle.bds_gen_stmt_code.specs.GenLoops.{tested, test_ended, jump_ended, topped, loop_ended, loop_closed};
ghost use Rattle.bds_gen_stmt_code.specs.Leaps as leap;
ghost use Rattle.bds_gen_stmt_code.specs.Leaps.{loop_to, led};
ghost use Rattle.bds_tree.specs.View.{tree_of};

use crate::body::{Body, Leap, Leaps, here, turn};
use bds_code::{Function, Instr, Shape};
use bds_gen_expr::{Scope, act, mark, mark_with, place_behind, write_expr};
use bds_tree::Expr;
use bds_value::{At, NoMemory, Ty};
use std::alloc::Global;
use std::mem;

/// The second of two ways begins behind a jump over it; the test at a place leads to it.
pub fn begin_second(
    alloc: Global,
    function: &mut Function,
    at: At,
    test: usize,
    shape: &Shape,
) -> Result<(), NoMemory>
    ensures { OnOk result (function.new ≡ begin_other function.old test at shape.now) }
{
    let other = place_behind(function, 1)?;
    act(function, at, Instr::Jump(0))?;
    mark(alloc, function, shape)?;
    turn(function, test, Instr::JumpUnless(other));
    Ok(())
}

/// Two ways end here, with one more operand of a type; the jump at a place leads here.
pub fn end_both(
    alloc: Global,
    function: &mut Function,
    jump: usize,
    shape: &mut Shape,
    ty: &Ty,
) -> Result<(), NoMemory>
    ensures { OnOk result (function.new ≡ end_at function.old jump (shape.old ++ ty.now ∷ [])) }
{
    let end = place_behind(function, 0)?;
    mark_with(alloc, function, shape, ty)?;
    turn(function, jump, Instr::Jump(end));
    Ok(())
}

/// A test that leads ahead. Gives its place.
pub fn test(function: &mut Function, at: At) -> Result<usize, NoMemory>
    ensures code { OnOk result (function.new ≡ tested function.old at) }
    ensures place { IfOk result (λ n. n ≡ length function.old.code) }
{
    let place = function.code.len();
    act(function, at, Instr::JumpUnless(0))?;
    Ok(place)
}

/// A condition and its test. Gives the place of the test.
pub fn write_test(
    alloc: Global,
    scope: &Scope,
    at: At,
    condition: &Expr,
    function: &mut Function,
) -> Result<usize, NoMemory>
    ensures code { OnOk result (function.new ≡ tested (gen (tree_of condition.now) scope.now [] function.old) at) }
    ensures place { IfOk result (λ n. n ≡ length (gen (tree_of condition.now) scope.now [] function.old).code) }
{
    write_expr(alloc, scope, condition, &mut Shape::new(alloc), function)?;
    test(function, at)
}

/// The test at a place leads here.
pub fn end_test(alloc: Global, function: &mut Function, test: usize) -> Result<(), NoMemory>
    ensures { OnOk result (function.new ≡ test_ended function.old test) }
{
    let end = place_behind(function, 0)?;
    turn(function, test, Instr::JumpUnless(end));
    here(alloc, function)
}

/// The jump at a place leads here.
pub fn end_jump(alloc: Global, function: &mut Function, jump: usize) -> Result<(), NoMemory>
    ensures { OnOk result (function.new ≡ jump_ended function.old jump) }
{
    let end = place_behind(function, 0)?;
    turn(function, jump, Instr::Jump(end));
    here(alloc, function)
}

/// A loop begins here. Gives the place.
pub fn begin_loop(alloc: Global, function: &mut Function, at: At) -> Result<u32, NoMemory>
    ensures code { OnOk result (function.new ≡ topped function.old at) }
    ensures place { IfOk result (λ n. n ≡ length function.old.code) }
{
    let top = place_behind(function, 0)?;
    here(alloc, function)?;
    act(function, at, Instr::Tick)?;
    Ok(top)
}

/// The jumps of a loop lead to where it goes on, and behind it.
fn lead(function: &mut Function, leaps: &[Leap], again: u32, end: u32)
    ensures { function.new ≡ led (loop_to again end) leaps.now function.old }
{
    for i in (0..leaps.len()).rev() {
        set_leap(function, &leaps[i], again, end);
    }
}

fn set_leap(function: &mut Function, jump: &Leap, again: u32, end: u32)
    ensures { function.new ≡ patched function.old jump.now.place (jumps.Jump (leap.target (loop_to again end) jump.now)) }
{
    let to = if jump.ends { end } else { again };
    turn(function, jump.place as usize, Instr::Jump(to));
}

/// A loop ends: it goes back to its top, and its test leads behind it, as do its jumps, or to where it
/// goes on.
fn end_loop(
    alloc: Global,
    function: &mut Function,
    at: At,
    top: u32,
    again: u32,
    test: usize,
    leaps: &[Leap],
) -> Result<(), NoMemory>
    ensures { OnOk result (function.new ≡ loop_ended function.old at top again test leaps.now) }
{
    let end = place_behind(function, 1)?;
    lead(function, leaps, again, end);
    act(function, at, Instr::Jump(top))?;
    end_test(alloc, function, test)
}

/// A loop ends, and these are the jumps of the one around it.
pub fn close_loop(
    alloc: Global,
    body: &mut Body,
    at: At,
    top: u32,
    again: u32,
    test: usize,
    around: Leaps,
) -> Result<(), NoMemory>
    ensures { OnOk result (body.new ≡ loop_closed body.old at top again test around) }
{
    let leaps = mem::replace(&mut body.leaps, around);
    end_loop(
        alloc,
        &mut body.function,
        at,
        top,
        again,
        test,
        leaps.as_slice(),
    )
}
