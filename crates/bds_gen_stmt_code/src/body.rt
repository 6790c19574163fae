//! A function that is being written, with what is in force there.
ghost use Rattle.std.specs.Prelude.{◌≡◌, [], true, OnOk, IfOk};
ghost use Rattle.bds_gen_expr.specs.Gen.{patched};
ghost use Rattle.bds_gen_expr.specs.Marks.{label, slot, put};
ghost use Rattle.bds_gen_expr.specs.Numbers as numbers;
ghost use Rattle.bds_gen_stmt_code.specs.Bodies.{slots_of, with_variable, with_local};

use bds_check_names::variable;
use bds_code::{Function, Functions, Instr, Shape};
use bds_gen_expr::{Numbered, Scope, act, mark, patch};
use bds_value::{At, ByteText, Listed, NoMemory, Ty, copy_ty};
use std::alloc::Global;

/// A jump of a loop that leads ahead: its place, and whether it leads behind the loop or to where the
/// loop goes on.
#[derive(Clone, Copy, PartialEq, Eq)]
pub struct Leap {
    pub place: u32,
    pub ends: bool,
}

pub type Leaps = Listed<Leap>;

/// A function that is being written.
#[derive(Drop)]
pub struct Body {
    pub function: Function,
    /// What names stand for there.
    pub scope: Scope,
    /// The first of the eight slots that tasks need.
    pub first: u16,
    /// Declarations make globals.
    pub at_top: bool,
    /// The jumps of the loop around that lead ahead.
    pub leaps: Leaps,
}

/// A function that is being written, and the functions of `par` blocks that are finished.
#[derive(Drop)]
pub struct Unfinished {
    pub body: Body,
    /// The functions of `par` blocks in the order of their numbers.
    pub finished: Functions,
    /// The number of the first of these.
    pub first: u32,
}

/// A label below which there are no operands.
pub fn here(alloc: Global, function: &mut Function) -> Result<(), NoMemory>
    ensures { OnOk result (function.new ≡ put function.old (label [])) }
{
    mark(alloc, function, &Shape::new(alloc))
}

/// Another instruction at a place of the code; behind its end there is nothing to change.
#[tactic(auto, using(crate::proofs::Writing::patched_beyond))]
pub fn turn(function: &mut Function, place: usize, instr: Instr)
    ensures { function.new ≡ patched function.old place instr }
{
    if place < function.code.len() {
        patch(function, place, instr);
    }
}

/// The next slot; more than 16 bits count find no memory.
pub fn next_slot(function: &Function) -> Result<u16, NoMemory>
    ensures { IfOk result (λ n. n ≡ slots_of function.now) }
{
    let params = function.params.len();
    let locals = function.locals.len();
    match params.checked_add(locals) {
        Some(slots) => slot_number(slots),
        None => Err(NoMemory),
    }
}

/// A number of slots; more than 16 bits count find no memory.
pub fn slot_number(count: usize) -> Result<u16, NoMemory>
    ensures { IfOk result (λ n. n ≡ count) }
{
    match u16::try_from(count) {
        Ok(number) => Ok(number),
        Err(_) => Err(NoMemory),
    }
}

/// One more slot.
pub fn push_slot(alloc: Global, function: &mut Function, ty: &Ty) -> Result<(), NoMemory>
    ensures { OnOk result (function.new ≡ put function.old (slot ty.now)) }
{
    let ty = copy_ty(alloc, ty)?;
    function.locals.push(ty)
}

/// A variable of this number.
fn numbered(alloc: Global, name: &ByteText, ty: &Ty, number: u16) -> Result<Numbered, NoMemory>
    ensures { IfOk result (λ n. n ≡ numbers.numbered name.now ty.now number) }
{
    let variable = variable(alloc, name, ty)?;
    Ok(Numbered { variable, number })
}

/// A new local takes the last operand, also at the top level.
pub fn declare_local(
    alloc: Global,
    body: &mut Body,
    at: At,
    name: &ByteText,
    ty: &Ty,
) -> Result<(), NoMemory>
    ensures { OnOk result (body.new ≡ with_local body.old at name.now ty.now) }
{
    let number = next_slot(&body.function)?;
    push_slot(alloc, &mut body.function, ty)?;
    act(&mut body.function, at, Instr::Store(number))?;
    let local = numbered(alloc, name, ty, number)?;
    body.scope.locals.push(alloc, local)
}

/// A new global takes the last operand.
#[tactic(auto, using(crate::proofs::Writing::global_variable))]
fn declare_global(
    alloc: Global,
    body: &mut Body,
    at: At,
    name: &ByteText,
    ty: &Ty,
) -> Result<(), NoMemory>
    requires { body.old.at_top ≡ true }
    ensures { OnOk result (body.new ≡ with_variable body.old at name.now ty.now) }
{
    let number = slot_number(body.scope.globals.as_slice().len())?;
    act(&mut body.function, at, Instr::StoreGlobal(number))?;
    let global = numbered(alloc, name, ty, number)?;
    body.scope.globals.push(alloc, global)
}

/// A new variable takes the last operand: a global at the top level, and else a local.
#[tactic(auto, using(crate::proofs::Writing::local_variable))]
pub fn declare(
    alloc: Global,
    body: &mut Body,
    at: At,
    name: &ByteText,
    ty: &Ty,
) -> Result<(), NoMemory>
    ensures { OnOk result (body.new ≡ with_variable body.old at name.now ty.now) }
{
    if body.at_top {
        declare_global(alloc, body, at, name, ty)
    } else {
        declare_local(alloc, body, at, name, ty)
    }
}
