//! What is set aside where a block begins, and comes back where it ends.
ghost use Rattle.std.specs.Prelude.{◌≡◌, ◌+◌, [], false, length, OnOk, IfOk};
ghost use Rattle.bds_gen_stmt_code.specs.Bodies.{before_of, entered_body, left_body, opened_in, opened, set_aside, around_of, resumed, spawned, closed};

use crate::body::{Body, Leaps, Unfinished, slot_number};
use crate::functions::{Parameters, begin_function, visible, write_loads};
use bds_code::{Function, Functions, Instr};
use bds_gen_expr::{Locals, act, counted};
use bds_value::{At, Listed, NoMemory, Ty};
use std::alloc::Global;
use std::mem;

/// What is around a `par` block while the function of the block is written.
#[derive(Drop)]
pub struct Outer {
    pub function: Function,
    pub locals: Locals,
    pub first: u16,
    pub at_top: bool,
    pub leaps: Leaps,
}

/// What is in force before a statement, so far as it comes back behind it.
#[derive(Clone, Copy)]
pub struct Before {
    /// How many locals.
    pub count: usize,
    pub at_top: bool,
}

/// What is in force here.
#[tactic(auto, unfolding(crate::specs::Bodies::before_of))]
pub fn in_force(body: &Body) -> Before
    ensures { result ≡ before_of body.now }
{
    Before {
        count: body.scope.locals.len(),
        at_top: body.at_top,
    }
}

/// Begins a statement or a block within another: no declaration in it makes a global.
#[tactic(auto, unfolding(crate::specs::Bodies::before_of))]
pub fn enter(body: &mut Body) -> Before
    ensures body { body.new ≡ entered_body body.old }
    ensures before { result ≡ before_of body.old }
{
    let before = in_force(body);
    body.at_top = false;
    before
}

/// What was declared since isn't in force any more.
pub fn leave(body: &mut Body, before: Before)
    ensures { body.new ≡ left_body before.count before.at_top body.old }
{
    body.scope.locals.truncate(before.count);
    body.at_top = before.at_top;
}

/// Begins a function with these parameters. Gives what is set aside.
fn swap(alloc: Global, body: &mut Body, function: Function, locals: Locals, first: u16) -> Outer
    ensures outer { result ≡ set_aside body.old }
    ensures function { body.new.function ≡ function }
    ensures locals { body.new.scope.locals ≡ locals }
    ensures globals { body.new.scope.globals ≡ body.old.scope.globals }
    ensures functions { body.new.scope.functions ≡ body.old.scope.functions }
    ensures first { body.new.first ≡ first }
    ensures at_top { body.new.at_top ≡ false }
    ensures leaps { body.new.leaps ≡ [] }
{
    Outer {
        function: mem::replace(&mut body.function, function),
        locals: mem::replace(&mut body.scope.locals, locals),
        first: mem::replace(&mut body.first, first),
        at_top: mem::replace(&mut body.at_top, false),
        leaps: mem::replace(&mut body.leaps, Listed::new(alloc)),
    }
}

fn open_in(alloc: Global, body: &mut Body) -> Result<Outer, NoMemory>
    ensures body { OnOk result (body.new ≡ opened_in body.old) }
    ensures outer { IfOk result (λ outer. outer ≡ set_aside body.old) }
{
    let Parameters { locals, types } = visible(alloc, &body.scope.locals)?;
    let first = slot_number(types.len())?;
    let function = begin_function(alloc, Listed::new(alloc), types, Ty::Void)?;
    Ok(swap(alloc, body, function, locals, first))
}

/// Begins the function of a `par` block. Gives what is set aside.
#[tactic(auto, unfolding(crate::specs::Bodies::opened, crate::specs::Bodies::around_of))]
pub fn open(alloc: Global, unit: &mut Unfinished) -> Result<Outer, NoMemory>
    ensures unit { OnOk result (unit.new ≡ opened unit.old) }
    ensures outer { IfOk result (λ outer. outer ≡ around_of unit.old) }
{
    open_in(alloc, &mut unit.body)
}

fn next_number(finished: &Functions, first: u32) -> Result<u32, NoMemory>
    ensures { IfOk result (λ n. n ≡ first + length finished.now) }
{
    let count = counted(finished.len())?;
    match first.checked_add(count) {
        Some(number) => Ok(number),
        None => Err(NoMemory),
    }
}

/// What was set aside goes on.
fn resume(body: &mut Body, outer: Outer) -> Function
    ensures body { body.new ≡ resumed outer body.old.scope }
    ensures function { result ≡ body.old.function }
{
    let Outer {
        function,
        locals,
        first,
        at_top,
        leaps,
    } = outer;
    body.scope.locals = locals;
    body.first = first;
    body.at_top = at_top;
    body.leaps = leaps;
    mem::replace(&mut body.function, function)
}

/// Makes a thread of a function with the locals in force.
fn spawn(body: &mut Body, at: At, number: u32) -> Result<(), NoMemory>
    ensures { OnOk result (body.new ≡ spawned body.old at number) }
{
    write_loads(&body.scope.locals, at, &mut body.function)?;
    act(&mut body.function, at, Instr::Spawn(number))
}

/// Ends the function of a `par` block; what was set aside makes a thread of it, and goes on.
#[tactic(auto, unfolding(crate::specs::Bodies::closed))]
pub fn close(unit: &mut Unfinished, at: At, at_block: At, outer: Outer) -> Result<(), NoMemory>
    ensures { OnOk result (unit.new ≡ closed outer at at_block unit.old) }
{
    let number = next_number(&unit.finished, unit.first)?;
    act(&mut unit.body.function, at_block, Instr::Return)?;
    let function = resume(&mut unit.body, outer);
    unit.finished.push(function)?;
    spawn(&mut unit.body, at, number)
}
