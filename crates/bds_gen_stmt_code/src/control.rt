//! What begins and what ends a statement that has others within.
ghost use Rattle.std.specs.Prelude.{◌≡◌, OnOk, IfOk};
ghost use Rattle.std.specs.Option.{option_map};
ghost use Rattle.bds_tree.specs.StmtView.{small_of};
ghost use Rattle.bds_tree.specs.View.{tree_of};
ghost use Rattle.bds_gen_stmt_code.specs.GenLoops.{if_begun, if_test, if_ended, else_begun, else_jump, else_ended, while_begun, while_opened, while_ended, for_begun, for_opened, for_ended, each_begun, each_opened, each_ended};

use crate::blocks::{Before, leave};
use crate::body::{Leaps, Unfinished};
use crate::jumps::{begin_loop, begin_second, close_loop, end_jump, end_test, write_test};
use crate::loops::{Head, close_each, write_condition, write_head, write_next, write_small};
use bds_code::Shape;
use bds_tree::{Expr, Small};
use bds_value::{At, Boxed, ByteText, Listed, NoMemory, Ty};
use std::alloc::Global;
use std::mem;

/// The test of an `if`. Gives its place.
#[tactic(auto, unfolding(crate::specs::GenLoops::if_begun, crate::specs::GenLoops::if_test))]
pub fn begin_if(
    alloc: Global,
    unit: &mut Unfinished,
    at: At,
    condition: &Expr,
) -> Result<usize, NoMemory>
    ensures unit { OnOk result (unit.new ≡ if_begun (tree_of condition.now) at unit.old) }
    ensures place { IfOk result (λ n. n ≡ if_test (tree_of condition.now) unit.old) }
{
    let body = &mut unit.body;
    write_test(alloc, &body.scope, at, condition, &mut body.function)
}

/// An `if` without an `else` part ends.
#[tactic(auto, unfolding(crate::specs::GenLoops::if_ended))]
pub fn end_if(alloc: Global, unit: &mut Unfinished, test: usize) -> Result<(), NoMemory>
    ensures { OnOk result (unit.new ≡ if_ended test unit.old) }
{
    end_test(alloc, &mut unit.body.function, test)
}

/// The `else` part begins, behind a jump over it. Gives the place of the jump.
#[tactic(auto, unfolding(crate::specs::GenLoops::else_begun, crate::specs::GenLoops::else_jump))]
pub fn begin_else(
    alloc: Global,
    unit: &mut Unfinished,
    at: At,
    test: usize,
) -> Result<usize, NoMemory>
    ensures unit { OnOk result (unit.new ≡ else_begun test at unit.old) }
    ensures place { IfOk result (λ n. n ≡ else_jump unit.old) }
{
    let jump = unit.body.function.code.len();
    begin_second(alloc, &mut unit.body.function, at, test, &Shape::new(alloc))?;
    Ok(jump)
}

/// The `else` part ends.
#[tactic(auto, unfolding(crate::specs::GenLoops::else_ended))]
pub fn end_else(alloc: Global, unit: &mut Unfinished, jump: usize) -> Result<(), NoMemory>
    ensures { OnOk result (unit.new ≡ else_ended jump unit.old) }
{
    end_jump(alloc, &mut unit.body.function, jump)
}

/// A loop whose body is written: its top, the place of its test, and the jumps of the loop around it.
#[derive(Drop)]
pub struct Opened {
    pub top: u32,
    pub test: usize,
    pub around: Leaps,
}

/// The top and the test of a `while`.
pub fn begin_while(
    alloc: Global,
    unit: &mut Unfinished,
    at: At,
    condition: &Expr,
) -> Result<Opened, NoMemory>
    ensures unit { OnOk result (unit.new ≡ while_begun (tree_of condition.now) at unit.old) }
    ensures opened { IfOk result (λ opened. opened ≡ while_opened (tree_of condition.now) at unit.old) }
{
    let body = &mut unit.body;
    let top = begin_loop(alloc, &mut body.function, at)?;
    let test = write_test(alloc, &body.scope, at, condition, &mut body.function)?;
    let around = mem::replace(&mut body.leaps, Listed::new(alloc));
    Ok(Opened { top, test, around })
}

/// A `while` goes back to its top, and ends.
#[tactic(auto, unfolding(crate::specs::GenLoops::while_ended))]
pub fn end_while(
    alloc: Global,
    unit: &mut Unfinished,
    at: At,
    opened: Opened,
) -> Result<(), NoMemory>
    ensures { OnOk result (unit.new ≡ while_ended at opened unit.old) }
{
    let Opened { top, test, around } = opened;
    close_loop(alloc, &mut unit.body, at, top, top, test, around)
}

/// The head of a `for` but its step.
pub fn begin_for(
    alloc: Global,
    unit: &mut Unfinished,
    at: At,
    first: &Option<Boxed<Small>>,
    condition: &Option<Expr>,
) -> Result<Opened, NoMemory>
    ensures unit { OnOk result (unit.new ≡ for_begun (option_map small_of first.now) (option_map tree_of condition.now) at unit.old) }
    ensures opened { IfOk result (λ opened. opened ≡ for_opened (option_map small_of first.now) (option_map tree_of condition.now) at unit.old) }
{
    let body = &mut unit.body;
    write_small(alloc, body, first)?;
    let top = begin_loop(alloc, &mut body.function, at)?;
    let test = write_condition(alloc, &body.scope, at, condition, &mut body.function)?;
    let around = mem::replace(&mut body.leaps, Listed::new(alloc));
    Ok(Opened { top, test, around })
}

/// The step of a `for`, which goes back to its top, and ends.
pub fn end_for(
    alloc: Global,
    unit: &mut Unfinished,
    at: At,
    step: &Option<Boxed<Small>>,
    before: Before,
    opened: Opened,
) -> Result<(), NoMemory>
    ensures { OnOk result (unit.new ≡ for_ended (option_map small_of step.now) at before opened unit.old) }
{
    let Opened { top, test, around } = opened;
    let again = write_next(alloc, &mut unit.body, step)?;
    close_loop(alloc, &mut unit.body, at, top, again, test, around)?;
    leave(&mut unit.body, before);
    Ok(())
}

/// A list loop whose body is written, and the jumps of the loop around it.
#[derive(Drop)]
pub struct OpenedList {
    pub head: Head,
    pub around: Leaps,
}

/// The head of a list loop.
pub fn begin_each(
    alloc: Global,
    unit: &mut Unfinished,
    at: At,
    ty: &Ty,
    name: &ByteText,
    items: &Expr,
) -> Result<OpenedList, NoMemory>
    ensures unit { OnOk result (unit.new ≡ each_begun ty.now name.now (tree_of items.now) at unit.old) }
    ensures opened { IfOk result (λ opened. opened ≡ each_opened ty.now (tree_of items.now) at unit.old) }
{
    let head = write_head(alloc, &mut unit.body, at, ty, name, items)?;
    let around = mem::replace(&mut unit.body.leaps, Listed::new(alloc));
    Ok(OpenedList { head, around })
}

/// A list loop counts one more, goes back to its top, and ends.
pub fn end_each(
    alloc: Global,
    unit: &mut Unfinished,
    at: At,
    before: Before,
    opened: OpenedList,
) -> Result<(), NoMemory>
    ensures { OnOk result (unit.new ≡ each_ended at before opened unit.old) }
{
    let OpenedList { head, around } = opened;
    close_each(alloc, &mut unit.body, at, head, around)?;
    leave(&mut unit.body, before);
    Ok(())
}
