//! The heads of loops: parts of a `for`, and the list and count of a list loop.
ghost use Rattle.std.specs.Prelude.{◌≡◌, ◌+◌, ◌∷◌, [], OnOk, IfOk, length};
ghost use Rattle.std.specs.Option.{option_map};
ghost use Rattle.bds_tree.specs.StmtView.{small_form_of, small_of};
ghost use Rattle.bds_tree.specs.View.{tree_of};
ghost use Rattle.bds_code.specs.declared.instr.Instr.TheVariants as instr;
ghost use Rattle.bds_value.specs.declared.value.Ty.TheVariants as types;
ghost use Rattle.bds_gen_expr.specs.Gen.{act as one_more, gen};
ghost use Rattle.bds_gen_expr.specs.Marks.{label, slot, put};
ghost use Rattle.bds_gen_stmt_code.specs.Bodies.{slots_of, in_body, with_local};
ghost use Rattle.bds_gen_stmt_code.specs.GenParts.{gen_small_form, gen_small};
ghost use Rattle.bds_gen_stmt_code.specs.GenLoops.{tested, gen_condition, list_begun, list_tested, list_item, list_counted, list_own, list_head, list_closed};

use crate::body::{Body, Leaps, declare_local, here, next_slot, push_slot};
use crate::calls::write_call;
use crate::jumps::{close_loop, test, write_test};
use crate::lines::push_default;
use crate::options::slot_of;
use crate::places::{change_number, write_change, write_step_line};
use bds_code::{Function, Instr, Shape};
use bds_gen_expr::{Scope, act, place_behind, write_expr};
use bds_tree::{Expr, Small, SmallForm};
use bds_value::change_numbers::{ADD, ASSIGN};
use bds_value::method_numbers::LIST_SIZE;
use bds_value::{At, Boxed, ByteText, Listed, NoMemory, Shared, Ty, copy_ty};
use std::alloc::Global;

/// A new local of the value of an expression.
fn write_local(
    alloc: Global,
    body: &mut Body,
    at: At,
    name: &ByteText,
    ty: &Ty,
    value: &Expr,
) -> Result<(), NoMemory>
    ensures { OnOk result (body.new ≡ with_local (in_body body.old (gen (tree_of value.now) body.old.scope [] body.old.function)) at name.now ty.now) }
{
    write_expr(
        alloc,
        &body.scope,
        value,
        &mut Shape::new(alloc),
        &mut body.function,
    )?;
    declare_local(alloc, body, at, name, ty)
}

/// A new local of a type's default.
fn write_default(
    alloc: Global,
    body: &mut Body,
    at: At,
    name: &ByteText,
    ty: &Ty,
) -> Result<(), NoMemory>
    ensures { OnOk result (body.new ≡ with_local (in_body body.old (one_more body.old.function at (instr.PushDefault ty.now))) at name.now ty.now) }
{
    push_default(alloc, at, ty, &mut body.function)?;
    declare_local(alloc, body, at, name, ty)
}

fn write_form(alloc: Global, body: &mut Body, at: At, form: &SmallForm) -> Result<(), NoMemory>
    ensures { OnOk result (body.new ≡ gen_small_form (small_form_of form.now) at body.old) }
{
    match form {
        SmallForm::Declare(ty, name, None) => write_default(alloc, body, at, name, ty),
        SmallForm::Declare(ty, name, Some(value)) => {
            write_local(alloc, body, at, name, ty, value)
        }
        SmallForm::Infer(name, value) => write_local(alloc, body, at, name, &value.ty, value),
        SmallForm::Assign(place, value) => {
            write_change(
                alloc,
                &body.scope,
                at,
                place,
                ASSIGN,
                value,
                &mut body.function,
            )
        }
        SmallForm::Update(place, op, value) => {
            let what = change_number(*op);
            write_change(
                alloc,
                &body.scope,
                at,
                place,
                what,
                value,
                &mut body.function,
            )
        }
        SmallForm::Step(step) => {
            write_step_line(alloc, &body.scope, at, step, &mut body.function)
        }
        SmallForm::Call(call) => write_call(alloc, &body.scope, at, call, &mut body.function),
    }
}

/// A part of the head of a `for`.
pub fn write_small(
    alloc: Global,
    body: &mut Body,
    small: &Option<Boxed<Small>>,
) -> Result<(), NoMemory>
    ensures { OnOk result (body.new ≡ gen_small (option_map small_of small.now) body.old) }
{
    match small {
        Some(small) => write_form(alloc, body, small.get().at, &small.get().form),
        None => Ok(()),
    }
}

/// The condition of a `for` and its test; without one it is true. Gives the place of the test.
pub fn write_condition(
    alloc: Global,
    scope: &Scope,
    at: At,
    condition: &Option<Expr>,
    function: &mut Function,
) -> Result<usize, NoMemory>
    ensures code { OnOk result (function.new ≡ tested (gen_condition (option_map tree_of condition.now) at scope.now function.old) at) }
    ensures place { IfOk result (λ n. n ≡ length (gen_condition (option_map tree_of condition.now) at scope.now function.old).code) }
{
    match condition {
        Some(condition) => write_test(alloc, scope, at, condition, function),
        None => {
            act(function, at, Instr::PushBool(true))?;
            test(function, at)
        }
    }
}

fn push_list(alloc: Global, function: &mut Function, ty: &Ty) -> Result<(), NoMemory>
    ensures { OnOk result (function.new ≡ put function.old (slot (types.List ty.now))) }
{
    let item = copy_ty(alloc, ty)?;
    let item = Shared::of(alloc, item)?;
    function.locals.push(Ty::List(item))
}

/// The slots of the list and the count of a list loop.
fn begin_list(
    alloc: Global,
    function: &mut Function,
    at: At,
    ty: &Ty,
    list: u16,
    count: u16,
) -> Result<(), NoMemory>
    requires list { list ≡ slots_of function.old }
    requires count { count ≡ list + 1 }
    ensures { OnOk result (function.new ≡ list_begun function.old at ty.now) }
{
    push_list(alloc, function, ty)?;
    act(function, at, Instr::Store(list))?;
    act(function, at, Instr::PushInt(0))?;
    push_slot(alloc, function, &Ty::Int)?;
    act(function, at, Instr::Store(count))
}

/// The test of a list loop.
fn test_list(
    alloc: Global,
    function: &mut Function,
    at: At,
    list: u16,
    count: u16,
) -> Result<usize, NoMemory>
    ensures code { OnOk result (function.new ≡ tested (list_tested function.old at list count) at) }
    ensures place { IfOk result (λ n. n ≡ length (list_tested function.old at list count).code) }
{
    here(alloc, function)?;
    act(function, at, Instr::Tick)?;
    act(function, at, Instr::Load(count))?;
    act(function, at, Instr::Load(list))?;
    act(function, at, Instr::Method(LIST_SIZE))?;
    act(function, at, Instr::Less)?;
    test(function, at)
}

/// The next item of a list loop.
fn load_item(function: &mut Function, at: At, list: u16, count: u16) -> Result<(), NoMemory>
    ensures { OnOk result (function.new ≡ list_item function.old at list count) }
{
    act(function, at, Instr::Load(list))?;
    act(function, at, Instr::Load(count))?;
    act(function, at, Instr::Item)
}

/// The variable of a list loop takes the next item.
fn take_item(
    alloc: Global,
    body: &mut Body,
    at: At,
    name: &ByteText,
    ty: &Ty,
    list: u16,
    count: u16,
) -> Result<(), NoMemory>
    ensures { OnOk result (body.new ≡ with_local (in_body body.old (list_item body.old.function at list count)) at name.now ty.now) }
{
    load_item(&mut body.function, at, list, count)?;
    declare_local(alloc, body, at, name, ty)
}

/// One more item is counted, where a list loop goes on.
fn count_item(alloc: Global, function: &mut Function, at: At, count: u16) -> Result<(), NoMemory>
    ensures { OnOk result (function.new ≡ list_counted function.old at count) }
{
    here(alloc, function)?;
    act(function, at, Instr::PushInt(1))?;
    act(
        function,
        at,
        Instr::Update(false, count, Listed::new(alloc), ADD),
    )
}

/// The step of a `for`, where the loop goes on. Gives the place.
pub fn write_next(
    alloc: Global,
    body: &mut Body,
    step: &Option<Boxed<Small>>,
) -> Result<u32, NoMemory>
    ensures code { OnOk result (body.new ≡ gen_small (option_map small_of step.now) (in_body body.old (put body.old.function (label [])))) }
    ensures place { IfOk result (λ n. n ≡ length body.old.function.code) }
{
    let again = place_behind(&body.function, 0)?;
    here(alloc, &mut body.function)?;
    write_small(alloc, body, step)?;
    Ok(again)
}

/// A list loop whose body is written: the slot of its count, its top and the place of its test.
#[derive(Clone, Copy)]
pub struct Head {
    pub count: u16,
    pub top: u32,
    pub test: usize,
}

/// The slots of a list loop, whose list is below.
fn write_slots(
    alloc: Global,
    body: &mut Body,
    at: At,
    ty: &Ty,
    name: &ByteText,
    list: u16,
) -> Result<Head, NoMemory>
    requires { list ≡ slots_of body.old.function }
    ensures code { OnOk result (body.new ≡ list_own body.old at ty.now name.now) }
    ensures head { IfOk result (λ head. head ≡ list_head body.old.function at ty.now) }
{
    let count = slot_of(list, 1)?;
    begin_list(alloc, &mut body.function, at, ty, list, count)?;
    let top = place_behind(&body.function, 0)?;
    let test = test_list(alloc, &mut body.function, at, list, count)?;
    take_item(alloc, body, at, name, ty, list, count)?;
    Ok(Head { count, top, test })
}

/// The head of a list loop.
pub fn write_head(
    alloc: Global,
    body: &mut Body,
    at: At,
    ty: &Ty,
    name: &ByteText,
    items: &Expr,
) -> Result<Head, NoMemory>
    ensures code { OnOk result (body.new ≡ list_own (in_body body.old (gen (tree_of items.now) body.old.scope [] body.old.function)) at ty.now name.now) }
    ensures head { IfOk result (λ head. head ≡ list_head (gen (tree_of items.now) body.old.scope [] body.old.function) at ty.now) }
{
    write_expr(
        alloc,
        &body.scope,
        items,
        &mut Shape::new(alloc),
        &mut body.function,
    )?;
    let list = next_slot(&body.function)?;
    write_slots(alloc, body, at, ty, name, list)
}

/// A list loop goes on and ends, and these are the jumps of the loop around it.
pub fn close_each(
    alloc: Global,
    body: &mut Body,
    at: At,
    head: Head,
    around: Leaps,
) -> Result<(), NoMemory>
    ensures { OnOk result (body.new ≡ list_closed body.old at head around) }
{
    let again = place_behind(&body.function, 0)?;
    count_item(alloc, &mut body.function, at, head.count)?;
    close_loop(alloc, body, at, head.top, again, head.test, around)
}
