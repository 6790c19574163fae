//! The options of tasks and rules: evaluated in the order of the text into slots of their own.
ghost use Rattle.std.specs.Prelude.{◌≡◌, ◌+◌, reverse, OnOk, IfOk};
ghost use Rattle.bds_tree.specs.StmtTree.{setting_plain};
ghost use Rattle.bds_tree.specs.StmtView.{setting_of, settings_of};
ghost use Rattle.bds_tree.specs.View.{tree_of};
ghost use Rattle.bds_tree.specs.Tree.{dependency};
ghost use Rattle.bds_gen_expr.specs.Gen.{act as one_more, gen};
ghost use Rattle.bds_gen_expr.specs.Marks.{label, put, written};
ghost use Rattle.bds_gen_stmt.specs.TaskCode as task_code;
ghost use Rattle.bds_gen_stmt.specs.TaskCode.{set_unless, defaults_code};
ghost use Rattle.bds_gen_stmt_code.specs.GenTasks.{joined, asked_date, gen_plain, gen_setting, gen_settings};
ghost use Rattle.bds_code.specs.declared.instr.Instr.TheVariants as instr;
ghost use Rattle.bds_value.specs.declared.value.Ty.TheVariants as types;

use bds_check_rules::any_dependency;
use bds_check_size::has_option;
use bds_code::{Function, Instr, Shape};
use bds_gen_expr::{Scope, act, mark, place_behind, write_expr, write_files};
use bds_tree::{Expr, Form, Setting, SettingForm};
use bds_value::{At, ByteText, Listed, NoMemory, Shared, Ty};
use std::alloc::Global;

/// The slot of an option, by its place among the eight of a task.
pub fn slot_of(first: u16, option: u16) -> Result<u16, NoMemory>
    ensures { IfOk result (λ n. n ≡ first + option) }
{
    match first.checked_add(option) {
        Some(slot) => Ok(slot),
        None => Err(NoMemory),
    }
}

/// The slot of an option of a name.
fn named_slot(name: &ByteText, first: u16) -> Result<u16, NoMemory>
    ensures { IfOk result (λ n. n ≡ task_code.option_slot name.now first) }
{
    let name = name.as_slice();
    if name == b"cpus".as_slice() {
        slot_of(first, 2)
    } else if name == b"canFail".as_slice() {
        slot_of(first, 3)
    } else if name == b"retry".as_slice() {
        slot_of(first, 4)
    } else {
        slot_of(first, 5)
    }
}

/// A default in the slot of an option, where it isn't given.
fn set_unless(
    there: bool,
    at: At,
    push: Instr,
    slot: u16,
    function: &mut Function,
) -> Result<(), NoMemory>
    ensures { OnOk result (function.new ≡ written function.old (set_unless there at push slot)) }
{
    if there {
        return Ok(());
    }
    act(function, at, push)?;
    act(function, at, Instr::Store(slot))
}

/// No files in a slot.
fn set_files(
    alloc: Global,
    there: bool,
    at: At,
    slot: u16,
    function: &mut Function,
) -> Result<(), NoMemory>
    ensures { OnOk result (function.new ≡ written function.old (set_unless there at (instr.PushDefault (types.List types.Text)) slot)) }
{
    let text = Shared::of(alloc, Ty::Text)?;
    set_unless(
        there,
        at,
        Instr::PushDefault(Ty::List(text)),
        slot,
        function,
    )
}

/// What options are before any is evaluated.
#[tactic(auto, using(crate::proofs::Then::then_is))]
pub fn write_defaults(
    alloc: Global,
    at: At,
    first: u16,
    settings: &[Setting],
    function: &mut Function,
) -> Result<(), NoMemory>
    ensures { OnOk result (function.new ≡ written function.old (defaults_code (settings_of settings.now) at first)) }
{
    let there = any_dependency(settings);
    set_files(alloc, there, at, first, function)?;
    let ins = slot_of(first, 1)?;
    set_files(alloc, there, at, ins, function)?;
    let cpus = slot_of(first, 2)?;
    set_unless(
        has_option(settings, b"cpus"),
        at,
        Instr::PushInt(1),
        cpus,
        function,
    )?;
    let can_fail = slot_of(first, 3)?;
    set_unless(
        has_option(settings, b"canFail"),
        at,
        Instr::PushBool(false),
        can_fail,
        function,
    )?;
    let retry = slot_of(first, 4)?;
    set_unless(
        has_option(settings, b"retry"),
        at,
        Instr::PushInt(0),
        retry,
        function,
    )?;
    let name = slot_of(first, 5)?;
    let no_text = Instr::PushText(Listed::new(alloc));
    set_unless(
        has_option(settings, b"taskName"),
        at,
        no_text,
        name,
        function,
    )
}

/// A label below which there are these operands.
#[tactic(auto, using(crate::proofs::Writing::mark_is))]
fn label(alloc: Global, shape: &Shape, function: &mut Function) -> Result<(), NoMemory>
    ensures { OnOk result (function.new ≡ put function.old (label (reverse shape.now))) }
{
    mark(alloc, function, shape)
}

/// What is needed stays true only with the truth value on the list.
fn join(
    alloc: Global,
    at: At,
    first: u16,
    shape: &Shape,
    function: &mut Function,
) -> Result<(), NoMemory>
    ensures { OnOk result (function.new ≡ joined at first shape.now function.old) }
{
    let joined = place_behind(function, 2)?;
    let behind = place_behind(function, 4)?;
    let needed = slot_of(first, 6)?;
    act(function, at, Instr::JumpUnless(joined))?;
    act(function, at, Instr::Jump(behind))?;
    label(alloc, shape, function)?;
    act(function, at, Instr::PushBool(false))?;
    act(function, at, Instr::Store(needed))?;
    label(alloc, shape, function)
}

/// A task asks whether its outputs are out of date.
#[tactic(auto, using(crate::proofs::Writing::asked_join))]
fn ask_date(
    alloc: Global,
    of_dep: bool,
    at: At,
    first: u16,
    shape: &Shape,
    function: &mut Function,
) -> Result<(), NoMemory>
    ensures { OnOk result (function.new ≡ asked_date of_dep at first shape.now function.old) }
{
    if of_dep {
        return Ok(());
    }
    let ins = slot_of(first, 1)?;
    act(function, at, Instr::Load(first))?;
    act(function, at, Instr::Load(ins))?;
    act(function, at, Instr::OutOfDate)?;
    join(alloc, at, first, shape, function)
}

/// Outputs and inputs.
fn write_dependency(
    alloc: Global,
    scope: &Scope,
    of_dep: bool,
    at: At,
    first: u16,
    outs: &Expr,
    ins: &Expr,
    shape: &mut Shape,
    function: &mut Function,
) -> Result<(), NoMemory>
    ensures code { OnOk result (function.new ≡ gen_plain of_dep (tree_of outs.now) (dependency (tree_of outs.now) (tree_of ins.now)) at scope.now first shape.old function.old) }
    ensures shape { OnOk result (shape.new ≡ shape.old) }
{
    write_files(alloc, scope, at, outs, shape, function)?;
    act(function, at, Instr::Store(first))?;
    write_files(alloc, scope, at, ins, shape, function)?;
    let slot = slot_of(first, 1)?;
    act(function, at, Instr::Store(slot))?;
    ask_date(alloc, of_dep, at, first, shape, function)
}

/// A condition.
fn write_condition(
    alloc: Global,
    scope: &Scope,
    at: At,
    first: u16,
    expr: &Expr,
    shape: &mut Shape,
    function: &mut Function,
) -> Result<(), NoMemory>
    ensures code { OnOk result (function.new ≡ joined at first shape.old (gen (tree_of expr.now) scope.now shape.old function.old)) }
    ensures shape { OnOk result (shape.new ≡ shape.old) }
{
    write_expr(alloc, scope, expr, shape, function)?;
    join(alloc, at, first, shape, function)
}

/// A condition or a dependency.
fn write_plain(
    alloc: Global,
    scope: &Scope,
    of_dep: bool,
    at: At,
    first: u16,
    expr: &Expr,
    shape: &mut Shape,
    function: &mut Function,
) -> Result<(), NoMemory>
    ensures code { OnOk result (function.new ≡ gen_setting of_dep (setting_plain (tree_of expr.now)) at scope.now first shape.old function.old) }
    ensures shape { OnOk result (shape.new ≡ shape.old) }
{
    match &expr.form {
        Form::Dependency(outs, ins) => write_dependency(
            alloc,
            scope,
            of_dep,
            at,
            first,
            outs.get(),
            ins.get(),
            shape,
            function,
        ),
        Form::Number(_)
        | Form::Text(_)
        | Form::Bool(_)
        | Form::Name(_)
        | Form::Call(_, _)
        | Form::Group(_)
        | Form::List(_)
        | Form::Map(_)
        | Form::Item(_, _)
        | Form::Key(_, _)
        | Form::Method(_, _, _)
        | Form::Prefix(_, _)
        | Form::Binary(_, _, _)
        | Form::Choice(_, _, _) => {
            write_condition(alloc, scope, at, first, expr, shape, function)
        }
    }
}

fn write_named(
    alloc: Global,
    scope: &Scope,
    at: At,
    slot: u16,
    value: &Expr,
    shape: &mut Shape,
    function: &mut Function,
) -> Result<(), NoMemory>
    ensures code { OnOk result (function.new ≡ one_more (gen (tree_of value.now) scope.now shape.old function.old) at (instr.Store slot)) }
    ensures shape { OnOk result (shape.new ≡ shape.old) }
{
    write_expr(alloc, scope, value, shape, function)?;
    act(function, at, Instr::Store(slot))
}

fn write_setting(
    alloc: Global,
    scope: &Scope,
    of_dep: bool,
    first: u16,
    setting: &Setting,
    shape: &mut Shape,
    function: &mut Function,
) -> Result<(), NoMemory>
    ensures code { OnOk result (function.new ≡ gen_setting of_dep (setting_of setting.now).form setting.now.at scope.now first shape.old function.old) }
    ensures shape { OnOk result (shape.new ≡ shape.old) }
{
    let at = setting.at;
    match &setting.form {
        SettingForm::Named(name, value) => {
            let slot = named_slot(name, first)?;
            write_named(alloc, scope, at, slot, value, shape, function)
        }
        SettingForm::Plain(expr) => {
            write_plain(alloc, scope, of_dep, at, first, expr, shape, function)
        }
    }
}

/// Options in the order of the text.
pub fn write_settings(
    alloc: Global,
    scope: &Scope,
    of_dep: bool,
    first: u16,
    settings: &[Setting],
    shape: &mut Shape,
    function: &mut Function,
) -> Result<(), NoMemory>
    ensures code { OnOk result (function.new ≡ gen_settings of_dep (settings_of settings.now) scope.now first shape.old function.old) }
    ensures shape { OnOk result (shape.new ≡ shape.old) }
{
    for setting in settings {
        write_setting(alloc, scope, of_dep, first, setting, shape, function)?;
    }
    Ok(())
}
