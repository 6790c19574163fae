//! Lines and acts that have no statements within.
ghost use Rattle.std.specs.Prelude.{◌≡◌, ◌∷◌, [], OnOk};
ghost use Rattle.std.specs.Option.{option_map};
ghost use Rattle.bds_tree.specs.StmtTree as tree;
ghost use Rattle.bds_tree.specs.StmtView.{line_of, act_of, act_form_of, settings_of};
ghost use Rattle.bds_tree.specs.View.{tree_of};
ghost use Rattle.bds_code.specs.declared.instr.Instr.TheVariants as instr;
ghost use Rattle.bds_check_size.specs.StmtSize.{maybe_settings};
ghost use Rattle.bds_gen_expr.specs.Gen.{act as one_more, gen};
ghost use Rattle.bds_gen_expr.specs.Marks.{label, does, written};
ghost use Rattle.bds_gen_stmt.specs.StmtCode.{dropped_act_code};
ghost use Rattle.bds_gen_stmt_code.specs.Bodies.{in_body, with_variable};
ghost use Rattle.bds_gen_stmt_code.specs.GenStmts.{leapt, gen_simple, gen_simple_act};
ghost use Rattle.bds_gen_stmt_code.specs.GenTasks.{gen_files, gen_task};

use crate::body::{Body, Leap, declare, here};
use crate::calls::write_call;
use crate::places::write_step_line;
use crate::tasks::{line_end, write_rule, write_task};
use bds_code::{Function, Instr, Shape};
use bds_gen_expr::{
    Scope, act, function_number, place_behind, write_all, write_expr, write_files, write_pieces,
};
use bds_tree::{Act, ActForm, Body as Commands, Expr, Line, Options};
use bds_value::{At, ByteText, NoMemory, Ty, copy_ty};
use std::alloc::Global;

/// An instruction that never goes on to the next.
pub fn end_with(alloc: Global, at: At, last: Instr, function: &mut Function) -> Result<(), NoMemory>
    ensures { OnOk result (function.new ≡ written function.old (does last at ∷ label [] ∷ [])) }
{
    act(function, at, last)?;
    here(alloc, function)
}

/// A type's default.
pub fn push_default(alloc: Global, at: At, ty: &Ty, function: &mut Function) -> Result<(), NoMemory>
    ensures { OnOk result (function.new ≡ one_more function.old at (instr.PushDefault ty.now)) }
{
    let ty = copy_ty(alloc, ty)?;
    act(function, at, Instr::PushDefault(ty))
}

/// A new variable of a type's default.
pub fn declare_default(
    alloc: Global,
    body: &mut Body,
    at: At,
    name: &ByteText,
    ty: &Ty,
) -> Result<(), NoMemory>
    ensures { OnOk result (body.new ≡ with_variable (in_body body.old (one_more body.old.function at (instr.PushDefault ty.now))) at name.now ty.now) }
{
    push_default(alloc, at, ty, &mut body.function)?;
    declare(alloc, body, at, name, ty)
}

/// `break`, which leads behind the loop, or `continue`.
pub fn write_leap(alloc: Global, body: &mut Body, at: At, ends: bool) -> Result<(), NoMemory>
    ensures { OnOk result (body.new ≡ leapt ends at body.old) }
{
    let place = place_behind(&body.function, 0)?;
    body.leaps.push(Leap { place, ends })?;
    end_with(alloc, at, Instr::Jump(0), &mut body.function)
}

fn write(alloc: Global, scope: &Scope, expr: &Expr, function: &mut Function) -> Result<(), NoMemory>
    ensures { OnOk result (function.new ≡ gen (tree_of expr.now) scope.now [] function.old) }
{
    write_expr(alloc, scope, expr, &mut Shape::new(alloc), function)?;
    Ok(())
}

fn write_print(
    alloc: Global,
    scope: &Scope,
    at: At,
    value: &Expr,
    function: &mut Function,
) -> Result<(), NoMemory>
    ensures { OnOk result (function.new ≡ gen_simple (tree.print (tree_of value.now)) at scope.now function.old) }
{
    write(alloc, scope, value, function)?;
    act(function, at, Instr::Show)?;
    act(function, at, Instr::Out)
}

fn push_line_end(alloc: Global, at: At, function: &mut Function) -> Result<(), NoMemory>
    ensures { OnOk result (function.new ≡ one_more function.old at (instr.PushText (10 ∷ []))) }
{
    let text = line_end(alloc)?;
    act(function, at, Instr::PushText(text))
}

fn write_println(
    alloc: Global,
    scope: &Scope,
    at: At,
    value: &Option<Expr>,
    function: &mut Function,
) -> Result<(), NoMemory>
    ensures { OnOk result (function.new ≡ gen_simple (tree.println (option_map tree_of value.now)) at scope.now function.old) }
{
    match value {
        None => {
            push_line_end(alloc, at, function)?;
            act(function, at, Instr::Out)
        }
        Some(value) => {
            write(alloc, scope, value, function)?;
            act(function, at, Instr::Show)?;
            push_line_end(alloc, at, function)?;
            act(function, at, Instr::Concat)?;
            act(function, at, Instr::Out)
        }
    }
}

fn write_wait(
    alloc: Global,
    scope: &Scope,
    at: At,
    files: &Option<Expr>,
    function: &mut Function,
) -> Result<(), NoMemory>
    ensures { OnOk result (function.new ≡ gen_simple (tree.wait (option_map tree_of files.now)) at scope.now function.old) }
{
    match files {
        None => act(function, at, Instr::WaitAll),
        Some(files) => {
            write_files(alloc, scope, at, files, &mut Shape::new(alloc), function)?;
            act(function, at, Instr::Wait)
        }
    }
}

fn write_checkpoint(
    alloc: Global,
    scope: &Scope,
    at: At,
    path: &Option<Expr>,
    function: &mut Function,
) -> Result<(), NoMemory>
    ensures { OnOk result (function.new ≡ gen_simple (tree.checkpoint (option_map tree_of path.now)) at scope.now function.old) }
{
    match path {
        None => act(function, at, Instr::SaveHere),
        Some(path) => {
            write(alloc, scope, path, function)?;
            act(function, at, Instr::Save)
        }
    }
}

fn write_ended(
    alloc: Global,
    scope: &Scope,
    at: At,
    value: &Expr,
    last: Instr,
    function: &mut Function,
) -> Result<(), NoMemory>
    ensures { OnOk result (function.new ≡ written (gen (tree_of value.now) scope.now [] function.old) (does last at ∷ label [] ∷ [])) }
{
    write(alloc, scope, value, function)?;
    end_with(alloc, at, last, function)
}

/// A line whose parts are expressions alone.
pub fn write_simple(
    alloc: Global,
    scope: &Scope,
    at: At,
    line: &Line,
    function: &mut Function,
) -> Result<(), NoMemory>
    ensures { OnOk result (function.new ≡ gen_simple (line_of line.now) at scope.now function.old) }
{
    match line {
        Line::Step(step) => write_step_line(alloc, scope, at, step, function),
        Line::Call(call) => write_call(alloc, scope, at, call, function),
        Line::Print(value) => write_print(alloc, scope, at, value, function),
        Line::Println(value) => write_println(alloc, scope, at, value, function),
        Line::Error(message) => write_ended(alloc, scope, at, message, Instr::Stop, function),
        Line::Exit(status) => write_ended(alloc, scope, at, status, Instr::Exit, function),
        Line::Wait(files) => write_wait(alloc, scope, at, files, function),
        Line::Checkpoint(path) => write_checkpoint(alloc, scope, at, path, function),
        Line::Declare(_, _, _)
        | Line::Infer(_, _)
        | Line::Assign(_, _)
        | Line::Update(_, _, _)
        | Line::Break
        | Line::Continue
        | Line::Return(_)
        | Line::Alone(_) => Ok(()),
    }
}

fn write_goal(
    alloc: Global,
    scope: &Scope,
    at: At,
    files: &Expr,
    shape: &mut Shape,
    function: &mut Function,
) -> Result<(), NoMemory>
    ensures { OnOk result (function.new ≡ one_more (gen_files (tree_of files.now) at scope.now shape.old function.old) at instr.Goal) }
{
    write_files(alloc, scope, at, files, shape, function)?;
    act(function, at, Instr::Goal)
}

fn write_maybe_task(
    alloc: Global,
    scope: &Scope,
    at: At,
    first: u16,
    settings: &Option<Options>,
    commands: &Commands,
    shape: &mut Shape,
    function: &mut Function,
) -> Result<(), NoMemory>
    ensures { OnOk result (function.new ≡ gen_task (maybe_settings (option_map settings_of settings.now)) commands.now at scope.now first shape.old function.old) }
{
    match settings {
        None => write_task(alloc, scope, at, first, &[], commands, shape, function),
        Some(settings) => {
            write_task(
                alloc,
                scope,
                at,
                first,
                settings.as_slice(),
                commands,
                shape,
                function,
            )
        }
    }
}

/// An act but a `par` block.
pub fn write_simple_act(
    alloc: Global,
    scope: &Scope,
    at: At,
    first: u16,
    form: &ActForm,
    shape: &mut Shape,
    function: &mut Function,
) -> Result<(), NoMemory>
    ensures { OnOk result (function.new ≡ gen_simple_act (act_form_of form.now) at scope.now first shape.old function.old) }
{
    match form {
        ActForm::Sys(pieces) => {
            write_pieces(alloc, function, at, scope, pieces.as_slice())?;
            act(function, at, Instr::Sys)
        }
        ActForm::Task(settings, commands) => {
            write_maybe_task(alloc, scope, at, first, settings, commands, shape, function)
        }
        ActForm::Dep(settings, commands) => {
            write_rule(
                alloc,
                scope,
                at,
                first,
                settings.as_slice(),
                commands,
                shape,
                function,
            )
        }
        ActForm::Goal(files) => write_goal(alloc, scope, at, files, shape, function),
        ActForm::ParCall(name, arguments) => {
            write_all(alloc, scope, arguments.as_slice(), shape, function)?;
            act(function, at, Instr::Spawn(function_number(scope, name)))
        }
        ActForm::ParBlock(_) => Ok(()),
    }
}

/// Takes away what an act gives; only `dep` gives nothing.
pub fn drop_given(at: At, done: &Act, function: &mut Function) -> Result<(), NoMemory>
    ensures { OnOk result (function.new ≡ written function.old (dropped_act_code (act_of done.now) at)) }
{
    match &done.form {
        ActForm::Dep(_, _) => Ok(()),
        ActForm::Sys(_)
        | ActForm::Task(_, _)
        | ActForm::Goal(_)
        | ActForm::ParCall(_, _)
        | ActForm::ParBlock(_) => act(function, at, Instr::Drop),
    }
}
