//! The size of a script.
ghost use Rattle.std.specs.Prelude.{◌≡◌, ◌+◌, [], OnOk, IfOk, map};
ghost use Rattle.std.specs.Option.{option_copied};
ghost use Rattle.bds_tree.specs.StmtView.{script_of, part_of, function_of, stmt_of, line_of};
ghost use Rattle.bds_check_size.specs.ParSize as pars;
ghost use Rattle.bds_check_size.specs.ScriptSize as scripts;
ghost use Rattle.bds_check_typing.specs.GivenValues.{set_by};
ghost use Rattle.bds_gen_expr.specs.Numbers.{variables_of};
ghost use Rattle.bds_gen_expr.specs.Scope.{known};
ghost use Rattle.bds_gen_size.specs.Capped.{capped};
ghost use Rattle.bds_gen_size.specs.GivenNames.{names_given};
ghost use Rattle.bds_check_rules.specs.Declarations.{declared_by_line};
ghost use Rattle.bds_gen_size.specs.Behind.{with_global_name, scope_with_global, scope_behind_top, scope_behind_part, with_parameters, first_scope};
ghost use Rattle.bds_gen_size.specs.ScriptParts.{whole_top, part_size, tops_size, function_size, declared_size, functions_size};

use crate::names::push_local;
use crate::settings::{names_given, value_for, value_size};
use crate::stmts::{act_pars_size, block_size, line_size, right_pars_size, stmt_size};
use bds_check::{Given, Typed};
use bds_check_names::{Locals as Variables, is_known, variable};
use bds_check_rules::right_type;
use bds_gen_expr::{Callees, Globals, Locals, Numbered, Scope};
use bds_tree::{Function, Line, Parameter, Part, Stmt, StmtForm};
use bds_value::{ByteText, Listed, NoMemory, Shared, Ty, Value};
use std::alloc::Global;

/// The functions of the `par` blocks in a line, which stay where words give its global a value.
fn line_pars_size(alloc: Global, scope: &mut Scope, line: &Line) -> Result<u64, NoMemory>
    ensures size { IfOk result (λ n. n ≡ capped (pars.line_pars_size (line_of line.now) (known scope.old))) }
    ensures names { OnOk result (scope.new ≡ scope.old) }
{
    match line {
        Line::Declare(_, _, Some(right)) => right_pars_size(alloc, scope, right),
        Line::Infer(_, right) => right_pars_size(alloc, scope, right),
        Line::Assign(_, right) => right_pars_size(alloc, scope, right),
        Line::Update(_, _, right) => right_pars_size(alloc, scope, right),
        Line::Return(Some(right)) => right_pars_size(alloc, scope, right),
        Line::Alone(act) => act_pars_size(alloc, scope, act),
        Line::Declare(_, _, None) => Ok(0),
        Line::Return(None) => Ok(0),
        _ => Ok(0),
    }
}

/// A line at the top level, or the value that stands in the place of what is on its right.
fn top_line_size(
    alloc: Global,
    scope: &mut Scope,
    line: &Line,
    set: Option<&Value>,
) -> Result<u64, NoMemory>
    ensures size { IfOk result (λ n. n ≡ capped (scripts.line_or_value_size (option_copied set.entry) (line_of line.now) (known scope.old) + pars.line_pars_size (line_of line.now) (known scope.old))) }
    ensures names { OnOk result (scope.new ≡ scope.old) }
{
    match set {
        None => line_size(alloc, scope, line),
        Some(value) => {
            let made = value_size(value).saturating_add(1);
            let pars = line_pars_size(alloc, scope, line)?;
            Ok(made.saturating_add(pars))
        }
    }
}

/// A statement at the top level, where declarations make globals.
fn top_size(
    alloc: Global,
    scope: &mut Scope,
    stmt: &Stmt,
    settings: &[Given],
    set: &Variables,
) -> Result<u64, NoMemory>
    requires { set.now ≡ names_given settings.now }
    ensures size { IfOk result (λ n. n ≡ capped (whole_top (set_by settings.now) (stmt_of stmt.now) (known scope.old))) }
    ensures names { OnOk result (scope.new ≡ scope.old) }
{
    match &stmt.form {
        StmtForm::Line(line) => {
            top_line_size(alloc, scope, line, value_for(settings, set, line))
        }
        _ => stmt_size(alloc, scope, stmt),
    }
}

/// One more global.
fn push_global(alloc: Global, scope: &mut Scope, name: &ByteText, ty: &Ty) -> Result<(), NoMemory>
    ensures { OnOk result (scope.new ≡ with_global_name scope.old name.now ty.now) }
{
    let variable = variable(alloc, name, ty)?;
    let global = Numbered {
        variable,
        number: 0,
    };
    scope.globals.push(alloc, global)
}

fn declare_line(alloc: Global, scope: &mut Scope, line: &Line) -> Result<(), NoMemory>
    ensures { OnOk result (scope.new ≡ scope_with_global scope.old (declared_by_line (line_of line.now))) }
{
    match line {
        Line::Declare(ty, name, _) => push_global(alloc, scope, name, ty),
        Line::Infer(name, right) => {
            let ty = right_type(alloc, right)?;
            push_global(alloc, scope, name, &ty)
        }
        _ => Ok(()),
    }
}

/// The names behind a statement at the top level.
fn declare_top(alloc: Global, scope: &mut Scope, stmt: &Stmt) -> Result<(), NoMemory>
    ensures { OnOk result (scope.new ≡ scope_behind_top (stmt_of stmt.now) scope.old) }
{
    match &stmt.form {
        StmtForm::Line(line) => declare_line(alloc, scope, line),
        _ => Ok(()),
    }
}

/// A part at the top level, and the names behind it.
fn part_size(
    alloc: Global,
    scope: &mut Scope,
    part: &Part,
    settings: &[Given],
    set: &Variables,
) -> Result<u64, NoMemory>
    requires { set.now ≡ names_given settings.now }
    ensures size { IfOk result (λ n. n ≡ capped (part_size (set_by settings.now) (part_of part.now) (known scope.old))) }
    ensures names { OnOk result (scope.new ≡ scope_behind_part (part_of part.now) scope.old) }
{
    match part {
        Part::Function(_) => Ok(0),
        Part::Include(_) => Ok(0),
        Part::Stmt(stmt) => {
            let size = top_size(alloc, scope, stmt, settings, set)?;
            declare_top(alloc, scope, stmt)?;
            Ok(size)
        }
    }
}

/// The statements of the top level. The globals that they declare are left in force.
fn tops_size(
    alloc: Global,
    scope: &mut Scope,
    parts: &[Part],
    settings: &[Given],
) -> Result<u64, NoMemory>
    ensures size { IfOk result (λ n. n ≡ capped (tops_size (set_by settings.now) (map part_of parts.now) (known scope.old))) }
    ensures names { OnOk result (known scope.new ≡ scripts.behind_parts (map part_of parts.now) (known scope.old)) }
    ensures locals { OnOk result (scope.new.locals ≡ scope.old.locals) }
{
    let set = names_given(alloc, settings)?;
    let mut sum: u64 = 0;
    for part in parts {
        let size = part_size(alloc, scope, part, settings, &set)?;
        sum = sum.saturating_add(size);
    }
    Ok(sum)
}

fn declare_parameters(
    alloc: Global,
    scope: &mut Scope,
    parameters: &[Parameter],
) -> Result<(), NoMemory>
    ensures { OnOk result (scope.new ≡ with_parameters scope.old parameters.now) }
{
    for parameter in parameters {
        push_local(alloc, scope, &parameter.name, &parameter.ty)?;
    }
    Ok(())
}

/// What ends a function: a return, and before it a default where it has a result.
fn ending_size(ty: &Ty) -> u64
    ensures { result ≡ scripts.ending_size ty.now }
{
    if is_known(ty) { 2 } else { 1 }
}

/// A function that is declared, where no local is in force.
fn function_size(alloc: Global, scope: &mut Scope, function: &Function) -> Result<u64, NoMemory>
    requires { scope.old.locals ≡ [] }
    ensures size { IfOk result (λ n. n ≡ capped (function_size (function_of function.now) (variables_of scope.old.globals))) }
    ensures names { OnOk result (scope.new ≡ scope.old) }
{
    let ending = ending_size(&function.result);
    declare_parameters(alloc, scope, function.parameters.as_slice())?;
    let body = block_size(alloc, scope, &function.body)?;
    scope.locals.truncate(0);
    Ok(body.saturating_add(ending))
}

/// A part that may declare a function.
fn declared_size(alloc: Global, scope: &mut Scope, part: &Part) -> Result<u64, NoMemory>
    requires { scope.old.locals ≡ [] }
    ensures size { IfOk result (λ n. n ≡ capped (declared_size (part_of part.now) (variables_of scope.old.globals))) }
    ensures names { OnOk result (scope.new ≡ scope.old) }
{
    match part {
        Part::Function(function) => function_size(alloc, scope, function),
        Part::Include(_) => Ok(0),
        Part::Stmt(_) => Ok(0),
    }
}

/// The functions that are declared.
fn functions_size(alloc: Global, scope: &mut Scope, parts: &[Part]) -> Result<u64, NoMemory>
    requires { scope.old.locals ≡ [] }
    ensures { IfOk result (λ n. n ≡ capped (functions_size (map part_of parts.now) (variables_of scope.old.globals))) }
{
    let mut sum: u64 = 0;
    for part in parts {
        let size = declared_size(alloc, scope, part)?;
        sum = sum.saturating_add(size);
    }
    Ok(sum)
}

/// The names before the first statement: `args` is the first global.
fn first_scope(alloc: Global) -> Result<Scope, NoMemory>
    ensures { IfOk result (λ scope. scope ≡ first_scope) }
{
    let mut name = Listed::new(alloc);
    name.append(b"args")?;
    let ty = Ty::List(Shared::of(alloc, Ty::Text)?);
    let mut scope = Scope {
        locals: Locals::new(alloc),
        globals: Globals::new(alloc),
        functions: Callees::new(alloc),
    };
    push_global(alloc, &mut scope, &name, &ty)?;
    Ok(scope)
}

/// How many instructions the parts of a script have.
fn parts_size(alloc: Global, parts: &[Part], settings: &[Given]) -> Result<u64, NoMemory>
    ensures { IfOk result (λ n. n ≡ capped (scripts.script_parts_size (set_by settings.now) (map part_of parts.now) (scripts.all_globals (map part_of parts.now)) scripts.first_known)) }
{
    let mut scope = first_scope(alloc)?;
    let tops = tops_size(alloc, &mut scope, parts, settings)?;
    let functions = functions_size(alloc, &mut scope, parts)?;
    Ok(tops.saturating_add(functions))
}

/// How many instructions the unit of a typed script has, with what words set; past 64 bits the greatest
/// number of these.
pub fn program_size(alloc: Global, typed: &Typed) -> Result<u64, NoMemory>
    ensures { IfOk result (λ n. n ≡ capped (scripts.program_size (set_by typed.now.settings) typed.now.args (script_of typed.now.script))) }
{
    let script = typed.script();
    let args = typed.args().len() as u64;
    let parts = parts_size(alloc, script.parts.as_slice(), typed.settings().as_slice())?;
    Ok(args.saturating_add(3).saturating_add(parts))
}
