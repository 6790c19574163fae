//! The names in force before the walk: heads of functions, and globals with the types that their right sides have.
ghost use Rattle.std.specs.Prelude.{◌≡◌, [], IfOk, Some, map};
ghost use Rattle.bds_value.specs.declared.value.At.{At};
ghost use Rattle.bds_tree.specs.StmtTree as tree;
ghost use Rattle.bds_tree.specs.StmtView.{part_of, right_of, line_of, stmt_of, function_of};
ghost use Rattle.bds_check_names.specs.declared.names.Asked.TheVariants as Asked;
ghost use Rattle.bds_check_names.specs.Scopes.{variable};
ghost use Rattle.bds_check_typing.specs.StmtWalk as walk;
ghost use Rattle.bds_check_typing.specs.Program as program;
ghost use Rattle.bds_check_stmts.specs.InPlace.{bare_right, bare_line, bare_stmt};
ghost use Rattle.bds_check.specs.Answers.{bare_part};

use bds_check_names::{Asked, Functions, Globals, Head, Locals, Names, declare_global};
use bds_check_rules::{CheckFault, right_type};
use bds_check_stmts::walk_right;
use bds_tree::{Function, Line, Parameter, Part, Parts, RightSide, Stmt, StmtForm};
use bds_value::{ByteText, Listed, NoMemory, Shared, Ty, Types, copy_text, copy_ty};
use std::alloc::Global;

fn parameter_types(alloc: Global, parameters: &[Parameter]) -> Result<Types, NoMemory>
    ensures { IfOk result (λ ts. ts ≡ map (λ p. p.ty) parameters.now) }
{
    let mut types = Listed::new(alloc);
    for parameter in parameters {
        types.push(copy_ty(alloc, &parameter.ty)?)?;
    }
    Ok(types)
}

fn head_of(alloc: Global, function: &Function) -> Result<Head, NoMemory>
    ensures { IfOk result (λ h. h ≡ program.head_of (function_of function.now)) }
{
    let name = copy_text(alloc, &function.name)?;
    let parameters = parameter_types(alloc, function.parameters.as_slice())?;
    Ok(Head {
        name,
        parameters,
        result: copy_ty(alloc, &function.result)?,
    })
}

/// The functions so far, behind a part.
fn push_head(alloc: Global, heads: &mut Listed<Head>, part: &Part) -> Result<(), NoMemory>
    ensures { IfOk result (λ _. heads.new ≡ program.with_head heads.old (part_of part.now)) }
{
    match part {
        Part::Function(function) => heads.push(head_of(alloc, function)?),
        Part::Include(_) => Ok(()),
        Part::Stmt(_) => Ok(()),
    }
}

#[tactic(auto, using(crate::proofs::Heads::with_heads))]
fn heads_of(alloc: Global, parts: &[Part]) -> Result<Listed<Head>, NoMemory>
    ensures { IfOk result (λ hs. hs ≡ program.heads_of (map part_of parts.now)) }
{
    let mut heads = Listed::new(alloc);
    for part in parts {
        push_head(alloc, &mut heads, part)?;
    }
    Ok(heads)
}

/// `args` is declared before all others.
fn first_globals(alloc: Global) -> Result<Globals, NoMemory>
    ensures { IfOk result (λ vs. vs ≡ program.first_globals) }
{
    let mut name = Listed::new(alloc);
    name.append(b"args")?;
    let ty = Ty::List(Shared::of(alloc, Ty::Text)?);
    let mut globals = Globals::new(alloc);
    globals.declare(alloc, &name, ty)?;
    Ok(globals)
}

/// The names before the first statement.
pub fn first_names(alloc: Global, parts: &[Part], finding: bool) -> Result<Names, NoMemory>
    ensures { IfOk result (λ names. names ≡ record {
      functions = program.heads_of (map part_of parts.now);
      globals = program.first_globals;
      locals = [];
      finding = finding;
    }) }
{
    let functions = Functions::of(alloc, heads_of(alloc, parts)?)?;
    let globals = first_globals(alloc)?;
    Ok(Names {
        functions,
        globals,
        locals: Locals::new(alloc),
        finding,
    })
}

/// The type of a global declared by `:=`, `Void` where the declaration breaks a rule or names a
/// global without a type. Of the right side types alone are changed.
fn found_type(alloc: Global, names: &mut Names, right: &mut RightSide) -> Result<Ty, NoMemory>
    ensures value { IfOk result (λ t. t ≡ program.found_type_of
        (walk.judge_right (right_of right.old) names.old Asked.Value)) }
    ensures kept { bare_right (right_of right.new) ≡ bare_right (right_of right.old) }
    ensures same { names.new ≡ names.old }
{
    match walk_right(alloc, names, &Asked::Value, right) {
        Ok(()) => right_type(alloc, right),
        Err(CheckFault::NoMemory) => Err(NoMemory),
        Err(CheckFault::Broken { rule: _, at: _ }) => Ok(Ty::Void),
    }
}

/// A global declared by `:=`, with its type.
fn declare_inferred(
    alloc: Global,
    names: &mut Names,
    name: &ByteText,
    right: &mut RightSide,
) -> Result<(), NoMemory>
    requires { names.old ≡ program.finding_names names.old.functions names.old.globals }
    ensures found { IfOk result (λ _. names.new ≡ program.finding_names names.old.functions
        (program.globals_with names.old.globals (Some (variable name.now
        (program.found_type names.old.functions names.old.globals (right_of right.old)))))) }
    ensures kept { bare_right (right_of right.new) ≡ bare_right (right_of right.old) }
{
    let ty = found_type(alloc, names, right)?;
    declare_global(alloc, names, name, &ty)
}

/// The global that a line of the top level declares, with its type.
fn find_in_line(alloc: Global, names: &mut Names, line: &mut Line) -> Result<(), NoMemory>
    requires { names.old ≡ program.finding_names names.old.functions names.old.globals }
    ensures found { (at : At)
        → IfOk result (λ _. names.new ≡ program.finding_names names.old.functions
        (program.behind_stmt names.old.functions names.old.globals (tree.stmt at (tree.line (line_of line.old))))) }
    ensures kept { bare_line (line_of line.new) ≡ bare_line (line_of line.old) }
{
    match line {
        Line::Declare(ty, name, _) => declare_global(alloc, names, name, ty),
        Line::Infer(name, right) => declare_inferred(alloc, names, name, right),
        _ => Ok(()),
    }
}

/// The global that a statement at the top level declares, with its type.
fn declare_found(alloc: Global, names: &mut Names, stmt: &mut Stmt) -> Result<(), NoMemory>
    requires { names.old ≡ program.finding_names names.old.functions names.old.globals }
    ensures found { IfOk result (λ _. names.new ≡ program.finding_names names.old.functions
        (program.behind_stmt names.old.functions names.old.globals (stmt_of stmt.old))) }
    ensures kept { bare_stmt (stmt_of stmt.new) ≡ bare_stmt (stmt_of stmt.old) }
{
    match &mut stmt.form {
        StmtForm::Line(line) => find_in_line(alloc, names, line),
        _ => Ok(()),
    }
}

fn find_in_part(alloc: Global, names: &mut Names, part: &mut Part) -> Result<(), NoMemory>
    requires { names.old ≡ program.finding_names names.old.functions names.old.globals }
    ensures found { IfOk result (λ _. names.new ≡ program.finding_names names.old.functions
        (program.behind_part names.old.functions names.old.globals (part_of part.old))) }
    ensures kept { bare_part (part_of part.new) ≡ bare_part (part_of part.old) }
{
    match part {
        Part::Function(_) => Ok(()),
        Part::Include(_) => Ok(()),
        Part::Stmt(stmt) => declare_found(alloc, names, stmt),
    }
}

/// The names in force in functions: all globals with their types, found in the order of the text. Of the parts
/// types alone are changed.
pub fn find_globals(alloc: Global, parts: &mut Parts) -> Result<Names, NoMemory>
    ensures found { IfOk result (λ names. names ≡ program.names_of (program.heads_of (map part_of parts.old))
        (program.globals_of (map part_of parts.old))) }
    ensures kept { map bare_part (map part_of parts.new) ≡ map bare_part (map part_of parts.old) }
{
    let mut names = first_names(alloc, parts.as_slice(), true)?;
    for i in 0..parts.len() {
        find_in_part(alloc, &mut names, parts.at_mut(i))?;
    }
    names.finding = false;
    Ok(names)
}
