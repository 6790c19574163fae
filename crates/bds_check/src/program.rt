//! The walk through the parts of a whole script.
ghost use Rattle.std.specs.Prelude.{◌≡◌, ◌≤◌, [], IfOk, map, None, take, length};
ghost use Rattle.bds_tree.specs.StmtView.{part_of, stmt_of, stmt_form_of};
ghost use Rattle.bds_check.specs.Answers.{LeavesPart, LeavesParts};
ghost use Rattle.bds_check_stmts.specs.InPlace.{LeavesStmt};
ghost use Rattle.bds_check_names.specs.Scopes as scopes;
ghost use Rattle.bds_check_typing.specs.StmtParts as stmt_parts;
ghost use Rattle.bds_check_typing.specs.StmtWalk as walk;
ghost use Rattle.bds_check_typing.specs.Program as program;

use crate::functions::walk_function;
use crate::globals::{find_globals, first_names};
use crate::top_level::declare_top;
use bds_check_names::{Names, are_too_many, parts_globals, parts_slots, top};
use bds_check_rules::{CheckFault, Rule, stmt_rule};
use bds_check_stmts::walk_stmt_form;
use bds_tree::{Part, Parts, Stmt};
use bds_value::{At, MAX_GLOBALS};
use std::alloc::Global;

/// A statement at the top level behind its parts.
fn close_top(alloc: Global, names: &mut Names, stmt: &Stmt) -> Result<(), CheckFault>
    ensures { LeavesStmt result (stmt_of stmt.now) names.new (stmt_parts.close_stmt stmt.now.at names.old scopes.top
        (record { form = stmt_form_of stmt.now.form; broken = None })) }
{
    if let Some(rule) = stmt_rule(alloc, names, &top(), &stmt.form)? {
        return Err(CheckFault::Broken { rule, at: stmt.at });
    }
    Ok(declare_top(alloc, names, &stmt.form)?)
}

/// A statement at the top level, which gets its types, and the names behind it.
fn walk_top(alloc: Global, names: &mut Names, stmt: &mut Stmt) -> Result<(), CheckFault>
    ensures { LeavesStmt result (stmt_of stmt.new) names.new (walk.judge_stmt (stmt_of stmt.old) names.old scopes.top) }
{
    walk_stmt_form(alloc, names, &top(), &mut stmt.form)?;
    close_top(alloc, names, stmt)
}

/// A part of a script, behind so many functions; `all` are the names in force in functions, `names`
/// those at the top level.
fn walk_part(
    alloc: Global,
    all: &mut Names,
    names: &mut Names,
    before: usize,
    part: &mut Part,
) -> Result<(), CheckFault>
    requires { all.old.locals ≡ [] }
    ensures fits { LeavesPart result (part_of part.new) names.new
        (program.judge_part all.old (take before all.old.functions) names.old (part_of part.old)) }
    ensures all { IfOk result (λ _. all.new ≡ all.old) }
{
    match part {
        Part::Function(function) => walk_function(alloc, all, before, function),
        Part::Include(_) => Ok(()),
        Part::Stmt(stmt) => walk_top(alloc, names, stmt),
    }
}

/// How many functions a part is: one or none.
fn functions_in(part: &Part) -> usize
    ensures count { result ≡ length (program.with_head [] (part_of part.now)) }
    ensures most { result ≤ 1 }
{
    match part {
        Part::Function(_) => 1,
        Part::Include(_) => 0,
        Part::Stmt(_) => 0,
    }
}

fn walk_parts(
    alloc: Global,
    all: &mut Names,
    names: &mut Names,
    parts: &mut Parts,
) -> Result<(), CheckFault>
    requires locals { all.old.locals ≡ [] }
    requires functions { all.old.functions ≡ program.heads_of (map part_of parts.old) }
    ensures { LeavesParts result (map part_of parts.new) (program.judge_parts all.old [] names.old
        (map part_of parts.old)) }
{
    let mut before = 0;
    for i in 0..parts.len() {
        let own = functions_in(&parts.as_slice()[i]);
        walk_part(alloc, all, names, before, parts.at_mut(i))?;
        before += own;
    }
    Ok(())
}

/// The parts need more slots or globals than there may be; `args` is one of the globals.
fn has_too_many(parts: &[Part]) -> bool
    ensures { result ≡ program.has_too_many (map part_of parts.now) }
{
    are_too_many(0, parts_slots(parts)) || parts_globals(parts) >= MAX_GLOBALS
}

/// A script is judged behind its parts.
fn close_parts(at: At, parts: &[Part]) -> Result<(), CheckFault>
    ensures { LeavesParts result (map part_of parts.now) (program.close_parts at
        (record { parts = map part_of parts.now; broken = None })) }
{
    if has_too_many(parts) {
        return Err(CheckFault::Broken {
            rule: Rule::TooManyLocals,
            at,
        });
    }
    Ok(())
}

/// The parts of a script, which get their types; `all` are the names in force in functions, `names`
/// those before the first statement.
fn walk_all(
    alloc: Global,
    all: &mut Names,
    names: &mut Names,
    at: At,
    parts: &mut Parts,
) -> Result<(), CheckFault>
    requires locals { all.old.locals ≡ [] }
    requires functions { all.old.functions ≡ program.heads_of (map part_of parts.old) }
    ensures { LeavesParts result (map part_of parts.new) (program.close_parts at
        (program.judge_parts all.old [] names.old (map part_of parts.old))) }
{
    walk_parts(alloc, all, names, parts)?;
    close_parts(at, parts.as_slice())
}

/// The parts of a script, which get their types. What is found of globals before changes no more than types,
/// at which the walk doesn't look.
pub fn walk_script(alloc: Global, at: At, parts: &mut Parts) -> Result<(), CheckFault>
    ensures { LeavesParts result (map part_of parts.new) (program.judge_all at (map part_of parts.old)) }
{
    let mut names = first_names(alloc, parts.as_slice(), false)?;
    let mut all = find_globals(alloc, parts)?;
    walk_all(alloc, &mut all, &mut names, at, parts)
}
