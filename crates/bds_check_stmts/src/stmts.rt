//! The walk through statements and blocks.
ghost use Rattle.std.specs.Prelude.{◌≡◌, false};
ghost use Rattle.std.specs.Option.{option_map};
ghost use Rattle.bds_tree.specs.View.{tree_of};
ghost use Rattle.bds_tree.specs.StmtTree as tree;
ghost use Rattle.bds_tree.specs.StmtView.{small_of, stmt_of, stmt_form_of, block_of, stmts_of, cases_of};
ghost use Rattle.bds_check_names.specs.Scopes as scopes;
ghost use Rattle.bds_check_typing.specs.Answers.{Fits};
ghost use Rattle.bds_check_typing.specs.Remade.{option_with};
ghost use Rattle.bds_check_typing.specs.StmtParts as parts;
ghost use Rattle.bds_check_typing.specs.StmtWalk as walk;
ghost use Rattle.bds_check_typing.specs.Walk.{first as first_of};
ghost use Rattle.bds_check_walk.specs.InPlace.{bare_expr};
ghost use Rattle.bds_check_stmt_parts.specs.InPlace.{bare_small};
ghost use Rattle.bds_check_stmts.specs.InPlace.{bare_stmt, bare_stmt_form, bare_else, bare_block, bare_stmts};
ghost use Rattle.bds_check_stmts.specs.InPlace.{LeavesStmt, LeavesBranch, LeavesStmtForm, LeavesElse, LeavesBlock};
ghost use Rattle.bds_check_stmts.specs.InPlace.{LeavesStmts, LeavesWithin};

use crate::cases::walk_cases;
use crate::lines::walk_line;
use bds_check_names::{Asked, Names, Site, in_loop, inner, push_local};
use bds_check_rules::CheckFault;
use bds_check_stmt_parts::{close_stmt, leave_block, walk_last, walk_maybe, walk_small};
use bds_check_walk::walk;
use bds_tree::{Block, Cases, Expr, Small, Stmt, StmtForm, Stmts};
use bds_value::{Boxed, ByteText, Ty};
use std::alloc::Global;

/// A statement, which gets its types, and the names behind it.
#[cycle(statements)]
pub fn walk_stmt(
    alloc: Global,
    names: &mut Names,
    site: &Site,
    stmt: &mut Stmt,
) -> Result<(), CheckFault>
    requires { site.now.at_top ≡ false }
    ensures fits { LeavesStmt result (stmt_of stmt.new) names.new
        (walk.judge_stmt (stmt_of stmt.old) names.old site.now) }
    ensures kept { bare_stmt (stmt_of stmt.new) ≡ bare_stmt (stmt_of stmt.old) }
    ensures extends { scopes.Extends names.old names.new }
{
    walk_stmt_form(alloc, names, site, &mut stmt.form)?;
    close_stmt(alloc, names, site, stmt)
}

/// The form of a statement, behind which the names are those before it.
#[cycle(statements)]
pub fn walk_stmt_form(
    alloc: Global,
    names: &mut Names,
    site: &Site,
    form: &mut StmtForm,
) -> Result<(), CheckFault>
    ensures fits { LeavesStmtForm result (stmt_form_of form.new)
        (walk.judge_stmt_form (stmt_form_of form.old) names.old site.now) }
    ensures kept { bare_stmt_form (stmt_form_of form.new) ≡ bare_stmt_form (stmt_form_of form.old) }
    ensures same { names.new ≡ names.old }
{
    match form {
        StmtForm::Block(block) => walk_inner(alloc, names, site, block),
        StmtForm::Empty => Ok(()),
        StmtForm::Line(line) => walk_line(alloc, names, site, line),
        StmtForm::If(condition, then_part, else_part) => {
            walk_if(alloc, names, site, then_part, else_part, condition)
        }
        StmtForm::While(condition, body) => walk_while(alloc, names, site, body, condition),
        StmtForm::For(first, condition, step, body) => {
            walk_for(alloc, names, site, body, first, condition, step)
        }
        StmtForm::Each(ty, name, list, body) => {
            walk_each(alloc, names, site, body, ty, name, list)
        }
        StmtForm::Switch(value, cases) => walk_switch(alloc, names, site, cases, value),
    }
}

/// A block that is a statement.
#[cycle(statements)]
fn walk_inner(
    alloc: Global,
    names: &mut Names,
    site: &Site,
    block: &mut Block,
) -> Result<(), CheckFault>
    ensures fits { LeavesBlock result (block_of block.new) (walk.judge_block (block_of block.old) names.old
        (scopes.inner names.old site.now)) }
    ensures kept { bare_block (block_of block.new) ≡ bare_block (block_of block.old) }
    ensures same { names.new ≡ names.old }
{
    let within = inner(alloc, names, site)?;
    walk_block(alloc, names, &within, block)
}

/// A condition, and both parts behind it.
#[cycle(statements)]
fn walk_if(
    alloc: Global,
    names: &mut Names,
    site: &Site,
    then_part: &mut Boxed<Stmt>,
    else_part: &mut Option<Boxed<Stmt>>,
    condition: &mut Expr,
) -> Result<(), CheckFault>
    ensures fits { LeavesStmtForm result (tree.when (tree_of condition.new) (stmt_of then_part.new)
        (tree.to_maybe_stmt (option_map stmt_of else_part.new)))
        (walk.judge_stmt_form (tree.when (tree_of condition.old) (stmt_of then_part.old)
        (tree.to_maybe_stmt (option_map stmt_of else_part.old))) names.old site.now) }
    ensures condition { bare_expr (tree_of condition.new) ≡ bare_expr (tree_of condition.old) }
    ensures then_part { bare_stmt (stmt_of then_part.new) ≡ bare_stmt (stmt_of then_part.old) }
    ensures else_part { bare_else (tree.to_maybe_stmt (option_map stmt_of else_part.new)) ≡ bare_else
        (tree.to_maybe_stmt (option_map stmt_of else_part.old)) }
    ensures same { names.new ≡ names.old }
{
    let around = inner(alloc, names, site)?;
    walk(alloc, names, &Asked::Value, condition)?;
    walk_branch(alloc, names, &around, then_part.get_mut())?;
    walk_else(alloc, names, &around, else_part)
}

#[cycle(statements)]
fn walk_else(
    alloc: Global,
    names: &mut Names,
    site: &Site,
    else_part: &mut Option<Boxed<Stmt>>,
) -> Result<(), CheckFault>
    requires { site.now.at_top ≡ false }
    ensures fits { LeavesElse result (tree.to_maybe_stmt (option_map stmt_of else_part.new))
        (walk.judge_else (tree.to_maybe_stmt (option_map stmt_of else_part.old)) names.old site.now) }
    ensures kept { bare_else (tree.to_maybe_stmt (option_map stmt_of else_part.new)) ≡ bare_else
        (tree.to_maybe_stmt (option_map stmt_of else_part.old)) }
    ensures same { names.new ≡ names.old }
{
    match else_part {
        None => Ok(()),
        Some(stmt) => walk_branch(alloc, names, site, stmt.get_mut()),
    }
}

#[cycle(statements)]
fn walk_while(
    alloc: Global,
    names: &mut Names,
    site: &Site,
    body: &mut Boxed<Stmt>,
    condition: &mut Expr,
) -> Result<(), CheckFault>
    ensures fits { LeavesStmtForm result (tree.while (tree_of condition.new) (stmt_of body.new))
        (walk.judge_stmt_form (tree.while (tree_of condition.old) (stmt_of body.old)) names.old site.now) }
    ensures condition { bare_expr (tree_of condition.new) ≡ bare_expr (tree_of condition.old) }
    ensures body { bare_stmt (stmt_of body.new) ≡ bare_stmt (stmt_of body.old) }
    ensures same { names.new ≡ names.old }
{
    walk(alloc, names, &Asked::Value, condition)?;
    walk_body(alloc, names, site, body)
}

/// The body of a loop.
#[cycle(statements)]
fn walk_body(
    alloc: Global,
    names: &mut Names,
    site: &Site,
    body: &mut Boxed<Stmt>,
) -> Result<(), CheckFault>
    ensures fits { LeavesBranch result (stmt_of body.new) (walk.judge_stmt (stmt_of body.old) names.old
        (scopes.in_loop names.old site.now)) }
    ensures kept { bare_stmt (stmt_of body.new) ≡ bare_stmt (stmt_of body.old) }
    ensures same { names.new ≡ names.old }
{
    let within = in_loop(alloc, names, site)?;
    walk_branch(alloc, names, &within, body.get_mut())
}

/// A loop with a head of three parts, a block around its body.
#[cycle(statements)]
fn walk_for(
    alloc: Global,
    names: &mut Names,
    site: &Site,
    body: &mut Boxed<Stmt>,
    first: &mut Option<Boxed<Small>>,
    condition: &mut Option<Expr>,
    step: &mut Option<Boxed<Small>>,
) -> Result<(), CheckFault>
    ensures fits { LeavesStmtForm result (tree.for (option_map small_of first.new) (option_map tree_of condition.new)
        (option_map small_of step.new) (stmt_of body.new))
        (walk.judge_stmt_form (tree.for (option_map small_of first.old) (option_map tree_of condition.old)
        (option_map small_of step.old) (stmt_of body.old)) names.old site.now) }
    ensures first { option_with bare_small (option_map small_of first.new) ≡ option_with bare_small
        (option_map small_of first.old) }
    ensures condition { option_with bare_expr (option_map tree_of condition.new) ≡ option_with bare_expr
        (option_map tree_of condition.old) }
    ensures step { option_with bare_small (option_map small_of step.new) ≡ option_with bare_small
        (option_map small_of step.old) }
    ensures body { bare_stmt (stmt_of body.new) ≡ bare_stmt (stmt_of body.old) }
    ensures same { names.new ≡ names.old }
{
    let before = names.locals.len();
    let walked = walk_head(alloc, names, site, body, first, condition, step);
    leave_block(names, before);
    walked
}

/// The head and the body of a loop, behind which the variables of its head are left.
#[cycle(statements)]
fn walk_head(
    alloc: Global,
    names: &mut Names,
    site: &Site,
    body: &mut Boxed<Stmt>,
    first: &mut Option<Boxed<Small>>,
    condition: &mut Option<Expr>,
    step: &mut Option<Boxed<Small>>,
) -> Result<(), CheckFault>
    ensures fits { LeavesStmtForm result (tree.for (option_map small_of first.new) (option_map tree_of condition.new)
        (option_map small_of step.new) (stmt_of body.new))
        (walk.judge_stmt_form (tree.for (option_map small_of first.old) (option_map tree_of condition.old)
        (option_map small_of step.old) (stmt_of body.old)) names.old site.now) }
    ensures first { option_with bare_small (option_map small_of first.new) ≡ option_with bare_small
        (option_map small_of first.old) }
    ensures condition { option_with bare_expr (option_map tree_of condition.new) ≡ option_with bare_expr
        (option_map tree_of condition.old) }
    ensures step { option_with bare_small (option_map small_of step.new) ≡ option_with bare_small
        (option_map small_of step.old) }
    ensures body { bare_stmt (stmt_of body.new) ≡ bare_stmt (stmt_of body.old) }
    ensures extends { scopes.Extends names.old names.new }
{
    let within = inner(alloc, names, site)?;
    walk_small(alloc, names, &within, first)?;
    walk_loop(alloc, names, site, body, condition, step)
}

/// The condition, the last part of the head and the body of a loop.
#[cycle(statements)]
fn walk_loop(
    alloc: Global,
    names: &mut Names,
    site: &Site,
    body: &mut Boxed<Stmt>,
    condition: &mut Option<Expr>,
    step: &mut Option<Boxed<Small>>,
) -> Result<(), CheckFault>
    ensures fits { Fits result (first_of (parts.judge_maybe (option_map tree_of condition.old) names.old).broken
        (first_of (parts.judge_small (option_map small_of step.old) names.old (scopes.inner names.old site.now)).broken
        (walk.judge_stmt (stmt_of body.old) names.old (scopes.in_loop names.old site.now)).broken))
        (λ _. (option_map tree_of condition.new ≡ (parts.judge_maybe (option_map tree_of condition.old) names.old).expr)
        × (option_map small_of step.new
        ≡ (parts.judge_small (option_map small_of step.old) names.old (scopes.inner names.old site.now)).small)
        × (stmt_of body.new
        ≡ (walk.judge_stmt (stmt_of body.old) names.old (scopes.in_loop names.old site.now)).stmt)) }
    ensures condition { option_with bare_expr (option_map tree_of condition.new) ≡ option_with bare_expr
        (option_map tree_of condition.old) }
    ensures step { option_with bare_small (option_map small_of step.new) ≡ option_with bare_small
        (option_map small_of step.old) }
    ensures body { bare_stmt (stmt_of body.new) ≡ bare_stmt (stmt_of body.old) }
    ensures same { names.new ≡ names.old }
{
    walk_maybe(alloc, names, condition)?;
    walk_last(alloc, names, site, step)?;
    walk_body(alloc, names, site, body)
}

/// A list loop, whose body is a block with its variable.
#[cycle(statements)]
fn walk_each(
    alloc: Global,
    names: &mut Names,
    site: &Site,
    body: &mut Boxed<Stmt>,
    ty: &Ty,
    name: &ByteText,
    list: &mut Expr,
) -> Result<(), CheckFault>
    ensures fits { LeavesStmtForm result (tree.each ty.now name.now (tree_of list.new) (stmt_of body.new))
        (walk.judge_stmt_form (tree.each ty.now name.now (tree_of list.old) (stmt_of body.old)) names.old site.now) }
    ensures list { bare_expr (tree_of list.new) ≡ bare_expr (tree_of list.old) }
    ensures body { bare_stmt (stmt_of body.new) ≡ bare_stmt (stmt_of body.old) }
    ensures same { names.new ≡ names.old }
{
    walk(alloc, names, &Asked::Value, list)?;
    let before = names.locals.len();
    let walked = walk_each_body(alloc, names, site, body, ty, name);
    leave_block(names, before);
    walked
}

/// The body of a list loop, behind which its variable is left.
#[cycle(statements)]
fn walk_each_body(
    alloc: Global,
    names: &mut Names,
    site: &Site,
    body: &mut Boxed<Stmt>,
    ty: &Ty,
    name: &ByteText,
) -> Result<(), CheckFault>
    ensures fits { LeavesBranch result (stmt_of body.new) (walk.judge_stmt (stmt_of body.old)
        (scopes.with_local names.old name.now ty.now) (scopes.in_loop (scopes.with_local names.old name.now ty.now)
        site.now)) }
    ensures kept { bare_stmt (stmt_of body.new) ≡ bare_stmt (stmt_of body.old) }
    ensures extends { scopes.Extends names.old names.new }
{
    push_local(alloc, names, name, ty)?;
    walk_body(alloc, names, site, body)
}

#[cycle(statements)]
fn walk_switch(
    alloc: Global,
    names: &mut Names,
    site: &Site,
    cases: &mut Cases,
    value: &mut Expr,
) -> Result<(), CheckFault>
    ensures fits { LeavesStmtForm result (tree.switch (tree_of value.new) (cases_of cases.new))
        (walk.judge_stmt_form (tree.switch (tree_of value.old) (cases_of cases.old)) names.old site.now) }
    ensures kept { bare_stmt_form (tree.switch (tree_of value.new) (cases_of cases.new)) ≡ bare_stmt_form
        (tree.switch (tree_of value.old) (cases_of cases.old)) }
    ensures same { names.new ≡ names.old }
{
    walk(alloc, names, &Asked::Value, value)?;
    walk_cases(alloc, names, site, cases)
}

/// A statement in a block of its own, behind which the names are those before it.
#[cycle(statements)]
fn walk_branch(
    alloc: Global,
    names: &mut Names,
    site: &Site,
    stmt: &mut Stmt,
) -> Result<(), CheckFault>
    requires { site.now.at_top ≡ false }
    ensures fits { LeavesBranch result (stmt_of stmt.new) (walk.judge_stmt (stmt_of stmt.old) names.old site.now) }
    ensures kept { bare_stmt (stmt_of stmt.new) ≡ bare_stmt (stmt_of stmt.old) }
    ensures same { names.new ≡ names.old }
{
    let before = names.locals.len();
    let walked = walk_stmt(alloc, names, site, stmt);
    leave_block(names, before);
    walked
}

/// A block, behind which the names are those before it.
#[cycle(statements)]
pub fn walk_block(
    alloc: Global,
    names: &mut Names,
    site: &Site,
    block: &mut Block,
) -> Result<(), CheckFault>
    requires { site.now.at_top ≡ false }
    ensures fits { LeavesBlock result (block_of block.new) (walk.judge_block (block_of block.old) names.old site.now) }
    ensures kept { bare_block (block_of block.new) ≡ bare_block (block_of block.old) }
    ensures same { names.new ≡ names.old }
{
    walk_within(alloc, names, site, &mut block.stmts)
}

/// The statements of a block, behind which the names are those before it.
#[cycle(statements)]
pub fn walk_within(
    alloc: Global,
    names: &mut Names,
    site: &Site,
    stmts: &mut Stmts,
) -> Result<(), CheckFault>
    requires { site.now.at_top ≡ false }
    ensures fits { LeavesWithin result (stmts_of stmts.new) (walk.judge_stmts (stmts_of stmts.old) names.old site.now) }
    ensures kept { bare_stmts (stmts_of stmts.new) ≡ bare_stmts (stmts_of stmts.old) }
    ensures same { names.new ≡ names.old }
{
    let before = names.locals.len();
    let walked = walk_stmts(alloc, names, site, stmts);
    leave_block(names, before);
    walked
}

#[cycle(statements)]
fn walk_stmts(
    alloc: Global,
    names: &mut Names,
    site: &Site,
    stmts: &mut Stmts,
) -> Result<(), CheckFault>
    requires { site.now.at_top ≡ false }
    ensures fits { LeavesStmts result (stmts_of stmts.new) names.new
        (walk.judge_stmts (stmts_of stmts.old) names.old site.now) }
    ensures kept { bare_stmts (stmts_of stmts.new) ≡ bare_stmts (stmts_of stmts.old) }
    ensures extends { scopes.Extends names.old names.new }
{
    for i in 0..stmts.len() {
        walk_stmt(alloc, names, site, stmts.at_mut(i))?;
    }
    Ok(())
}
