//! The walk through lines, right sides and acts.
ghost use Rattle.std.specs.Prelude.{◌≡◌};
ghost use Rattle.std.specs.Option.{option_map};
ghost use Rattle.bds_tree.specs.StmtTree as tree;
ghost use Rattle.bds_tree.specs.StmtTree.{to_maybe_right};
ghost use Rattle.bds_tree.specs.StmtView.{line_of, right_of, act_of, act_form_of, place_of, block_of};
ghost use Rattle.bds_check_names.specs.declared.names.Asked.TheVariants as Asked;
ghost use Rattle.bds_check_rules.specs.StmtBreaks as breaks;
ghost use Rattle.bds_check_typing.specs.Answers.{Fits};
ghost use Rattle.bds_check_typing.specs.StmtParts as parts;
ghost use Rattle.bds_check_typing.specs.StmtWalk as walk;
ghost use Rattle.bds_check_typing.specs.Walk.{first};
ghost use Rattle.bds_check_stmt_parts.specs.InPlace.{bare_place, LeavesActForm};
ghost use Rattle.bds_check_stmts.specs.InPlace.{bare_line, bare_right, bare_maybe_right, bare_act, bare_act_form};
ghost use Rattle.bds_check_stmts.specs.InPlace.{bare_block, LeavesLine, LeavesRight, LeavesMaybeRight, LeavesAct};

use crate::stmts::walk_block;
use bds_check_names::{Asked, Names, Site, apart};
use bds_check_rules::{CheckFault, place_ty};
use bds_check_stmt_parts::{
    close_act, close_par, returned, walk_dep, walk_maybe, walk_place, walk_step, walk_task,
};
use bds_check_walk::{walk, walk_call};
use bds_tree::{Act, ActForm, Block, Line, Place, RightSide};
use bds_value::{Ty, copy_ty};
use std::alloc::Global;

/// A line, behind which the names are those before it.
#[cycle(statements)]
pub fn walk_line(
    alloc: Global,
    names: &mut Names,
    site: &Site,
    line: &mut Line,
) -> Result<(), CheckFault>
    ensures fits { LeavesLine result (line_of line.new) (walk.judge_line (line_of line.old) names.old site.now) }
    ensures kept { bare_line (line_of line.new) ≡ bare_line (line_of line.old) }
    ensures same { names.new ≡ names.old }
{
    match line {
        Line::Declare(ty, _, right) => walk_declared(alloc, names, right, ty),
        Line::Infer(_, right) => walk_right(alloc, names, &Asked::Value, right),
        Line::Assign(place, right) => walk_assign(alloc, names, right, place),
        Line::Update(place, _, right) => walk_update(alloc, names, right, place),
        Line::Step(step) => walk_step(alloc, names, step),
        Line::Call(call) => walk(alloc, names, &Asked::Whole, call),
        Line::Print(value) => walk(alloc, names, &Asked::Value, value),
        Line::Println(value) => walk_maybe(alloc, names, value),
        Line::Error(text) => walk(alloc, names, &Asked::Value, text),
        Line::Exit(status) => walk(alloc, names, &Asked::Value, status),
        Line::Break | Line::Continue => Ok(()),
        Line::Return(right) => walk_returned(alloc, names, site, right),
        Line::Wait(ids) => walk_maybe(alloc, names, ids),
        Line::Checkpoint(path) => walk_maybe(alloc, names, path),
        Line::Alone(act) => walk_act(alloc, names, &Asked::Whole, act),
    }
}

/// The right side of a declaration of this type.
#[cycle(statements)]
fn walk_declared(
    alloc: Global,
    names: &mut Names,
    right: &mut Option<RightSide>,
    ty: &Ty,
) -> Result<(), CheckFault>
    ensures fits { LeavesMaybeRight result (to_maybe_right (option_map right_of right.new))
        (walk.judge_maybe_right (to_maybe_right (option_map right_of right.old)) names.old (Asked.This ty.now)) }
    ensures kept { bare_maybe_right (to_maybe_right (option_map right_of right.new)) ≡ bare_maybe_right
        (to_maybe_right (option_map right_of right.old)) }
    ensures same { names.new ≡ names.old }
{
    let asked = Asked::This(copy_ty(alloc, ty)?);
    walk_maybe_right(alloc, names, &asked, right)
}

/// What is returned.
#[cycle(statements)]
fn walk_returned(
    alloc: Global,
    names: &mut Names,
    site: &Site,
    right: &mut Option<RightSide>,
) -> Result<(), CheckFault>
    ensures fits { LeavesMaybeRight result (to_maybe_right (option_map right_of right.new))
        (walk.judge_maybe_right (to_maybe_right (option_map right_of right.old)) names.old
        (parts.returned site.now.returns)) }
    ensures kept { bare_maybe_right (to_maybe_right (option_map right_of right.new)) ≡ bare_maybe_right
        (to_maybe_right (option_map right_of right.old)) }
    ensures same { names.new ≡ names.old }
{
    let asked = returned(alloc, &site.returns)?;
    walk_maybe_right(alloc, names, &asked, right)
}

#[cycle(statements)]
fn walk_assign(
    alloc: Global,
    names: &mut Names,
    right: &mut RightSide,
    place: &mut Place,
) -> Result<(), CheckFault>
    ensures fits { Fits result (first (parts.judge_place (place_of place.old) names.old).broken
        (walk.judge_right (right_of right.old) names.old (Asked.This
        (breaks.place_ty names.old (place_of place.old)))).broken)
        (λ _. (place_of place.new ≡ (parts.judge_place (place_of place.old) names.old).place)
        × (right_of right.new ≡ (walk.judge_right (right_of right.old) names.old
        (Asked.This (breaks.place_ty names.old (place_of place.old)))).right)) }
    ensures place { bare_place (place_of place.new) ≡ bare_place (place_of place.old) }
    ensures right { bare_right (right_of right.new) ≡ bare_right (right_of right.old) }
    ensures same { names.new ≡ names.old }
{
    let asked = Asked::This(place_ty(alloc, names, place)?);
    walk_place(alloc, names, place)?;
    walk_right(alloc, names, &asked, right)
}

#[cycle(statements)]
fn walk_update(
    alloc: Global,
    names: &mut Names,
    right: &mut RightSide,
    place: &mut Place,
) -> Result<(), CheckFault>
    ensures fits { Fits result (first (parts.judge_place (place_of place.old) names.old).broken
        (walk.judge_right (right_of right.old) names.old Asked.Value).broken)
        (λ _. (place_of place.new ≡ (parts.judge_place (place_of place.old) names.old).place)
        × (right_of right.new ≡ (walk.judge_right (right_of right.old) names.old Asked.Value).right)) }
    ensures place { bare_place (place_of place.new) ≡ bare_place (place_of place.old) }
    ensures right { bare_right (right_of right.new) ≡ bare_right (right_of right.old) }
    ensures same { names.new ≡ names.old }
{
    walk_place(alloc, names, place)?;
    walk_right(alloc, names, &Asked::Value, right)
}

/// What stands on a right side, which gets its types.
#[cycle(statements)]
pub fn walk_right(
    alloc: Global,
    names: &mut Names,
    asked: &Asked,
    right: &mut RightSide,
) -> Result<(), CheckFault>
    ensures fits { LeavesRight result (right_of right.new) (walk.judge_right (right_of right.old) names.old asked.now) }
    ensures kept { bare_right (right_of right.new) ≡ bare_right (right_of right.old) }
    ensures same { names.new ≡ names.old }
{
    match right {
        RightSide::Expr(expr) => walk(alloc, names, asked, expr),
        RightSide::Act(act) => walk_act(alloc, names, asked, act),
    }
}

#[cycle(statements)]
fn walk_maybe_right(
    alloc: Global,
    names: &mut Names,
    asked: &Asked,
    right: &mut Option<RightSide>,
) -> Result<(), CheckFault>
    ensures fits { LeavesMaybeRight result (to_maybe_right (option_map right_of right.new))
        (walk.judge_maybe_right (to_maybe_right (option_map right_of right.old)) names.old asked.now) }
    ensures kept { bare_maybe_right (to_maybe_right (option_map right_of right.new)) ≡ bare_maybe_right
        (to_maybe_right (option_map right_of right.old)) }
    ensures same { names.new ≡ names.old }
{
    match right {
        None => Ok(()),
        Some(right) => walk_right(alloc, names, asked, right),
    }
}

#[cycle(statements)]
fn walk_act(
    alloc: Global,
    names: &mut Names,
    asked: &Asked,
    act: &mut Act,
) -> Result<(), CheckFault>
    ensures fits { LeavesAct result (act_of act.new) (walk.judge_act (act_of act.old) names.old asked.now) }
    ensures kept { bare_act (act_of act.new) ≡ bare_act (act_of act.old) }
    ensures same { names.new ≡ names.old }
{
    walk_act_form(alloc, names, &mut act.form)?;
    close_act(names, asked, act)
}

#[cycle(statements)]
fn walk_act_form(alloc: Global, names: &mut Names, form: &mut ActForm) -> Result<(), CheckFault>
    ensures fits { LeavesActForm result (act_form_of form.new) (walk.judge_act_form (act_form_of form.old) names.old) }
    ensures kept { bare_act_form (act_form_of form.new) ≡ bare_act_form (act_form_of form.old) }
    ensures same { names.new ≡ names.old }
{
    match form {
        ActForm::Sys(_) => Ok(()),
        ActForm::Task(options, body) => walk_task(alloc, names, options, body),
        ActForm::Dep(options, body) => walk_dep(alloc, names, options, body),
        ActForm::Goal(files) => walk(alloc, names, &Asked::Value, files),
        ActForm::ParCall(name, arguments) => walk_call(alloc, names, name, arguments),
        ActForm::ParBlock(block) => walk_par(alloc, names, block),
    }
}

/// The block of a `par`.
#[cycle(statements)]
fn walk_par(alloc: Global, names: &mut Names, block: &mut Block) -> Result<(), CheckFault>
    ensures fits { LeavesActForm result (tree.par_block (block_of block.new))
        (walk.judge_act_form (tree.par_block (block_of block.old)) names.old) }
    ensures kept { bare_block (block_of block.new) ≡ bare_block (block_of block.old) }
    ensures same { names.new ≡ names.old }
{
    let site = apart(names);
    walk_block(alloc, names, &site, block)?;
    close_par(names, block)
}
