//! The walk through the small statements in the head of a loop.
ghost use Rattle.std.specs.Prelude.{◌≡◌, ℕ, List, IfOk, false, None, Some};
ghost use Rattle.std.specs.Option.{option_map};
ghost use Rattle.bds_tree.specs.View.{tree_of};
ghost use Rattle.bds_tree.specs.StmtView.{small_of, small_form_of};
ghost use Rattle.bds_tree.specs.StmtTree as tree;
ghost use Rattle.bds_tree.specs.StmtView.{place_of};
ghost use Rattle.bds_check_names.specs.declared.names.Asked.TheVariants.{This};
ghost use Rattle.bds_check_typing.specs.Answers.{Fits};
ghost use Rattle.bds_check_typing.specs.Remade.{option_with};
ghost use Rattle.bds_check_typing.specs.Walk.{judge};
ghost use Rattle.bds_check_names.specs.Scopes.{Extends};
ghost use Rattle.bds_check_names.specs.Scopes as scopes;
ghost use Rattle.bds_check_rules.specs.Declarations.{declared_by_small_form, names_with};
ghost use Rattle.bds_check_typing.specs.StmtParts as walk;
ghost use Rattle.bds_check_walk.specs.InPlace.{bare_expr, LeavesExpr};
ghost use Rattle.bds_check_stmt_parts.specs.InPlace.{bare_place, bare_small, bare_small_form, LeavesMaybe, LeavesSmall};
ghost use Rattle.bds_check_stmt_parts.specs.InPlace.{LeavesSmallForm};

use crate::places::{walk_place, walk_step};
use crate::stmt_closing::leave_block;
use bds_check_names::{Asked, Names, Site, declare_local, inner};
use bds_check_rules::{CheckFault, place_ty, small_rule};
use bds_check_walk::walk;
use bds_tree::{Expr, Place, Small, SmallForm, UpdateOp};
use bds_value::{Boxed, NoMemory, Ty, copy_ty};
use std::alloc::Global;

/// An expression that may be left out.
pub fn walk_maybe(alloc: Global, names: &Names, expr: &mut Option<Expr>) -> Result<(), CheckFault>
    ensures fits { LeavesMaybe result (option_map tree_of expr.new)
        (walk.judge_maybe (option_map tree_of expr.old) names.now) }
    ensures kept { option_with bare_expr (option_map tree_of expr.new) ≡ option_with bare_expr
        (option_map tree_of expr.old) }
{
    match expr {
        None => Ok(()),
        Some(expr) => walk(alloc, names, &Asked::Value, expr),
    }
}

fn walk_assign(
    alloc: Global,
    names: &Names,
    place: &mut Place,
    value: &mut Expr,
) -> Result<(), CheckFault>
    ensures fits { LeavesSmallForm result (tree.small_assign (place_of place.new) (tree_of value.new))
        (walk.judge_small_form (tree.small_assign (place_of place.old) (tree_of value.old)) names.now) }
    ensures place { bare_place (place_of place.new) ≡ bare_place (place_of place.old) }
    ensures value { bare_expr (tree_of value.new) ≡ bare_expr (tree_of value.old) }
{
    let asked = Asked::This(place_ty(alloc, names, place)?);
    walk_place(alloc, names, place)?;
    walk(alloc, names, &asked, value)
}

fn walk_update(
    alloc: Global,
    names: &Names,
    place: &mut Place,
    op: UpdateOp,
    value: &mut Expr,
) -> Result<(), CheckFault>
    ensures fits { LeavesSmallForm result (tree.small_update (place_of place.new) op (tree_of value.new))
        (walk.judge_small_form (tree.small_update (place_of place.old) op (tree_of value.old)) names.now) }
    ensures place { bare_place (place_of place.new) ≡ bare_place (place_of place.old) }
    ensures value { bare_expr (tree_of value.new) ≡ bare_expr (tree_of value.old) }
{
    walk_place(alloc, names, place)?;
    walk(alloc, names, &Asked::Value, value)
}

/// A value of a type.
fn walk_as(alloc: Global, names: &Names, ty: &Ty, value: &mut Expr) -> Result<(), CheckFault>
    ensures fits { LeavesExpr result (tree_of value.new) (judge (tree_of value.old) names.now (This ty.now)) }
    ensures kept { bare_expr (tree_of value.new) ≡ bare_expr (tree_of value.old) }
{
    let asked = Asked::This(copy_ty(alloc, ty)?);
    walk(alloc, names, &asked, value)
}

/// The value of a declaration of this type.
fn walk_declared(
    alloc: Global,
    names: &Names,
    ty: &Ty,
    value: &mut Option<Expr>,
) -> Result<(), CheckFault>
    ensures fits { (name : List ℕ)
        → LeavesSmallForm result (tree.small_declare ty.now name (option_map tree_of value.new))
        (walk.judge_small_form (tree.small_declare ty.now name (option_map tree_of value.old)) names.now) }
    ensures kept { option_with bare_expr (option_map tree_of value.new) ≡ option_with bare_expr
        (option_map tree_of value.old) }
{
    match value {
        None => Ok(()),
        Some(value) => walk_as(alloc, names, ty, value),
    }
}

fn walk_small_form(alloc: Global, names: &Names, form: &mut SmallForm) -> Result<(), CheckFault>
    ensures fits { LeavesSmallForm result (small_form_of form.new)
        (walk.judge_small_form (small_form_of form.old) names.now) }
    ensures kept { bare_small_form (small_form_of form.new) ≡ bare_small_form (small_form_of form.old) }
{
    match form {
        SmallForm::Declare(ty, _, value) => walk_declared(alloc, names, ty, value),
        SmallForm::Infer(_, value) => walk(alloc, names, &Asked::Value, value),
        SmallForm::Assign(place, value) => walk_assign(alloc, names, place, value),
        SmallForm::Update(place, op, value) => walk_update(alloc, names, place, *op, value),
        SmallForm::Step(step) => walk_step(alloc, names, step),
        SmallForm::Call(call) => walk(alloc, names, &Asked::Whole, call),
    }
}

/// The names behind a part of a head.
fn declare_small(
    alloc: Global,
    names: &mut Names,
    site: &Site,
    form: &SmallForm,
) -> Result<(), NoMemory>
    requires { site.now.at_top ≡ false }
    ensures value { IfOk result (λ _.
        names.new ≡ names_with names.old site.now (declared_by_small_form (small_form_of form.now))) }
    ensures extends { Extends names.old names.new }
{
    match form {
        SmallForm::Declare(ty, name, _) => declare_local(alloc, names, site, name, ty),
        SmallForm::Infer(name, value) => declare_local(alloc, names, site, name, &value.ty),
        SmallForm::Assign(_, _)
        | SmallForm::Update(_, _, _)
        | SmallForm::Step(_)
        | SmallForm::Call(_) => Ok(()),
    }
}

/// A part of a head behind its own parts.
fn close_small(
    alloc: Global,
    names: &mut Names,
    site: &Site,
    small: &Small,
) -> Result<(), CheckFault>
    requires { site.now.at_top ≡ false }
    ensures fits { Fits result (walk.close_small small.now.at names.old site.now
        (record { form = small_form_of small.now.form; broken = None })).broken
        (λ _. names.new ≡ names_with names.old site.now (declared_by_small_form (small_form_of small.now.form))) }
    ensures extends { Extends names.old names.new }
{
    if let Some(rule) = small_rule(alloc, names, site, &small.form)? {
        return Err(CheckFault::Broken { rule, at: small.at });
    }
    Ok(declare_small(alloc, names, site, &small.form)?)
}

/// A part of a head that is there.
fn walk_there(
    alloc: Global,
    names: &mut Names,
    site: &Site,
    small: &mut Small,
) -> Result<(), CheckFault>
    requires { site.now.at_top ≡ false }
    ensures fits { LeavesSmall result (Some (small_of small.new)) names.new
        (walk.judge_small (Some (small_of small.old)) names.old site.now) }
    ensures kept { bare_small (small_of small.new) ≡ bare_small (small_of small.old) }
    ensures extends { Extends names.old names.new }
{
    walk_small_form(alloc, names, &mut small.form)?;
    close_small(alloc, names, site, small)
}

/// A part of the head of a loop, which gets its types, and the names behind it.
pub fn walk_small(
    alloc: Global,
    names: &mut Names,
    site: &Site,
    small: &mut Option<Boxed<Small>>,
) -> Result<(), CheckFault>
    requires { site.now.at_top ≡ false }
    ensures fits { LeavesSmall result (option_map small_of small.new) names.new
        (walk.judge_small (option_map small_of small.old) names.old site.now) }
    ensures kept { option_with bare_small (option_map small_of small.new) ≡ option_with bare_small
        (option_map small_of small.old) }
    ensures extends { Extends names.old names.new }
{
    match small {
        None => Ok(()),
        Some(small) => walk_there(alloc, names, site, small.get_mut()),
    }
}

/// The last part of a head, a block of its own.
pub fn walk_last(
    alloc: Global,
    names: &mut Names,
    site: &Site,
    small: &mut Option<Boxed<Small>>,
) -> Result<(), CheckFault>
    ensures fits { Fits result (walk.judge_small (option_map small_of small.old) names.old
        (scopes.inner names.old site.now)).broken
        (λ _. option_map small_of small.new ≡ (walk.judge_small (option_map small_of small.old) names.old
        (scopes.inner names.old site.now)).small) }
    ensures kept { option_with bare_small (option_map small_of small.new) ≡ option_with bare_small
        (option_map small_of small.old) }
    ensures same { names.new ≡ names.old }
{
    let before = names.locals.len();
    let within = inner(alloc, names, site)?;
    let walked = walk_small(alloc, names, &within, small);
    leave_block(names, before);
    walked
}
