//! The walk through expressions, each of which gets its type where it stands.
ghost use Rattle.std.specs.Prelude.{◌≡◌, IfOk};
ghost use Rattle.bds_tree.specs.View.{tree_of, form_tree_of};
ghost use Rattle.bds_check_names.specs.declared.names.Asked.TheVariants as Asked;
ghost use Rattle.bds_check_typing.specs.Answers.{Fits};
ghost use Rattle.bds_check_typing.specs.Walk as walk;
ghost use Rattle.bds_check_walk.specs.InPlace.{bare_expr, bare_form, LeavesExpr, LeavesForm};

use crate::arguments::{walk_call, walk_method};
use crate::closing::close;
use crate::list_literals::walk_list;
use crate::map_literals::walk_map;
use bds_check_names::{Asked, Names};
use bds_check_rules::CheckFault;
use bds_tree::{Expr, Form};
use bds_value::{Boxed, NoMemory, copy_ty};
use std::alloc::Global;

fn no_whole(alloc: Global, asked: &Asked) -> Result<Asked, NoMemory>
    ensures { IfOk result (λ a. a ≡ walk.no_whole asked.now) }
{
    match asked {
        Asked::This(ty) => Ok(Asked::This(copy_ty(alloc, ty)?)),
        Asked::Whole => Ok(Asked::Value),
        Asked::Value => Ok(Asked::Value),
    }
}

/// Gives an expression and its parts their types. Where it breaks off, some have theirs.
#[cycle(walk)]
#[tactic(auto, using(crate::proofs::WalkRules::walk_rules))]
pub fn walk(alloc: Global, names: &Names, asked: &Asked, expr: &mut Expr) -> Result<(), CheckFault>
    ensures fits { LeavesExpr result (tree_of expr.new) (walk.judge (tree_of expr.old) names.now asked.now) }
    ensures kept { bare_expr (tree_of expr.new) ≡ bare_expr (tree_of expr.old) }
{
    walk_form(alloc, names, asked, &mut expr.form)?;
    close(alloc, names, asked, expr)
}

/// Gives the parts of an expression their types.
#[cycle(walk)]
#[tactic(auto, using(crate::proofs::WalkRules::walk_rules))]
fn walk_form(alloc: Global, names: &Names, asked: &Asked, form: &mut Form) -> Result<(), CheckFault>
    ensures fits { LeavesForm result (form_tree_of form.new) (walk.judge_form (form_tree_of form.old) names.now
        asked.now) }
    ensures kept { bare_form (form_tree_of form.new) ≡ bare_form (form_tree_of form.old) }
{
    match form {
        Form::Number(_) | Form::Text(_) | Form::Bool(_) | Form::Name(_) => Ok(()),
        Form::Call(name, arguments) => walk_call(alloc, names, name, arguments),
        Form::Group(inner) => walk_group(alloc, names, asked, inner),
        Form::List(items) => walk_list(alloc, names, asked, items),
        Form::Map(pairs) => walk_map(alloc, names, asked, pairs),
        Form::Item(list, index) => walk_two(alloc, names, list, index),
        Form::Key(map, key) => walk_two(alloc, names, map, key),
        Form::Method(receiver, name, arguments) => {
            walk_method(alloc, names, receiver, name, arguments)
        }
        Form::Prefix(_, a) => walk_value(alloc, names, a),
        Form::Binary(a, _, b) => walk_two(alloc, names, a, b),
        Form::Choice(condition, a, b) => walk_three(alloc, names, condition, a, b),
        Form::Dependency(a, b) => walk_two(alloc, names, a, b),
    }
}

/// What stands in parentheses.
#[cycle(walk)]
#[tactic(auto, using(crate::proofs::WalkRules::walk_rules))]
fn walk_group(
    alloc: Global,
    names: &Names,
    asked: &Asked,
    inner: &mut Boxed<Expr>,
) -> Result<(), CheckFault>
    ensures fits { LeavesExpr result (tree_of inner.new) (walk.judge (tree_of inner.old) names.now
        (walk.no_whole asked.now)) }
    ensures kept { bare_expr (tree_of inner.new) ≡ bare_expr (tree_of inner.old) }
{
    let asked = no_whole(alloc, asked)?;
    walk(alloc, names, &asked, inner.get_mut())
}

/// An expression of which any value is asked.
#[cycle(walk)]
#[tactic(auto, using(crate::proofs::WalkRules::walk_rules))]
pub fn walk_value(alloc: Global, names: &Names, expr: &mut Boxed<Expr>) -> Result<(), CheckFault>
    ensures fits { LeavesExpr result (tree_of expr.new) (walk.judge (tree_of expr.old) names.now Asked.Value) }
    ensures kept { bare_expr (tree_of expr.new) ≡ bare_expr (tree_of expr.old) }
{
    walk(alloc, names, &Asked::Value, expr.get_mut())
}

/// Two expressions, one behind the other.
#[cycle(walk)]
#[tactic(auto, using(crate::proofs::WalkRules::walk_rules))]
fn walk_two(
    alloc: Global,
    names: &Names,
    a: &mut Boxed<Expr>,
    b: &mut Boxed<Expr>,
) -> Result<(), CheckFault>
    ensures fits { Fits result (walk.first (walk.judge (tree_of a.old) names.now Asked.Value).broken
        (walk.judge (tree_of b.old) names.now Asked.Value).broken)
        (λ _. (tree_of a.new ≡ (walk.judge (tree_of a.old) names.now Asked.Value).tree)
        × (tree_of b.new ≡ (walk.judge (tree_of b.old) names.now Asked.Value).tree)) }
    ensures kept { (bare_expr (tree_of a.new) ≡ bare_expr (tree_of a.old))
        × (bare_expr (tree_of b.new) ≡ bare_expr (tree_of b.old)) }
{
    walk_value(alloc, names, a)?;
    walk_value(alloc, names, b)
}

/// A condition, and the two values behind it.
#[cycle(walk)]
#[tactic(auto, using(crate::proofs::WalkRules::walk_rules))]
fn walk_three(
    alloc: Global,
    names: &Names,
    condition: &mut Boxed<Expr>,
    a: &mut Boxed<Expr>,
    b: &mut Boxed<Expr>,
) -> Result<(), CheckFault>
    ensures fits { Fits result (walk.first (walk.judge (tree_of condition.old) names.now Asked.Value).broken
        (walk.first (walk.judge (tree_of a.old) names.now Asked.Value).broken
        (walk.judge (tree_of b.old) names.now Asked.Value).broken))
        (λ _. (tree_of condition.new ≡ (walk.judge (tree_of condition.old) names.now Asked.Value).tree)
        × (tree_of a.new ≡ (walk.judge (tree_of a.old) names.now Asked.Value).tree)
        × (tree_of b.new ≡ (walk.judge (tree_of b.old) names.now Asked.Value).tree)) }
    ensures kept { (bare_expr (tree_of condition.new) ≡ bare_expr (tree_of condition.old))
        × (bare_expr (tree_of a.new) ≡ bare_expr (tree_of a.old))
        × (bare_expr (tree_of b.new) ≡ bare_expr (tree_of b.old)) }
{
    walk_value(alloc, names, condition)?;
    walk_two(alloc, names, a, b)
}
