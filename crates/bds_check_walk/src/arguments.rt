//! The walk through calls, methods and their arguments.
ghost use Rattle.std.specs.Prelude.{◌≡◌, IfOk, slice_get};
ghost use Rattle.bds_tree.specs.View.{tree_of, trees_of};
ghost use Rattle.bds_tree.specs.Tree.{type_of};
ghost use Rattle.bds_check_names.specs.declared.names.Asked.TheVariants as Asked;
ghost use Rattle.bds_check_names.specs.Scopes.{function_named};
ghost use Rattle.bds_check_names.specs.Rows as rows;
ghost use Rattle.bds_check_typing.specs.Answers.{Fits};
ghost use Rattle.bds_check_typing.specs.Walk as walk;
ghost use Rattle.bds_check_walk.specs.InPlace.{bare_expr, bare_exprs, LeavesExpr, LeavesExprs};

use crate::list_literals::walk_all;
use crate::walking::{walk, walk_value};
use bds_check_names::{Asked, Names, is_known, row_of};
use bds_check_rules::CheckFault;
use bds_tree::{Expr, Exprs};
use bds_value::{Boxed, ByteText, Listed, NoMemory, Ty, Types, copy_ty};
use std::alloc::Global;

/// What is asked of the argument at a place.
fn asked_at(alloc: Global, types: &[Ty], i: usize) -> Result<Asked, NoMemory>
    ensures { IfOk result (λ a. a ≡ walk.items_asked (slice_get types.now i) Asked.Value) }
{
    if i < types.len() {
        Ok(Asked::This(copy_ty(alloc, &types[i])?))
    } else {
        Ok(Asked::Value)
    }
}

/// The types of a method's arguments.
fn types_taken(
    alloc: Global,
    receiver: &Ty,
    name: &ByteText,
    count: usize,
) -> Result<Types, NoMemory>
    ensures { IfOk result (λ types. types ≡ walk.taken_by (rows.row_of receiver.now name.now count)) }
{
    match row_of(alloc, receiver, name, count)? {
        Some(row) => Ok(row.takes),
        None => Ok(Listed::new(alloc)),
    }
}

/// The arguments behind the name of a function.
#[cycle(walk)]
#[tactic(auto, using(crate::proofs::WalkRules::walk_rules))]
pub fn walk_call(
    alloc: Global,
    names: &Names,
    name: &ByteText,
    arguments: &mut Exprs,
) -> Result<(), CheckFault>
    ensures fits { LeavesExprs result (trees_of arguments.new)
        (walk.judge_arguments (trees_of arguments.old) names.now
        (walk.parameters_of (function_named name.now names.now.functions))) }
    ensures kept { bare_exprs (trees_of arguments.new) ≡ bare_exprs (trees_of arguments.old) }
{
    match names.functions.named(name) {
        Some(head) => walk_arguments(alloc, names, arguments, head.parameters.as_slice()),
        None => walk_arguments(alloc, names, arguments, &[]),
    }
}

/// A receiver, and the arguments of its method behind it.
#[cycle(walk)]
#[tactic(auto, using(crate::proofs::WalkRules::walk_rules))]
pub fn walk_method(
    alloc: Global,
    names: &Names,
    receiver: &mut Boxed<Expr>,
    name: &ByteText,
    arguments: &mut Exprs,
) -> Result<(), CheckFault>
    ensures fits { Fits result (walk.first (walk.judge (tree_of receiver.old) names.now Asked.Value).broken
        (walk.judge_behind (trees_of arguments.old) names.now
        (type_of (walk.judge (tree_of receiver.old) names.now Asked.Value).tree) name.now).broken)
        (λ _. (tree_of receiver.new ≡ (walk.judge (tree_of receiver.old) names.now Asked.Value).tree)
        × (trees_of arguments.new ≡ (walk.judge_behind (trees_of arguments.old) names.now
        (type_of (walk.judge (tree_of receiver.old) names.now Asked.Value).tree) name.now).trees)) }
    ensures kept { (bare_expr (tree_of receiver.new) ≡ bare_expr (tree_of receiver.old))
        × (bare_exprs (trees_of arguments.new) ≡ bare_exprs (trees_of arguments.old)) }
{
    walk_value(alloc, names, receiver)?;
    walk_behind(alloc, names, arguments, &receiver.get().ty, name)
}

/// The arguments of a method of a receiver of this type.
#[cycle(walk)]
#[tactic(auto, using(crate::proofs::WalkRules::walk_rules))]
fn walk_behind(
    alloc: Global,
    names: &Names,
    arguments: &mut Exprs,
    receiver: &Ty,
    name: &ByteText,
) -> Result<(), CheckFault>
    ensures fits { LeavesExprs result (trees_of arguments.new)
        (walk.judge_behind (trees_of arguments.old) names.now receiver.now name.now) }
    ensures kept { bare_exprs (trees_of arguments.new) ≡ bare_exprs (trees_of arguments.old) }
{
    if !is_known(receiver) {
        return walk_all(alloc, names, &Asked::This(Ty::Void), arguments);
    }
    let types = types_taken(alloc, receiver, name, arguments.len())?;
    walk_arguments(alloc, names, arguments, types.as_slice())
}

/// Arguments of which these types are asked.
#[cycle(walk)]
#[tactic(auto, using(crate::proofs::WalkRules::walk_rules))]
fn walk_arguments(
    alloc: Global,
    names: &Names,
    arguments: &mut Exprs,
    types: &[Ty],
) -> Result<(), CheckFault>
    ensures fits { LeavesExprs result (trees_of arguments.new)
        (walk.judge_arguments (trees_of arguments.old) names.now types.now) }
    ensures kept { bare_exprs (trees_of arguments.new) ≡ bare_exprs (trees_of arguments.old) }
{
    for i in 0..arguments.len() {
        walk_argument(alloc, names, arguments.at_mut(i), types, i)?;
    }
    Ok(())
}

/// The argument at a place.
#[cycle(walk)]
#[tactic(auto, using(crate::proofs::WalkRules::walk_rules))]
fn walk_argument(
    alloc: Global,
    names: &Names,
    argument: &mut Expr,
    types: &[Ty],
    i: usize,
) -> Result<(), CheckFault>
    ensures fits { LeavesExpr result (tree_of argument.new) (walk.judge (tree_of argument.old) names.now
        (walk.items_asked (slice_get types.now i) Asked.Value)) }
    ensures kept { bare_expr (tree_of argument.new) ≡ bare_expr (tree_of argument.old) }
{
    let asked = asked_at(alloc, types, i)?;
    walk(alloc, names, &asked, argument)
}
