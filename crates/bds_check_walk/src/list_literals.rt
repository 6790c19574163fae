//! The walk through the items of a list literal, open items behind the one that tells their type.
ghost use Rattle.std.specs.Prelude.{◌≡◌, ◌≤◌, ◌<◌, IfOk, Some, false, true, length, take, drop, is_none};
ghost use Rattle.bds_tree.specs.View.{trees_of};
ghost use Rattle.bds_check_names.specs.declared.names.Asked.TheVariants as Asked;
ghost use Rattle.bds_check_typing.specs.Answers.{Fits, broken_at};
ghost use Rattle.bds_check_rules.specs.Typing as typing;
ghost use Rattle.bds_check_typing.specs.Walk as walk;
ghost use Rattle.bds_check_walk.specs.InPlace.{bare_exprs, LeavesExprs};
ghost use Rattle.bds_check_walk.specs.Lone as lone;

use crate::openness::is_open;
use crate::walking::walk;
use bds_check_names::{Asked, Names, is_known};
use bds_check_rules::{CheckFault, Rule, asked_list_item};
use bds_tree::{Expr, Exprs};
use bds_value::{At, Ty, copy_ty};
use std::alloc::Global;

pub fn unasked(asked: &Asked) -> Asked
    ensures { result ≡ walk.unasked asked.now }
{
    match asked {
        Asked::This(ty) => {
            if is_known(ty) {
                Asked::Value
            } else {
                Asked::This(Ty::Void)
            }
        }
        Asked::Whole => Asked::Value,
        Asked::Value => Asked::Value,
    }
}

/// How many items stand before the first that isn't open.
fn open_items(items: &[Expr]) -> usize
    ensures count { result ≡ walk.open_count (trees_of items.now) }
    ensures within { result ≤ length items.now }
{
    for (i, item) in items.iter().enumerate() {
        if !is_open(item) {
            return i;
        }
    }
    items.len()
}

/// The items of a list literal.
#[cycle(walk)]
#[tactic(auto, using(crate::proofs::WalkRules::walk_rules))]
pub fn walk_list(
    alloc: Global,
    names: &Names,
    asked: &Asked,
    items: &mut Exprs,
) -> Result<(), CheckFault>
    ensures fits { LeavesExprs result (trees_of items.new) (walk.judge_items (trees_of items.old) names.now
        (is_none (typing.asked_list_item asked.now)) (walk.items_asked (typing.asked_list_item asked.now)
        (walk.beside (trees_of items.old) names.now asked.now))) }
    ensures kept { bare_exprs (trees_of items.new) ≡ bare_exprs (trees_of items.old) }
{
    match asked_list_item(alloc, asked)? {
        Some(item) => walk_all(alloc, names, &Asked::This(item), items),
        None => walk_unasked(alloc, names, asked, items),
    }
}

/// Items of which no type is asked: the first that isn't open tells the type of the others.
#[cycle(walk)]
#[tactic(auto, using(crate::proofs::WalkRules::walk_rules))]
fn walk_unasked(
    alloc: Global,
    names: &Names,
    asked: &Asked,
    items: &mut Exprs,
) -> Result<(), CheckFault>
    ensures fits { LeavesExprs result (trees_of items.new) (walk.judge_items (trees_of items.old) names.now true
        (walk.beside (trees_of items.old) names.now asked.now)) }
    ensures kept { bare_exprs (trees_of items.new) ≡ bare_exprs (trees_of items.old) }
{
    let place = open_items(items.as_slice());
    if place == items.len() {
        return walk_all(alloc, names, &unasked(asked), items);
    }
    match walk(alloc, names, &Asked::Value, items.at_mut(place)) {
        Ok(()) => walk_around(alloc, names, items, place),
        Err(CheckFault::Broken { rule, at }) => walk_before(alloc, names, items, place, rule, at),
        Err(CheckFault::NoMemory) => Err(CheckFault::NoMemory),
    }
}

/// The items before and behind one that was walked, with its type asked of them.
#[cycle(walk)]
#[tactic(auto, using(crate::proofs::WalkRules::walk_rules))]
fn walk_around(
    alloc: Global,
    names: &Names,
    items: &mut Exprs,
    place: usize,
) -> Result<(), CheckFault>
    requires { place < length items.old }
    ensures fits { LeavesExprs result (trees_of items.new) (lone.around_lone (take place items.old)
        (drop place items.old) names.now (lone.asked_of_lone (drop place items.old))) }
    ensures kept { bare_exprs (trees_of items.new) ≡ bare_exprs (trees_of items.old) }
{
    let asked = Asked::This(copy_ty(alloc, &items.as_slice()[place].ty)?);
    walk_others(alloc, names, &asked, items, place)
}

/// The items before and behind one that was walked.
#[cycle(walk)]
#[tactic(auto, using(crate::proofs::WalkRules::walk_rules))]
fn walk_others(
    alloc: Global,
    names: &Names,
    asked: &Asked,
    items: &mut Exprs,
    place: usize,
) -> Result<(), CheckFault>
    requires { place < length items.old }
    ensures fits { LeavesExprs result (trees_of items.new) (lone.around_lone (take place items.old)
        (drop place items.old) names.now asked.now) }
    ensures kept { bare_exprs (trees_of items.new) ≡ bare_exprs (trees_of items.old) }
{
    walk_items(alloc, names, asked, items, 0, place)?;
    let count = items.len();
    walk_items(alloc, names, asked, items, place + 1, count)
}

/// The items before one that breaks a rule, so that it tells no type; the first broken node is theirs or its own.
#[cycle(walk)]
#[tactic(auto, using(crate::proofs::WalkRules::walk_rules))]
fn walk_before(
    alloc: Global,
    names: &Names,
    items: &mut Exprs,
    place: usize,
    rule: Rule,
    at: At,
) -> Result<(), CheckFault>
    requires { place < length items.old }
    ensures fits { Fits result (walk.first (walk.judge_items (trees_of (take place items.old)) names.now false
        Asked.Value).broken (Some (broken_at rule at))) (λ _. ⊥) }
    ensures kept { bare_exprs (trees_of items.new) ≡ bare_exprs (trees_of items.old) }
{
    walk_items(alloc, names, &Asked::Value, items, 0, place)?;
    Err(CheckFault::Broken { rule, at })
}

/// All items, with the same asked of each.
#[cycle(walk)]
#[tactic(auto, using(crate::proofs::WalkRules::walk_rules))]
pub fn walk_all(
    alloc: Global,
    names: &Names,
    asked: &Asked,
    items: &mut Exprs,
) -> Result<(), CheckFault>
    ensures fits { LeavesExprs result (trees_of items.new) (walk.judge_items (trees_of items.old) names.now false
        asked.now) }
    ensures kept { bare_exprs (trees_of items.new) ≡ bare_exprs (trees_of items.old) }
{
    let count = items.len();
    walk_items(alloc, names, asked, items, 0, count)
}

/// The items from a place up to another, with the same asked of each.
#[cycle(walk)]
#[tactic(auto, using(crate::proofs::WalkRules::walk_rules))]
fn walk_items(
    alloc: Global,
    names: &Names,
    asked: &Asked,
    items: &mut Exprs,
    from: usize,
    to: usize,
) -> Result<(), CheckFault>
    requires order { from ≤ to }
    requires within { to ≤ length items.old }
    ensures fits { LeavesExprs result (trees_of (lone.between from to items.new))
        (walk.judge_items (trees_of (lone.between from to items.old)) names.now false asked.now) }
    ensures before { IfOk result (λ _. take from items.new ≡ take from items.old) }
    ensures behind { IfOk result (λ _. drop to items.new ≡ drop to items.old) }
    ensures long { IfOk result (λ _. length items.new ≡ length items.old) }
    ensures kept { bare_exprs (trees_of items.new) ≡ bare_exprs (trees_of items.old) }
{
    for i in from..to {
        walk(alloc, names, asked, items.at_mut(i))?;
    }
    Ok(())
}
