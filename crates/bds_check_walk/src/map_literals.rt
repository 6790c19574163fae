//! The walk through the pairs of a map literal, open values behind the one that tells their type.
ghost use Rattle.std.specs.Prelude.{◌≡◌, ◌≤◌, ◌<◌, IfOk, Some, false, true, length, take, drop, is_none};
ghost use Rattle.bds_tree.specs.View.{tree_of, pairs_of};
ghost use Rattle.bds_check_names.specs.declared.names.Asked.TheVariants as Asked;
ghost use Rattle.bds_check_typing.specs.Answers.{Fits, broken_at};
ghost use Rattle.bds_check_rules.specs.Typing as typing;
ghost use Rattle.bds_check_typing.specs.Walk as walk;
ghost use Rattle.bds_check_walk.specs.InPlace.{bare_expr, bare_pairs, LeavesExpr, LeavesPairs};
ghost use Rattle.bds_check_walk.specs.Lone as lone;

use crate::list_literals::unasked;
use crate::openness::is_open;
use crate::walking::walk;
use bds_check_names::{Asked, Names};
use bds_check_rules::{CheckFault, Rule, asked_map_item};
use bds_tree::{Expr, ExprPairs};
use bds_value::{At, copy_ty};
use std::alloc::Global;

/// How many pairs stand before the first whose value isn't open.
fn open_pairs(pairs: &[(Expr, Expr)]) -> usize
    ensures count { result ≡ walk.open_value_count (pairs_of pairs.now) }
    ensures within { result ≤ length pairs.now }
{
    for (i, pair) in pairs.iter().enumerate() {
        if !is_open(&pair.1) {
            return i;
        }
    }
    pairs.len()
}

/// The pairs of a map literal.
#[cycle(walk)]
#[tactic(auto, using(crate::proofs::WalkRules::walk_rules))]
pub fn walk_map(
    alloc: Global,
    names: &Names,
    asked: &Asked,
    pairs: &mut ExprPairs,
) -> Result<(), CheckFault>
    ensures fits { LeavesPairs result (pairs_of pairs.new) (walk.judge_values (pairs_of pairs.old) names.now
        (is_none (typing.asked_map_item asked.now)) (walk.items_asked (typing.asked_map_item asked.now)
        (walk.value_beside (pairs_of pairs.old) names.now asked.now))) }
    ensures kept { bare_pairs (pairs_of pairs.new) ≡ bare_pairs (pairs_of pairs.old) }
{
    match asked_map_item(alloc, asked)? {
        Some(item) => walk_all_pairs(alloc, names, &Asked::This(item), pairs),
        None => walk_unasked_pairs(alloc, names, asked, pairs),
    }
}

/// Pairs of which no type is asked: the first value that isn't open tells the type of the others.
#[cycle(walk)]
#[tactic(auto, using(crate::proofs::WalkRules::walk_rules))]
fn walk_unasked_pairs(
    alloc: Global,
    names: &Names,
    asked: &Asked,
    pairs: &mut ExprPairs,
) -> Result<(), CheckFault>
    ensures fits { LeavesPairs result (pairs_of pairs.new) (walk.judge_values (pairs_of pairs.old) names.now true
        (walk.value_beside (pairs_of pairs.old) names.now asked.now)) }
    ensures kept { bare_pairs (pairs_of pairs.new) ≡ bare_pairs (pairs_of pairs.old) }
{
    let place = open_pairs(pairs.as_slice());
    if place == pairs.len() {
        return walk_all_pairs(alloc, names, &unasked(asked), pairs);
    }
    match walk_second(alloc, names, &Asked::Value, pairs.at_mut(place)) {
        Ok(()) => walk_pairs_around(alloc, names, pairs, place),
        Err(CheckFault::Broken { rule, at }) => {
            walk_pairs_before(alloc, names, pairs, place, rule, at)
        }
        Err(CheckFault::NoMemory) => Err(CheckFault::NoMemory),
    }
}

/// The pairs around one whose value was walked, with its type asked of theirs.
#[cycle(walk)]
#[tactic(auto, using(crate::proofs::WalkRules::walk_rules))]
fn walk_pairs_around(
    alloc: Global,
    names: &Names,
    pairs: &mut ExprPairs,
    place: usize,
) -> Result<(), CheckFault>
    requires { place < length pairs.old }
    ensures fits { LeavesPairs result (pairs_of pairs.new) (lone.around_lone_pair (take place pairs.old)
        (drop place pairs.old) names.now (lone.asked_of_lone_pair (drop place pairs.old))) }
    ensures kept { bare_pairs (pairs_of pairs.new) ≡ bare_pairs (pairs_of pairs.old) }
{
    let asked = Asked::This(copy_ty(alloc, &pairs.as_slice()[place].1.ty)?);
    walk_other_pairs(alloc, names, &asked, pairs, place)
}

/// The pairs around one whose value was walked, and its key.
#[cycle(walk)]
#[tactic(auto, using(crate::proofs::WalkRules::walk_rules))]
fn walk_other_pairs(
    alloc: Global,
    names: &Names,
    asked: &Asked,
    pairs: &mut ExprPairs,
    place: usize,
) -> Result<(), CheckFault>
    requires { place < length pairs.old }
    ensures fits { LeavesPairs result (pairs_of pairs.new) (lone.around_lone_pair (take place pairs.old)
        (drop place pairs.old) names.now asked.now) }
    ensures kept { bare_pairs (pairs_of pairs.new) ≡ bare_pairs (pairs_of pairs.old) }
{
    walk_pairs(alloc, names, asked, pairs, 0, place)?;
    walk_first(alloc, names, pairs.at_mut(place))?;
    let count = pairs.len();
    walk_pairs(alloc, names, asked, pairs, place + 1, count)
}

/// The pairs and the key before a value that breaks a rule, so that it tells no type.
#[cycle(walk)]
#[tactic(auto, using(crate::proofs::WalkRules::walk_rules))]
fn walk_pairs_before(
    alloc: Global,
    names: &Names,
    pairs: &mut ExprPairs,
    place: usize,
    rule: Rule,
    at: At,
) -> Result<(), CheckFault>
    requires { place < length pairs.old }
    ensures fits { Fits result (walk.first (walk.judge_values (pairs_of (take place pairs.old)) names.now false
        Asked.Value).broken (walk.first (walk.key_broken (pairs_of (drop place pairs.old)) names.now)
        (Some (broken_at rule at)))) (λ _. ⊥) }
    ensures kept { bare_pairs (pairs_of pairs.new) ≡ bare_pairs (pairs_of pairs.old) }
{
    walk_pairs(alloc, names, &Asked::Value, pairs, 0, place)?;
    walk_first(alloc, names, pairs.at_mut(place))?;
    Err(CheckFault::Broken { rule, at })
}

/// All pairs, with the same asked of each value.
#[cycle(walk)]
#[tactic(auto, using(crate::proofs::WalkRules::walk_rules))]
fn walk_all_pairs(
    alloc: Global,
    names: &Names,
    asked: &Asked,
    pairs: &mut ExprPairs,
) -> Result<(), CheckFault>
    ensures fits { LeavesPairs result (pairs_of pairs.new) (walk.judge_values (pairs_of pairs.old) names.now false
        asked.now) }
    ensures kept { bare_pairs (pairs_of pairs.new) ≡ bare_pairs (pairs_of pairs.old) }
{
    let count = pairs.len();
    walk_pairs(alloc, names, asked, pairs, 0, count)
}

/// The pairs from a place up to another, with the same asked of each value.
#[cycle(walk)]
#[tactic(auto, using(crate::proofs::WalkRules::walk_rules))]
fn walk_pairs(
    alloc: Global,
    names: &Names,
    asked: &Asked,
    pairs: &mut ExprPairs,
    from: usize,
    to: usize,
) -> Result<(), CheckFault>
    requires order { from ≤ to }
    requires within { to ≤ length pairs.old }
    ensures fits { LeavesPairs result (pairs_of (lone.between from to pairs.new))
        (walk.judge_values (pairs_of (lone.between from to pairs.old)) names.now false asked.now) }
    ensures before { IfOk result (λ _. take from pairs.new ≡ take from pairs.old) }
    ensures behind { IfOk result (λ _. drop to pairs.new ≡ drop to pairs.old) }
    ensures long { IfOk result (λ _. length pairs.new ≡ length pairs.old) }
    ensures kept { bare_pairs (pairs_of pairs.new) ≡ bare_pairs (pairs_of pairs.old) }
{
    for i in from..to {
        walk_pair(alloc, names, asked, pairs.at_mut(i))?;
    }
    Ok(())
}

/// A key, and its value behind it.
#[cycle(walk)]
#[tactic(auto, using(crate::proofs::WalkRules::walk_rules))]
fn walk_pair(
    alloc: Global,
    names: &Names,
    asked: &Asked,
    pair: &mut (Expr, Expr),
) -> Result<(), CheckFault>
    ensures fits { Fits result (walk.first (walk.judge (tree_of pair.old.0) names.now Asked.Value).broken
        (walk.judge (tree_of pair.old.1) names.now asked.now).broken)
        (λ _. (tree_of pair.new.0 ≡ (walk.judge (tree_of pair.old.0) names.now Asked.Value).tree)
        × (tree_of pair.new.1 ≡ (walk.judge (tree_of pair.old.1) names.now asked.now).tree)) }
    ensures kept { (bare_expr (tree_of pair.new.0) ≡ bare_expr (tree_of pair.old.0))
        × (bare_expr (tree_of pair.new.1) ≡ bare_expr (tree_of pair.old.1)) }
{
    walk_first(alloc, names, pair)?;
    walk_second(alloc, names, asked, pair)
}

/// The key of a pair.
#[cycle(walk)]
#[tactic(auto, using(crate::proofs::WalkRules::walk_rules))]
fn walk_first(alloc: Global, names: &Names, pair: &mut (Expr, Expr)) -> Result<(), CheckFault>
    ensures fits { LeavesExpr result (tree_of pair.new.0) (walk.judge (tree_of pair.old.0) names.now Asked.Value) }
    ensures kept { bare_expr (tree_of pair.new.0) ≡ bare_expr (tree_of pair.old.0) }
    ensures same { pair.new.1 ≡ pair.old.1 }
{
    walk(alloc, names, &Asked::Value, &mut pair.0)
}

/// The value of a pair.
#[cycle(walk)]
#[tactic(auto, using(crate::proofs::WalkRules::walk_rules))]
fn walk_second(
    alloc: Global,
    names: &Names,
    asked: &Asked,
    pair: &mut (Expr, Expr),
) -> Result<(), CheckFault>
    ensures fits { LeavesExpr result (tree_of pair.new.1) (walk.judge (tree_of pair.old.1) names.now asked.now) }
    ensures kept { bare_expr (tree_of pair.new.1) ≡ bare_expr (tree_of pair.old.1) }
    ensures same { pair.new.0 ≡ pair.old.0 }
{
    walk(alloc, names, asked, &mut pair.1)
}
