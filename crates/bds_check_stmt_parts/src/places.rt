//! The walk through places and steps.
ghost use Rattle.std.specs.Prelude.{◌≡◌, None, map};
ghost use Rattle.bds_tree.specs.StmtView.{suffix_of, place_of, step_of};
ghost use Rattle.bds_check_typing.specs.StmtParts as walk;
ghost use Rattle.bds_check_stmt_parts.specs.InPlace.{bare_suffix, bare_place, bare_step, LeavesSuffix, LeavesSuffixes};
ghost use Rattle.bds_check_stmt_parts.specs.InPlace.{LeavesPlace, LeavesStep};

use bds_check_names::{Asked, Names};
use bds_check_rules::{CheckFault, place_rule};
use bds_check_walk::walk;
use bds_tree::{Place, Step, Suffix, Suffixes};
use std::alloc::Global;

fn walk_suffix(alloc: Global, names: &Names, suffix: &mut Suffix) -> Result<(), CheckFault>
    ensures fits { LeavesSuffix result (suffix_of suffix.new) (walk.judge_suffix (suffix_of suffix.old) names.now) }
    ensures kept { bare_suffix (suffix_of suffix.new) ≡ bare_suffix (suffix_of suffix.old) }
{
    match suffix {
        Suffix::Item(index) => walk(alloc, names, &Asked::Value, index),
        Suffix::Key(key) => walk(alloc, names, &Asked::Value, key),
    }
}

fn walk_suffixes(alloc: Global, names: &Names, suffixes: &mut Suffixes) -> Result<(), CheckFault>
    ensures fits { LeavesSuffixes result (map suffix_of suffixes.new)
        (walk.judge_suffixes (map suffix_of suffixes.old) names.now) }
    ensures kept { map bare_suffix (map suffix_of suffixes.new) ≡ map bare_suffix (map suffix_of suffixes.old) }
{
    for i in 0..suffixes.len() {
        walk_suffix(alloc, names, suffixes.at_mut(i))?;
    }
    Ok(())
}

/// A place, whose indexes and keys get their types.
pub fn walk_place(alloc: Global, names: &Names, place: &mut Place) -> Result<(), CheckFault>
    ensures fits { LeavesPlace result (place_of place.new) (walk.judge_place (place_of place.old) names.now) }
    ensures kept { bare_place (place_of place.new) ≡ bare_place (place_of place.old) }
{
    walk_suffixes(alloc, names, &mut place.suffixes)?;
    close_place(alloc, names, place)
}

/// A place behind its indexes and keys.
fn close_place(alloc: Global, names: &Names, place: &Place) -> Result<(), CheckFault>
    ensures { LeavesPlace result (place_of place.now) (walk.close_place place.now.at place.now.name names.now
        (record { suffixes = map suffix_of place.now.suffixes; broken = None })) }
{
    match place_rule(alloc, names, &place.name, place.suffixes.as_slice())? {
        Some(rule) => Err(CheckFault::Broken { rule, at: place.at }),
        None => Ok(()),
    }
}

/// A step of a place by one, whose indexes and keys get their types.
pub fn walk_step(alloc: Global, names: &Names, step: &mut Step) -> Result<(), CheckFault>
    ensures fits { LeavesStep result (step_of step.new) (walk.judge_step (step_of step.old) names.now) }
    ensures kept { bare_step (step_of step.new) ≡ bare_step (step_of step.old) }
{
    match step {
        Step::After(place, _) => walk_place(alloc, names, place),
        Step::Before(_, place) => walk_place(alloc, names, place),
    }
}
