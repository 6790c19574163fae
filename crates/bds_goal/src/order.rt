//! Numbers are placed, the next always the least that leads to none that is left.
ghost use Rattle.std.specs.Prelude.{◌≡◌, ℕ, ◌≤◌, IfOk, OnOk, length, false, true, MatchOption};
ghost use Rattle.std.specs.List.{list_any, slice_set};
ghost use Rattle.bds_value.specs.declared.TheConstants.{MAX_COUNT};
ghost use Rattle.bds_goal.specs.Chains.{is_in};
ghost use Rattle.bds_goal.specs.Counts.{goes, lowered};
ghost use Rattle.bds_goal.specs.Marks.{edges_of, is_marked, may_go, freed_with, cut, first_marked, IsCycleIn};
ghost use Rattle.bds_goal.specs.Marks.{IsReversed, Marked};
ghost use Rattle.bds_goal.specs.Placing.{AreFreed, IsNext, IsStuck, Orders, Takes};

use crate::counts::{counts_of, goes, lower};
use crate::faults::FilesFault;
use crate::marks::{blank, edges_of, is_marked, may_go};
use bds_value::{Listed, NoMemory, Numbers};
use std::alloc::Global;
use std::collections::BTreeSet;

/// The least number from a start on that may go.
fn next(edges: &[Numbers], left: &[bool], start: usize) -> Option<u32>
    requires few { length left.now ≤ MAX_COUNT }
    ensures { IsNext edges.now left.now start result }
{
    for i in start..left.len() {
        if may_go(edges, left, i as u32) {
            return Some(i as u32);
        }
    }
    None
}

/// Takes the least number that may go: of those below a start, which were set free, or else from
/// there on.
fn take(edges: &[Numbers], left: &[bool], freed: &mut BTreeSet<u32>, start: usize) -> Option<u32>
    requires few { length left.now ≤ MAX_COUNT }
    requires freed { AreFreed edges.now left.now start freed.old.keys }
    ensures { Takes edges.now left.now freed.old.keys freed.new.keys result }
{
    match freed.pop_first() {
        Some(n) => Some(n),
        None => next(edges, left, start),
    }
}

/// Puts in those of these, below a start, that may go by their counts.
fn free(
    left: &[bool],
    counts: &[usize],
    freed: &mut BTreeSet<u32>,
    users: &[u32],
    start: usize,
) -> Result<(), NoMemory>
    ensures { OnOk result (freed.new.keys ≡ freed_with (goes left.now counts.now) start users.now freed.old.keys) }
{
    for u in users {
        if (*u as usize) < start && goes(left, counts, *u) {
            freed.insert(*u)?;
        }
    }
    Ok(())
}

/// Takes a number from those that are left, lowers the counts of those that lead to it, and puts in
/// those that it sets free below a start.
fn place(
    users: &[u32],
    left: &mut Vec<bool>,
    counts: &mut Vec<usize>,
    freed: &mut BTreeSet<u32>,
    n: u32,
    start: usize,
) -> Result<(), NoMemory>
    requires { Marked left.old.items n }
    ensures left { OnOk result (left.new.items ≡ slice_set left.old.items n false) }
    ensures counts { OnOk result (counts.new.items ≡ lowered users.now counts.old.items) }
    ensures freed { OnOk result (freed.new.keys ≡ freed_with (goes left.new.items counts.new.items) start users.now
        freed.old.keys) }
{
    left[n as usize] = false;
    lower(counts, users);
    free(left, counts, freed, users, start)
}

/// Places numbers until none of those that are left may go.
fn place_all(
    alloc: Global,
    edges: &[Numbers],
    users: &[Numbers],
    left: &mut Vec<bool>,
) -> Result<Numbers, NoMemory>
    requires same { length left.old.items ≡ length edges.now }
    requires few { length edges.now ≤ MAX_COUNT }
    requires back { IsReversed edges.now users.now }
    ensures { IfOk result (λ placed. IsStuck edges.now left.old.items left.new.items placed) }
{
    let mut counts = counts_of(alloc, edges, left)?;
    let mut placed = Listed::new(alloc);
    let mut freed = BTreeSet::new(alloc);
    let mut start = 0;
    while let Some(n) = take(edges, left, &mut freed, start) {
        start = start.max(n as usize + 1);
        let users = edges_of(users, n);
        place(users, left, &mut counts, &mut freed, n, start)?;
        placed.push(n)?;
    }
    Ok(placed)
}

/// The first that is marked.
fn first_left(left: &[bool]) -> Option<u32>
    requires few { length left.now ≤ MAX_COUNT }
    ensures { MatchOption result ((n : ℕ) → is_marked left.now n ≡ false) (λ n. Marked left.now n) }
{
    for i in 0..left.len() {
        if left[i] {
            return Some(i as u32);
        }
    }
    None
}

/// The first of these that is marked.
fn first_marked(marks: &[bool], numbers: &[u32]) -> u32
    requires { list_any (is_marked marks.now) numbers.now ≡ true }
    ensures { result ≡ first_marked marks.now numbers.now }
{
    for n in numbers {
        if is_marked(marks, *n) {
            return *n;
        }
    }
    unreachable!()
}

/// The numbers from the first that is `n` on.
fn cut(alloc: Global, n: u32, numbers: &[u32]) -> Result<Numbers, NoMemory>
    ensures { IfOk result (λ rest. rest ≡ cut n numbers.now) }
{
    let mut rest = Listed::new(alloc);
    let mut found = false;
    for m in numbers {
        found = found || n == *m;
        if found {
            rest.push(*m)?;
        }
    }
    Ok(rest)
}

/// Walks among those that are left, from one to the next that it leads to, until it comes back.
fn walk(alloc: Global, edges: &[Numbers], left: &[bool], n: u32) -> Result<Numbers, NoMemory>
    requires there { Marked left.now n }
    requires stuck { (m : ℕ) → may_go edges.now left.now m ≡ false }
    ensures { IfOk result (λ chain. IsCycleIn edges.now left.now chain) }
{
    let mut seen = blank(alloc, left.len())?;
    let mut path = Listed::new(alloc);
    let mut here = n;
    while !is_marked(&seen, here) {
        seen[here as usize] = true;
        path.push(here)?;
        here = first_marked(left, edges_of(edges, here));
    }
    cut(alloc, here, path.as_slice())
}

/// Places the numbers that are marked, each behind those that it leads to; or tells of a cycle.
pub(crate) fn order(
    alloc: Global,
    edges: &[Numbers],
    users: &[Numbers],
    todo: Vec<bool>,
) -> Result<Numbers, FilesFault>
    requires same { length todo.items ≡ length edges.now }
    requires few { length edges.now ≤ MAX_COUNT }
    requires back { IsReversed edges.now users.now }
    ensures { Orders edges.now todo.items result }
{
    let mut left = todo;
    let placed = place_all(alloc, edges, users, &mut left)?;
    match first_left(&left) {
        None => Ok(placed),
        Some(n) => Err(FilesFault::Cycle(walk(alloc, edges, &left, n)?)),
    }
}
