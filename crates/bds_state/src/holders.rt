//! Threads that aren't asked whether they are ready, and the tasks that hold them.
ghost use Rattle.std.specs.Prelude.{◌≡◌, ◌≤◌, ◌<◌, ℕ, [], length, slice_get, Some, OnOk};
ghost use Rattle.bds_levels.specs.Least.{NEVER as never};
ghost use Rattle.bds_state.specs.Holding.{AreListed, ArePassed, AreTaken, HasHolder, HoldsNone, IsFreed, IsListed};
ghost use Rattle.bds_state.specs.Holding.{IsNoted};
ghost use Rattle.bds_state.specs.Holding.{KeepsLess, ListsMore};

use bds_levels::{Levels, NEVER};
use bds_value::{Listed, NoMemory, Numbers};
use std::alloc::Global;
use std::marker::Model;
use std::mem;

/// Of each thread, as far as there was memory, the task that holds it: one that goes on and for which it waits.
#[derive(Drop)]
pub struct Holders {
    alloc: Global,
    /// Of each thread the number of that task, `NEVER` where the thread has ended, or 0 where it has to be asked.
    tasks: Levels,
    /// How many these are.
    count: usize,
    /// Of each task, by its number, the threads that it may hold.
    lists: Listed<Numbers>,
    /// Of each thread the place in its wait where the task that holds it was found. A wrong one costs time alone.
    places: Listed<usize>,
}

impl Model for Holders {
    ghost use Rattle.std.specs.Prelude.{◌≡◌, ℕ, List, length};
    ghost use Rattle.std.specs.Coded.{coded_list, coded_ℕ};
    ghost use Rattle.bds_state.specs.Holding.{AreListed};

    ghost Value = { List ℕ };

    ghost coded = { coded_list coded_ℕ };

    ghost view = { λ h. h.tasks };

    ghost invariant = { λ h. (h.count ≡ length h.tasks) × AreListed h.tasks h.lists };
}

/// Room for thread `k`.
#[tactic(auto, using(crate::proofs::HolderLaws::less_more, crate::proofs::HolderLaws::less_on))]
fn lengthen(alloc: Global, tasks: &mut Levels, count: &mut usize, k: u32) -> Result<(), NoMemory>
    requires { count.old ≡ length tasks.old }
    ensures count { OnOk result (count.new ≡ length tasks.new) }
    ensures room { OnOk result (k < length tasks.new) }
    ensures less { OnOk result (KeepsLess tasks.old tasks.new) }
{
    for i in *count..k as usize + 1 {
        tasks.push(alloc, 0)?;
        *count = i + 1;
    }
    Ok(())
}

/// Room for the list of task `n`.
#[tactic(auto, using(crate::proofs::HolderLaws::lists_more, crate::proofs::HolderLaws::more_on))]
fn lengthen_lists(alloc: Global, lists: &mut Listed<Numbers>, n: u32) -> Result<(), NoMemory>
    ensures room { OnOk result (n < length lists.new) }
    ensures more { OnOk result (ListsMore lists.old lists.new) }
{
    for _ in lists.len()..n as usize + 1 {
        lists.push(Listed::new(alloc))?;
    }
    Ok(())
}

/// Puts thread `k` behind the list of task `n`.
#[tactic(auto, using(crate::proofs::HolderLaws::kept_there, crate::proofs::HolderLaws::kept_more))]
fn put_in_list(lists: &mut Listed<Numbers>, k: u32, n: u32) -> Result<(), NoMemory>
    requires { n < length lists.old }
    ensures there { OnOk result (IsListed lists.new k n) }
    ensures more { OnOk result (ListsMore lists.old lists.new) }
{
    lists.at_mut(n as usize).push(k)?;
    Ok(())
}

/// The same, where `n` is a task.
#[tactic(auto, using(crate::proofs::HolderLaws::more_on))]
fn put_in(alloc: Global, lists: &mut Listed<Numbers>, k: u32, n: u32) -> Result<(), NoMemory>
    ensures there { OnOk result (1 ≤ n → n < never → IsListed lists.new k n) }
    ensures more { OnOk result (ListsMore lists.old lists.new) }
{
    if n > 0 && n < NEVER {
        lengthen_lists(alloc, lists, n)?;
        put_in_list(lists, k, n)?;
    }
    Ok(())
}

/// What is kept of thread `k`, or 0.
#[tactic(auto, using(crate::proofs::HolderLaws::one_kept, crate::proofs::HolderLaws::none_kept))]
fn number_in(tasks: &Levels, k: u32) -> u32
    ensures there { 1 ≤ result → HasHolder tasks.now k result }
    ensures alone { (n : ℕ) → HasHolder tasks.now k n → n ≡ result }
{
    match tasks.number(k as usize) {
        Some(n) => n,
        None => 0,
    }
}

/// Keeps the number of thread `k`.
#[tactic(auto, using(crate::proofs::HolderLaws::noted_set, crate::proofs::HolderLaws::listed_set, crate::proofs::HolderLaws::zero_noted))]
fn keep(
    alloc: Global,
    tasks: &mut Levels,
    count: &mut usize,
    lists: &mut Listed<Numbers>,
    k: u32,
    n: u32,
) -> Result<(), NoMemory>
    requires count { count.old ≡ length tasks.old }
    requires listed { AreListed tasks.old lists.old }
    ensures count { OnOk result (count.new ≡ length tasks.new) }
    ensures listed { OnOk result (AreListed tasks.new lists.new) }
    ensures noted { OnOk result (IsNoted k n tasks.old tasks.new) }
{
    if n == 0 && number_in(tasks, k) == 0 {
        return Ok(());
    }
    lengthen(alloc, tasks, count, k)?;
    put_in(alloc, lists, k, n)?;
    tasks.put(k as usize, n);
    Ok(())
}

/// Lets thread `k` go where a task holds it.
#[tactic(auto, using(crate::proofs::HolderLaws::less_set, crate::proofs::HolderLaws::none_set, crate::proofs::HolderLaws::none_other, crate::proofs::HolderLaws::none_past))]
fn let_go(tasks: &mut Levels, k: u32, task: u32)
    ensures none { HasHolder tasks.new k task → ⊥ }
    ensures less { KeepsLess tasks.old tasks.new }
    ensures long { length tasks.new ≡ length tasks.old }
{
    match tasks.number(k as usize) {
        Some(n) => {
            if n == task {
                tasks.put(k as usize, 0);
            }
        }
        None => {}
    }
}

/// Lets those of these threads go that a task holds.
#[tactic(auto, using(crate::proofs::HolderLaws::none_start, crate::proofs::HolderLaws::none_more, crate::proofs::HolderLaws::less_on))]
fn let_all_go(tasks: &mut Levels, threads: &[u32], task: u32)
    ensures none { HoldsNone task threads.now tasks.new }
    ensures less { KeepsLess tasks.old tasks.new }
    ensures long { length tasks.new ≡ length tasks.old }
{
    for i in 0..threads.len() {
        let_go(tasks, threads[i], task);
    }
}

/// Takes out the list of task `n`.
#[tactic(auto, using(crate::proofs::HolderLaws::taken, crate::proofs::HolderLaws::taken_past))]
fn take_list(alloc: Global, lists: &mut Listed<Numbers>, n: u32) -> Numbers
    ensures { AreTaken n lists.old lists.new result }
{
    if (n as usize) < lists.len() {
        mem::replace(lists.at_mut(n as usize), Listed::new(alloc))
    } else {
        Listed::new(alloc)
    }
}

/// Room for the place of thread `k`.
fn lengthen_places(places: &mut Listed<usize>, k: u32) -> Result<(), NoMemory>
    ensures { OnOk result (k < length places.new) }
{
    for _ in places.len()..k as usize + 1 {
        places.push(0)?;
    }
    Ok(())
}

/// Keeps the place of thread `k`.
fn put_place(places: &mut Listed<usize>, k: u32, place: usize) -> Result<(), NoMemory> {
    lengthen_places(places, k)?;
    *places.at_mut(k as usize) = place;
    Ok(())
}

impl Holders {
    /// Of no thread anything is kept.
    pub fn new(alloc: Global) -> Holders
        ensures { result ≡ [] }
    {
        Holders {
            alloc,
            tasks: Levels::new(alloc),
            count: 0,
            lists: Listed::new(alloc),
            places: Listed::new(alloc),
        }
    }

    /// What is kept of thread `k`, or 0.
    pub(crate) fn number(&self, k: u32) -> u32
        ensures { 1 ≤ result → HasHolder self.now k result }
    {
        number_in(&self.tasks, k)
    }

    /// The first thread from one on that has to be asked, be it there or not.
    #[tactic(auto, using(crate::proofs::HolderLaws::passed, crate::proofs::HolderLaws::passed_all, crate::proofs::HolderLaws::passed_none))]
    pub(crate) fn asked(&self, start: usize) -> usize
        ensures { ArePassed start result self.now }
    {
        match self.tasks.place_from(start, 0) {
            Some(k) => k,
            None => {
                if start < self.count {
                    self.count
                } else {
                    start
                }
            }
        }
    }

    /// Keeps this number of thread `k`. Where there is no memory for that, nothing is kept of any thread.
    #[tactic(auto, using(crate::proofs::HolderLaws::none_noted))]
    pub fn note(&mut self, k: u32, n: u32)
        ensures { IsNoted k n self.old self.new }
    {
        match keep(
            self.alloc,
            &mut self.tasks,
            &mut self.count,
            &mut self.lists,
            k,
            n,
        ) {
            Ok(()) => {}
            Err(_) => *self = Holders::new(self.alloc),
        }
    }

    /// The place where the wait of thread `k` was left, or 0.
    pub(crate) fn place(&self, k: u32) -> usize {
        match self.places.as_slice().get(k as usize) {
            Some(place) => *place,
            None => 0,
        }
    }

    /// Leaves the wait of thread `k` at a place, if there is memory for that.
    pub(crate) fn leave_at(&mut self, k: u32, place: usize)
        ensures { self.new ≡ self.old }
    {
        match put_place(&mut self.places, k, place) {
            Ok(()) => {}
            Err(_) => {}
        }
    }

    /// Lets the threads go that a task holds, and gives those that it may have held.
    #[tactic(auto, using(crate::proofs::HolderLaws::freed))]
    pub(crate) fn free(&mut self, task: u32) -> Numbers
        requires { task < never }
        ensures { IsFreed task self.old self.new }
    {
        let threads = take_list(self.alloc, &mut self.lists, task);
        let_all_go(&mut self.tasks, threads.as_slice(), task);
        threads
    }
}
