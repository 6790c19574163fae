//! What is kept beside a list of tasks, so that a question to it doesn't go through all of them.
ghost use Rattle.std.specs.Prelude.{◌≡◌, ◌≤◌, ◌+◌, IfOk, OnOk, length, replicate, [], false};
ghost use Rattle.std.specs.List.{list_any};
ghost use Rattle.bds_value.specs.declared.TheConstants.{MAX_TASKS};
ghost use Rattle.bds_tasks.specs.Kept.{AreUsers, IsSchedule, MayHaveSchedule, busy, counts, is_lost_task, key_by, keys};
ghost use Rattle.bds_tasks.specs.Kept.{unmet_of, with_user, with_users};
ghost use Rattle.bds_tasks.specs.Sound.{AreTasks};
ghost use Rattle.bds_tasks.specs.Tasks.{running};

use crate::starts::{cpus_of, ended_well, runs, waits};
use crate::task::Task;
use crate::waits::is_lost;
use bds_levels::{Levels, NEVER};
use bds_value::{Listed, NoMemory, Numbers};
use std::alloc::Global;

/// What is kept beside a list of tasks.
#[derive(Debug, Drop)]
pub(crate) struct Schedule {
    /// Of each task, how many of those that it needs haven't ended well.
    pub(crate) unmet: Listed<usize>,
    /// Of each task, those that need it.
    pub(crate) needed_by: Listed<Numbers>,
    /// Of each task that waits for nothing but processors, how many it takes, and of another `NEVER`.
    pub(crate) keys: Levels,
    /// The tasks that run, in rising order.
    pub(crate) running: Numbers,
    /// The processors that these ask for.
    pub(crate) busy: u64,
    /// Where it isn't set no task ended badly or was cancelled.
    pub(crate) some_lost: bool,
}

/// How many of these haven't ended well.
pub(crate) fn unmet_of(tasks: &[Task], needs: &[u32]) -> usize
    ensures { result ≡ unmet_of tasks.now needs.now }
{
    let mut count = 0;
    for n in needs {
        if !ended_well(tasks, *n) {
            count += 1;
        }
    }
    count
}

/// The processors of a task that waits for nothing but them, where it has so many unmet needs.
pub(crate) fn key_of(task: &Task, unmet: usize) -> u32
    ensures { result ≡ key_by task.now unmet }
{
    if waits(task) && unmet == 0 {
        task.made.cpus
    } else {
        NEVER
    }
}

/// Of each task, how many of those that it needs haven't ended well.
fn counts_of(alloc: Global, tasks: &[Task]) -> Result<Listed<usize>, NoMemory>
    ensures { IfOk result (λ unmet. unmet ≡ counts tasks.now) }
{
    let mut unmet = Listed::new(alloc);
    for task in tasks {
        unmet.push(unmet_of(tasks, task.needs.as_slice()))?;
    }
    Ok(unmet)
}

/// The key of each task.
fn keys_of(alloc: Global, tasks: &[Task]) -> Result<Numbers, NoMemory>
    ensures { IfOk result (λ keys_of. keys_of ≡ keys tasks.now) }
{
    let mut keys = Listed::new(alloc);
    for task in tasks {
        keys.push(key_of(task, unmet_of(tasks, task.needs.as_slice())))?;
    }
    Ok(keys)
}

/// Puts `n` behind those that need task `m`.
fn put_user(users: &mut Listed<Numbers>, n: u32, m: u32) -> Result<(), NoMemory>
    ensures { OnOk result (users.new ≡ with_user n m users.old) }
{
    let at = m.saturating_sub(1) as usize;
    if at < users.len() {
        users.at_mut(at).push(n)?;
    }
    Ok(())
}

/// Puts `n` behind those that need each of these.
pub(crate) fn put_users(users: &mut Listed<Numbers>, n: u32, needs: &[u32]) -> Result<(), NoMemory>
    ensures { OnOk result (users.new ≡ with_users n needs.now users.old) }
{
    for m in needs {
        put_user(users, n, *m)?;
    }
    Ok(())
}

/// So many empty lists.
#[tactic(auto, using(crate::proofs::UserLaws::empty_more))]
fn empty(alloc: Global, count: usize) -> Result<Listed<Numbers>, NoMemory>
    ensures { IfOk result (λ lists. lists ≡ replicate count []) }
{
    let mut lists = Listed::new(alloc);
    for _ in 0..count {
        lists.push(Listed::new(alloc))?;
    }
    Ok(lists)
}

/// Of each task, those that need it.
fn users_of(alloc: Global, tasks: &[Task]) -> Result<Listed<Numbers>, NoMemory>
    requires { AreTasks tasks.now }
    ensures { IfOk result (λ users. AreUsers tasks.now users) }
{
    let mut users = empty(alloc, tasks.len())?;
    for (i, task) in tasks.iter().enumerate() {
        put_users(&mut users, i as u32 + 1, task.needs.as_slice())?;
    }
    Ok(users)
}

/// The tasks that run, in rising order.
pub(crate) fn running_of(alloc: Global, tasks: &[Task]) -> Result<Numbers, NoMemory>
    requires { length tasks.now ≤ MAX_TASKS }
    ensures { IfOk result (λ numbers. numbers ≡ running tasks.now) }
{
    let mut numbers = Listed::new(alloc);
    for (i, task) in tasks.iter().enumerate() {
        if runs(task) {
            numbers.push(i as u32 + 1)?;
        }
    }
    Ok(numbers)
}

/// The processors that the running tasks ask for.
fn busy_of(tasks: &[Task]) -> u64
    requires { length tasks.now ≤ MAX_TASKS }
    ensures { result ≡ busy tasks.now }
{
    let mut sum: u64 = 0;
    for task in tasks {
        if runs(task) {
            sum += cpus_of(task) as u64;
        }
    }
    sum
}

/// One of these is lost.
fn any_lost(tasks: &[Task]) -> bool
    ensures { result ≡ list_any is_lost_task tasks.now }
{
    for task in tasks {
        if is_lost(task) {
            return true;
        }
    }
    false
}

/// What is kept beside these tasks.
#[tactic(auto, using(crate::proofs::KeptLaws::tells_lost))]
fn made(alloc: Global, tasks: &[Task]) -> Result<Schedule, NoMemory>
    requires { AreTasks tasks.now }
    ensures { IfOk result (λ schedule. IsSchedule tasks.now schedule) }
{
    let unmet = counts_of(alloc, tasks)?;
    let needed_by = users_of(alloc, tasks)?;
    let keys = keys_of(alloc, tasks)?;
    let keys = Levels::of(alloc, keys)?;
    let running = running_of(alloc, tasks)?;
    let busy = busy_of(tasks);
    let some_lost = any_lost(tasks);
    Ok(Schedule {
        unmet,
        needed_by,
        keys,
        running,
        busy,
        some_lost,
    })
}

/// What is kept beside these tasks, where there is memory for it.
pub(crate) fn schedule_of(alloc: Global, tasks: &[Task]) -> Option<Schedule>
    requires { AreTasks tasks.now }
    ensures { MayHaveSchedule tasks.now result }
{
    match made(alloc, tasks) {
        Ok(schedule) => Some(schedule),
        Err(_) => None,
    }
}
