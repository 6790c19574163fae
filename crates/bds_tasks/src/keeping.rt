//! What is kept beside a list of tasks is put right behind each change.
ghost use Rattle.std.specs.Prelude.{◌≡◌, ◌-◌, ◌<◌, ◌≤◌, List, length, true, false, remove, IfSome, OnOk};
ghost use Rattle.bds_value.specs.declared.TheConstants.{MAX_TASKS};
ghost use Rattle.bds_tasks.specs.declared.task.Task.{Task as AnyTask};
ghost use Rattle.bds_tasks.specs.Kept.{HasPlace, IsBehind, IsSchedule, LacksLast, MayHaveSchedule, lowered, position};
ghost use Rattle.bds_tasks.specs.Kept.{with_key, with_keys};
ghost use Rattle.bds_tasks.specs.Starts.{started};
ghost use Rattle.bds_tasks.specs.Tasks.{is_bad, is_good, passes, task_at, waits};

use crate::schedule::{Schedule, key_of, put_users, unmet_of};
use crate::starts::cpus_at;
use crate::task::Task;
use bds_levels::{Levels, NEVER};
use bds_value::{Listed, NoMemory, Numbers};
use std::alloc::Global;

/// Puts in the last of these tasks, which is new.
fn put_last(
    alloc: Global,
    schedule: &mut Schedule,
    tasks: &[Task],
    task: &Task,
) -> Result<(), NoMemory>
    requires few { length tasks.now ≤ MAX_TASKS }
    requires lacks { LacksLast tasks.now task.now schedule.old }
    ensures { OnOk result (IsSchedule tasks.now schedule.new) }
{
    let needs = task.needs.as_slice();
    let unmet = unmet_of(tasks, needs);
    schedule.unmet.push(unmet)?;
    schedule.needed_by.push(Listed::new(alloc))?;
    put_users(&mut schedule.needed_by, tasks.len() as u32, needs)?;
    schedule.keys.push(alloc, key_of(task, unmet))
}

/// The schedule with the last of these tasks, which is new. It is let go where there is no memory.
pub(crate) fn with_last(
    alloc: Global,
    schedule: Option<Schedule>,
    tasks: &[Task],
    task: &Task,
) -> Option<Schedule>
    requires few { length tasks.now ≤ MAX_TASKS }
    requires lacks { IfSome schedule (λ s. LacksLast tasks.now task.now s) }
    ensures { MayHaveSchedule tasks.now result }
{
    match schedule {
        Some(mut schedule) => match put_last(alloc, &mut schedule, tasks, task) {
            Ok(()) => Some(schedule),
            Err(_) => None,
        },
        None => None,
    }
}

/// The place of a number among others in rising order. The last is asked first, since what was made last
/// mostly starts last.
#[tactic(auto, using(crate::proofs::ReadLaws::position_here, crate::proofs::ReadLaws::position_none))]
fn position(numbers: &[u32], n: u32) -> usize
    ensures { result ≡ position n numbers.now }
{
    for i in (0..numbers.len()).rev() {
        if numbers[i] < n {
            return i + 1;
        }
    }
    0
}

/// The schedule behind the start of a task that asks for so many processors. It is let go where there is
/// no memory.
pub(crate) fn with_started(schedule: Option<Schedule>, n: u32, cpus: u32) -> Option<Schedule>
    requires { HasPlace n schedule }
    ensures { (ts : List AnyTask) → 1 ≤ n → passes (λ t. waits t.state) ts n ≡ true
        → IfSome (task_at ts n) (λ t. t.made.cpus ≡ cpus) → MayHaveSchedule ts schedule
        → MayHaveSchedule (started n ts) result }
{
    match schedule {
        Some(mut schedule) => {
            schedule.keys.put(n as usize - 1, NEVER);
            schedule.busy += cpus as u64;
            let at = position(schedule.running.as_slice(), n);
            match schedule.running.insert(at, n) {
                Ok(()) => Some(schedule),
                Err(_) => None,
            }
        }
        None => None,
    }
}

/// Takes a number out of others in rising order.
fn take_out(numbers: &mut Numbers, n: u32)
    requires { position n numbers.old < length numbers.old }
    ensures { numbers.new ≡ remove numbers.old (position n numbers.old) }
{
    let at = position(numbers.as_slice(), n);
    numbers.remove(at);
}

/// The processors that are asked for without those of task `n`.
fn without(busy: u64, tasks: &[Task], n: u32) -> u64
    ensures { IfSome (task_at tasks.now n) (λ t. result ≡ busy - t.made.cpus) }
{
    busy.saturating_sub(cpus_at(tasks, n) as u64)
}

/// Takes one from the count of each of these.
pub(crate) fn lower(counts: &mut Listed<usize>, numbers: &[u32])
    ensures { counts.new ≡ lowered numbers.now counts.old }
{
    for m in numbers {
        let at = m.saturating_sub(1) as usize;
        if at < counts.len() {
            let less = counts.as_slice()[at].saturating_sub(1);
            counts.set(at, less);
        }
    }
}

/// Puts the key of a task that has no unmet need.
fn put_key(keys: &mut Levels, tasks: &[Task], counts: &[usize], m: u32)
    requires keys { length keys.old ≡ length tasks.now }
    requires counts { length counts.now ≡ length tasks.now }
    ensures { keys.new ≡ with_key tasks.now counts.now m keys.old }
{
    let at = m.saturating_sub(1) as usize;
    if at < tasks.len() && counts[at] == 0 {
        keys.put(at, key_of(&tasks[at], 0));
    }
}

/// Puts the keys of those of these that have no unmet need.
pub(crate) fn put_keys(keys: &mut Levels, tasks: &[Task], counts: &[usize], numbers: &[u32])
    requires keys { length keys.old ≡ length tasks.now }
    requires counts { length counts.now ≡ length tasks.now }
    ensures { keys.new ≡ with_keys tasks.now counts.now numbers.now keys.old }
{
    for m in numbers {
        put_key(keys, tasks, counts, *m);
    }
}

/// The schedule behind a good end of task `n`.
pub(crate) fn end_well(n: u32, tasks: &[Task], schedule: &mut Schedule)
    requires behind { IsBehind n tasks.now schedule.old }
    requires good { passes is_good tasks.now n ≡ true }
    ensures { IsSchedule tasks.now schedule.new }
{
    take_out(&mut schedule.running, n);
    schedule.busy = without(schedule.busy, tasks, n);
    let users = schedule.needed_by.as_slice()[n as usize - 1].as_slice();
    lower(&mut schedule.unmet, users);
    put_keys(&mut schedule.keys, tasks, schedule.unmet.as_slice(), users);
}

/// The schedule behind an end of task `n` that waits for its next attempt.
pub(crate) fn end_again(n: u32, tasks: &[Task], schedule: &mut Schedule)
    requires behind { IsBehind n tasks.now schedule.old }
    requires good { passes is_good tasks.now n ≡ false }
    requires bad { passes is_bad tasks.now n ≡ false }
    ensures { IsSchedule tasks.now schedule.new }
{
    let at = n as usize - 1;
    take_out(&mut schedule.running, n);
    schedule.busy = without(schedule.busy, tasks, n);
    let unmet = schedule.unmet.as_slice()[at];
    schedule.keys.put(at, key_of(&tasks[at], unmet));
}

/// The schedule behind a bad end of task `n`, before others are cancelled.
pub(crate) fn end_badly(n: u32, tasks: &[Task], schedule: &mut Schedule)
    requires behind { IsBehind n tasks.now schedule.old }
    requires bad { passes is_bad tasks.now n ≡ true }
    ensures kept { IsSchedule tasks.now schedule.new }
    ensures lost { schedule.new.some_lost ≡ true }
{
    take_out(&mut schedule.running, n);
    schedule.busy = without(schedule.busy, tasks, n);
    schedule.some_lost = true;
}
