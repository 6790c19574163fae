//! Which task starts next.
ghost use Rattle.std.specs.Prelude.{◌≡◌, ◌≤◌, ◌<◌, ◌*◌, suc, length, option_map, IfSome};
ghost use Rattle.std.specs.List.{list_all};
ghost use Rattle.bds_value.specs.declared.TheConstants.{MAX_TASKS, MAX_COUNT};
ghost use Rattle.bds_tasks.specs.Tasks.{is_pending, waits, runs, is_good, is_bad, passes, task_at};
ghost use Rattle.bds_tasks.specs.Kept.{IsSchedule, MayHaveSchedule, most_for, used_of};
ghost use Rattle.bds_tasks.specs.Sound.{AreTasks};
ghost use Rattle.bds_tasks.specs.Starts.{taken, in_use, may_start, startable};

use crate::schedule::Schedule;
use crate::task::{Task, TaskState};
use bds_value::MAX_CPUS;

/// It waits or runs.
pub(crate) fn is_pending(task: &Task) -> bool
    ensures { result ≡ is_pending task.now }
{
    match task.state {
        TaskState::Waits => true,
        TaskState::Runs => true,
        TaskState::Ended(_) => false,
        TaskState::Cancelled(_) => false,
    }
}

/// It waits.
pub(crate) fn waits(task: &Task) -> bool
    ensures { result ≡ waits (task.now).state }
{
    match task.state {
        TaskState::Waits => true,
        TaskState::Runs => false,
        TaskState::Ended(_) => false,
        TaskState::Cancelled(_) => false,
    }
}

/// It runs.
pub(crate) fn runs(task: &Task) -> bool
    ensures { result ≡ runs (task.now).state }
{
    match task.state {
        TaskState::Runs => true,
        TaskState::Waits => false,
        TaskState::Ended(_) => false,
        TaskState::Cancelled(_) => false,
    }
}

/// Its command ended with 0, or the task may fail.
pub(crate) fn is_good(task: &Task) -> bool
    ensures { result ≡ is_good task.now }
{
    match task.state {
        TaskState::Ended(code) => task.made.can_fail || code == 0,
        TaskState::Waits => false,
        TaskState::Runs => false,
        TaskState::Cancelled(_) => false,
    }
}

/// Its command ended with another code, and the task may not fail.
pub(crate) fn is_bad(task: &Task) -> bool
    ensures { result ≡ is_bad task.now }
{
    match task.state {
        TaskState::Ended(code) => !(task.made.can_fail || code == 0),
        TaskState::Waits => false,
        TaskState::Runs => false,
        TaskState::Cancelled(_) => false,
    }
}

/// The task of a number is there and ended well.
pub(crate) fn ended_well(tasks: &[Task], n: u32) -> bool
    ensures { result ≡ passes is_good tasks.now n }
{
    match tasks.get(n.saturating_sub(1) as usize) {
        Some(task) => is_good(task),
        None => false,
    }
}

/// All of these ended well.
fn all_ended_well(tasks: &[Task], needs: &[u32]) -> bool
    ensures { result ≡ list_all (passes is_good tasks.now) needs.now }
{
    for n in needs {
        if !ended_well(tasks, *n) {
            return false;
        }
    }
    true
}

/// The processors that a task asks for.
pub(crate) fn cpus_of(task: &Task) -> u32
    ensures { result ≡ task.now.made.cpus }
{
    task.made.cpus
}

/// The processors that task `n` asks for, where it is there.
pub(crate) fn cpus_at(tasks: &[Task], n: u32) -> u32
    ensures { IfSome (task_at tasks.now n) (λ t. t.made.cpus ≡ result) }
{
    match tasks.get(n.saturating_sub(1) as usize) {
        Some(task) => cpus_of(task),
        None => 0,
    }
}

/// The processors that a task takes of so many.
fn taken(cpus: u32, task: &Task) -> u32
    ensures { result ≡ taken cpus task.now }
{
    task.made.cpus.min(cpus)
}

/// The processors that the running tasks take.
fn in_use(cpus: u32, tasks: &[Task]) -> u64
    requires { length tasks.now ≤ MAX_TASKS }
    ensures value { result ≡ in_use cpus tasks.now }
    ensures most { result ≤ MAX_COUNT * MAX_TASKS }
{
    let mut sum: u64 = 0;
    for task in tasks {
        if runs(task) {
            sum += taken(cpus, task) as u64;
        }
    }
    sum
}

/// It waits, those that it needs ended well, and there are processors for it beside those in use.
fn may_start(cpus: u32, used: u64, tasks: &[Task], task: &Task) -> bool
    requires most { used ≤ MAX_COUNT * MAX_TASKS }
    requires value { used ≡ in_use cpus tasks.now }
    ensures { result ≡ may_start cpus tasks.now task.now }
{
    waits(task)
        && all_ended_well(tasks, task.needs.as_slice())
        && taken(cpus, task) as u64 + used <= cpus as u64
}

/// What is in use of so many processors, where running tasks ask for so many. One that asks for more
/// than there are takes them all.
fn used_of(cpus: u32, busy: u64) -> u64
    ensures { result ≡ used_of cpus busy }
{
    if cpus == 0 { 0 } else { busy }
}

/// The most that a task may ask for where so many processors are in use.
fn most_for(cpus: u32, used: u64) -> u32
    ensures { result ≡ most_for cpus used }
{
    if used == 0 {
        MAX_CPUS
    } else {
        (cpus as u64).saturating_sub(used) as u32
    }
}

/// The number of the task at a place.
fn number_at(place: Option<usize>) -> Option<u32>
    requires { IfSome place (λ i. i < MAX_TASKS) }
    ensures { result ≡ option_map suc place }
{
    match place {
        Some(i) => Some(i as u32 + 1),
        None => None,
    }
}

/// The least task that may start, by the schedule.
fn startable_by_keys(cpus: u32, tasks: &[Task], schedule: &Schedule) -> Option<u32>
    requires are { AreTasks tasks.now }
    requires kept { IsSchedule tasks.now schedule.now }
    ensures { result ≡ startable cpus tasks.now }
{
    let used = used_of(cpus, schedule.busy);
    number_at(schedule.keys.place(most_for(cpus, used)))
}

/// The least task that may start, by a search.
fn startable_by_search(cpus: u32, tasks: &[Task]) -> Option<u32>
    requires { length tasks.now ≤ MAX_TASKS }
    ensures { result ≡ startable cpus tasks.now }
{
    let used = in_use(cpus, tasks);
    for (i, task) in tasks.iter().enumerate() {
        if may_start(cpus, used, tasks, task) {
            return Some(i as u32 + 1);
        }
    }
    None
}

/// The least task that may start.
pub(crate) fn startable(cpus: u32, tasks: &[Task], schedule: &Option<Schedule>) -> Option<u32>
    requires are { AreTasks tasks.now }
    requires kept { MayHaveSchedule tasks.now schedule.now }
    ensures { result ≡ startable cpus tasks.now }
{
    match schedule {
        Some(schedule) => startable_by_keys(cpus, tasks, schedule),
        None => startable_by_search(cpus, tasks),
    }
}
