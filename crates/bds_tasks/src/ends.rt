//! What the end of a command does to the tasks.
ghost use Rattle.std.specs.Prelude.{◌≡◌, ◌≤◌, ◌<◌, [], length, map, slice_set, true, Some, option_map};
ghost use Rattle.std.specs.List.{list_any};
ghost use Rattle.bds_levels.specs.Least.{NEVER as never};
ghost use Rattle.bds_tasks.specs.Tasks.{is_bad, passes, revived_task, runs, task_at};
ghost use Rattle.bds_tasks.specs.Ends.{is_by, is_lost, is_hit, cancelled_behind, ended_task, end_of, ended, judged};
ghost use Rattle.bds_tasks.specs.Kept.{all_cancelled, all_marked, cancelled_one, list_at, marked_one, AreUsers};
ghost use Rattle.bds_tasks.specs.Kept.{HasEnded, IsBehind, IsSchedule, MayHaveSchedule};
ghost use Rattle.bds_tasks.specs.Kept.{keys as keys_of};
ghost use Rattle.bds_tasks.specs.Sound.{AreTasks};

use crate::keeping::{end_again, end_badly, end_well};
use crate::schedule::Schedule;
use crate::starts::{is_bad, is_good, waits};
use crate::task::{Task, TaskEnd, TaskState};
use bds_levels::{Levels, NEVER};
use bds_value::Numbers;

/// Task `n` cancelled it.
fn is_by(n: u32, task: &Task) -> bool
    ensures { result ≡ is_by n task.now.state }
{
    match task.state {
        TaskState::Cancelled(m) => n == m,
        TaskState::Waits => false,
        TaskState::Runs => false,
        TaskState::Ended(_) => false,
    }
}

/// It is task `n`, or one that task `n` cancelled.
fn is_lost(n: u32, tasks: &[Task], m: u32) -> bool
    ensures { result ≡ is_lost n tasks.now m }
{
    if m == n {
        return true;
    }
    match tasks.get(m.saturating_sub(1) as usize) {
        Some(task) => is_by(n, task),
        None => false,
    }
}

/// One of these is task `n`, or one that task `n` cancelled.
fn any_lost(n: u32, tasks: &[Task], needs: &[u32]) -> bool
    ensures { result ≡ list_any (is_lost n tasks.now) needs.now }
{
    for m in needs {
        if is_lost(n, tasks, *m) {
            return true;
        }
    }
    false
}

/// The task waits, and needs task `n`, or one of those before it that task `n` cancelled.
fn is_hit(n: u32, before: &[Task], task: &Task) -> bool
    ensures { result ≡ is_hit n before.now task.now }
{
    waits(task) && any_lost(n, before, task.needs.as_slice())
}

/// Cancels the tasks that need task `n`, and those that need one of them.
fn cancel(n: u32, tasks: &mut Vec<Task>)
    ensures { tasks.new.items ≡ cancelled_behind n [] tasks.old.items }
{
    for i in 0..tasks.len() {
        if is_hit(n, &tasks[..i], &tasks[i]) {
            tasks[i].state = TaskState::Cancelled(n);
        }
    }
}

/// Ends the command of a task, which may then wait for its next attempt.
fn end_task(task: &mut Task, code: u8) -> TaskEnd
    ensures task { task.new ≡ ended_task code task.old }
    ensures end { result ≡ end_of code task.old }
{
    if code != 0 && task.attempt < task.made.retry {
        task.attempt += 1;
        task.state = TaskState::Waits;
        return TaskEnd::Again;
    }
    task.state = TaskState::Ended(code);
    if task.made.can_fail || code == 0 {
        TaskEnd::Well
    } else {
        TaskEnd::Failed(code)
    }
}

/// The task waits with the attempt that it had, where it has no good end.
fn revive_task(task: &mut Task)
    ensures { task.new ≡ revived_task task.old }
{
    if !is_good(task) {
        task.state = TaskState::Waits;
    }
}

/// Revives each task.
pub(crate) fn revive(tasks: &mut Vec<Task>)
    ensures { tasks.new.items ≡ map revived_task tasks.old.items }
{
    for i in 0..tasks.len() {
        revive_task(&mut tasks[i]);
    }
}

/// Cancels task `m` where it waits. Its key, 0, tells that those that need it are to be asked.
fn cancel_one(n: u32, tasks: &mut Vec<Task>, keys: &mut Levels, m: u32)
    requires { length keys.old ≡ length tasks.old.items }
    ensures tasks { tasks.new.items ≡ cancelled_one n m tasks.old.items }
    ensures keys { keys.new ≡ marked_one m tasks.old.items keys.old }
{
    let at = m.saturating_sub(1) as usize;
    if at < tasks.len() && waits(&tasks[at]) {
        tasks[at].state = TaskState::Cancelled(n);
        keys.put(at, 0);
    }
}

/// Cancels those of these tasks that wait.
fn cancel_each(n: u32, tasks: &mut Vec<Task>, keys: &mut Levels, numbers: &[u32])
    requires { length keys.old ≡ length tasks.old.items }
    ensures tasks { tasks.new.items ≡ all_cancelled n numbers.now tasks.old.items }
    ensures keys { keys.new ≡ all_marked n numbers.now tasks.old.items keys.old }
{
    for m in numbers {
        cancel_one(n, tasks, keys, *m);
    }
}

/// Cancels those that need the task at a place, where they wait; then that task is followed.
fn follow(n: u32, tasks: &mut Vec<Task>, needed_by: &[Numbers], keys: &mut Levels, at: usize)
    requires there { at < length needed_by.now }
    requires within { at < length keys.old }
    requires keys { length keys.old ≡ length tasks.old.items }
    ensures tasks { tasks.new.items ≡ all_cancelled n (list_at needed_by.now at) tasks.old.items }
    ensures keys { keys.new ≡ slice_set (all_marked n (list_at needed_by.now at) tasks.old.items keys.old) at never }
{
    cancel_each(n, tasks, keys, needed_by[at].as_slice());
    keys.put(at, NEVER);
}

/// Cancels the tasks that need task `n`, and those that need one of them, by what needs each.
fn cancel_users(n: u32, tasks: &mut Vec<Task>, needed_by: &[Numbers], keys: &mut Levels)
    requires ended { HasEnded n tasks.old.items }
    requires bad { passes is_bad tasks.old.items n ≡ true }
    requires users { AreUsers tasks.old.items needed_by.now }
    requires keys { keys.old ≡ keys_of tasks.old.items }
    ensures tasks { tasks.new.items ≡ cancelled_behind n [] tasks.old.items }
    ensures keys { keys.new ≡ keys_of tasks.new.items }
{
    keys.put(n as usize - 1, 0);
    while let Some(at) = keys.place(0) {
        follow(n, tasks, needed_by, keys, at);
    }
}

/// What the end of task `n` does to the others, by the schedule.
#[tactic(auto, using(crate::proofs::LikeLaws::well_judged, crate::proofs::LikeLaws::has_ended, crate::proofs::LikeLaws::cancelled_kept))]
fn spread(n: u32, tasks: &mut Vec<Task>, schedule: &mut Schedule)
    requires { IsBehind n tasks.old.items schedule.old }
    ensures tasks { tasks.new.items ≡ judged n tasks.old.items }
    ensures kept { IsSchedule tasks.new.items schedule.new }
{
    let task = &tasks[n as usize - 1];
    if is_good(task) {
        end_well(n, tasks, schedule);
    } else if is_bad(task) {
        end_badly(n, tasks, schedule);
        cancel_users(n, tasks, schedule.needed_by.as_slice(), &mut schedule.keys);
    } else {
        end_again(n, tasks, schedule);
    }
}

/// Ends the command of task `n`.
pub(crate) fn ended(
    n: u32,
    code: u8,
    tasks: &mut Vec<Task>,
    schedule: &mut Option<Schedule>,
) -> TaskEnd
    requires there { (1 ≤ n) × (n ≤ length tasks.old.items) }
    requires are { AreTasks tasks.old.items }
    requires runs { passes (λ t. runs t.state) tasks.old.items n ≡ true }
    requires kept { MayHaveSchedule tasks.old.items schedule.old }
    ensures tasks { tasks.new.items ≡ ended n code tasks.old.items }
    ensures kept { MayHaveSchedule tasks.new.items schedule.new }
    ensures end { option_map (end_of code) (task_at tasks.old.items n) ≡ Some result }
{
    let end = end_task(&mut tasks[n as usize - 1], code);
    match schedule {
        Some(schedule) => spread(n, tasks, schedule),
        None => {
            if is_bad(&tasks[n as usize - 1]) {
                cancel(n, tasks);
            }
        }
    }
    end
}
