//! Whether a wait on tasks is over.
ghost use Rattle.std.specs.Prelude.{◌≡◌, [], ◌∷◌, filter, min};
ghost use Rattle.std.specs.List.{list_any, reduce};
ghost use Rattle.bds_tasks.specs.Kept.{is_lost_task};
ghost use Rattle.bds_tasks.specs.Tasks.{passes, is_bad, is_pending};
ghost use Rattle.bds_tasks.specs.Waits.{is_cancelled, least_with, canceller_of, code_of, blamed, wait_state};

use crate::starts::{is_bad, is_pending};
use crate::task::{Task, TaskState, Waited};

fn is_cancelled(task: &Task) -> bool
    ensures { result ≡ is_cancelled task.now }
{
    match task.state {
        TaskState::Cancelled(_) => true,
        TaskState::Waits => false,
        TaskState::Runs => false,
        TaskState::Ended(_) => false,
    }
}

/// It ended badly or was cancelled.
pub(crate) fn is_lost(task: &Task) -> bool
    ensures { result ≡ is_lost_task task.now }
{
    is_bad(task) || is_cancelled(task)
}

/// Task `n` is there and has a bad end.
pub(crate) fn is_bad_at(tasks: &[Task], n: u32) -> bool
    ensures { result ≡ passes is_bad tasks.now n }
{
    match tasks.get(n.saturating_sub(1) as usize) {
        Some(task) => is_bad(task),
        None => false,
    }
}

/// Task `n` is there and is cancelled.
fn is_cancelled_at(tasks: &[Task], n: u32) -> bool
    ensures { result ≡ passes is_cancelled tasks.now n }
{
    match tasks.get(n.saturating_sub(1) as usize) {
        Some(task) => is_cancelled(task),
        None => false,
    }
}

/// Task `n` is there and waits or runs.
pub(crate) fn is_pending_at(tasks: &[Task], n: u32) -> bool
    ensures { result ≡ passes is_pending tasks.now n }
{
    match tasks.get(n.saturating_sub(1) as usize) {
        Some(task) => is_pending(task),
        None => false,
    }
}

/// The lesser of a number and another, where there is one.
fn lesser(other: Option<u32>, n: u32) -> Option<u32>
    ensures { result ≡ least_with other (n ∷ []) }
{
    match other {
        None => Some(n),
        Some(m) => Some(m.min(n)),
    }
}

/// The least of these with a bad end.
#[tactic(auto, using(crate::proofs::LeastLaws::leasts))]
fn least_bad(tasks: &[Task], ids: &[u32]) -> Option<u32>
    ensures { result ≡ reduce min (filter (passes is_bad tasks.now) ids.now) }
{
    let mut found = None;
    for n in ids {
        if is_bad_at(tasks, *n) {
            found = lesser(found, *n);
        }
    }
    found
}

/// The least of these that is cancelled.
#[tactic(auto, using(crate::proofs::LeastLaws::leasts))]
fn least_cancelled(tasks: &[Task], ids: &[u32]) -> Option<u32>
    ensures { result ≡ reduce min (filter (passes is_cancelled tasks.now) ids.now) }
{
    let mut found = None;
    for n in ids {
        if is_cancelled_at(tasks, *n) {
            found = lesser(found, *n);
        }
    }
    found
}

/// One of these waits or runs.
pub(crate) fn any_pending(tasks: &[Task], ids: &[u32]) -> bool
    ensures { result ≡ list_any (passes is_pending tasks.now) ids.now }
{
    for n in ids {
        if is_pending_at(tasks, *n) {
            return true;
        }
    }
    false
}

/// The task that cancelled task `n`.
fn canceller_of(tasks: &[Task], n: u32) -> u32
    ensures { result ≡ canceller_of tasks.now n }
{
    match tasks.get(n.saturating_sub(1) as usize) {
        Some(task) => match task.state {
            TaskState::Cancelled(by) => by,
            TaskState::Waits => 0,
            TaskState::Runs => 0,
            TaskState::Ended(_) => 0,
        },
        None => 0,
    }
}

/// The code with which a task ended.
fn code_of(tasks: &[Task], n: u32) -> u8
    ensures { result ≡ code_of tasks.now n }
{
    match tasks.get(n.saturating_sub(1) as usize) {
        Some(task) => match task.state {
            TaskState::Ended(code) => code,
            TaskState::Waits => 0,
            TaskState::Runs => 0,
            TaskState::Cancelled(_) => 0,
        },
        None => 0,
    }
}

/// The task that is blamed.
fn blamed(tasks: &[Task], bad: Option<u32>, cancelled: Option<u32>) -> Option<u32>
    ensures { result ≡ blamed tasks.now bad cancelled }
{
    match bad {
        Some(n) => Some(n),
        None => match cancelled {
            Some(n) => Some(canceller_of(tasks, n)),
            None => None,
        },
    }
}

/// How a wait on these tasks is.
pub(crate) fn wait_state(tasks: &[Task], ids: &[u32]) -> Waited
    ensures { result ≡ wait_state tasks.now ids.now }
{
    let bad = least_bad(tasks, ids);
    let cancelled = least_cancelled(tasks, ids);
    match blamed(tasks, bad, cancelled) {
        Some(n) => Waited::Failed(n, code_of(tasks, n)),
        None => {
            if any_pending(tasks, ids) {
                Waited::Not
            } else {
                Waited::Well
            }
        }
    }
}
