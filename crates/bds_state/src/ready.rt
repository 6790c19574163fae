//! Which threads are ready.
ghost use Rattle.std.specs.Prelude.{◌≡◌, ◌≤◌, drop, filter, length};
ghost use Rattle.std.specs.List.{list_all, list_any};
ghost use Rattle.bds_code_frames.specs.declared.thread.Thread.{Thread as AnyThread};
ghost use Rattle.bds_tasks.specs.Starts.{first};
ghost use Rattle.bds_tasks.specs.Tasks.{passes};
ghost use Rattle.bds_value.specs.declared.TheConstants.{MAX_THREADS};
ghost use Rattle.bds_state.specs.Held.{AreHeld};
ghost use Rattle.bds_state.specs.Ready.{is_above, is_end, is_last, is_lost, is_over, is_ready, names_ended, names_lost};
ghost use Rattle.bds_state.specs.Ready.{numbers_from, ready, thread_ended};

use crate::holders::Holders;
use bds_code::{Id, Status, Thread};
use bds_tasks::{Task, TaskState, TaskTable};

/// It ended badly or was cancelled.
fn is_lost(task: &Task) -> bool
    ensures { result ≡ is_lost task.now }
{
    match task.state {
        TaskState::Ended(code) => !(task.made.can_fail || code == 0),
        TaskState::Cancelled(_) => true,
        TaskState::Waits => false,
        TaskState::Runs => false,
    }
}

fn is_end(task: &Task) -> bool
    ensures { result ≡ is_end (task.now).state }
{
    match task.state {
        TaskState::Ended(_) => true,
        TaskState::Cancelled(_) => false,
        TaskState::Waits => false,
        TaskState::Runs => false,
    }
}

fn is_last(status: &Status) -> bool
    ensures { result ≡ is_last status.now }
{
    match status {
        Status::Ended => true,
        Status::Ready => false,
        Status::Waiting(_) => false,
    }
}

/// Task `n` is there and is lost.
fn is_lost_at(tasks: &[Task], n: u32) -> bool
    ensures { result ≡ passes is_lost tasks.now n }
{
    match tasks.get(n.saturating_sub(1) as usize) {
        Some(task) => is_lost(task),
        None => false,
    }
}

/// Task `n` is there and has ended.
pub(crate) fn task_ended(tasks: &[Task], n: u32) -> bool
    ensures { result ≡ passes (λ t. is_end t.state) tasks.now n }
{
    match tasks.get(n.saturating_sub(1) as usize) {
        Some(task) => is_end(task),
        None => false,
    }
}

fn thread_ended(threads: &[Thread], n: u32) -> bool
    ensures { result ≡ thread_ended threads.now n }
{
    match threads.get(n as usize) {
        Some(thread) => is_last(&thread.status),
        None => false,
    }
}

/// The task of an id is lost.
fn names_lost(tasks: &[Task], id: Id) -> bool
    ensures { result ≡ names_lost tasks.now id }
{
    match id {
        Id::Task(n) => is_lost_at(tasks, n),
        Id::Thread(_) => false,
    }
}

/// The task or thread of an id has ended.
fn names_ended(threads: &[Thread], tasks: &[Task], id: Id) -> bool
    ensures { result ≡ names_ended threads.now tasks.now id }
{
    match id {
        Id::Task(n) => task_ended(tasks, n),
        Id::Thread(n) => thread_ended(threads, n),
    }
}

/// One of the tasks among these is lost.
fn any_lost(tasks: &[Task], ids: &[Id]) -> bool
    ensures { result ≡ list_any (names_lost tasks.now) ids.now }
{
    for i in 0..ids.len() {
        if names_lost(tasks, ids[i]) {
            return true;
        }
    }
    false
}

/// All tasks and threads among these have ended. The last is asked first, since what was made last
/// mostly ends last.
#[tactic(auto, using(crate::proofs::OverLaws::one_goes_on))]
fn all_ended(threads: &[Thread], tasks: &[Task], ids: &[Id]) -> bool
    ensures { result ≡ list_all (names_ended threads.now tasks.now) ids.now }
{
    for i in (0..ids.len()).rev() {
        if !names_ended(threads, tasks, ids[i]) {
            return false;
        }
    }
    true
}

/// One of these is lost. Where no task is, none of them is asked.
fn any_lost_in(tasks: &TaskTable, ids: &[Id]) -> bool
    ensures { result ≡ list_any (names_lost tasks.now) ids.now }
{
    if tasks.none_lost() {
        false
    } else {
        any_lost(tasks.as_slice(), ids)
    }
}

/// A wait for these is over: one of the tasks is lost, or all tasks and threads have ended.
fn is_over(threads: &[Thread], tasks: &TaskTable, ids: &[Id]) -> bool
    ensures { result ≡ is_over threads.now tasks.now ids.now }
{
    any_lost_in(tasks, ids) || all_ended(threads, tasks.as_slice(), ids)
}

/// A thread doesn't wait and hasn't ended, or it waits and its wait is over.
fn is_ready(threads: &[Thread], tasks: &TaskTable, status: &Status) -> bool
    ensures { result ≡ is_ready threads.now tasks.now status.now }
{
    match status {
        Status::Ready => true,
        Status::Waiting(ids) => is_over(threads, tasks, ids.as_slice()),
        Status::Ended => false,
    }
}

/// The least thread from a number on that is ready. One that is held isn't looked at.
fn ready_from(threads: &[Thread], tasks: &TaskTable, held: &Holders, start: usize) -> Option<u32>
    requires few { length threads.now ≤ MAX_THREADS }
    requires held { AreHeld threads.now tasks.now held.now }
    ensures { result ≡ first (numbers_from start (λ (t : AnyThread). is_ready threads.now tasks.now t.status)
        (drop start threads.now)) }
{
    let mut n = held.asked(start);
    while n < threads.len() {
        if is_ready(threads, tasks, &threads[n].status) {
            return Some(n as u32);
        }
        n = held.asked(n + 1);
    }
    None
}

/// The least ready thread above one, where one is given.
pub(crate) fn next_ready(
    threads: &[Thread],
    tasks: &TaskTable,
    held: &Holders,
    after: Option<u32>,
) -> Option<u32>
    requires few { length threads.now ≤ MAX_THREADS }
    requires held { AreHeld threads.now tasks.now held.now }
    ensures { result ≡ first (filter (is_above after) (ready threads.now tasks.now)) }
{
    match after {
        None => ready_from(threads, tasks, held, 0),
        Some(n) => ready_from(threads, tasks, held, n as usize + 1),
    }
}
