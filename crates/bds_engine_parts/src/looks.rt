//! Questions to threads and tasks.
ghost use Rattle.std.specs.Prelude.{◌≡◌, ◌≤◌, length, IfOk};
ghost use Rattle.std.specs.List.{list_all};
ghost use Rattle.bds_schedule.specs.Waiting.{with_ended};
ghost use Rattle.bds_state.specs.Ready.{is_last, thread_ended};
ghost use Rattle.bds_state.specs.Waited.{tasks_in, threads_in};
ghost use Rattle.bds_engine_parts.specs.Look.{all_ended};

use bds_code::{Id, Status, Thread};
use bds_tasks::Waited;
use bds_value::{Listed, NoMemory, Numbers};
use std::alloc::Global;

fn is_last(thread: &Thread) -> bool
    ensures { result ≡ is_last (thread.now).status }
{
    match thread.status {
        Status::Ended => true,
        Status::Ready => false,
        Status::Waiting(_) => false,
    }
}

/// All threads have ended.
pub fn all_ended(threads: &[Thread]) -> bool
    ensures { result ≡ all_ended threads.now }
{
    for i in 0..threads.len() {
        if !is_last(&threads[i]) {
            return false;
        }
    }
    true
}

fn thread_ended(threads: &[Thread], n: u32) -> bool
    ensures { result ≡ thread_ended threads.now n }
{
    match threads.get(n as usize) {
        Some(thread) => is_last(thread),
        None => false,
    }
}

/// All threads among ids have ended.
pub(crate) fn threads_ended(threads: &[Thread], ids: &[Id]) -> bool
    ensures { result ≡ list_all (thread_ended threads.now) (threads_in ids.now) }
{
    for i in 0..ids.len() {
        match ids[i] {
            Id::Thread(n) => {
                if !thread_ended(threads, n) {
                    return false;
                }
            }
            Id::Task(_) => {}
        }
    }
    true
}

/// The tasks among ids.
pub(crate) fn tasks_in(alloc: Global, ids: &[Id]) -> Result<Numbers, NoMemory>
    ensures { IfOk result (λ numbers. numbers ≡ tasks_in ids.now) }
{
    let mut numbers = Listed::new(alloc);
    for i in 0..ids.len() {
        match ids[i] {
            Id::Task(n) => numbers.push(n)?,
            Id::Thread(_) => {}
        }
    }
    Ok(numbers)
}

/// With threads that have ended, all of them or not.
pub(crate) fn with_ended(ended: bool, waited: Waited) -> Waited
    ensures { result ≡ with_ended ended waited }
{
    match waited {
        Waited::Well => { if ended { Waited::Well } else { Waited::Not } }
        Waited::Not => Waited::Not,
        Waited::Failed(n, code) => Waited::Failed(n, code),
    }
}
