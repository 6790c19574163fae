//! Why threads aren't asked whether they are ready: a task goes on for which they wait, or they have ended.
ghost use Rattle.std.specs.Prelude.{◌≡◌, ◌≤◌, ◌<◌, length};
ghost use Rattle.bds_levels.specs.Least.{NEVER as never};
ghost use Rattle.bds_value.specs.declared.TheConstants.{MAX_THREADS};
ghost use Rattle.bds_value.specs.declared.ids.Id.TheVariants as ids_of;
ghost use Rattle.bds_value.specs.declared.ids.Status.TheVariants.{Ended};
ghost use Rattle.bds_state.specs.Held.{AreHeld, AreHeldBut, GoesOn, IsGoing, IsHeld, IsStill, NoneLost};

use crate::holders::Holders;
use crate::ready::task_ended;
use bds_code::{Id, Status, Thread};
use bds_levels::NEVER;
use bds_tasks::{Task, TaskTable};
use std::alloc::Global;

/// The number of a task that goes on, where an id is one, or 0.
fn going_id(tasks: &[Task], named: Id) -> u32
    ensures { 1 ≤ result → (named ≡ ids_of.Task result) × GoesOn tasks.now result }
{
    match named {
        Id::Task(n) => { if task_ended(tasks, n) { 0 } else { n } }
        Id::Thread(_) => 0,
    }
}

/// A task that goes on, and its place among the ids of a wait. Task 0 is none.
#[derive(Clone, Copy)]
struct Hold {
    task: u32,
    place: usize,
}

const NO_HOLD: Hold = Hold { task: 0, place: 0 };

/// A task among the first of these that goes on, the last first.
fn going(tasks: &[Task], ids: &[Id], count: usize) -> Hold
    requires { count ≤ length ids.now }
    ensures { 1 ≤ result.task → IsGoing tasks.now ids.now result.task }
{
    for i in (0..count).rev() {
        let n = going_id(tasks, ids[i]);
        if n > 0 {
            return Hold { task: n, place: i };
        }
    }
    NO_HOLD
}

/// As `going`, of all. Those in front of a place are asked first, where a wait was left: so it goes on from there, in
/// whatever order its tasks end.
fn going_before(tasks: &[Task], ids: &[Id], place: usize) -> Hold
    ensures { 1 ≤ result.task → IsGoing tasks.now ids.now result.task }
{
    let count = ids.len();
    if place < count {
        let found = going(tasks, ids, place);
        if found.task > 0 {
            return found;
        }
    }
    going(tasks, ids, count)
}

/// The same, where no task is lost.
fn going_unless_lost(tasks: &TaskTable, ids: &[Id], place: usize) -> Hold
    ensures { 1 ≤ result.task → IsGoing tasks.now ids.now result.task × NoneLost tasks.now }
{
    if tasks.none_lost() {
        going_before(tasks.as_slice(), ids, place)
    } else {
        NO_HOLD
    }
}

/// What is kept of a thread that has ended: `NEVER`, or 0 where a task is lost, since then nothing is kept of any
/// thread.
pub fn ended_holder(tasks: &TaskTable) -> u32
    ensures { 1 ≤ result → IsStill tasks.now Ended result }
{
    if tasks.none_lost() { NEVER } else { 0 }
}

/// What is kept of a thread in this status: a task that goes on and for which it waits, those in front of a place
/// first; `NEVER` where it has ended; or 0.
fn holder_before(tasks: &TaskTable, status: &Status, place: usize) -> Hold
    ensures { 1 ≤ result.task → IsStill tasks.now status.now result.task }
{
    match status {
        Status::Waiting(ids) => going_unless_lost(tasks, ids.as_slice(), place),
        Status::Ready => NO_HOLD,
        Status::Ended => Hold {
            task: ended_holder(tasks),
            place: 0,
        },
    }
}

/// What is kept of a thread in this status.
pub fn holder(tasks: &TaskTable, status: &Status) -> u32
    ensures { 1 ≤ result → IsStill tasks.now status.now result }
{
    holder_before(tasks, status, usize::MAX).task
}

/// The same of a thread by its number.
fn holder_at(threads: &[Thread], tasks: &TaskTable, k: u32, place: usize) -> Hold
    ensures { 1 ≤ result.task → IsHeld threads.now tasks.now k result.task }
{
    match threads.get(k as usize) {
        Some(thread) => holder_before(tasks, &thread.status, place),
        None => NO_HOLD,
    }
}

/// Looks for another task for a thread of which nothing is kept, from where its wait was left.
fn look_at(threads: &[Thread], tasks: &TaskTable, held: &mut Holders, k: u32)
    requires { AreHeld threads.now tasks.now held.old }
    ensures { AreHeld threads.now tasks.now held.new }
{
    if held.number(k) == 0 {
        let found = holder_at(threads, tasks, k, held.place(k));
        held.note(k, found.task);
        held.leave_at(k, found.place);
    }
}

/// The same for each of these.
fn look_at_each(threads: &[Thread], tasks: &TaskTable, held: &mut Holders, numbers: &[u32])
    requires { AreHeld threads.now tasks.now held.old }
    ensures { AreHeld threads.now tasks.now held.new }
{
    for i in 0..numbers.len() {
        look_at(threads, tasks, held, numbers[i]);
    }
}

/// The same for all threads.
pub(crate) fn look_at_all(threads: &[Thread], tasks: &TaskTable, held: &mut Holders)
    requires few { length threads.now ≤ MAX_THREADS }
    requires held { AreHeld threads.now tasks.now held.old }
    ensures { AreHeld threads.now tasks.now held.new }
{
    for k in 0..threads.len() {
        look_at(threads, tasks, held, k as u32);
    }
}

/// Looks for other tasks for the threads that a task held which has ended.
fn look_again(threads: &[Thread], tasks: &TaskTable, held: &mut Holders, task: u32)
    requires number { task < never }
    requires held { AreHeldBut task threads.now tasks.now held.old }
    ensures { AreHeld threads.now tasks.now held.new }
{
    let freed = held.free(task);
    look_at_each(threads, tasks, held, freed.as_slice());
}

/// What is kept behind the end of a task. Where one is lost all threads are asked.
pub fn look_behind(
    alloc: Global,
    threads: &[Thread],
    tasks: &TaskTable,
    held: &mut Holders,
    task: u32,
)
    requires { NoneLost tasks.now → AreHeldBut task threads.now tasks.now held.old }
    ensures { AreHeld threads.now tasks.now held.new }
{
    if task < NEVER && tasks.none_lost() {
        look_again(threads, tasks, held, task);
    } else {
        *held = Holders::new(alloc);
    }
}
