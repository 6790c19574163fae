//! Laws of states: what a file may hold of them, and what keeps them valid.
ghost use Rattle.std.specs.Prelude.{ℕ, ◌<◌, ◌^◌, ◌≢◌};
ghost use Rattle.std.specs.List.{All};
ghost use Rattle.bds_state_threads.specs.Numbers.{ThreadFits};
ghost use Rattle.bds_tasks.specs.declared.task.Task.{Task as AnyTask};
ghost use Rattle.bds_tasks.specs.TaskFields.{IsFieldState};
ghost use Rattle.bds_state.specs.Fits.{AreFields, NumbersFit};
ghost use Rattle.bds_state.specs.Judged.{IsStateFault};
ghost use Rattle.bds_state.specs.Keeping.{StaysValid};
ghost use Rattle.bds_state.specs.MadeBy.{MayWait};
ghost use Rattle.bds_state.specs.Parts.{Parts};
ghost use Rattle.bds_state.specs.Ready.{FindsReady};
ghost use Rattle.bds_state.specs.Valid.{IsValid};
ghost use Rattle.bds_state.specs.Waited.{WaitsAreSettled};
ghost use Rattle.bds_state.specs.declared.judge.StateFault.{StateFault};
ghost use Rattle.bds_state.specs.declared.judge.StateFault.TheVariants.{NoMemory};

use crate::state::State;
use bds_code::Thread;
use bds_state_threads::{thread_fits, unit_fits};
use bds_tasks::{Task, TaskState};

/// A state stays valid where a thread is replaced, runs, waits, goes on or ends, where a thread, a task or
/// a rule is added, and where tasks start, end or are revived: laws, which do nothing.
pub fn states_stay_valid()
    ensures { (s : Parts) → IsValid s → StaysValid s }
{}

/// A valid state is one that a file may hold: a law, which does nothing.
pub fn valid_states_may_be_written()
    ensures { (s : Parts) → IsValid s → NumbersFit s → AreFields s }
{}

/// What is named as not valid isn't: a law, which does nothing.
pub fn faults_are_real()
    ensures { (s : Parts) → (fault : StateFault) → IsStateFault s fault → fault ≢ NoMemory → IsValid s → ⊥ }
{}

/// A thread of a valid state may wait for all that it made: a law, which does nothing.
pub fn threads_may_wait_for_what_they_made()
    ensures { (s : Parts) → IsValid s → (thread : ℕ) → MayWait thread s }
{}

/// `next_ready`, asked with what it gave before, gives the ready threads one after the other: a law, which
/// does nothing.
pub fn ready_threads_are_found()
    ensures { (s : Parts) → FindsReady s }
{}

/// A wait for tasks and threads that are there is over where the wait for its tasks has failed, or has gone
/// well and its threads have ended: a law, which does nothing.
pub fn waits_are_settled()
    ensures { WaitsAreSettled }
{}

fn byte_fits(n: u8)
    ensures { n < 2 ^ 8 }
{}

fn number_fits(n: u32)
    ensures { n < 2 ^ 32 }
{}

fn threads_fit(threads: &[Thread])
    ensures { All ThreadFits threads.now }
{
    for thread in threads {
        thread_fits(thread);
    }
}

fn task_fits(task: &Task)
    ensures { IsFieldState task.now.state }
{
    match task.state {
        TaskState::Ended(code) => byte_fits(code),
        TaskState::Cancelled(n) => number_fits(n),
        TaskState::Waits => {}
        TaskState::Runs => {}
    }
}

fn tasks_fit(tasks: &[Task])
    ensures { All (λ (t : AnyTask). IsFieldState t.state) tasks.now }
{
    for task in tasks {
        task_fits(task);
    }
}

/// Each number in a state has the bits of its field: a law, which looks through the state.
pub fn numbers_fit(state: &State)
    ensures { NumbersFit state.now }
{
    unit_fits(state.unit.unit());
    threads_fit(state.threads.as_slice());
    tasks_fit(state.tasks.as_slice());
}
