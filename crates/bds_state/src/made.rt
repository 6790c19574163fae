//! What a thread made.
ghost use Rattle.std.specs.Prelude.{◌≡◌, ◌≤◌, ◌++◌, length, map, OnOk};
ghost use Rattle.bds_tasks.specs.Tasks.{made_by};
ghost use Rattle.bds_value.specs.declared.TheConstants.{MAX_TASKS, MAX_THREADS};
ghost use Rattle.bds_value.specs.declared.ids.Id.TheVariants as id;
ghost use Rattle.bds_state.specs.MadeBy.{threads_made_by};

use bds_code::{Id, Ids, Thread};
use bds_tasks::Task;
use bds_value::NoMemory;

/// Puts the tasks that a thread made at the end, in rising order.
pub(crate) fn put_tasks(ids: &mut Ids, tasks: &[Task], thread: u32) -> Result<(), NoMemory>
    requires { length tasks.now ≤ MAX_TASKS }
    ensures { OnOk result (ids.new ≡ ids.old ++ map id.Task (made_by thread tasks.now)) }
{
    for i in 0..tasks.len() {
        if tasks[i].made.maker == thread {
            ids.push(Id::Task(i as u32 + 1))?;
        }
    }
    Ok(())
}

/// Puts the threads that a thread made at the end, in rising order.
pub(crate) fn put_threads(ids: &mut Ids, threads: &[Thread], thread: u32) -> Result<(), NoMemory>
    requires { length threads.now ≤ MAX_THREADS }
    ensures { OnOk result (ids.new ≡ ids.old ++ map id.Thread (threads_made_by thread threads.now)) }
{
    for n in 1..threads.len() {
        if threads[n].parent == thread {
            ids.push(Id::Thread(n as u32))?;
        }
    }
    Ok(())
}
