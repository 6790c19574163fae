//! The table of tasks.
ghost use Rattle.std.specs.Prelude.{◌≡◌, ◌≤◌, ◌<◌, ◌++◌, ℕ, [], length, map, Some, None, true, false, IfOk, IfSome};
ghost use Rattle.std.specs.Prelude.{MatchResult, OnOk, OnErr, option_map};
ghost use Rattle.std.specs.List.{All, list_all};
ghost use Rattle.bds_value.specs.declared.TheConstants.{MAX_TASKS};
ghost use Rattle.bds_tasks.specs.Makers.{AreMakers};
ghost use Rattle.bds_tasks.specs.Kept.{MayHaveSchedule, is_lost_task};
ghost use Rattle.bds_tasks.specs.Tasks.{added, passes, pending_makes, revived_task, running, task_at, waits, runs};
ghost use Rattle.bds_tasks.specs.Ends.{end_of, ended};
ghost use Rattle.bds_tasks.specs.Starts.{startable, started};
ghost use Rattle.bds_tasks.specs.Waits.{wait_state};
ghost use Rattle.bds_tasks.specs.Sound.{Adds, AreTasks, IsLegal, is_between, is_blamed, is_fit, first_unfit};
ghost use Rattle.bds_tasks.specs.TaskFields.{AreFieldTasks, tasks_field};

use crate::ends::{ended, revive};
use crate::fields::put_tasks;
use crate::keeping::{with_last, with_started};
use crate::makers::{FileTasks, makers_of, with_files};
use crate::needs::{needs_of, pending_makes};
use crate::schedule::{Schedule, running_of, schedule_of};
use crate::starts::{cpus_at, startable};
use crate::task::{AddFault, Task, TaskEnd, TaskNew, TaskState, Tasks, Waited};
use crate::waits::{is_bad_at, wait_state};
use bds_value::{ByteText, Listed, MAX_CPUS, MAX_RETRY, MAX_TASKS, NoMemory, Numbers};
use indexmap::IndexMap;
use std::alloc::Global;
use std::marker::Model;

/// The tasks that were made, numbered from 1.
#[derive(Debug, Drop)]
pub struct TaskTable {
    tasks: Vec<Task>,
    /// The tasks that make each file, if there was memory for that.
    makers: Option<FileTasks>,
    /// What is kept of them beside, if there was memory for that.
    schedule: Option<Schedule>,
}

impl Model for TaskTable {
    ghost use Rattle.std.specs.Prelude.{List, IfSome};
    ghost use Rattle.std.specs.Coded.{coded_list};
    ghost use Rattle.bds_tasks.specs.declared.task.Task.{Task};
    ghost use Rattle.bds_tasks.specs.contracts.task.Task as code;
    ghost use Rattle.bds_tasks.specs.Makers.{AreMakers};
    ghost use Rattle.bds_tasks.specs.Kept.{MayHaveSchedule};
    ghost use Rattle.bds_tasks.specs.Sound.{AreTasks};

    ghost Value = { List Task };

    ghost coded = { coded_list code.the_row.coded };

    ghost view = { λ t. t.tasks.items };

    ghost invariant = { λ t. AreTasks t.tasks.items × IfSome t.makers (λ m. AreMakers t.tasks.items m.entries)
        × MayHaveSchedule t.tasks.items t.schedule };
}

/// A copy of numbers.
fn copy_numbers(alloc: Global, numbers: &[u32]) -> Result<Numbers, NoMemory>
    ensures { IfOk result (λ copies. copies ≡ numbers.now) }
{
    let mut copies = Listed::new(alloc);
    for n in numbers {
        copies.push(*n)?;
    }
    Ok(copies)
}

/// Puts a waiting task at the end. A refused call leaves the tasks as they were.
fn put(
    alloc: Global,
    tasks: &mut Vec<Task>,
    makers: &Option<FileTasks>,
    task: TaskNew,
) -> Result<(), NoMemory>
    requires few { length tasks.old.items ≤ MAX_TASKS }
    requires known { IfSome makers.now (λ m. AreMakers tasks.old.items m.entries) }
    ensures ok { OnOk result (tasks.new.items ≡ added tasks.old.items task) }
    ensures err { OnErr result (tasks.new.items ≡ tasks.old.items) }
{
    let needs = needs_of(alloc, tasks, makers, &task)?;
    let task = Task {
        made: task,
        needs,
        attempt: 0,
        state: TaskState::Waits,
    };
    match tasks.push(task) {
        Ok(()) => Ok(()),
        Err(_) => Err(NoMemory),
    }
}

/// Puts a waiting task at the end, and it into what is kept beside. A refused call leaves the tasks
/// as they were.
fn add(
    alloc: Global,
    tasks: &mut Vec<Task>,
    makers: &mut Option<FileTasks>,
    schedule: &mut Option<Schedule>,
    task: TaskNew,
) -> Result<(), NoMemory>
    requires room { length tasks.old.items < MAX_TASKS }
    requires are { AreTasks tasks.old.items }
    requires legal { IsLegal task }
    requires known { IfSome makers.old (λ m. AreMakers tasks.old.items m.entries) }
    requires kept { MayHaveSchedule tasks.old.items schedule.old }
    ensures ok { OnOk result (tasks.new.items ≡ added tasks.old.items task) }
    ensures err { OnErr result (tasks.new.items ≡ tasks.old.items) }
    ensures known { IfSome makers.new (λ m. AreMakers tasks.new.items m.entries) }
    ensures kept { MayHaveSchedule tasks.new.items schedule.new }
{
    let count = tasks.len();
    put(alloc, tasks, makers, task)?;
    *makers = with_files(
        alloc,
        tasks,
        makers.take(),
        tasks[count].made.outs.as_slice(),
        count as u32 + 1,
    );
    *schedule = with_last(alloc, schedule.take(), tasks, &tasks[count]);
    Ok(())
}

/// Lets task `n` run.
fn start(n: u32, tasks: &mut Vec<Task>)
    requires { (1 ≤ n) × (n ≤ length tasks.old.items) }
    ensures { tasks.new.items ≡ started n tasks.old.items }
{
    tasks[n as usize - 1].state = TaskState::Runs;
}

fn is_between(i: u32, n: u32) -> bool
    ensures { result ≡ is_between i n }
{
    n >= 1 && n <= i
}

fn all_between(i: u32, needs: &[u32]) -> bool
    ensures { result ≡ list_all (is_between i) needs.now }
{
    for n in needs {
        if !is_between(i, *n) {
            return false;
        }
    }
    true
}

/// Where a task is cancelled, it names an earlier one, with a bad end.
fn is_blamed(tasks: &[Task], i: u32, task: &Task) -> bool
    ensures { result ≡ is_blamed tasks.now i task.now.state }
{
    match task.state {
        TaskState::Cancelled(n) => is_between(i, n) && is_bad_at(tasks, n),
        TaskState::Waits => true,
        TaskState::Runs => true,
        TaskState::Ended(_) => true,
    }
}

/// Of these tasks, one may stand behind `i` others.
fn is_fit(tasks: &[Task], i: u32, task: &Task) -> bool
    ensures { result ≡ is_fit tasks.now i task.now }
{
    task.made.cpus >= 1
        && task.made.cpus <= MAX_CPUS
        && task.made.retry <= MAX_RETRY
        && task.attempt <= task.made.retry
        && all_between(i, task.needs.as_slice())
        && is_blamed(tasks, i, task)
}

/// The first task that may not stand where it does.
fn first_unfit(tasks: &[Task]) -> Option<u32>
    requires { length tasks.now ≤ MAX_TASKS }
    ensures { result ≡ first_unfit tasks.now }
{
    for (i, task) in tasks.iter().enumerate() {
        if !is_fit(tasks, i as u32, task) {
            return Some(i as u32 + 1);
        }
    }
    None
}

impl TaskTable {
    /// The table of these tasks, or the number of the first that may not stand where it does.
    pub fn of(tasks: Tasks) -> Result<TaskTable, u32>
        requires { AreFieldTasks tasks }
        ensures { MatchResult result (λ table. (table ≡ tasks)
            × (first_unfit tasks ≡ None)) (λ n. first_unfit tasks ≡ Some n) }
    {
        match first_unfit(tasks.as_slice()) {
            Some(n) => Err(n),
            None => {
                let tasks = tasks.into_vec();
                let makers = makers_of(*tasks.allocator(), &tasks);
                let schedule = schedule_of(*tasks.allocator(), &tasks);
                Ok(TaskTable {
                    tasks,
                    makers,
                    schedule,
                })
            }
        }
    }

    /// Writes the tasks at the end, behind their number. A refused call leaves `out` as it was.
    pub fn write(&self, alloc: Global, out: &mut ByteText) -> Result<(), NoMemory>
        ensures ok { OnOk result (out.new ≡ out.old ++ tasks_field self.now) }
        ensures err { OnErr result (out.new ≡ out.old) }
    {
        let mut field = Vec::new(alloc);
        put_tasks(&mut field, &self.tasks)?;
        out.append(field.as_slice())
    }

    /// No tasks.
    pub fn new(alloc: Global) -> TaskTable
        ensures { result ≡ [] }
    {
        TaskTable {
            tasks: Vec::new(alloc),
            makers: Some(IndexMap::new(alloc)),
            schedule: schedule_of(alloc, &[]),
        }
    }

    /// The tasks in their order.
    pub fn as_slice(&self) -> &[Task]
        ensures { result.now ≡ self.now }
    {
        &self.tasks
    }

    /// Which tasks a table holds: a law, which does nothing.
    pub fn are_tasks(&self)
        ensures { AreTasks self.now }
    {
        let _tasks = &self.tasks;
    }

    /// How many tasks there are.
    pub fn count(&self) -> u32
        ensures { result ≡ length self.now }
    {
        self.tasks.len() as u32
    }

    /// Task `n`.
    pub fn task(&self, n: u32) -> &Task
        requires { (1 ≤ n) × (n ≤ length self.now) }
        ensures { task_at self.now n ≡ Some result.now }
    {
        &self.tasks[n as usize - 1]
    }

    /// Adds a waiting task behind those that it needs, and gives its number. It takes the memory
    /// for the whole life of the task. A refused call leaves the table as it was.
    pub fn add(&mut self, alloc: Global, task: TaskNew) -> Result<u32, AddFault>
        requires { IsLegal task }
        ensures { Adds task self.old self.new result }
    {
        let count = self.count();
        if count as u64 >= MAX_TASKS {
            return Err(AddFault::TooMany(count));
        }
        match add(
            alloc,
            &mut self.tasks,
            &mut self.makers,
            &mut self.schedule,
            task,
        ) {
            Ok(()) => Ok(count + 1),
            Err(_) => Err(AddFault::NoMemory),
        }
    }

    /// The least task that may start where there are so many processors.
    pub fn startable(&self, cpus: u32) -> Option<u32>
        ensures { result ≡ startable cpus self.now }
    {
        startable(cpus, &self.tasks, &self.schedule)
    }

    /// The tasks that run, in rising order.
    pub fn running(&self, alloc: Global) -> Result<Numbers, NoMemory>
        ensures { IfOk result (λ numbers. numbers ≡ running self.now) }
    {
        match &self.schedule {
            Some(schedule) => copy_numbers(alloc, schedule.running.as_slice()),
            None => running_of(alloc, &self.tasks),
        }
    }

    /// No task ended badly or was cancelled. Where that isn't known, `false`.
    #[tactic(auto, using(crate::proofs::KeptLaws::is_unset))]
    pub fn none_lost(&self) -> bool
        ensures { result ≡ true → (n : ℕ) → passes is_lost_task self.now n ≡ false }
    {
        match &self.schedule {
            Some(schedule) => !schedule.some_lost,
            None => false,
        }
    }

    /// Task `n`, which waits, runs now.
    pub fn started(&mut self, n: u32)
        requires number { 1 ≤ n }
        requires waits { passes (λ t. waits t.state) self.old n ≡ true }
        ensures { self.new ≡ started n self.old }
    {
        let cpus = cpus_at(&self.tasks, n);
        start(n, &mut self.tasks);
        self.schedule = with_started(self.schedule.take(), n, cpus);
    }

    /// The command of task `n`, which runs, ended with a code. Where that is a bad end, the tasks
    /// that can no longer run are cancelled.
    pub fn ended(&mut self, n: u32, code: u8) -> TaskEnd
        requires number { 1 ≤ n }
        requires runs { passes (λ t. runs t.state) self.old n ≡ true }
        ensures tasks { self.new ≡ ended n code self.old }
        ensures end { option_map (end_of code) (task_at self.old n) ≡ Some result }
    {
        ended(n, code, &mut self.tasks, &mut self.schedule)
    }

    /// A pending task makes a file.
    pub fn pending_makes(&self, file: &ByteText) -> bool
        ensures { result ≡ pending_makes self.now file.now }
    {
        pending_makes(&self.tasks, &self.makers, file.as_slice())
    }

    /// How a wait on these tasks is.
    pub fn wait_state(&self, ids: &Numbers) -> Waited
        requires { All (λ n. (1 ≤ n) × (n ≤ length self.now)) ids.now }
        ensures { result ≡ wait_state self.now ids.now }
    {
        wait_state(&self.tasks, ids.as_slice())
    }

    /// Each task without a good end waits again, with the attempt that it had.
    pub fn revive(&mut self)
        ensures { self.new ≡ map revived_task self.old }
    {
        revive(&mut self.tasks);
        self.makers = makers_of(*self.tasks.allocator(), &self.tasks);
        self.schedule = schedule_of(*self.tasks.allocator(), &self.tasks);
    }
}
