//! Which parts are a state, and what of others isn't valid.
ghost use Rattle.std.specs.Prelude.{◌≡◌, ◌≤◌, ℕ, length, slice_get, Some, None, MatchResult, OnOk, OnErr};
ghost use Rattle.std.specs.Bool.{Decides};
ghost use Rattle.std.specs.List.{All};
ghost use Rattle.bds_value.specs.declared.TheConstants.{MAX_TASKS, MAX_TEXT, MAX_THREADS};
ghost use Rattle.bds_rules.specs.Own.{AreRules};
ghost use Rattle.bds_rules.specs.RuleFields.{AreFieldRules};
ghost use Rattle.bds_state_threads.specs.Fields.{IsFieldThread};
ghost use Rattle.bds_tasks.specs.TaskFields.{AreFieldTasks};
ghost use Rattle.bds_tasks.specs.Sound.{AreTasks};
ghost use Rattle.bds_state.specs.Judged.{IsStateFault};
ghost use Rattle.bds_state.specs.Judging.{IsFirstUnmade, IsRuleFault, IsTableFault, IsTaskFault, JudgesThreadOf};
ghost use Rattle.bds_state.specs.Judging.{JudgesThreadsOf, earlier};
ghost use Rattle.bds_state.specs.Valid.{AreThere, HasParent, IsMade, IsThere};

use crate::holders::Holders;
use crate::state::State;
use bds_code::{Id, Status, Thread};
use bds_rules::{RuleTable, Rules, RulesFault};
use bds_state_threads::{ThreadFault, Threads, judge_thread};
use bds_tasks::{Task, TaskTable, Tasks};
use bds_value::ByteText;
use bds_verify::Verified;
use std::alloc::Global;

/// What of a state isn't valid.
#[derive(Debug, Drop)]
pub enum StateFault {
    /// A thread: its maker, its status with the ids for which it waits, its globals, or how many frames
    /// it has. Number 0 also where there is no thread.
    BadThread(u32),
    /// A thread, and a frame of it by its number, the oldest first.
    BadFrame(u32, u32),
    /// A task, from 1.
    BadTask(u32),
    /// A rule, from 1.
    BadRule(u32),
    NoMemory,
}

fn has_parent(n: u32, parent: u32) -> bool
    ensures { Decides result (HasParent n parent) }
{
    parent < n || (n == 0 && parent == 0)
}

fn is_there(tasks: u32, threads: u32, id: Id) -> bool
    ensures { Decides result (IsThere tasks threads id) }
{
    match id {
        Id::Task(n) => n >= 1 && n <= tasks,
        Id::Thread(n) => n < threads,
    }
}

fn all_there(tasks: u32, threads: u32, ids: &[Id]) -> bool
    ensures { Decides result (All (IsThere tasks threads) ids.now) }
{
    for i in 0..ids.len() {
        let there = is_there(tasks, threads, ids[i]);
        if !there {
            return false;
        }
    }
    true
}

fn are_there(tasks: u32, threads: u32, status: &Status) -> bool
    ensures { Decides result (AreThere tasks threads status.now) }
{
    match status {
        Status::Waiting(ids) => all_there(tasks, threads, ids.as_slice()),
        Status::Ready => true,
        Status::Ended => true,
    }
}

/// Judges thread `n`, where there are so many tasks and threads.
fn judge_one(
    alloc: Global,
    unit: &Verified,
    tasks: u32,
    threads: u32,
    n: u32,
    thread: &Thread,
) -> Result<(), StateFault>
    requires { IsFieldThread thread.now }
    ensures { JudgesThreadOf unit.now tasks threads n thread.now result }
{
    let made = has_parent(n, thread.parent);
    if !made {
        return Err(StateFault::BadThread(n));
    }
    let there = are_there(tasks, threads, &thread.status);
    if !there {
        return Err(StateFault::BadThread(n));
    }
    match judge_thread(alloc, unit, thread) {
        Ok(()) => Ok(()),
        Err(ThreadFault::Thread) => Err(StateFault::BadThread(n)),
        Err(ThreadFault::Frame(i)) => Err(StateFault::BadFrame(n, i)),
        Err(ThreadFault::NoMemory) => Err(StateFault::NoMemory),
    }
}

/// Judges threads, where there are so many tasks.
fn judge_threads(
    alloc: Global,
    unit: &Verified,
    tasks: u32,
    threads: &[Thread],
) -> Result<(), StateFault>
    requires count { length threads.now ≤ MAX_THREADS }
    requires each { All IsFieldThread threads.now }
    ensures { JudgesThreadsOf unit.now tasks threads.now result }
{
    let count = threads.len() as u32;
    if count == 0 {
        return Err(StateFault::BadThread(0));
    }
    for n in 0..count {
        let thread = &threads[n as usize];
        if let Err(fault) = judge_one(alloc, unit, tasks, count, n, thread) {
            return Err(fault);
        }
    }
    Ok(())
}

/// The first task that none of so many threads made.
fn first_unmade(threads: u32, tasks: &[Task]) -> Option<u32>
    requires { length tasks.now ≤ MAX_TASKS }
    ensures { IsFirstUnmade threads tasks.now result }
{
    for i in 0..tasks.len() {
        if tasks[i].made.maker >= threads {
            return Some(i as u32 + 1);
        }
    }
    None
}

fn earlier(n: u32, other: Option<u32>) -> u32
    ensures { result ≡ earlier n other }
{
    match other {
        Some(m) => n.min(m),
        None => n,
    }
}

/// The table of these tasks, or the first that isn't valid where there are so many threads.
fn task_table(threads: u32, tasks: Tasks) -> Result<TaskTable, StateFault>
    requires { AreFieldTasks tasks }
    ensures { MatchResult result (λ table. (table ≡ tasks) × AreTasks tasks
        × All (IsMade threads) tasks) (IsTaskFault threads tasks) }
{
    let unmade = first_unmade(threads, tasks.as_slice());
    match TaskTable::of(tasks) {
        Ok(table) => match unmade {
            Some(n) => Err(StateFault::BadTask(n)),
            None => Ok(table),
        },
        Err(n) => Err(StateFault::BadTask(earlier(n, unmade))),
    }
}

/// The table of these rules, or the first that isn't valid, or there is no memory.
fn rule_table(rules: Rules) -> Result<RuleTable, StateFault>
    requires { AreFieldRules rules }
    ensures { MatchResult result (λ table. (table ≡ rules) × AreRules rules) (IsRuleFault rules) }
{
    match RuleTable::of(rules) {
        Ok(table) => Ok(table),
        Err(RulesFault::Unfit(n)) => Err(StateFault::BadRule(n)),
        Err(RulesFault::NoMemory) => Err(StateFault::NoMemory),
    }
}

/// The tables of these tasks and rules, or the first that isn't valid, tasks before rules; or there
/// is no memory.
fn tables(threads: u32, tasks: Tasks, rules: Rules) -> Result<(TaskTable, RuleTable), StateFault>
    requires tasks { AreFieldTasks tasks }
    requires rules { AreFieldRules rules }
    ensures { MatchResult result (λ made. (made.0 ≡ tasks) × (made.1 ≡ rules) × AreTasks tasks
        × All (IsMade threads) tasks × AreRules rules) (IsTableFault threads tasks rules) }
{
    match task_table(threads, tasks) {
        Ok(tasks) => match rule_table(rules) {
            Ok(rules) => Ok((tasks, rules)),
            Err(fault) => Err(fault),
        },
        Err(fault) => Err(fault),
    }
}

impl State {
    /// The state of these parts where it is valid, and else the first thing that isn't: threads and their
    /// frames, then tasks, then rules, each from the least number.
    pub fn of(
        alloc: Global,
        unit: Verified,
        threads: Threads,
        tasks: Tasks,
        rules: Rules,
        path: ByteText,
    ) -> Result<State, StateFault>
        requires count { length threads ≤ MAX_THREADS }
        requires threads { All IsFieldThread threads }
        requires tasks { AreFieldTasks tasks }
        requires rules { AreFieldRules rules }
        requires path { length path ≤ MAX_TEXT }
        ensures { MatchResult result (λ state. state ≡ record {
          unit = unit;
          threads = threads;
          tasks = tasks;
          rules = rules;
          path = path;
        }) (IsStateFault (record {
          unit = unit;
          threads = threads;
          tasks = tasks;
          rules = rules;
          path = path;
        })) }
    {
        judge_threads(alloc, &unit, tasks.len() as u32, threads.as_slice())?;
        let (tasks, rules) = tables(threads.len() as u32, tasks, rules)?;
        Ok(State {
            unit,
            threads,
            tasks,
            rules,
            path,
            held: Holders::new(alloc),
        })
    }
}
