//! Worked rows of the table of tasks.
ghost use Rattle.std.specs.Prelude.{◌≡◌, IfOk};
ghost use Rattle.bds_value.specs.Fields.{AreFieldTexts};
ghost use Rattle.bds_tasks.specs.Sound.{IsLegal};
ghost use Rattle.bds_tasks.specs.Tasks.{runs, waits};

use bds_tasks::{Task, TaskEnd, TaskNew, TaskState, TaskTable, Waited, read_tasks};
use bds_value::{ByteText, Input, Listed, NoMemory, Numbers, Texts};
use std::alloc::Global;
use std::process::Abort;
use std::test::Fail;

fn is_waiting(task: &Task) -> bool
    ensures { result ≡ waits (task.now).state }
{
    match task.state {
        TaskState::Waits => true,
        TaskState::Runs | TaskState::Ended(_) | TaskState::Cancelled(_) => false,
    }
}

fn is_running(task: &Task) -> bool
    ensures { result ≡ runs (task.now).state }
{
    match task.state {
        TaskState::Runs => true,
        TaskState::Waits | TaskState::Ended(_) | TaskState::Cancelled(_) => false,
    }
}

/// A list of one file, whose name is one byte.
fn file(alloc: Global, name: u8) -> Result<Texts, NoMemory>
    ensures { IfOk result AreFieldTexts }
{
    let mut text = Listed::new(alloc);
    text.push(name)?;
    let mut files = Listed::new(alloc);
    files.push(text)?;
    Ok(files)
}

/// A task that is tried so many times again.
pub(crate) fn task(alloc: Global, outs: Texts, ins: Texts, retry: bool) -> TaskNew
    requires outs { AreFieldTexts outs }
    requires ins { AreFieldTexts ins }
    ensures { IsLegal result }
{
    TaskNew {
        maker: 0,
        command: Listed::new(alloc),
        name: Listed::new(alloc),
        outs,
        ins,
        cpus: 1,
        can_fail: false,
        retry: if retry { 1 } else { 0 },
    }
}

/// Adds a task that makes a file and needs another.
fn add(alloc: Global, table: &mut TaskTable, out: u8, input: u8, retry: bool) -> Result<u32, Fail> {
    let new = task(alloc, file(alloc, out)?, file(alloc, input)?, retry);
    Ok(table.add(alloc, new)?)
}

/// Starts a task that waits.
fn start(rt: &impl Abort, table: &mut TaskTable, n: u32) {
    let there = n >= 1 && n <= table.count();
    assert!(rt; there);
    let ready = is_waiting(table.task(n));
    assert!(rt; ready);
    table.started(n);
}

/// Ends a task that runs.
fn end(rt: &impl Abort, table: &mut TaskTable, n: u32, code: u8) -> TaskEnd {
    let there = n >= 1 && n <= table.count();
    assert!(rt; there);
    let ready = is_running(table.task(n));
    assert!(rt; ready);
    table.ended(n, code)
}

/// The state and the attempt of a task.
fn state(rt: &impl Abort, table: &TaskTable, n: u32) -> (TaskState, u32) {
    let there = n >= 1 && n <= table.count();
    assert!(rt; there);
    let task = table.task(n);
    (task.state, task.attempt)
}

/// The tasks that a task needs are these.
fn has_needs(rt: &impl Abort, table: &TaskTable, n: u32, wanted: &[u32]) -> bool {
    let there = n >= 1 && n <= table.count();
    assert!(rt; there);
    table.task(n).needs.as_slice() == wanted
}

/// The bytes of a table. They spell no other.
fn bytes_of(alloc: Global, table: &TaskTable) -> Result<ByteText, Fail> {
    let mut bytes = Listed::new(alloc);
    table.write(alloc, &mut bytes)?;
    Ok(bytes)
}

fn are_same(alloc: Global, one: &TaskTable, other: &TaskTable) -> Result<bool, Fail> {
    let one = bytes_of(alloc, one)?;
    let other = bytes_of(alloc, other)?;
    Ok(one.as_slice() == other.as_slice())
}

/// The table that the bytes of a table spell.
fn read_back(rt: &impl Abort, alloc: Global, table: &TaskTable) -> Result<TaskTable, Fail> {
    let bytes = bytes_of(alloc, table)?;
    let mut input = Input { bytes, at: 0 };
    let tasks = read_tasks(alloc, &mut input)?;
    assert!(rt; input.at == input.bytes.len() as u64);
    Ok(TaskTable::of(tasks)?)
}

#[test]
fn a_task_starts_behind_the_one_that_it_needs(rt: HostRuntime) -> Result<(), Fail> {
    let alloc = rt.alloc();
    let mut table = TaskTable::new(alloc);
    assert!(rt; add(alloc, &mut table, b'o', b'i', false)? == 1);
    assert!(rt; add(alloc, &mut table, b'p', b'o', false)? == 2);
    assert!(rt; has_needs(&rt, &table, 2, &[1]));
    assert!(rt; table.startable(4) == Some(1));
    start(&rt, &mut table, 1);
    assert!(rt; table.startable(4) == None);
    assert!(rt; end(&rt, &mut table, 1, 0) == TaskEnd::Well);
    assert!(rt; table.startable(4) == Some(2));
    let table = read_back(&rt, alloc, &table)?;
    assert!(rt; table.startable(4) == Some(2));
    Ok(())
}

/// The number, state and attempt of tasks of which the second failed, and of which the third needs the second.
const FAILED: [(u32, TaskState, u32); 3] = [
    (1, TaskState::Ended(0), 0),
    (2, TaskState::Ended(1), 0),
    (3, TaskState::Cancelled(2), 0),
];

/// The same tasks, revived.
const REVIVED: [(u32, TaskState, u32); 3] = [
    (1, TaskState::Ended(0), 0),
    (2, TaskState::Waits, 0),
    (3, TaskState::Waits, 0),
];

fn has_states(rt: &impl Abort, table: &TaskTable, states: &[(u32, TaskState, u32)]) {
    for (n, wanted, attempt) in states {
        assert!(rt; state(rt, table, *n) == (*wanted, *attempt));
    }
}

/// Three tasks, of which the third needs the second.
fn three(alloc: Global) -> Result<TaskTable, Fail> {
    let mut table = TaskTable::new(alloc);
    add(alloc, &mut table, b'a', b'x', false)?;
    add(alloc, &mut table, b'b', b'x', false)?;
    add(alloc, &mut table, b'c', b'b', false)?;
    Ok(table)
}

fn failed(rt: &impl Abort, alloc: Global) -> Result<TaskTable, Fail> {
    let mut table = three(alloc)?;
    start(rt, &mut table, 1);
    start(rt, &mut table, 2);
    end(rt, &mut table, 1, 0);
    assert!(rt; end(rt, &mut table, 2, 1) == TaskEnd::Failed(1));
    Ok(table)
}

/// The same tasks, of which the first ended well and the others never started.
fn begun(rt: &impl Abort, alloc: Global) -> Result<TaskTable, Fail> {
    let mut table = three(alloc)?;
    start(rt, &mut table, 1);
    end(rt, &mut table, 1, 0);
    Ok(table)
}

fn failed_is_read_back(rt: &impl Abort, alloc: Global) -> Result<TaskTable, Fail> {
    let table = failed(rt, alloc)?;
    let read = read_back(rt, alloc, &table)?;
    assert!(rt; are_same(alloc, &table, &read)?);
    Ok(read)
}

#[test]
fn tasks_without_a_good_end_are_revived(rt: HostRuntime) -> Result<(), Fail> {
    let alloc = rt.alloc();
    let mut table = failed_is_read_back(&rt, alloc)?;
    has_states(&rt, &table, &FAILED);
    table.revive();
    has_states(&rt, &table, &REVIVED);
    let begun = begun(&rt, alloc)?;
    assert!(rt; are_same(alloc, &table, &begun)?);
    Ok(())
}

/// A task that has used its attempts keeps the last one over its revival: it is tried once more, and not
/// again.
#[test]
fn a_revived_task_keeps_its_attempt(rt: HostRuntime) -> Result<(), Fail> {
    let alloc = rt.alloc();
    let mut table = TaskTable::new(alloc);
    add(alloc, &mut table, b'a', b'x', true)?;
    start(&rt, &mut table, 1);
    assert!(rt; end(&rt, &mut table, 1, 1) == TaskEnd::Again);
    start(&rt, &mut table, 1);
    assert!(rt; end(&rt, &mut table, 1, 1) == TaskEnd::Failed(1));
    let mut table = read_back(&rt, alloc, &table)?;
    table.revive();
    assert!(rt; state(&rt, &table, 1) == (TaskState::Waits, 1));
    start(&rt, &mut table, 1);
    assert!(rt; end(&rt, &mut table, 1, 1) == TaskEnd::Failed(1));
    Ok(())
}

#[test]
fn a_wait_tells_who_failed(rt: HostRuntime) -> Result<(), Fail> {
    let alloc = rt.alloc();
    let table = failed(&rt, alloc)?;
    let mut ids: Numbers = Listed::new(alloc);
    ids.push(3)?;
    assert!(rt; table.count() == 3);
    assert!(rt; table.wait_state(&ids) == Waited::Failed(2, 1));
    Ok(())
}

#[test]
fn a_failed_command_is_tried_again(rt: HostRuntime) -> Result<(), Fail> {
    let alloc = rt.alloc();
    let mut table = TaskTable::new(alloc);
    add(alloc, &mut table, b'a', b'x', true)?;
    start(&rt, &mut table, 1);
    assert!(rt; end(&rt, &mut table, 1, 1) == TaskEnd::Again);
    assert!(rt; state(&rt, &table, 1) == (TaskState::Waits, 1));
    start(&rt, &mut table, 1);
    assert!(rt; end(&rt, &mut table, 1, 1) == TaskEnd::Failed(1));
    Ok(())
}
