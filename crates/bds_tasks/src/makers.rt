//! Which tasks make a file, found without a search.
ghost use Rattle.std.specs.Prelude.{◌≡◌, ◌≤◌, [], List, length, is_some, true, None, IfSome, IfOk};
ghost use Rattle.bds_value.specs.declared.TheConstants.{MAX_TASKS};
ghost use Rattle.bds_tasks.specs.declared.task.Task.{Task as AnyTask};
ghost use Rattle.bds_tasks.specs.Makers.{tasks_at, tasks_in, with_one, AreMakers, AreMakersOf, HasOne, HaveOne};
ghost use Rattle.bds_tasks.specs.Makers.{first_ended, with_next, HasMore};

use crate::task::Task;
use crate::waits::is_pending_at;
use bds_value::{ByteText, Listed, NoMemory, Numbers};
use indexmap::IndexMap;
use std::alloc::Global;

/// For each file the numbers of tasks that make it: of all that are pending, and of some that have ended.
pub(crate) type FileTasks = IndexMap<Vec<u8>, Numbers>;

/// The tasks that make a file.
pub(crate) fn tasks_of<'a>(makers: &'a FileTasks, file: &[u8]) -> &'a [u32]
    ensures { result.now ≡ tasks_in makers.now.entries file.now }
{
    match makers.get(file) {
        Some(numbers) => numbers.as_slice(),
        None => &[],
    }
}

/// Of these tasks those that are pending, and one more.
fn with_one(alloc: Global, tasks: &[Task], numbers: &[u32], n: u32) -> Result<Numbers, NoMemory>
    ensures { IfOk result (λ kept. kept ≡ with_one tasks.now numbers.now n) }
{
    let mut kept = Listed::new(alloc);
    for m in numbers {
        if is_pending_at(tasks, *m) {
            kept.push(*m)?;
        }
    }
    kept.push(n)?;
    Ok(kept)
}

/// The first of these tasks has ended.
fn first_ended(tasks: &[Task], numbers: &[u32]) -> bool
    ensures { result ≡ first_ended tasks.now numbers.now }
{
    match numbers.first() {
        Some(n) => !is_pending_at(tasks, *n),
        None => false,
    }
}

/// Puts a task behind others. Where the first of them has ended, all that have ended are let go: the tasks that make
/// one file end in their order, but for those that are canceled.
fn put_next(alloc: Global, tasks: &[Task], numbers: &mut Numbers, n: u32) -> Result<(), NoMemory>
    ensures { IfOk result (λ _. numbers.new ≡ with_next tasks.now numbers.old n) }
{
    if first_ended(tasks, numbers.as_slice()) {
        *numbers = with_one(alloc, tasks, numbers.as_slice(), n)?;
        Ok(())
    } else {
        numbers.push(n)
    }
}

/// Puts a task behind those that make a file.
fn put_behind(
    alloc: Global,
    tasks: &[Task],
    makers: &mut FileTasks,
    file: &[u8],
    n: u32,
) -> Result<(), NoMemory>
    requires { is_some (tasks_at file.now makers.old.entries) ≡ true }
    ensures { IfOk result (λ _. HasOne tasks.now file.now n makers.old.entries makers.new.entries) }
{
    match makers.get_mut(file) {
        Some(numbers) => {
            put_next(alloc, tasks, numbers, n)?;
            Ok(())
        }
        None => Ok(()),
    }
}

/// Puts in a file, which isn't there, with a task that makes it.
fn put_new(alloc: Global, makers: &mut FileTasks, file: &[u8], n: u32) -> Result<(), NoMemory>
    requires { tasks_at file.now makers.old.entries ≡ None }
    ensures { (ts : List AnyTask) → IfOk result (λ _. HasOne ts file.now n makers.old.entries makers.new.entries) }
{
    let file = Vec::from_slice(alloc, file)?;
    let mut numbers = Listed::new(alloc);
    numbers.push(n)?;
    makers.insert(file, numbers)?;
    Ok(())
}

/// Lets a file have one task more.
fn put(
    alloc: Global,
    tasks: &[Task],
    makers: &mut FileTasks,
    file: &[u8],
    n: u32,
) -> Result<(), NoMemory>
    ensures { IfOk result (λ _. HasOne tasks.now file.now n makers.old.entries makers.new.entries) }
{
    if makers.contains_key(file) {
        put_behind(alloc, tasks, makers, file, n)
    } else {
        put_new(alloc, makers, file, n)
    }
}

/// Lets each of these files have one task more.
fn put_files(
    alloc: Global,
    tasks: &[Task],
    makers: &mut FileTasks,
    files: &[ByteText],
    n: u32,
) -> Result<(), NoMemory>
    ensures { IfOk result (λ _. HaveOne tasks.now files.now n makers.old.entries makers.new.entries) }
{
    for file in files {
        put(alloc, tasks, makers, file.as_slice(), n)?;
    }
    Ok(())
}

/// An index in which each of these files has one task more. It is let go where there is no memory.
pub(crate) fn with_files(
    alloc: Global,
    tasks: &[Task],
    makers: Option<FileTasks>,
    files: &[ByteText],
    n: u32,
) -> Option<FileTasks>
    ensures { HasMore tasks.now files.now n makers result }
{
    match makers {
        Some(mut makers) => match put_files(alloc, tasks, &mut makers, files, n) {
            Ok(()) => Some(makers),
            Err(_) => None,
        },
        None => None,
    }
}

/// Puts in the files of all tasks.
fn put_tasks(alloc: Global, makers: &mut FileTasks, tasks: &[Task]) -> Result<(), NoMemory>
    requires few { length tasks.now ≤ MAX_TASKS }
    requires none { AreMakersOf tasks.now [] makers.old.entries }
    ensures { IfOk result (λ _. AreMakers tasks.now makers.new.entries) }
{
    for (i, task) in tasks.iter().enumerate() {
        put_files(
            alloc,
            tasks,
            makers,
            task.made.outs.as_slice(),
            i as u32 + 1,
        )?;
    }
    Ok(())
}

/// For each file the tasks that make it, where there is memory for that.
pub(crate) fn makers_of(alloc: Global, tasks: &[Task]) -> Option<FileTasks>
    requires { length tasks.now ≤ MAX_TASKS }
    ensures { IfSome result (λ m. AreMakers tasks.now m.entries) }
{
    let mut makers = IndexMap::new(alloc);
    match put_tasks(alloc, &mut makers, tasks) {
        Ok(()) => Some(makers),
        Err(_) => None,
    }
}
