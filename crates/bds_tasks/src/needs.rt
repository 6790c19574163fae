//! Which pending tasks make files, and which tasks a new one needs.
ghost use Rattle.std.specs.Prelude.{◌≡◌, ◌≤◌, ◌++◌, ◌&&◌, length, filter, None, IfSome, IfOk, OnOk, IsSorted};
ghost use Rattle.std.specs.List.Sorted.{IsPermutation};
ghost use Rattle.std.specs.Ordering.{nat_cmp};
ghost use Rattle.bds_value.specs.declared.TheConstants.{MAX_TASKS};
ghost use Rattle.bds_tasks.specs.Files.{is_among};
ghost use Rattle.bds_tasks.specs.Makers.{AreMakers, pending_makers, unrepeated};
ghost use Rattle.bds_tasks.specs.Tasks.{is_pending, passes, numbers_of, is_needed, pending_makes};

use crate::fields::follows;
use crate::files::{is_among, meet};
use crate::makers::{FileTasks, tasks_of};
use crate::starts::is_pending;
use crate::task::{Task, TaskNew};
use crate::waits::{any_pending, is_pending_at};
use bds_value::{ByteText, Listed, NoMemory, Numbers};
use std::alloc::Global;

/// A pending task makes the file.
fn makes(task: &Task, file: &[u8]) -> bool
    ensures { result ≡ is_pending task.now && is_among task.now.made.outs file.now }
{
    is_pending(task) && is_among(task.made.outs.as_slice(), file)
}

/// A pending task makes a file, by a search.
fn pending_makes_by_search(tasks: &[Task], file: &[u8]) -> bool
    ensures { result ≡ pending_makes tasks.now file.now }
{
    for task in tasks {
        if makes(task, file) {
            return true;
        }
    }
    false
}

/// A pending task makes a file.
pub(crate) fn pending_makes(tasks: &[Task], makers: &Option<FileTasks>, file: &[u8]) -> bool
    requires { IfSome makers.now (λ m. AreMakers tasks.now m.entries) }
    ensures { result ≡ pending_makes tasks.now file.now }
{
    match makers {
        Some(makers) => any_pending(tasks, tasks_of(makers, file)),
        None => pending_makes_by_search(tasks, file),
    }
}

/// A task is pending and makes a file that the new one needs or makes.
fn is_needed(new: &TaskNew, task: &Task) -> bool
    ensures { result ≡ is_needed new.now task.now }
{
    let outs = task.made.outs.as_slice();
    is_pending(task) && (meet(outs, new.ins.as_slice()) || meet(outs, new.outs.as_slice()))
}

/// The tasks that a new one needs, by a search.
fn needs_by_search(alloc: Global, tasks: &[Task], new: &TaskNew) -> Result<Numbers, NoMemory>
    requires { length tasks.now ≤ MAX_TASKS }
    ensures { IfOk result (λ needs. needs ≡ numbers_of (is_needed new.now) tasks.now) }
{
    let mut needs = Listed::new(alloc);
    for (i, task) in tasks.iter().enumerate() {
        if is_needed(new, task) {
            needs.push(i as u32 + 1)?;
        }
    }
    Ok(needs)
}

/// Puts those of these tasks that are pending at the end.
fn put_pending(out: &mut Vec<u32>, tasks: &[Task], numbers: &[u32]) -> Result<(), NoMemory>
    ensures { OnOk result (out.new.items ≡ out.old.items ++ filter (passes is_pending tasks.now) numbers.now) }
{
    for n in numbers {
        if is_pending_at(tasks, *n) {
            out.push(*n)?;
        }
    }
    Ok(())
}

/// Puts the pending tasks that make these files at the end.
fn put_makers(
    out: &mut Vec<u32>,
    tasks: &[Task],
    makers: &FileTasks,
    files: &[ByteText],
) -> Result<(), NoMemory>
    ensures { OnOk result (out.new.items ≡ out.old.items ++ pending_makers tasks.now makers.now.entries files.now) }
{
    for file in files {
        put_pending(out, tasks, tasks_of(makers, file.as_slice()))?;
    }
    Ok(())
}

/// Puts numbers in order.
fn sort(numbers: &mut Vec<u32>)
    ensures moved { IsPermutation numbers.old.items numbers.new.items }
    ensures sorted { IsSorted nat_cmp numbers.new.items }
{
    numbers.sort_unstable();
}

/// Numbers that are in order, each once.
fn unrepeated(alloc: Global, numbers: &[u32]) -> Result<Numbers, NoMemory>
    ensures { IfOk result (λ out. out ≡ unrepeated None numbers.now) }
{
    let mut out = Listed::new(alloc);
    for n in numbers {
        if follows(&out, *n) {
            out.push(*n)?;
        }
    }
    Ok(out)
}

/// The tasks that a new one needs, by an index.
fn needs_by_index(
    alloc: Global,
    tasks: &[Task],
    makers: &FileTasks,
    new: &TaskNew,
) -> Result<Numbers, NoMemory>
    requires { AreMakers tasks.now makers.now.entries }
    ensures { IfOk result (λ needs. needs ≡ numbers_of (is_needed new.now) tasks.now) }
{
    let mut found = Vec::new(alloc);
    put_makers(&mut found, tasks, makers, new.ins.as_slice())?;
    put_makers(&mut found, tasks, makers, new.outs.as_slice())?;
    sort(&mut found);
    unrepeated(alloc, &found)
}

/// The tasks that a new one needs.
pub(crate) fn needs_of(
    alloc: Global,
    tasks: &[Task],
    makers: &Option<FileTasks>,
    new: &TaskNew,
) -> Result<Numbers, NoMemory>
    requires few { length tasks.now ≤ MAX_TASKS }
    requires known { IfSome makers.now (λ m. AreMakers tasks.now m.entries) }
    ensures { IfOk result (λ needs. needs ≡ numbers_of (is_needed new.now) tasks.now) }
{
    match makers {
        Some(makers) => needs_by_index(alloc, tasks, makers, new),
        None => needs_by_search(alloc, tasks, new),
    }
}
