//! The bytes of tasks in a file.
ghost use Rattle.std.specs.Prelude.{◌≡◌, ◌++◌, ◌≤◌, None, OnOk, IfOk, length, nat_lt};
ghost use Rattle.std.specs.List.{flat_map, All};
ghost use Rattle.bds_value.specs.declared.TheConstants.{MAX_COUNT, MAX_TEXT};
ghost use Rattle.bds_value.specs.Fields.{AreFieldTexts};
ghost use Rattle.bds_value.specs.Reading.{Reads, ReadsSurely, many, rising, key_behind, follows, u32_at};
ghost use Rattle.bds_value.specs.Spelling.{u32_field};
ghost use Rattle.bds_tasks.specs.TaskFields.{made_at, number_of, needs_at, needs_field, state_at, state_field, task_read, tasks_at, files_field, head_field, numbers_field, made_field, going_field, task_field, tasks_field, IsLimited, AreLimited, AreFieldTasks};
ghost use Rattle.bds_tasks.specs.Last.{last_number};

use crate::task::{Task, TaskNew, TaskState, Tasks};
use bds_value::{
    FieldFault, Input, Listed, MAX_COUNT, MAX_TASKS, NoMemory, Numbers, are_bytes, put_bool,
    put_count, put_text_field, put_texts, put_u8, put_u32, read_bool, read_count, read_text,
    read_texts, read_u8, read_u32,
};
use std::alloc::Global;

fn read_made(alloc: Global, input: &mut Input) -> Result<TaskNew, FieldFault>
    ensures read { Reads (made_at input.old) input.new result }
    ensures kept { input.new.bytes ≡ input.old.bytes }
{
    let maker = read_u32(input)?;
    let command = read_text(alloc, input)?;
    let name = read_text(alloc, input)?;
    let outs = read_texts(alloc, input)?;
    let ins = read_texts(alloc, input)?;
    let cpus = read_u32(input)?;
    let can_fail = read_bool(input)?;
    let retry = read_u32(input)?;
    Ok(TaskNew {
        maker,
        command,
        name,
        outs,
        ins,
        cpus,
        can_fail,
        retry,
    })
}

/// Reads numbers behind their count. They rise.
fn read_needs(alloc: Global, input: &mut Input) -> Result<Numbers, FieldFault>
    ensures read { Reads (needs_at input.old) input.new result }
    ensures kept { input.new.bytes ≡ input.old.bytes }
{
    let count = read_count(input, MAX_COUNT)?;
    read_counted_needs(alloc, input, count)
}

fn read_counted_needs(alloc: Global, input: &mut Input, count: u32) -> Result<Numbers, FieldFault>
    ensures read { Reads (rising nat_lt u32_at number_of None count input.old) input.new result }
    ensures kept { input.new.bytes ≡ input.old.bytes }
{
    let mut needs = Listed::new(alloc);
    for _ in 0..count {
        let need = read_need(input, &needs)?;
        needs.push(need)?;
    }
    Ok(needs)
}

/// Reads a number, which has to come behind the last one.
fn read_need(input: &mut Input, needs: &Numbers) -> Result<u32, FieldFault>
    ensures read { ReadsSurely (key_behind nat_lt u32_at (last_number needs.now) input.old) input.new result }
    ensures kept { input.new.bytes ≡ input.old.bytes }
{
    let at = input.at;
    let need = read_u32(input)?;
    if !follows(needs, need) {
        return Err(FieldFault::NotRising(at));
    }
    Ok(need)
}

/// A number comes behind the last of others, where there is one.
#[tactic(auto, using(crate::proofs::LastLaws::last_number_rules))]
pub(crate) fn follows(needs: &Numbers, need: u32) -> bool
    ensures { result ≡ follows nat_lt (last_number needs.now) need }
{
    match needs.as_slice().last() {
        Some(last) => *last < need,
        None => true,
    }
}

fn read_state(input: &mut Input) -> Result<TaskState, FieldFault>
    ensures read { ReadsSurely (state_at input.old) input.new result }
    ensures kept { input.new.bytes ≡ input.old.bytes }
{
    let at = input.at;
    match read_u8(input)? {
        0 => Ok(TaskState::Waits),
        1 => Ok(TaskState::Runs),
        2 => Ok(TaskState::Ended(read_u8(input)?)),
        3 => Ok(TaskState::Cancelled(read_u32(input)?)),
        tag => Err(FieldFault::BadTag(at, tag)),
    }
}

fn read_task(alloc: Global, input: &mut Input) -> Result<Task, FieldFault>
    ensures read { Reads (task_read input.old) input.new result }
    ensures kept { input.new.bytes ≡ input.old.bytes }
{
    let made = read_made(alloc, input)?;
    let attempt = read_u32(input)?;
    let needs = read_needs(alloc, input)?;
    let state = read_state(input)?;
    Ok(Task {
        made,
        needs,
        attempt,
        state,
    })
}

fn read_counted_tasks(alloc: Global, input: &mut Input, count: u32) -> Result<Tasks, FieldFault>
    ensures read { Reads (many task_read count input.old) input.new result }
    ensures kept { input.new.bytes ≡ input.old.bytes }
{
    let mut tasks = Listed::new(alloc);
    for _ in 0..count {
        tasks.push(read_task(alloc, input)?)?;
    }
    Ok(tasks)
}

fn read_list(alloc: Global, input: &mut Input) -> Result<Tasks, FieldFault>
    ensures read { Reads (tasks_at input.old) input.new result }
    ensures kept { input.new.bytes ≡ input.old.bytes }
{
    let count = read_count(input, MAX_TASKS)?;
    read_counted_tasks(alloc, input, count)
}

fn put_head(out: &mut Vec<u8>, new: &TaskNew) -> Result<(), NoMemory>
    requires command { length new.now.command ≤ MAX_TEXT }
    requires name { length new.now.name ≤ MAX_TEXT }
    ensures { OnOk result (out.new.items ≡ out.old.items ++ head_field new.now) }
{
    put_u32(out, new.maker)?;
    put_text_field(out, new.command.as_slice())?;
    put_text_field(out, new.name.as_slice())
}

fn put_files(out: &mut Vec<u8>, new: &TaskNew) -> Result<(), NoMemory>
    requires outs { AreFieldTexts new.now.outs }
    requires ins { AreFieldTexts new.now.ins }
    ensures { OnOk result (out.new.items ≡ out.old.items ++ files_field new.now) }
{
    put_texts(out, new.outs.as_slice())?;
    put_texts(out, new.ins.as_slice())
}

fn put_numbers(out: &mut Vec<u8>, new: &TaskNew) -> Result<(), NoMemory>
    ensures { OnOk result (out.new.items ≡ out.old.items ++ numbers_field new.now) }
{
    put_u32(out, new.cpus)?;
    put_bool(out, new.can_fail)?;
    put_u32(out, new.retry)
}

fn put_made(out: &mut Vec<u8>, new: &TaskNew) -> Result<(), NoMemory>
    requires command { length new.now.command ≤ MAX_TEXT }
    requires name { length new.now.name ≤ MAX_TEXT }
    requires outs { AreFieldTexts new.now.outs }
    requires ins { AreFieldTexts new.now.ins }
    ensures { OnOk result (out.new.items ≡ out.old.items ++ made_field new.now) }
{
    put_head(out, new)?;
    put_files(out, new)?;
    put_numbers(out, new)
}

fn put_needs(out: &mut Vec<u8>, needs: &[u32]) -> Result<(), NoMemory>
    requires { length needs.now ≤ MAX_COUNT }
    ensures { OnOk result (out.new.items ≡ out.old.items ++ needs_field needs.now) }
{
    put_count(out, needs.len())?;
    put_each_need(out, needs)
}

fn put_each_need(out: &mut Vec<u8>, needs: &[u32]) -> Result<(), NoMemory>
    ensures { OnOk result (out.new.items ≡ out.old.items ++ flat_map u32_field needs.now) }
{
    for need in needs {
        put_u32(out, *need)?;
    }
    Ok(())
}

fn put_state(out: &mut Vec<u8>, state: TaskState) -> Result<(), NoMemory>
    ensures { OnOk result (out.new.items ≡ out.old.items ++ state_field state) }
{
    match state {
        TaskState::Waits => put_u8(out, 0),
        TaskState::Runs => put_u8(out, 1),
        TaskState::Ended(code) => {
            put_u8(out, 2)?;
            put_u8(out, code)
        }
        TaskState::Cancelled(n) => {
            put_u8(out, 3)?;
            put_u32(out, n)
        }
    }
}

fn put_going(out: &mut Vec<u8>, task: &Task) -> Result<(), NoMemory>
    requires { IsLimited task.now }
    ensures { OnOk result (out.new.items ≡ out.old.items ++ going_field task.now) }
{
    put_u32(out, task.attempt)?;
    put_needs(out, task.needs.as_slice())?;
    put_state(out, task.state)
}

fn put_task(out: &mut Vec<u8>, task: &Task) -> Result<(), NoMemory>
    requires { IsLimited task.now }
    ensures { OnOk result (out.new.items ≡ out.old.items ++ task_field task.now) }
{
    put_made(out, &task.made)?;
    put_going(out, task)
}

fn put_each_task(out: &mut Vec<u8>, tasks: &[Task]) -> Result<(), NoMemory>
    requires { All IsLimited tasks.now }
    ensures { OnOk result (out.new.items ≡ out.old.items ++ flat_map task_field tasks.now) }
{
    for task in tasks {
        put_task(out, task)?;
    }
    Ok(())
}

/// Puts tasks behind their number. After a refusal `out` is open.
pub(crate) fn put_tasks(out: &mut Vec<u8>, tasks: &[Task]) -> Result<(), NoMemory>
    requires { AreLimited tasks.now }
    ensures { OnOk result (out.new.items ≡ out.old.items ++ tasks_field tasks.now) }
{
    put_count(out, tasks.len())?;
    put_each_task(out, tasks)
}

/// Reads tasks behind their number.
pub fn read_tasks(alloc: Global, input: &mut Input) -> Result<Tasks, FieldFault>
    ensures read { Reads (tasks_at input.old) input.new result }
    ensures legal { IfOk result AreFieldTasks }
    ensures kept { input.new.bytes ≡ input.old.bytes }
{
    are_bytes(input.bytes.as_slice());
    read_list(alloc, input)
}
