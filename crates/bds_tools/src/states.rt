//! What is told of a state.
ghost use Rattle.std.specs.Prelude.{◌≡◌, IfOk};
ghost use Rattle.std.specs.List.{count_by};
ghost use Rattle.bds_code.specs.UnitFields.{IsFieldUnit};
ghost use Rattle.bds_tasks.specs.Tasks.{is_good as is_good_task};
ghost use Rattle.bds_tools.specs.Info.{info_text, instructions as instructions_of};

use crate::lines::put_line;
use bds_code::Unit;
use bds_state::State;
use bds_tasks::{Task, TaskState};
use bds_value::{ByteText, Listed, NoMemory, put};
use bds_verify::verified_units_may_be_written;
use std::alloc::Global;

/// How many instructions all functions of a unit have together.
fn instructions(unit: &Unit) -> u64
    requires { IsFieldUnit unit.now }
    ensures { result ≡ instructions_of unit.now.functions }
{
    let mut total = 0;
    for function in unit.functions.as_slice() {
        total += function.code.len() as u64;
    }
    total
}

fn is_good(task: &Task) -> bool
    ensures { result ≡ is_good_task task.now }
{
    match task.state {
        TaskState::Ended(code) => task.made.can_fail || code == 0,
        TaskState::Waits | TaskState::Runs | TaskState::Cancelled(_) => false,
    }
}

/// How many tasks have a good end.
fn ended_well(tasks: &[Task]) -> usize
    ensures { result ≡ count_by is_good_task tasks.now }
{
    let mut count = 0;
    for task in tasks {
        if is_good(task) {
            count += 1;
        }
    }
    count
}

/// Seven lines: the path of the script, and how much of each kind a state has.
pub fn info(alloc: Global, state: &State) -> Result<ByteText, NoMemory>
    ensures { IfOk result (λ text. text ≡ info_text state.now) }
{
    let unit = state.unit.unit();
    verified_units_may_be_written();
    let mut out = Vec::new(alloc);
    put(&mut out, b"script ")?;
    put(&mut out, state.path.as_slice())?;
    put(&mut out, b"\n")?;
    put_line(&mut out, b"functions", unit.functions.len() as u64)?;
    put_line(&mut out, b"instructions", instructions(unit))?;
    put_line(&mut out, b"threads", state.threads.len() as u64)?;
    put_line(&mut out, b"tasks", u64::from(state.tasks.count()))?;
    put_line(
        &mut out,
        b"ended well",
        ended_well(state.tasks.as_slice()) as u64,
    )?;
    put_line(&mut out, b"rules", u64::from(state.rules.count()))?;
    Ok(Listed::from_vec(out))
}
