//! The rows that leave the machine and wait for an answer.
ghost use Rattle.std.specs.Prelude.{◌≡◌, true, IsSome, Some, IfOk, Ok};
ghost use Rattle.std.specs.Result.{result_map_both};
ghost use Rattle.bds_code_frames.specs.Stack.{stack};
ghost use Rattle.bds_machine.specs.Answers.{is_awaited};
ghost use Rattle.bds_machine_values.specs.Faults.{Answers};
ghost use Rattle.bds_machine.specs.Points.{written, compared, with_work, spawned, asked};
ghost use Rattle.bds_machine.specs.Tasks.{task_of, rule_of};

use crate::calls::function_at;
use crate::point::Point;
use crate::tasks;
use bds_code::{Instr, Unit};
use bds_code_frames::Frames;
use bds_host::Ask;
use bds_machine_values::{RowFault, take_all, take_text, take_texts};
use std::alloc::Global;

fn write(frames: &mut Frames) -> Ask
    requires { IsSome (written (stack frames.old)) }
    ensures { written (stack frames.old) ≡ Some (Ok (Point.Asks result, stack frames.new)) }
{
    let text = take_text(frames);
    let path = take_text(frames);
    Ask::Write { path, text }
}

fn compare(alloc: Global, frames: &mut Frames) -> Result<Point, RowFault>
    requires { IsSome (compared (stack frames.old)) }
    ensures answers { Answers (compared (stack frames.old)) (result_map_both (λ p. (p, stack frames.new)) (λ e. e) result) }
    ensures awaited { IfOk result (λ p. is_awaited p ≡ true) }
{
    let ins = take_texts(alloc, frames)?;
    let outs = take_texts(alloc, frames)?;
    Ok(Point::Old(outs, ins))
}

fn new_task(alloc: Global, frames: &mut Frames) -> Result<Point, RowFault>
    requires { IsSome (with_work (λ w cpus retry. Point.Task (task_of w cpus retry)) (stack frames.old)) }
    ensures answers { Answers (with_work (λ w cpus retry. Point.Task (task_of w cpus retry)) (stack frames.old)) (result_map_both (λ p. (p, stack frames.new)) (λ e. e) result) }
    ensures awaited { IfOk result (λ p. is_awaited p ≡ true) }
{
    let rule = tasks::take_rule(alloc, frames)?;
    Ok(Point::Task(tasks::task_of(rule)))
}

fn declare(alloc: Global, frames: &mut Frames) -> Result<Point, RowFault>
    requires { IsSome (with_work (λ w cpus retry. Point.Declare (rule_of w cpus retry)) (stack frames.old)) }
    ensures answers { Answers (with_work (λ w cpus retry. Point.Declare (rule_of w cpus retry)) (stack frames.old)) (result_map_both (λ p. (p, stack frames.new)) (λ e. e) result) }
    ensures awaited { IfOk result (λ p. is_awaited p ≡ true) }
{
    let rule = tasks::take_rule(alloc, frames)?;
    Ok(Point::Declare(rule))
}

fn spawn(alloc: Global, unit: &Unit, callee: u32, frames: &mut Frames) -> Result<Point, RowFault>
    requires { IsSome (spawned unit.now callee (stack frames.old)) }
    ensures answers { Answers (spawned unit.now callee (stack frames.old)) (result_map_both (λ p. (p, stack frames.new)) (λ e. e) result) }
    ensures awaited { IfOk result (λ p. is_awaited p ≡ true) }
{
    let count = function_at(unit, callee).params.len();
    Ok(Point::Spawn(callee, take_all(alloc, frames, count)?))
}

/// What an instruction asks. It takes its operands.
pub(crate) fn ask(
    alloc: Global,
    unit: &Unit,
    instr: &Instr,
    frames: &mut Frames,
) -> Result<Point, RowFault>
    requires { IsSome (asked unit.now instr.now (stack frames.old)) }
    ensures answers { Answers (asked unit.now instr.now (stack frames.old)) (result_map_both (λ p. (p, stack frames.new)) (λ e. e) result) }
    ensures awaited { IfOk result (λ p. is_awaited p ≡ true) }
{
    match instr {
        Instr::FileRead => Ok(Point::Asks(Ask::Read(take_text(frames)))),
        Instr::FileWrite => Ok(Point::Asks(write(frames))),
        Instr::FileRemove => Ok(Point::Asks(Ask::Remove(take_text(frames)))),
        Instr::FileStamp(_) => Ok(Point::Asks(Ask::Stamp(take_text(frames)))),
        Instr::Out => Ok(Point::Asks(Ask::Out(take_text(frames)))),
        Instr::Sys => Ok(Point::Asks(Ask::Sys(take_text(frames)))),
        Instr::OutOfDate => compare(alloc, frames),
        Instr::NewTask => new_task(alloc, frames),
        Instr::Declare => declare(alloc, frames),
        Instr::Goal => Ok(Point::Goal(take_texts(alloc, frames)?)),
        Instr::Spawn(callee) => spawn(alloc, unit, *callee, frames),
        Instr::Wait => Ok(Point::Wait(take_texts(alloc, frames)?)),
        Instr::WaitAll => Ok(Point::WaitAll),
        Instr::Save => Ok(Point::Save(Some(take_text(frames)))),
        Instr::SaveHere => Ok(Point::Save(None)),
        _ => unreachable!(),
    }
}
