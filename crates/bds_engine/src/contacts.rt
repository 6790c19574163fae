//! Contacts with the outside that a thread asks for.
ghost use Rattle.std.specs.Prelude.{◌≡◌, ℕ, ℤ, Some};
ghost use Rattle.bds_code.specs.declared.instr.Instr.TheVariants.{FileStamp};
ghost use Rattle.bds_host.specs.declared.asks.Ask.TheVariants as ask;
ghost use Rattle.bds_machine.specs.Answers.{value_of};
ghost use Rattle.bds_machine.specs.declared.point.Point.TheVariants as point;
ghost use Rattle.bds_schedule.specs.Replies.{answer_to};
ghost use Rattle.bds_sim.specs.Row.{question_at};
ghost use Rattle.bds_engine_stages.specs.Held.{FromRow, IsOut};
ghost use Rattle.bds_engine.specs.Given.{TellsNothing};

use crate::giving::{breaks, hand, text_given};
use bds_code::{Instr, Thread};
use bds_engine_stages::{Halt, Stage, answer};
use bds_host::{Ask, Host, Reply};
use bds_machine::{Answer, instr_behind, points_carry_what_fits};
use bds_state::State;
use bds_value::{ByteText, RunFault, copy_text};
use std::alloc::Global;

fn read<H: Host>(
    alloc: Global,
    state: &mut State,
    k: u32,
    thread: Thread,
    path: ByteText,
    host: &mut H,
) -> Result<Stage, Halt>
    requires { IsOut state.old k (point.Asks (ask.Read path)) thread }
    ensures { FromRow state.old k thread (point.Asks (ask.Read path)) (H.log host.old) (H.log host.new) state.new result }
{
    let missing = copy_text(alloc, &path)?;
    match host.ask(alloc, Ask::Read(path))? {
        Reply::Bytes(text) => text_given(alloc, state, k, thread, text, Stage::Turn(k)),
        Reply::Missing => breaks(alloc, state, &thread, RunFault::NoFile(missing)),
        Reply::Fault => Ok(Stage::Faulted),
        _ => unreachable!(),
    }
}

fn command<H: Host>(
    alloc: Global,
    state: &mut State,
    k: u32,
    thread: Thread,
    command: ByteText,
    host: &mut H,
) -> Result<Stage, Halt>
    requires { IsOut state.old k (point.Asks (ask.Sys command)) thread }
    ensures { FromRow state.old k thread (point.Asks (ask.Sys command)) (H.log host.old) (H.log host.new) state.new result }
{
    match host.ask(alloc, Ask::Sys(command))? {
        Reply::SysDone { code, out } => {
            if code == 0 {
                text_given(alloc, state, k, thread, out, Stage::Point)
            } else {
                breaks(alloc, state, &thread, RunFault::SysFailed(code))
            }
        }
        Reply::Fault => Ok(Stage::Faulted),
        _ => unreachable!(),
    }
}

/// An ask that gives nothing.
fn told<H: Host>(
    alloc: Global,
    state: &mut State,
    k: u32,
    thread: Thread,
    ask: Ask,
    host: &mut H,
) -> Result<Stage, Halt>
    requires out { IsOut state.old k (point.Asks ask) thread }
    requires nothing { TellsNothing ask }
    ensures { FromRow state.old k thread (point.Asks ask) (H.log host.old) (H.log host.new) state.new result }
{
    match host.ask(alloc, ask)? {
        Reply::Done => hand(alloc, state, k, thread, Answer::Nothing, Stage::Turn(k)),
        Reply::Missing => hand(alloc, state, k, thread, Answer::Nothing, Stage::Turn(k)),
        Reply::Fault => Ok(Stage::Faulted),
        _ => unreachable!(),
    }
}

/// The number of the question that an instruction asks of a file.
fn question(instr: &Instr) -> u8
    requires { (n : ℕ) × (instr.now ≡ FileStamp n) }
    ensures { instr.now ≡ FileStamp result }
{
    match instr {
        Instr::FileStamp(question) => *question,
        _ => unreachable!(),
    }
}

/// What a stamp says to a question.
fn answer_to(question: u8, there: bool, size: u64) -> Answer
    ensures { (time : ℤ) → value_of result ≡ Some (answer_to (question_at (Some (FileStamp question))) (record { there = there; size = size; time = time })) }
{
    if question == 0 {
        Answer::Bool(there)
    } else if question == 1 {
        Answer::Bool(!there || size == 0)
    } else {
        Answer::Int(size.min(i64::MAX as u64) as i64)
    }
}

fn inspect<H: Host>(
    alloc: Global,
    state: &mut State,
    k: u32,
    thread: Thread,
    path: ByteText,
    host: &mut H,
) -> Result<Stage, Halt>
    requires { IsOut state.old k (point.Asks (ask.Stamp path)) thread }
    ensures { FromRow state.old k thread (point.Asks (ask.Stamp path)) (H.log host.old) (H.log host.new) state.new result }
{
    match host.ask(alloc, Ask::Stamp(path))? {
        Reply::Stamp {
            there,
            size,
            time: _,
        } => {
            let question = question(instr_behind(&state.unit, &thread));
            let given = answer_to(question, there, size);
            answer(alloc, state, k, thread, given, Stage::Turn(k))
        }
        Reply::Fault => Ok(Stage::Faulted),
        _ => unreachable!(),
    }
}

/// Makes the ask of a thread.
pub(crate) fn contact<H: Host>(
    alloc: Global,
    state: &mut State,
    k: u32,
    thread: Thread,
    ask: Ask,
    host: &mut H,
) -> Result<Stage, Halt>
    requires { IsOut state.old k (point.Asks ask) thread }
    ensures { FromRow state.old k thread (point.Asks ask) (H.log host.old) (H.log host.new) state.new result }
{
    points_carry_what_fits();
    match ask {
        Ask::Read(path) => read(alloc, state, k, thread, path, host),
        Ask::Stamp(path) => inspect(alloc, state, k, thread, path, host),
        Ask::Sys(text) => command(alloc, state, k, thread, text, host),
        ask => told(alloc, state, k, thread, ask, host),
    }
}
