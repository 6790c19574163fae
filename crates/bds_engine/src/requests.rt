//! What a thread needs of the run at a point.
ghost use Rattle.std.specs.Prelude.{◌≡◌, ◌<◌, ℕ, List, length, slice_get, IfOk, Some};
ghost use Rattle.bds_code.specs.declared.unit.Function.{Function};
ghost use Rattle.bds_host.specs.Host.{Log};
ghost use Rattle.bds_host.specs.declared.asks.Ask.TheVariants as ask;
ghost use Rattle.bds_machine.specs.declared.point.Point.TheVariants as point;
ghost use Rattle.bds_state.specs.Changes.{IsLive};
ghost use Rattle.bds_state.specs.StateSpelling.{spells2};
ghost use Rattle.bds_value.specs.declared.TheConstants.{MAX_THREADS};
ghost use Rattle.bds_verify.specs.Threads.{Typed};
ghost use Rattle.bds_engine_stages.specs.Steps.{AsksThen, or_faulted};
ghost use Rattle.bds_engine_stages.specs.declared.stage.Stage.TheVariants as stage;
ghost use Rattle.bds_engine_stages.specs.Held.{FromPoint, FromRow, IsAtPoint, IsOut};
ghost use Rattle.bds_engine.specs.Given.{BeginsThread, path_or};

use crate::contacts::contact;
use crate::files::{achieve, compare, declare};
use crate::giving::{breaks, hand, wait_behind};
use crate::tables::put_task;
use bds_ckpt::write;
use bds_code::Thread;
use bds_engine_parts::{IdFault, ids_of, task_id, thread_id};
use bds_engine_stages::{Cause, Halt, Stage, checkpoint_path, fails, save as keep, wait};
use bds_host::Host;
use bds_machine::{Answer, Point, points_carry_what_fits};
use bds_state::{State, numbers_fit, threads_may_wait_for_what_they_made};
use bds_tasks::{AddFault, TaskNew};
use bds_value::{ByteText, Items, MAX_THREADS, NoMemory, RunFault, Texts, copy_text};
use std::alloc::Global;

/// Makes a task.
fn make_task(
    alloc: Global,
    state: &mut State,
    k: u32,
    thread: Thread,
    task: TaskNew,
) -> Result<Stage, Halt>
    requires { IsOut state.old k (point.Task task) thread }
    ensures { (log : Log) → FromRow state.old k thread (point.Task task) log log state.new result }
{
    points_carry_what_fits();
    let mut task = task;
    task.maker = k;
    match put_task(alloc, state, task) {
        Ok(n) => {
            let id = task_id(alloc, n)?;
            hand(alloc, state, k, thread, Answer::Text(id), Stage::Point)
        }
        Err(AddFault::TooMany(_)) => breaks(alloc, state, &thread, RunFault::TooManyTasks),
        Err(AddFault::NoMemory) => Err(Halt::NoMemory),
    }
}

/// Begins a thread.
fn begin(
    alloc: Global,
    state: &mut State,
    maker: u32,
    function: u32,
    args: Items,
) -> Result<Stage, Halt>
    requires room { length state.old.threads < MAX_THREADS }
    requires maker { IsLive state.old.threads maker }
    requires function { function < length state.old.unit.functions }
    requires args { (f : Function) → slice_get state.old.unit.functions function ≡ Some f → Typed args f.params }
    ensures { BeginsThread maker function args state.old state.new result }
{
    match state.spawn(alloc, maker, function, args) {
        Ok(_) => Ok(Stage::Point),
        Err(AddFault::TooMany(_)) => unreachable!(),
        Err(AddFault::NoMemory) => Err(Halt::NoMemory),
    }
}

/// Makes a thread. Its maker has its number first, since it is copied from the state.
fn spawn(
    alloc: Global,
    state: &mut State,
    k: u32,
    thread: Thread,
    function: u32,
    args: Items,
) -> Result<Stage, Halt>
    requires { IsOut state.old k (point.Spawn function args) thread }
    ensures { (log : Log) → FromRow state.old k thread (point.Spawn function args) log log state.new result }
{
    points_carry_what_fits();
    let n = state.threads.len();
    if n as u64 >= MAX_THREADS {
        return breaks(alloc, state, &thread, RunFault::TooManyThreads);
    }
    let id = thread_id(alloc, n as u32)?;
    match hand(alloc, state, k, thread, Answer::Text(id), Stage::Point) {
        Ok(_) => begin(alloc, state, k, function, args),
        Err(halt) => Err(halt),
    }
}

fn text_at(alloc: Global, texts: &[ByteText], i: usize) -> Result<ByteText, NoMemory>
    requires { (text : List ℕ) × (slice_get texts.now i ≡ Some text) }
    ensures { IfOk result (λ text. slice_get texts.now i ≡ Some text) }
{
    match texts.get(i) {
        Some(text) => copy_text(alloc, text),
        None => unreachable!(),
    }
}

/// Waits for ids.
fn wait_for(
    alloc: Global,
    state: &mut State,
    k: u32,
    thread: Thread,
    texts: Texts,
) -> Result<Stage, Halt>
    requires { IsOut state.old k (point.Wait texts) thread }
    ensures { (log : Log) → FromRow state.old k thread (point.Wait texts) log log state.new result }
{
    points_carry_what_fits();
    state.is_valid();
    let (tasks, threads) = (state.tasks.count(), state.threads.len() as u32);
    match ids_of(alloc, tasks, threads, texts.as_slice()) {
        Ok(ids) => wait_behind(alloc, state, k, thread, ids),
        Err(IdFault::NoId(i)) => {
            let text = text_at(alloc, texts.as_slice(), i)?;
            breaks(alloc, state, &thread, RunFault::NoId(text))
        }
        Err(IdFault::NoMemory) => Err(Halt::NoMemory),
    }
}

/// Waits for all that the thread made.
fn wait_all(alloc: Global, state: &mut State, k: u32, thread: Thread) -> Result<Stage, Halt>
    requires { IsOut state.old k (point.WaitAll) thread }
    ensures { (log : Log) → FromRow state.old k thread (point.WaitAll) log log state.new result }
{
    state.is_valid();
    threads_may_wait_for_what_they_made();
    let ids = state.made_by(alloc, k)?;
    wait_behind(alloc, state, k, thread, ids)
}

/// The code of the thread has ended: it waits for all that it made.
fn close(alloc: Global, state: &mut State, k: u32, thread: Thread) -> Result<Stage, Halt>
    requires { IsAtPoint state.old k (point.Finished) thread }
    ensures { (log : Log) → FromRow state.old k thread (point.Finished) log log state.new result }
{
    state.is_valid();
    threads_may_wait_for_what_they_made();
    let ids = state.made_by(alloc, k)?;
    Ok(wait(state, k, thread, ids))
}

/// The path at which a state is saved: this one, or that beside the script.
fn path_of(alloc: Global, path: Option<ByteText>, script: &ByteText) -> Result<ByteText, NoMemory>
    ensures { IfOk result (λ at. at ≡ path_or script.now path) }
{
    match path {
        Some(path) => Ok(path),
        None => checkpoint_path(alloc, script),
    }
}

/// Keeps the state at a path, or beside the script.
fn keep_state<H: Host>(
    alloc: Global,
    state: &State,
    path: Option<ByteText>,
    host: &mut H,
) -> Result<Stage, Halt>
    ensures { AsksThen (ask.Save (path_or state.now.path path) (spells2 state.now)) (H.log host.old) (H.log host.new) (or_faulted stage.Point) result }
{
    let path = path_of(alloc, path, &state.path)?;
    let image = write(alloc, state)?;
    keep(alloc, path, image, Stage::Point, host)
}

/// Saves the state with the thread behind its statement.
fn save<H: Host>(
    alloc: Global,
    state: &mut State,
    k: u32,
    thread: Thread,
    path: Option<ByteText>,
    host: &mut H,
) -> Result<Stage, Halt>
    requires { IsOut state.old k (point.Save path) thread }
    ensures { FromRow state.old k thread (point.Save path) (H.log host.old) (H.log host.new) state.new result }
{
    match hand(alloc, state, k, thread, Answer::Nothing, Stage::Point) {
        Ok(_) => {
            state.is_valid();
            numbers_fit(state);
            keep_state(alloc, state, path, host)
        }
        Err(halt) => Err(halt),
    }
}

/// What becomes of the run by the point at which a thread, taken out of the state, has left the machine.
pub fn request<H: Host>(
    alloc: Global,
    state: &mut State,
    k: u32,
    thread: Thread,
    point: Point,
    host: &mut H,
) -> Result<Stage, Halt>
    requires { IsAtPoint state.old k point thread }
    ensures { FromPoint state.old k thread point (H.log host.old) (H.log host.new) state.new result }
{
    match point {
        Point::Asks(ask) => contact(alloc, state, k, thread, ask, host),
        Point::Old(outs, ins) => compare(alloc, state, k, thread, outs, ins, host),
        Point::Task(task) => make_task(alloc, state, k, thread, task),
        Point::Declare(rule) => declare(alloc, state, k, thread, rule),
        Point::Goal(targets) => achieve(alloc, state, k, thread, targets, host),
        Point::Spawn(function, args) => spawn(alloc, state, k, thread, function, args),
        Point::Wait(texts) => wait_for(alloc, state, k, thread, texts),
        Point::WaitAll => wait_all(alloc, state, k, thread),
        Point::Save(path) => save(alloc, state, k, thread, path, host),
        Point::Exit(status) => Ok(Stage::Stopping(Cause::Exited(status))),
        Point::Stop(fault, at) => fails(alloc, state, at, fault),
        Point::Finished => close(alloc, state, k, thread),
        Point::Spent => Err(Halt::Spent),
    }
}
