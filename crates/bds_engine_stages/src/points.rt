//! At a point: tasks start, and what goes on is chosen.
ghost use Rattle.std.specs.Prelude.{◌≡◌, ◌≢◌, ℕ, Some, None};
ghost use Rattle.bds_schedule.specs.Configuration.{at_point};
ghost use Rattle.bds_sim.specs.MachineRun.{State as Configuration};
ghost use Rattle.bds_state.specs.Ready.{ready as ready_of};
ghost use Rattle.bds_tasks.specs.Starts.{startable};
ghost use Rattle.bds_tasks.specs.Tasks.{running as running_of};
ghost use Rattle.bds_engine_parts.specs.Look.{all_ended};
ghost use Rattle.bds_engine_parts.specs.Seen.{seen};
ghost use Rattle.bds_engine_stages.specs.Steps.{AreMany, IsAt, CallLeadsTo, rest_of};
ghost use Rattle.bds_engine_stages.specs.declared.stage.Stage.TheVariants as stage;

use crate::stage::{Cause, Stage};
use crate::stop::Halt;
use bds_code::Thread;
use bds_engine_parts::{all_ended, ready};
use bds_host::{Ask, Fault, Host, Reply};
use bds_state::{State, look_behind};
use bds_value::{Numbers, copy_text};
use std::alloc::Global;

/// Starts a task.
fn start<H: Host>(
    alloc: Global,
    state: &mut State,
    cpus: u32,
    n: u32,
    host: &mut H,
) -> Result<Stage, Halt>
    requires { startable cpus state.old.tasks ≡ Some n }
    ensures { (budget used : ℕ) → CallLeadsTo state.old cpus budget (seen state.old cpus budget used at_point) (H.log host.old) (H.log host.new) state.new used result }
{
    let task = state.tasks.task(n);
    let attempt = task.attempt;
    let cmd = copy_text(alloc, &task.made.command)?;
    match host.ask(
        alloc,
        Ask::Start {
            task: n,
            attempt,
            cmd,
        },
    )? {
        Reply::Started => {
            state.tasks.started(n);
            Ok(Stage::Point)
        }
        Reply::Fault => Ok(Stage::Faulted),
        _ => unreachable!(),
    }
}

/// Nothing is ready and nothing runs.
fn at_rest(threads: &[Thread]) -> Stage
    ensures { result ≡ rest_of (all_ended threads.now) }
{
    if all_ended(threads) {
        Stage::Done(0)
    } else {
        Stage::Stopping(Cause::Failed(Fault::Deadlock))
    }
}

/// Asks then which thread goes on, or which task has ended.
fn next<H: Host>(
    alloc: Global,
    state: &mut State,
    ready: Numbers,
    running: Numbers,
    host: &mut H,
) -> Result<Stage, Halt>
    requires ready { ready ≡ ready_of state.old.threads state.old.tasks }
    requires running { running ≡ running_of state.old.tasks }
    requires many { AreMany ready running }
    ensures { (cpus budget used : ℕ) → startable cpus state.old.tasks ≡ None
        → CallLeadsTo state.old cpus budget (seen state.old cpus budget used at_point) (H.log host.old) (H.log host.new) state.new used result }
{
    state.is_valid();
    match host.ask(alloc, Ask::Next { ready, running })? {
        Reply::Run(k) => Ok(Stage::Turn(k)),
        Reply::Ended { task, code } => {
            state.tasks.ended(task, code);
            look_behind(
                alloc,
                state.threads.as_slice(),
                &state.tasks,
                &mut state.held,
                task,
            );
            Ok(Stage::Point)
        }
        Reply::Fault => Ok(Stage::Faulted),
        _ => unreachable!(),
    }
}

/// Chooses what goes on. One thread alone does without an ask.
fn choose<H: Host>(alloc: Global, state: &mut State, host: &mut H) -> Result<Stage, Halt>
    ensures { (cpus budget used : ℕ) → startable cpus state.old.tasks ≡ None
        → CallLeadsTo state.old cpus budget (seen state.old cpus budget used at_point) (H.log host.old) (H.log host.new) state.new used result }
{
    state.is_valid();
    state.tasks.are_tasks();
    let ready = ready(alloc, state)?;
    let running = state.tasks.running(alloc)?;
    if running.len() > 0 {
        return next(alloc, state, ready, running, host);
    }
    match ready.as_slice() {
        [] => Ok(at_rest(state.threads.as_slice())),
        [k] => Ok(Stage::Turn(*k)),
        _ => next(alloc, state, ready, running, host),
    }
}

/// At a point: the task that may start next, or what goes on.
pub fn at_point<H: Host>(
    alloc: Global,
    state: &mut State,
    cpus: u32,
    host: &mut H,
) -> Result<Stage, Halt>
    ensures { (budget used : ℕ) (d : Configuration) → IsAt state.old cpus budget used stage.Point d
        → CallLeadsTo state.old cpus budget d (H.log host.old) (H.log host.new) state.new used result }
{
    match state.tasks.startable(cpus) {
        Some(n) => start(alloc, state, cpus, n, host),
        None => choose(alloc, state, host),
    }
}
