//! How a run stops.
ghost use Rattle.std.specs.Prelude.{◌≡◌, ◌≢◌, ℕ, [], IfOk};
ghost use Rattle.bds_host.specs.Message.{message_of};
ghost use Rattle.bds_host.specs.declared.asks.Ask.TheVariants.{Err as Tells, Save};
ghost use Rattle.bds_host.specs.declared.faults.Fault.TheVariants.{Device};
ghost use Rattle.bds_schedule.specs.Stages.{checkpoint_of};
ghost use Rattle.bds_sim.specs.MachineRun.{State as Configuration};
ghost use Rattle.bds_state.specs.Parts.{Parts};
ghost use Rattle.bds_tasks.specs.Tasks.{running as running_of};
ghost use Rattle.bds_engine_stages.specs.Steps.{AsksThen, IsAt, CallLeadsTo, or_faulted};
ghost use Rattle.bds_engine_stages.specs.declared.stage.Stage.TheVariants as stage;

use crate::stage::{Cause, Stage};
use crate::stop::Halt;
use bds_ckpt::write;
use bds_host::{Ask, Fault, Host, Reply, message_of};
use bds_state::{Holders, State, numbers_fit};
use bds_value::{ByteText, Listed, NoMemory, Numbers, copy_text};
use std::alloc::Global;

/// The path beside the script at which a state is saved.
pub fn checkpoint_path(alloc: Global, path: &ByteText) -> Result<ByteText, NoMemory>
    ensures { IfOk result (λ beside. beside ≡ checkpoint_of path.now) }
{
    let mut beside = copy_text(alloc, path)?;
    beside.append(b".chp")?;
    Ok(beside)
}

/// Tells a text, and goes on so.
fn tell<H: Host>(alloc: Global, text: ByteText, behind: Stage, host: &mut H) -> Result<Stage, Halt>
    ensures { AsksThen (Tells text) (H.log host.old) (H.log host.new) (or_faulted behind) result }
{
    match host.ask(alloc, Ask::Err(text))? {
        Reply::Done => Ok(behind),
        Reply::Fault => Ok(Stage::Faulted),
        _ => unreachable!(),
    }
}

/// Tells why the run stops.
fn tell_cause<H: Host>(alloc: Global, cause: Cause, host: &mut H) -> Result<Stage, Halt>
    ensures { (s : Parts) (cpus budget used : ℕ) (d : Configuration) → running_of s.tasks ≡ [] → IsAt s cpus budget used (stage.Stopping cause) d
        → CallLeadsTo s cpus budget d (H.log host.old) (H.log host.new) s used result }
{
    match cause {
        Cause::Exited(status) => Ok(Stage::Done(status)),
        Cause::Failed(fault) => {
            let text = message_of(alloc, fault)?;
            tell(alloc, text, Stage::Done(1), host)
        }
        Cause::TaskFailed(n, code) => {
            let text = message_of(alloc, Fault::TaskFailed(n, code))?;
            tell(alloc, text, Stage::Saving, host)
        }
    }
}

/// The next end of a task that still runs.
fn end_next<H: Host>(
    alloc: Global,
    state: &mut State,
    cause: Cause,
    running: Numbers,
    host: &mut H,
) -> Result<Stage, Halt>
    requires running { running ≡ running_of state.old.tasks }
    requires some { running ≢ [] }
    ensures { (cpus budget used : ℕ) (d : Configuration) → IsAt state.old cpus budget used (stage.Stopping cause) d
        → CallLeadsTo state.old cpus budget d (H.log host.old) (H.log host.new) state.new used result }
{
    let ready = Listed::new(alloc);
    match host.ask(alloc, Ask::Next { ready, running })? {
        Reply::Ended { task, code } => {
            state.tasks.ended(task, code);
            let held = Holders::new(alloc);
            state.held = held;
            Ok(Stage::Stopping(cause))
        }
        Reply::Fault => Ok(Stage::Faulted),
        _ => unreachable!(),
    }
}

/// Nothing more is started: the ends of the running tasks come first, and then the cause is told.
pub fn stopping<H: Host>(
    alloc: Global,
    state: &mut State,
    cause: Cause,
    host: &mut H,
) -> Result<Stage, Halt>
    ensures { (cpus budget used : ℕ) (d : Configuration) → IsAt state.old cpus budget used (stage.Stopping cause) d
        → CallLeadsTo state.old cpus budget d (H.log host.old) (H.log host.new) state.new used result }
{
    state.tasks.are_tasks();
    let running = state.tasks.running(alloc)?;
    if running.len() > 0 {
        end_next(alloc, state, cause, running, host)
    } else {
        tell_cause(alloc, cause, host)
    }
}

/// Keeps an image at a path, and goes on so.
pub fn save<H: Host>(
    alloc: Global,
    path: ByteText,
    image: ByteText,
    behind: Stage,
    host: &mut H,
) -> Result<Stage, Halt>
    ensures { AsksThen (Save path image) (H.log host.old) (H.log host.new) (or_faulted behind) result }
{
    match host.ask(alloc, Ask::Save { path, image })? {
        Reply::Done => Ok(behind),
        Reply::Fault => Ok(Stage::Faulted),
        _ => unreachable!(),
    }
}

/// Saves the state of a task that failed, beside the script.
pub fn saving<H: Host>(alloc: Global, state: &State, host: &mut H) -> Result<Stage, Halt>
    ensures { (cpus budget used : ℕ) (d : Configuration) → IsAt state.now cpus budget used stage.Saving d
        → CallLeadsTo state.now cpus budget d (H.log host.old) (H.log host.new) state.now used result }
{
    state.is_valid();
    numbers_fit(state);
    let path = checkpoint_path(alloc, &state.path)?;
    let image = write(alloc, state)?;
    save(alloc, path, image, Stage::Done(1), host)
}

/// Tells a text, whatever is replied to that.
fn tell_last<H: Host>(alloc: Global, text: ByteText, host: &mut H) -> Result<Stage, Halt>
    ensures { AsksThen (Tells text) (H.log host.old) (H.log host.new) (λ r. stage.Told) result }
{
    host.ask(alloc, Ask::Err(text))?;
    Ok(Stage::Told)
}

/// Tells that a reply was a fault, whatever is replied to that.
pub fn tell_device<H: Host>(alloc: Global, host: &mut H) -> Result<Stage, Halt>
    ensures { (s : Parts) (cpus budget used : ℕ) (d : Configuration) → IsAt s cpus budget used stage.Faulted d
        → CallLeadsTo s cpus budget d (H.log host.old) (H.log host.new) s used result }
{
    let text = message_of(alloc, Fault::Device)?;
    tell_last(alloc, text, host)
}
