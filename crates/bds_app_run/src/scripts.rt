//! The command that runs a script.
ghost use Rattle.std.specs.Prelude.{◌≡◌, ◌≢◌, ◌≤◌, [], Result, Err, length};
ghost use Rattle.bds_value.specs.declared.TheConstants.{MAX_ITEMS, MAX_PROCESSORS, MAX_TEXT};
ghost use Rattle.bds_check_typing.specs.Texts.{AreShortTexts};
ghost use Rattle.bds_host.specs.Host.{Log};
ghost use Rattle.bds_check_words.specs.declared.faults.WordsFault.TheVariants as words;
ghost use Rattle.bds_host.specs.declared.faults.Fault.{Fault as AFault};
ghost use Rattle.bds_meaning.specs.Refusals.{Accepted};
ghost use Rattle.bds_tree.specs.StmtView.{script_of};
ghost use Rattle.bds_meaning.specs.Begin.{Reading, opens_if};
ghost use Rattle.bds_app_run.specs.Begun.{Begun};
ghost use Rattle.bds_app_run.specs.Commands.{RunsScript, outcome_of as outcome_of_end};
ghost use Rattle.bds_app_run.specs.Job.{accepted_with, if_fits, job_of, preset_of, run_opens, set_by_words, size_with, told_at};
ghost use Rattle.bds_app_run.specs.Saves.{Quiet, SavesCheckpoints, SavesIfFits, SavesIfRun};
ghost use Rattle.bds_app_run.specs.Ways.{Reaches, at_end, end_of};

use crate::call::Call;
use crate::ending::Ending;
use crate::outcome::Outcome;
use crate::printing::{refuse, tell_device};
use crate::refusals::{fault_of, words_fault};
use crate::running::run_typed;
use crate::stop::Stop;
use bds_check::{Typed, WordsFault, with_words};
use bds_front::{FrontFault, load};
use bds_host::Host;
use bds_value::NoMemory;
use std::alloc::Global;
use std::mem::ManuallyDrop;

/// Tells why a script isn't loaded.
fn refuse_script<H: Host>(alloc: Global, host: &mut H, fault: FrontFault) -> Result<Ending, Stop>
    ensures reaches { (c : Call) (before : Log) → Begun (job_of c) (set_by_words c) size_with before (H.log host.old) (Err fault) → Reaches c (Reading []) before (H.log host.new) at_end result }
    ensures quiet { Quiet (H.log host.old) (H.log host.new) }
{
    match fault_of(alloc, fault) {
        Ok(fault) => refuse(alloc, host, fault),
        Err(stop) => Err(stop),
    }
}

/// Tells why words behind a script aren't taken.
fn refuse_words<H: Host>(
    alloc: Global,
    host: &mut H,
    call: &Call,
    fault: WordsFault,
) -> Result<Ending, Stop>
    ensures reaches { (opened : Result Accepted AFault) → (fault ≢ words.NoMemory → opened ≡ Err (told_at call.now.path fault)) → Reaches call.now (opens_if (job_of call.now) opened) (H.log host.old) (H.log host.new) at_end result }
    ensures quiet { Quiet (H.log host.old) (H.log host.new) }
{
    match words_fault(alloc, &call.path, fault) {
        Ok(fault) => refuse(alloc, host, fault),
        Err(NoMemory) => Err(Stop::NoMemory),
    }
}

/// Runs a script, which then stays in memory: the process ends behind the run, and gives all of it back at once.
fn run_kept<H: Host>(alloc: Global, host: &mut H, call: &Call, typed: Typed) -> Result<Ending, Stop>
    requires cpus { (1 ≤ call.now.cpus) × (call.now.cpus ≤ MAX_PROCESSORS) }
    requires short { length call.now.path ≤ MAX_TEXT }
    ensures reaches { Reaches call.now (opens_if (job_of call.now) (if_fits call.now (script_of typed.script) (preset_of typed))) (H.log host.old) (H.log host.new) at_end result }
    ensures saves { SavesIfFits call.now (accepted_with typed) (H.log host.old) (H.log host.new) }
{
    let typed = ManuallyDrop::new(typed);
    run_typed(alloc, host, call, &typed)
}

/// Runs a script that was loaded, with what the words behind it set.
fn run_loaded<H: Host>(
    alloc: Global,
    host: &mut H,
    call: &Call,
    typed: Typed,
) -> Result<Ending, Stop>
    requires cpus { (1 ≤ call.now.cpus) × (call.now.cpus ≤ MAX_PROCESSORS) }
    requires short { length call.now.path ≤ MAX_TEXT }
    requires few { length call.now.words ≤ MAX_ITEMS }
    requires words { AreShortTexts call.now.words }
    ensures reaches { Reaches call.now (opens_if (job_of call.now) (run_opens call.now (script_of typed.script))) (H.log host.old) (H.log host.new) at_end result }
    ensures saves { SavesIfRun call.now (script_of typed.script) (H.log host.old) (H.log host.new) }
{
    match with_words(alloc, typed, &call.words) {
        Ok(typed) => run_kept(alloc, host, call, typed),
        Err(fault) => refuse_words(alloc, host, call, fault),
    }
}

/// Loads a script with its includes, and runs it.
fn load_and_run<H: Host>(alloc: Global, host: &mut H, call: &Call) -> Result<Ending, Stop>
    requires cpus { (1 ≤ call.now.cpus) × (call.now.cpus ≤ MAX_PROCESSORS) }
    requires few { length call.now.words ≤ MAX_ITEMS }
    requires words { AreShortTexts call.now.words }
    ensures reaches { Reaches call.now (Reading []) (H.log host.old) (H.log host.new) at_end result }
    ensures saves { SavesCheckpoints call.now (H.log host.old) (H.log host.new) }
{
    match load(alloc, host, &call.path) {
        Ok(typed) => run_loaded(alloc, host, call, typed),
        Err(fault) => refuse_script(alloc, host, fault),
    }
}

/// The answer of an end.
fn outcome(end: Ending) -> Outcome
    ensures { result ≡ outcome_of_end (end_of end) }
{
    match end {
        Ending::Done(status) => Outcome::Ended(status),
        Ending::Spent => Outcome::Ticks,
        Ending::DeviceFault => Outcome::Device,
        Ending::Refused => Outcome::Refused,
    }
}

/// The answer of a job that came so far. A fault is told.
fn conclude<H: Host>(alloc: Global, host: &mut H, came: Result<Ending, Stop>) -> Outcome
    ensures does { (c : Call) (before : Log) → Reaches c (Reading []) before (H.log host.old) at_end came → RunsScript c before (H.log host.new) result }
    ensures quiet { Quiet (H.log host.old) (H.log host.new) }
{
    match came {
        Ok(end) => outcome(end),
        Err(Stop::Fault) => tell_device(alloc, host),
        Err(Stop::NoMemory) => Outcome::NoMemory,
    }
}

/// Loads a script with its includes and runs it with what the words behind it set: what its meaning asks, and its end. `saves`
/// says that what the run saves are checkpoints of its history.
pub fn run_script<H: Host>(alloc: Global, host: &mut H, call: Call) -> Outcome
    requires cpus { (1 ≤ call.cpus) × (call.cpus ≤ MAX_PROCESSORS) }
    requires few { length call.words ≤ MAX_ITEMS }
    requires words { AreShortTexts call.words }
    ensures does { RunsScript call (H.log host.old) (H.log host.new) result }
    ensures saves { SavesCheckpoints call (H.log host.old) (H.log host.new) }
{
    let came = load_and_run(alloc, host, &call);
    conclude(alloc, host, came)
}
