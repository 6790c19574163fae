//! Running a state, and a typed script.
ghost use Rattle.std.specs.Prelude.{◌≡◌, ◌≤◌, Ok, length};
ghost use Rattle.bds_value.specs.declared.TheConstants.{MAX_PROCESSORS, MAX_TEXT};
ghost use Rattle.bds_check_typing.specs.GivenValues.{set_by};
ghost use Rattle.bds_tree.specs.StmtView.{script_of};
ghost use Rattle.bds_gen_unit.specs.Generated.{unit_for};
ghost use Rattle.bds_meaning.specs.Begin.{opens, opens_if};
ghost use Rattle.bds_app_run.specs.Job.{accepted_with, if_fits, job_of, preset_of};
ghost use Rattle.bds_app_run.specs.Saves.{RunSaves, SavesIfFits};
ghost use Rattle.bds_app_run.specs.Ways.{Reaches, RunsSo, at_end, ending_of};

use crate::call::Call;
use crate::ending::Ending;
use crate::printing::refuse;
use crate::stop::Stop;
use bds_check::Typed;
use bds_engine::run_state;
use bds_engine_parts::RunStop;
use bds_gen_unit::{GenFault, generate_verified};
use bds_host::{Fault, Host};
use bds_sim_code::{script_histories_go_on, units_run_as_scripts};
use bds_state::State;
use bds_value::{ByteText, NoMemory, copy_text};
use bds_verify::Verified;
use std::alloc::Global;

/// What the end of a run is.
fn ending(end: Result<u8, RunStop>) -> Result<Ending, Stop>
    ensures { result ≡ ending_of end }
{
    match end {
        Ok(status) => Ok(Ending::Done(status)),
        Err(RunStop::Ticks) => Ok(Ending::Spent),
        Err(RunStop::Device) => Ok(Ending::DeviceFault),
        Err(RunStop::NoMemory) => Err(Stop::NoMemory),
    }
}

/// Runs a state from a point on.
fn run_from_point<H: Host>(
    alloc: Global,
    host: &mut H,
    state: State,
    cpus: u32,
    ticks: u64,
) -> Result<Ending, Stop>
    requires { (1 ≤ cpus) × (cpus ≤ MAX_PROCESSORS) }
    ensures { RunsSo cpus ticks state (H.log host.old) (H.log host.new) result }
{
    state.is_valid();
    ending(run_state(alloc, state, cpus, ticks, host))
}

/// Runs the unit of a script from its beginning.
fn run_unit<H: Host>(
    alloc: Global,
    host: &mut H,
    call: &Call,
    path: ByteText,
    typed: &Typed,
    unit: Verified,
) -> Result<Ending, Stop>
    requires cpus { (1 ≤ call.now.cpus) × (call.now.cpus ≤ MAX_PROCESSORS) }
    requires path { path ≡ call.now.path }
    requires short { length path ≤ MAX_TEXT }
    requires unit { unit ≡ unit_for typed.now }
    ensures reaches { Reaches call.now (opens (job_of call.now) (accepted_with typed.now)) (H.log host.old) (H.log host.new) at_end result }
    ensures saves { RunSaves call.now (accepted_with typed.now) (H.log host.old) (H.log host.new) }
{
    units_run_as_scripts();
    script_histories_go_on();
    typed.is_typed();
    match State::begin(alloc, unit, path) {
        Ok(state) => run_from_point(alloc, host, state, call.cpus, call.ticks),
        Err(NoMemory) => Err(Stop::NoMemory),
    }
}

/// Runs the unit of a script with what words set in it, if it isn't too large.
fn run_if_fits<H: Host>(
    alloc: Global,
    host: &mut H,
    call: &Call,
    path: ByteText,
    typed: &Typed,
) -> Result<Ending, Stop>
    requires cpus { (1 ≤ call.now.cpus) × (call.now.cpus ≤ MAX_PROCESSORS) }
    requires path { path ≡ call.now.path }
    requires short { length path ≤ MAX_TEXT }
    ensures reaches { Reaches call.now (opens_if (job_of call.now) (if_fits call.now (script_of typed.now.script) (preset_of typed.now))) (H.log host.old) (H.log host.new) at_end result }
    ensures saves { SavesIfFits call.now (accepted_with typed.now) (H.log host.old) (H.log host.new) }
{
    match generate_verified(alloc, typed) {
        Ok(unit) => run_unit(alloc, host, call, path, typed, unit),
        Err(GenFault::TooBig) => refuse(alloc, host, Fault::TooBig(path)),
        Err(GenFault::NoMemory) => Err(Stop::NoMemory),
    }
}

/// Runs a script with what words set in it, if its unit isn't too large.
pub fn run_typed<H: Host>(
    alloc: Global,
    host: &mut H,
    call: &Call,
    typed: &Typed,
) -> Result<Ending, Stop>
    requires cpus { (1 ≤ call.now.cpus) × (call.now.cpus ≤ MAX_PROCESSORS) }
    requires short { length call.now.path ≤ MAX_TEXT }
    ensures reaches { Reaches call.now (opens_if (job_of call.now) (if_fits call.now (script_of typed.now.script) (preset_of typed.now))) (H.log host.old) (H.log host.new) at_end result }
    ensures saves { SavesIfFits call.now (accepted_with typed.now) (H.log host.old) (H.log host.new) }
{
    match copy_text(alloc, &call.path) {
        Ok(path) => run_if_fits(alloc, host, call, path, typed),
        Err(NoMemory) => Err(Stop::NoMemory),
    }
}
