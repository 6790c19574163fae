//! The command that runs the tests of a script.
ghost use Rattle.std.specs.Prelude.{◌≡◌, ◌≤◌, [], false, length, map};
ghost use Rattle.bds_value.specs.declared.TheConstants.{MAX_PROCESSORS, MAX_TEXT};
ghost use Rattle.bds_host.specs.Host.{Log};
ghost use Rattle.bds_host.specs.declared.faults.Fault.TheVariants as fault;
ghost use Rattle.bds_tree.specs.StmtView.{script_of};
ghost use Rattle.bds_check.specs.declared.checking.TypedScript.{TypedScript};
ghost use Rattle.bds_check_tests.specs.Tests.{IsBaseOf, tests_in};
ghost use Rattle.bds_app_run.specs.Telling.{TellsFault};
ghost use Rattle.bds_app_run.specs.declared.outcome.Outcome.TheVariants.{Refused};
ghost use Rattle.bds_app_trials.specs.DryRuns.{HasPassed, IsDeviceAnswer};
ghost use Rattle.bds_app_trials.specs.Testing.{TestsLoaded, TestsScript, is_too_big};
ghost use Rattle.bds_app_trials.specs.Ways.{AreNamed, IsFitBase, TellsUnloaded};

use crate::sizes::{is_any_test_too_big, is_too_big};
use crate::turns::{tell_counts, try_all};
use bds_app_run::{Call, Outcome, Stop, fault_of, tell, tell_device};
use bds_check::Typed;
use bds_check_tests::{base_of, tests};
use bds_front::{FrontFault, load};
use bds_host::{Fault, Host};
use bds_tree::Script;
use bds_value::{ByteText, NoMemory, Texts, copy_text};
use std::alloc::Global;
use std::mem;

/// Tells why a script isn't loaded.
fn refuse<H: Host>(alloc: Global, host: &mut H, call: &Call, fault: FrontFault) -> Outcome
    ensures { TellsUnloaded call.now (H.log host.old) fault (H.log host.new) result }
{
    match fault_of(alloc, fault) {
        Ok(fault) => tell(alloc, host, fault, Outcome::Refused),
        Err(Stop::Fault) => tell_device(alloc, host),
        Err(Stop::NoMemory) => Outcome::NoMemory,
    }
}

/// Tells that a unit is too large.
fn refuse_size<H: Host>(alloc: Global, host: &mut H, path: &ByteText) -> Outcome
    ensures { TellsFault (fault.TooBig path.now) Refused (H.log host.old) (H.log host.new) result }
{
    match copy_text(alloc, path) {
        Ok(path) => tell(alloc, host, Fault::TooBig(path), Outcome::Refused),
        Err(NoMemory) => Outcome::NoMemory,
    }
}

/// Runs the tests of these names, so many, whose programs begin with `base`, and tells how many passed and failed.
fn run_tests<H: Host>(
    alloc: Global,
    host: H,
    call: &Call,
    base: &mut Script,
    names: &[ByteText],
    count: u32,
) -> (Outcome, H)
    requires cpus { (1 ≤ call.now.cpus) × (call.now.cpus ≤ MAX_PROCESSORS) }
    requires short { length call.now.path ≤ MAX_TEXT }
    requires base { (t : TypedScript) × IsFitBase t (script_of base.old) }
    requires names { names.now ≡ map (λ f. f.name) (tests_in (script_of base.old).parts) }
    requires count { count ≡ length names.now }
    ensures { (t : TypedScript) → IsFitBase t (script_of base.old)
        → TestsLoaded call.now t (H.log host) (H.log result.1) result.0 }
{
    let (tried, host) = try_all(alloc, host, call, base, names, count);
    match tried {
        Ok(failed) => tell_counts(alloc, host, count - failed, failed),
        Err(answer) => (answer, host),
    }
}

/// Runs the tests of these names, so many, unless the unit of one is too large.
fn run_if_fit<H: Host>(
    alloc: Global,
    host: H,
    call: &Call,
    base: &mut Script,
    names: &[ByteText],
    count: u32,
) -> (Outcome, H)
    requires cpus { (1 ≤ call.now.cpus) × (call.now.cpus ≤ MAX_PROCESSORS) }
    requires short { length call.now.path ≤ MAX_TEXT }
    requires base { (t : TypedScript) × (IsBaseOf t (script_of base.old) × (is_too_big (script_of t.script) ≡ false)) }
    requires names { names.now ≡ map (λ f. f.name) (tests_in (script_of base.old).parts) }
    requires count { count ≡ length names.now }
    ensures { (t : TypedScript) → IsBaseOf t (script_of base.old) → is_too_big (script_of t.script) ≡ false
        → TestsLoaded call.now t (H.log host) (H.log result.1) result.0 }
{
    let mut host = host;
    match is_any_test_too_big(alloc, base, count) {
        Ok(false) => run_tests(alloc, host, call, base, names, count),
        Ok(true) => {
            let answer = refuse_size(alloc, &mut host, &call.path);
            (answer, host)
        }
        Err(NoMemory) => (Outcome::NoMemory, host),
    }
}

/// Runs the tests of these names. More than can be numbered would find no memory.
fn run_named<H: Host>(
    alloc: Global,
    host: H,
    call: &Call,
    base: &mut Script,
    names: &[ByteText],
) -> (Outcome, H)
    requires cpus { (1 ≤ call.now.cpus) × (call.now.cpus ≤ MAX_PROCESSORS) }
    requires short { length call.now.path ≤ MAX_TEXT }
    requires base { (t : TypedScript) × (IsBaseOf t (script_of base.old) × (is_too_big (script_of t.script) ≡ false)) }
    requires names { names.now ≡ map (λ f. f.name) (tests_in (script_of base.old).parts) }
    ensures { (t : TypedScript) → IsBaseOf t (script_of base.old) → is_too_big (script_of t.script) ≡ false
        → TestsLoaded call.now t (H.log host) (H.log result.1) result.0 }
{
    match u32::try_from(names.len()) {
        Ok(count) => run_if_fit(alloc, host, call, base, names, count),
        Err(_) => (Outcome::NoMemory, host),
    }
}

/// The names of a script's tests, or none where its own unit is too large.
fn names_if_fit(alloc: Global, typed: &Typed) -> Result<Option<Texts>, NoMemory>
    requires unset { (typed.now.settings ≡ []) × (typed.now.args ≡ []) }
    ensures { AreNamed typed.now result }
{
    if is_too_big(alloc, typed)? {
        return Ok(None);
    }
    Ok(Some(tests(alloc, typed)?))
}

/// Runs the tests whose names were listed, and whose programs begin with `base`.
fn run_listed<H: Host>(
    alloc: Global,
    host: H,
    call: &Call,
    base: &mut Script,
    named: Result<Option<Texts>, NoMemory>,
) -> (Outcome, H)
    requires cpus { (1 ≤ call.now.cpus) × (call.now.cpus ≤ MAX_PROCESSORS) }
    requires short { length call.now.path ≤ MAX_TEXT }
    requires base { (t : TypedScript) × (IsBaseOf t (script_of base.old) × AreNamed t named) }
    ensures { (t : TypedScript) → IsBaseOf t (script_of base.old) → AreNamed t named
        → TestsLoaded call.now t (H.log host) (H.log result.1) result.0 }
{
    let mut host = host;
    match named {
        Ok(Some(names)) => run_named(alloc, host, call, base, names.as_slice()),
        Ok(None) => {
            let answer = refuse_size(alloc, &mut host, &call.path);
            (answer, host)
        }
        Err(NoMemory) => (Outcome::NoMemory, host),
    }
}

/// Runs the tests of a script that was loaded, which then stays in memory: the process ends behind the answer.
fn run_kept<H: Host>(alloc: Global, host: H, call: &Call, typed: Typed) -> (Outcome, H)
    requires cpus { (1 ≤ call.now.cpus) × (call.now.cpus ≤ MAX_PROCESSORS) }
    requires short { length call.now.path ≤ MAX_TEXT }
    requires unset { (typed.settings ≡ []) × (typed.args ≡ []) }
    ensures { TestsLoaded call.now typed (H.log host) (H.log result.1) result.0 }
{
    let named = names_if_fit(alloc, &typed);
    let mut base = base_of(typed);
    let ran = run_listed(alloc, host, call, &mut base, named);
    mem::forget(base);
    ran
}

/// Loads a script with its includes and runs its tests.
fn load_and_run<H: Host>(alloc: Global, host: H, call: &Call) -> (Outcome, H)
    requires cpus { (1 ≤ call.now.cpus) × (call.now.cpus ≤ MAX_PROCESSORS) }
    ensures { TestsScript call.now (H.log host) (H.log result.1) result.0 }
{
    let mut host = host;
    match load(alloc, &mut host, &call.path) {
        Ok(typed) => run_kept(alloc, host, call, typed),
        Err(fault) => {
            let answer = refuse(alloc, &mut host, call, fault);
            (answer, host)
        }
    }
}

/// Loads a script with its includes and runs each of its tests: a program of its own, over a host of its own over
/// which nothing is done, with all ticks of the call. `does` says what is asked and answered; `passes` that
/// nothing but reads, stamps and what is printed was asked; `device` when the answer is a fault of the device.
/// The words of the call aren't looked at.
pub fn test_script<H: Host>(alloc: Global, host: H, call: Call) -> (Outcome, H)
    requires cpus { (1 ≤ call.cpus) × (call.cpus ≤ MAX_PROCESSORS) }
    ensures does { TestsScript call (H.log host) (H.log result.1) result.0 }
    ensures passes { HasPassed (H.log host) (H.log result.1) }
    ensures device { IsDeviceAnswer (H.log host) (H.log result.1) result.0 }
{
    load_and_run(alloc, host, &call)
}
