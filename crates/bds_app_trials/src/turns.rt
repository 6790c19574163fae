//! The tests of a script, one after the other.
ghost use Rattle.std.specs.Prelude.{◌≡◌, ◌<◌, ◌≤◌, ℕ, IfOk, Some, length, map};
ghost use Rattle.std.specs.List.{slice_get};
ghost use Rattle.bds_value.specs.declared.TheConstants.{MAX_PROCESSORS, MAX_TEXT};
ghost use Rattle.bds_host.specs.Host.{Log};
ghost use Rattle.bds_tree.specs.StmtTree.{FunctionTree};
ghost use Rattle.bds_tree.specs.StmtView.{script_of};
ghost use Rattle.bds_check.specs.declared.checking.TypedScript.{TypedScript};
ghost use Rattle.bds_check_tests.specs.Tests.{tests_in};
ghost use Rattle.bds_app_run.specs.declared.call.Call.{Call as ACall};
ghost use Rattle.bds_app_trials.specs.Testing.{HasRun, TellsCounts, one_more_failed, status_of as status_of_all};
ghost use Rattle.bds_app_trials.specs.Ways.{AreTried, IsFitBase, IsTried};

use crate::judging::was_printed;
use crate::lines::{tell_summary, tell_verdict};
use crate::one_test::run_numbered;
use bds_app_run::{Call, Outcome};
use bds_host::Host;
use bds_tree::Script;
use bds_value::ByteText;
use std::alloc::Global;

/// Tells the verdict on a test that was run.
fn tell_run<H: Host>(
    alloc: Global,
    host: H,
    name: &ByteText,
    passed: bool,
) -> (Result<bool, Outcome>, H)
    ensures { (c : ACall) (t : TypedScript) (n : ℕ) (before : Log) → (run : HasRun c t n before (H.log host) passed)
        → name.now ≡ run.is.function.name → IsTried c t n before (H.log result.1) result.0 }
{
    let mut host = host;
    let answer = tell_verdict(alloc, &mut host, name, passed);
    if was_printed(answer) {
        (Ok(passed), host)
    } else {
        (Err(answer), host)
    }
}

/// Runs the test of this number and name, whose program begins with `base`, and tells its verdict.
fn try_test<H: Host>(
    alloc: Global,
    host: H,
    call: &Call,
    base: &mut Script,
    index: u32,
    name: &ByteText,
) -> (Result<bool, Outcome>, H)
    requires cpus { (1 ≤ call.now.cpus) × (call.now.cpus ≤ MAX_PROCESSORS) }
    requires short { length call.now.path ≤ MAX_TEXT }
    requires base { (t : TypedScript) × IsFitBase t (script_of base.old) }
    requires below { index < length (tests_in (script_of base.old).parts) }
    requires name { (f : FunctionTree) → slice_get (tests_in (script_of base.old).parts) index ≡ Some f
        → name.now ≡ f.name }
    ensures { (t : TypedScript) → IsFitBase t (script_of base.old)
        → IsTried call.now t index (H.log host) (H.log result.1) result.0
        × IfOk result.0 (λ _. IsFitBase t (script_of base.new)) }
{
    let (ran, host) = run_numbered(alloc, host, call, base, index);
    match ran {
        Ok(passed) => tell_run(alloc, host, name, passed),
        Err(answer) => (Err(answer), host),
    }
}

/// How many failed behind one more.
fn one_more(failed: u32, passed: bool) -> u32
    requires { failed < 4294967295 }
    ensures { result ≡ one_more_failed failed passed }
{
    if passed { failed } else { failed + 1 }
}

/// Runs all tests, so many, of these names, whose programs begin with `base`, and tells each verdict: how many
/// failed.
pub fn try_all<H: Host>(
    alloc: Global,
    host: H,
    call: &Call,
    base: &mut Script,
    names: &[ByteText],
    count: u32,
) -> (Result<u32, Outcome>, H)
    requires cpus { (1 ≤ call.now.cpus) × (call.now.cpus ≤ MAX_PROCESSORS) }
    requires short { length call.now.path ≤ MAX_TEXT }
    requires base { (t : TypedScript) × IsFitBase t (script_of base.old) }
    requires names { names.now ≡ map (λ f. f.name) (tests_in (script_of base.old).parts) }
    requires count { count ≡ length names.now }
    ensures { (t : TypedScript) → IsFitBase t (script_of base.old)
        → AreTried call.now t (H.log host) (H.log result.1) result.0 }
{
    let mut host = host;
    let mut failed: u32 = 0;
    for index in 0..count {
        let (tried, back) = try_test(alloc, host, call, base, index, &names[index as usize]);
        host = back;
        match tried {
            Ok(passed) => failed = one_more(failed, passed),
            Err(answer) => return (Err(answer), host),
        }
    }
    (Ok(failed), host)
}

fn status_of(failed: u32) -> u8
    ensures { result ≡ status_of_all failed }
{
    if failed == 0 { 0 } else { 1 }
}

/// Tells how many tests passed and failed, and answers by that.
pub fn tell_counts<H: Host>(alloc: Global, host: H, passed: u32, failed: u32) -> (Outcome, H)
    ensures { TellsCounts passed failed (H.log host) (H.log result.1) result.0 }
{
    let mut host = host;
    let answer = tell_summary(alloc, &mut host, passed, failed);
    if was_printed(answer) {
        (Outcome::Ended(status_of(failed)), host)
    } else {
        (answer, host)
    }
}
