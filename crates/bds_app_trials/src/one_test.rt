//! One test: its program is made, run over a host of its own, and judged.
ghost use Rattle.std.specs.Prelude.{◌≡◌, ◌<◌, ◌≤◌, [], ℕ, IfOk, false, length};
ghost use Rattle.bds_check.specs.declared.checking.TypedScript.{TypedScript};
ghost use Rattle.bds_value.specs.declared.TheConstants.{MAX_PROCESSORS, MAX_TEXT};
ghost use Rattle.bds_host.specs.Host.{Log};
ghost use Rattle.bds_tree.specs.StmtView.{script_of};
ghost use Rattle.bds_check_tests.specs.Tests.{IsTestOf, base_program, tests_in};
ghost use Rattle.bds_app_trials.specs.Testing.{is_too_big};
ghost use Rattle.bds_app_trials.specs.Ways.{IsFitBase, IsRun, RunsSoFar};

use crate::judging::judge;
use bds_app_run::{Call, Ending, Outcome, Stop, run_typed};
use bds_around::Since;
use bds_check::Typed;
use bds_check_tests::{give_back, test_of};
use bds_dry::Dry;
use bds_host::Host;
use bds_tree::Script;
use bds_value::NoMemory;
use std::alloc::Global;
use std::marker::Brand;

/// Runs the program of a test over a host over which nothing is done, whose log inside began so.
fn run_inside<H: Host, K: Since>(
    alloc: Global,
    host: H,
    call: &Call,
    test: &Typed,
) -> (Result<Ending, Stop>, H)
    requires start { H.log host ≡ K.start }
    requires cpus { (1 ≤ call.now.cpus) × (call.now.cpus ≤ MAX_PROCESSORS) }
    requires short { length call.now.path ≤ MAX_TEXT }
    requires fits { is_too_big (script_of test.now.script) ≡ false }
    requires unset { (test.now.settings ≡ []) × (test.now.args ≡ []) }
    ensures { RunsSoFar call.now test.now K.start (H.log result.1) result.0 }
{
    let mut dry: Dry<H, K> = Dry::new(alloc, host);
    let came = run_typed(alloc, &mut dry, call, test);
    (came, dry.into_inner())
}

/// Runs the program of a test over a host of its own, and judges it.
fn run_test<H: Host>(
    alloc: Global,
    host: H,
    call: &Call,
    test: &Typed,
) -> (Result<bool, Outcome>, H)
    requires cpus { (1 ≤ call.now.cpus) × (call.now.cpus ≤ MAX_PROCESSORS) }
    requires short { length call.now.path ≤ MAX_TEXT }
    requires fits { is_too_big (script_of test.now.script) ≡ false }
    requires unset { (test.now.settings ≡ []) × (test.now.args ≡ []) }
    ensures { (t : TypedScript) (n : ℕ) → IsTestOf t n test.now
        → IsRun call.now t n (H.log host) (H.log result.1) result.0 }
{
    let (came, host) = run_inside::<H, Brand>(alloc, host, call, test);
    (judge(came), host)
}

/// Runs the program of a test, and gives back what it begins with.
fn run_made<H: Host>(
    alloc: Global,
    host: H,
    call: &Call,
    base: &mut Script,
    test: Typed,
) -> (Result<bool, Outcome>, H)
    requires cpus { (1 ≤ call.now.cpus) × (call.now.cpus ≤ MAX_PROCESSORS) }
    requires short { length call.now.path ≤ MAX_TEXT }
    requires fits { is_too_big (script_of test.script) ≡ false }
    requires unset { (test.settings ≡ []) × (test.args ≡ []) }
    ensures ran { (t : TypedScript) (n : ℕ) → IsTestOf t n test
        → IsRun call.now t n (H.log host) (H.log result.1) result.0 }
    ensures back { (t : TypedScript) (n : ℕ) → IsTestOf t n test
        → script_of base.new ≡ base_program (script_of t.script) }
{
    let ran = run_test(alloc, host, call, &test);
    give_back(base, test);
    ran
}

/// Runs the test of this number, counted from 0, whose program begins with `base`.
pub fn run_numbered<H: Host>(
    alloc: Global,
    host: H,
    call: &Call,
    base: &mut Script,
    index: u32,
) -> (Result<bool, Outcome>, H)
    requires cpus { (1 ≤ call.now.cpus) × (call.now.cpus ≤ MAX_PROCESSORS) }
    requires short { length call.now.path ≤ MAX_TEXT }
    requires base { (t : TypedScript) × IsFitBase t (script_of base.old) }
    requires below { index < length (tests_in (script_of base.old).parts) }
    ensures { (t : TypedScript) → IsFitBase t (script_of base.old)
        → IsRun call.now t index (H.log host) (H.log result.1) result.0
        × IfOk result.0 (λ _. IsFitBase t (script_of base.new)) }
{
    match test_of(alloc, base, index) {
        Ok(test) => run_made(alloc, host, call, base, test),
        Err(NoMemory) => (Err(Outcome::NoMemory), host),
    }
}
