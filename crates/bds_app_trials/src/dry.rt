//! The command that runs a script where nothing is done outside.
ghost use Rattle.std.specs.Prelude.{◌≡◌, ◌≤◌, length};
ghost use Rattle.bds_value.specs.declared.TheConstants.{MAX_ITEMS, MAX_PROCESSORS};
ghost use Rattle.bds_check_typing.specs.Texts.{AreShortTexts};
ghost use Rattle.bds_app_trials.specs.DryRuns.{DriesScript, HasPassed, IsDeviceAnswer};

use bds_app_run::{Call, Outcome, run_script};
use bds_around::Since;
use bds_dry::Dry;
use bds_host::Host;
use std::alloc::Global;
use std::marker::Brand;

/// Runs a script over a host over which nothing is done, whose log inside began so.
fn run_inside<H: Host, K: Since>(alloc: Global, host: H, call: Call) -> (Outcome, H)
    requires start { H.log host ≡ K.start }
    requires cpus { (1 ≤ call.cpus) × (call.cpus ≤ MAX_PROCESSORS) }
    requires few { length call.words ≤ MAX_ITEMS }
    requires words { AreShortTexts call.words }
    ensures { DriesScript call K.start (H.log result.1) result.0 }
{
    let mut dry: Dry<H, K> = Dry::new(alloc, host);
    let outcome = run_script(alloc, &mut dry, call);
    (outcome, dry.into_inner())
}

/// Runs a script where nothing is done outside: what it reads is read, and what it prints is printed; each command
/// that it would run is printed in its place, and goes well. `does` says that the run is that of the script, over
/// a host whose log is told to the one here by the table of `bds_dry`; `passes` that nothing but reads, stamps and
/// what is printed was asked; `device` when the answer is a fault of the device.
pub fn dry_script<H: Host>(alloc: Global, host: H, call: Call) -> (Outcome, H)
    requires cpus { (1 ≤ call.cpus) × (call.cpus ≤ MAX_PROCESSORS) }
    requires few { length call.words ≤ MAX_ITEMS }
    requires words { AreShortTexts call.words }
    ensures does { DriesScript call (H.log host) (H.log result.1) result.0 }
    ensures passes { HasPassed (H.log host) (H.log result.1) }
    ensures device { IsDeviceAnswer (H.log host) (H.log result.1) result.0 }
{
    run_inside::<H, Brand>(alloc, host, call)
}
