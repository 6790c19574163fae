//! What the end of a test's run, and of what is printed of it, comes to.
ghost use Rattle.std.specs.Prelude.{◌≡◌, ℕ, Bool};
ghost use Rattle.bds_host.specs.Host.{Log};
ghost use Rattle.bds_check.specs.declared.checking.TypedScript.{TypedScript};
ghost use Rattle.bds_check_tests.specs.Tests.{IsTestOf};
ghost use Rattle.bds_app_run.specs.declared.call.Call.{Call as ACall};
ghost use Rattle.bds_app_trials.specs.Ways.{IsRun, RunsSoFar, WasRun, was_printed as was_printed_of};

use bds_app_run::{Ending, Outcome, Stop};

/// It was printed, so that the next thing comes.
pub fn was_printed(answer: Outcome) -> bool
    ensures { result ≡ was_printed_of answer }
{
    match answer {
        Outcome::Ended(status) => status == 0,
        Outcome::Refused => false,
        Outcome::BadFile => false,
        Outcome::Device => false,
        Outcome::Words => false,
        Outcome::NoMemory => false,
        Outcome::Ticks => false,
    }
}

/// Whether a test passed whose run came so far, or the answer where it is the last one.
pub fn judge(came: Result<Ending, Stop>) -> Result<bool, Outcome>
    requires { WasRun came }
    ensures { (c : ACall) (t test : TypedScript) (n : ℕ) (before after : Log) → IsTestOf t n test
        → RunsSoFar c test before after came → IsRun c t n before after result }
{
    match came {
        Ok(Ending::Done(status)) => Ok(status == 0),
        Ok(Ending::Spent) => Err(Outcome::Ticks),
        Ok(Ending::DeviceFault) => Err(Outcome::Device),
        Ok(Ending::Refused) => unreachable!(),
        Err(Stop::Fault) => unreachable!(),
        Err(Stop::NoMemory) => Err(Outcome::NoMemory),
    }
}
