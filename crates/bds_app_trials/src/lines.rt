//! What is printed of tests.
ghost use Rattle.std.specs.Prelude.{◌≡◌, IfOk};
ghost use Rattle.bds_host.specs.Host.{Log};
ghost use Rattle.bds_app_run.specs.Telling.{Prints};
ghost use Rattle.bds_app_trials.specs.Testing.{summary_line as summary_line_of, verdict as verdict_of};
ghost use Rattle.bds_app_trials.specs.Testing.{verdict_line as verdict_line_of};

use bds_app_run::{Outcome, print};
use bds_around::put_number;
use bds_host::Host;
use bds_value::{ByteText, Listed, NoMemory, put};
use std::alloc::Global;

fn verdict(passed: bool) -> &'static [u8]
    ensures { result.now ≡ verdict_of passed }
{
    if passed { b"ok" } else { b"failed" }
}

fn verdict_line(alloc: Global, name: &ByteText, passed: bool) -> Result<ByteText, NoMemory>
    ensures { IfOk result (λ text. text ≡ verdict_line_of name.now passed) }
{
    let mut out = Vec::new(alloc);
    put(&mut out, b"test ")?;
    put(&mut out, name.as_slice())?;
    put(&mut out, b": ")?;
    put(&mut out, verdict(passed))?;
    put(&mut out, b"\n")?;
    Ok(Listed::from_vec(out))
}

fn summary_line(alloc: Global, passed: u32, failed: u32) -> Result<ByteText, NoMemory>
    ensures { IfOk result (λ text. text ≡ summary_line_of passed failed) }
{
    let mut out = Vec::new(alloc);
    put(&mut out, b"passed ")?;
    put_number(&mut out, passed)?;
    put(&mut out, b" failed ")?;
    put_number(&mut out, failed)?;
    put(&mut out, b"\n")?;
    Ok(Listed::from_vec(out))
}

/// Tells whether a test passed.
pub fn tell_verdict<H: Host>(alloc: Global, host: &mut H, name: &ByteText, passed: bool) -> Outcome
    ensures { Prints (verdict_line_of name.now passed) (H.log host.old) (H.log host.new) result }
{
    match verdict_line(alloc, name, passed) {
        Ok(text) => print(alloc, host, text),
        Err(NoMemory) => Outcome::NoMemory,
    }
}

/// Tells how many tests passed, and how many failed.
pub fn tell_summary<H: Host>(alloc: Global, host: &mut H, passed: u32, failed: u32) -> Outcome
    ensures { Prints (summary_line_of passed failed) (H.log host.old) (H.log host.new) result }
{
    match summary_line(alloc, passed, failed) {
        Ok(text) => print(alloc, host, text),
        Err(NoMemory) => Outcome::NoMemory,
    }
}
