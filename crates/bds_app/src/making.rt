//! The command that makes a script from a number and runs it.
ghost use Rattle.std.specs.Prelude.{◌≡◌, ◌≤◌, ◌++◌, [], ◌∷◌, List, ℕ, IfOk};
ghost use Rattle.bds_host.specs.declared.asks.Ask.TheVariants.{Err as Tells};
ghost use Rattle.bds_host.specs.declared.asks.Reply.TheVariants.{Done};
ghost use Rattle.bds_host.specs.Host.{Log};
ghost use Rattle.bds_tools.specs.Summary.{summary_text};
ghost use Rattle.bds_app.specs.Answers.{IsRefusal, MakesRun, RunsMade, made_call};
ghost use Rattle.bds_app_run.specs.Telling.{Prints, Says};
ghost use Rattle.bds_app_run.specs.declared.outcome.Outcome.TheVariants.{Refused};

use crate::MADE_PROCESSORS;
use bds_app_run::{Call, Outcome, print, run_script, say};
use bds_host::{Ask, Host, Trace, last_ask};
use bds_tools::{Made, summary};
use bds_value::{ByteText, Listed, MAX_TICKS, NoMemory, copy_text};
use std::alloc::Global;

/// The script that is made, as it is run.
fn made_call(alloc: Global) -> Result<Call, NoMemory>
    ensures { IfOk result (λ c. c ≡ made_call) }
{
    Ok(Call {
        path: ByteText::from_vec(Vec::from_slice(alloc, b"make.bds")?),
        cpus: MADE_PROCESSORS,
        ticks: MAX_TICKS,
        words: Listed::new(alloc),
    })
}

/// Runs the script that is made from a number, where all goes well.
fn run_made(alloc: Global, number: u32) -> Result<(Outcome, Made), NoMemory>
    requires { (1 ≤ number) × (number ≤ 10000) }
    ensures { IfOk result (λ r. RunsMade r.1.number r.1.log r.0) }
{
    let call = made_call(alloc)?;
    let mut host = Made::new(alloc, number);
    let outcome = run_script(alloc, &mut host, call);
    host.answers();
    Ok((outcome, host))
}

/// Prints what a run asked, with its status.
fn tell_summary<H: Host>(alloc: Global, host: &mut H, inner: &Trace, status: u8) -> Outcome
    ensures { Prints (summary_text inner.now status) (H.log host.old) (H.log host.new) result }
{
    match summary(alloc, inner, status) {
        Ok(text) => print(alloc, host, text),
        Err(NoMemory) => Outcome::NoMemory,
    }
}

/// Tells again what a run told last.
fn tell_again<H: Host>(alloc: Global, host: &mut H, text: &ByteText) -> Outcome
    ensures { Says text.now Refused (H.log host.old) (H.log host.new) result }
{
    match copy_text(alloc, text) {
        Ok(text) => say(alloc, host, text, Outcome::Refused),
        Err(NoMemory) => Outcome::NoMemory,
    }
}

/// Tells why a script that was made wasn't run.
fn tell_refusal<H: Host>(alloc: Global, host: &mut H, inner: &Trace) -> Outcome
    requires { IsRefusal inner.now }
    ensures { (log : Log) (text : List ℕ) → inner.now ≡ log ++ (Tells text, Done) ∷ []
        → Says text Refused (H.log host.old) (H.log host.new) result }
{
    match last_ask(inner) {
        Ask::Err(text) => tell_again(alloc, host, text),
        _ => unreachable!(),
    }
}

/// Tells how the run of a script that was made has ended. Its outside never tells a fault.
fn tell_made<H: Host>(
    alloc: Global,
    host: &mut H,
    number: u32,
    inner: &Trace,
    outcome: Outcome,
) -> Outcome
    requires { RunsMade number inner.now outcome }
    ensures { MakesRun number (H.log host.old) (H.log host.new) result }
{
    match outcome {
        Outcome::Ended(status) => tell_summary(alloc, host, inner, status),
        Outcome::Refused => tell_refusal(alloc, host, inner),
        Outcome::Ticks => Outcome::Ticks,
        Outcome::NoMemory => Outcome::NoMemory,
        Outcome::BadFile => unreachable!(),
        Outcome::Device => unreachable!(),
        Outcome::Words => unreachable!(),
    }
}

/// The same, where the run has left its host the number: that isn't known of every host, so it is looked at.
fn tell_if_made<H: Host>(
    alloc: Global,
    host: &mut H,
    number: u32,
    made: &Made,
    outcome: Outcome,
) -> Outcome
    requires { RunsMade made.now.number made.now.log outcome }
    ensures { MakesRun number (H.log host.old) (H.log host.new) result }
{
    if made.number() == number {
        tell_made(alloc, host, number, made.trace(), outcome)
    } else {
        Outcome::NoMemory
    }
}

/// Makes a script from a number, runs it where all goes well, and tells what it asked and how it ended.
pub fn make_and_run<H: Host>(alloc: Global, host: &mut H, number: u32) -> Outcome
    requires { (1 ≤ number) × (number ≤ 10000) }
    ensures { MakesRun number (H.log host.old) (H.log host.new) result }
{
    match run_made(alloc, number) {
        Ok((outcome, made)) => tell_if_made(alloc, host, number, &made, outcome),
        Err(NoMemory) => Outcome::NoMemory,
    }
}
