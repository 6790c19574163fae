//! What a program does: the words of its process go to the top call, and the answer gives its exit code.
ghost use Rattle.std.specs.Prelude.{◌≡◌, drop, map, string_bytes};
ghost use Rattle.std.specs.Process.{exit_status};
ghost use Rattle.bds_app_run.specs.declared.outcome.Outcome.TheVariants.{NoMemory as OutOfMemory};
ghost use Rattle.bds_app.specs.Ending.{EndsProcess, EndsWith};
ghost use Rattle.bds_app.specs.Status.{status};

use crate::answer::bds;
use bds_app_run::Outcome;
use bds_host::Host;
use bds_value::NoMemory;
use std::alloc::Global;
use std::env;
use std::env::Env;
use std::io::ErrorKind;
use std::process::ExitCode;

/// The words of the process, its own name first, or none where one of them isn't text.
fn words<R: Env + AllocGlobal>(rt: &R) -> Result<Vec<String>, NoMemory> {
    match env::args(rt) {
        Ok(args) => Ok(args.collect::<Vec<String>>(rt.alloc())?),
        Err(error) if error.kind() == ErrorKind::OutOfMemory => Err(NoMemory),
        Err(_) => Ok(Vec::new(rt.alloc())),
    }
}

/// The words behind the first, which is the program's own name.
fn behind_name(words: &[String]) -> &[String]
    ensures { map string_bytes result.now ≡ drop 1 (map string_bytes words.now) }
{
    match words {
        [_name, behind @ ..] => behind,
        [] => words,
    }
}

/// The exit status of an answer.
fn status(outcome: Outcome) -> u8
    ensures { result ≡ status outcome }
{
    match outcome {
        Outcome::Ended(status) => status,
        Outcome::Refused => 2,
        Outcome::BadFile => 3,
        Outcome::Device => 4,
        Outcome::Words => 5,
        Outcome::NoMemory => 6,
        Outcome::Ticks => 7,
    }
}

/// Makes the top call with the words behind the first, and gives the exit code of its answer: 0 to 255 as the script
/// ends, 2 refused, 3 no good file to resume from, 4 a fault of the device, 5 words that aren't understood, 6 no
/// memory, 7 no tick left.
pub fn run<H: Host>(alloc: Global, words: &[String], host: H) -> (ExitCode, H)
    ensures { EndsWith (drop 1 (map string_bytes words.now)) (H.log host) (H.log result.1) (exit_status result.0) }
{
    let (outcome, host) = bds(alloc, behind_name(words), host);
    (ExitCode::from(status(outcome)), host)
}

/// All that a program does: it runs with the words of its process, and ends with want of memory where there is none
/// for them.
pub fn run_process<R: Env + AllocGlobal, H: Host>(rt: &R, host: H) -> (ExitCode, H)
    ensures { EndsProcess (H.log host) (H.log result.1) (exit_status result.0) }
{
    match words(rt) {
        Ok(words) => run(rt.alloc(), words.as_slice(), host),
        Err(NoMemory) => (ExitCode::from(status(Outcome::NoMemory)), host),
    }
}
