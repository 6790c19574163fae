//! What a call does by what its words ask for.
ghost use Rattle.std.specs.Prelude.{◌≡◌, Some};
ghost use Rattle.bds_app.specs.Answers.{DoesCommand, DoesOver, job_of_resume, job_of_run};
ghost use Rattle.bds_app_run.specs.Jobs.{SavesIfScript};
ghost use Rattle.bds_replay.specs.Log.{IsFieldJob};
ghost use Rattle.bds_app_run.specs.Saves.{SavesCheckpoints};
ghost use Rattle.bds_app_run.specs.declared.call.Call.{Call as ACall};
ghost use Rattle.bds_app_words.specs.Ranges.{IsWithin};
ghost use Rattle.bds_app_words.specs.declared.command.Command.TheVariants.{Run, Resume, Dry, Test};
ghost use Rattle.bds_app_words.specs.declared.command.Over.TheVariants.{Plain};

use crate::jobs::run_job;
use crate::making::make_and_run;
use bds_app_farm::farm_job;
use bds_app_fmt::format_script;
use bds_app_log::{log_job, replay_log};
use bds_app_run::{Call, Outcome, check_script, describe_file};
use bds_app_trials::{dry_script, test_script};
use bds_app_words::{Command, Over};
use bds_host::Host;
use bds_replay::Job;
use bds_value::{ByteText, Listed, Texts};
use std::alloc::Global;

/// Does a job over the host that words ask for.
fn job_over<H: Host>(alloc: Global, host: H, job: Job, over: Over) -> (Outcome, H)
    requires { IsFieldJob job }
    ensures does { DoesOver over job (H.log host) (H.log result.1) result.0 }
    ensures saved { over ≡ Plain → SavesIfScript job (H.log host) (H.log result.1) }
{
    let mut host = host;
    match over {
        Over::Plain => (run_job(alloc, &job, &mut host), host),
        Over::Log(path) => log_job(alloc, host, job, path),
        Over::Farm { submit, poll } => farm_job(alloc, host, &job, submit, poll),
    }
}

/// The job that runs a script.
fn script_job(call: Call) -> Job
    ensures { result ≡ job_of_run call.cpus call.ticks call.path call.words }
{
    Job {
        resume: false,
        path: call.path,
        cpus: call.cpus,
        ticks: call.ticks,
        words: call.words,
    }
}

/// The job that goes on from a file.
fn file_job(alloc: Global, file: ByteText, cpus: u32, ticks: u64) -> Job
    ensures { result ≡ job_of_resume cpus ticks file }
{
    Job {
        resume: true,
        path: file,
        cpus,
        ticks,
        words: Listed::new(alloc),
    }
}

/// Runs a script over the host that words ask for.
fn run_over<H: Host>(alloc: Global, host: H, call: Call, over: Over) -> (Outcome, H)
    requires { IsWithin (Run call.cpus call.ticks call.path call.words over) }
    ensures does { DoesCommand (Some (Run call.cpus call.ticks call.path call.words over)) (H.log host) (H.log result.1)
        result.0 }
    ensures saved { over ≡ Plain → SavesCheckpoints call (H.log host) (H.log result.1) }
{
    let job = script_job(call);
    job_over(alloc, host, job, over)
}

/// Goes on from a file over the host that words ask for.
fn resume_over<H: Host>(
    alloc: Global,
    host: H,
    file: ByteText,
    cpus: u32,
    ticks: u64,
    over: Over,
) -> (Outcome, H)
    requires { IsWithin (Resume cpus ticks file over) }
    ensures { DoesCommand (Some (Resume cpus ticks file over)) (H.log host) (H.log result.1) result.0 }
{
    let job = file_job(alloc, file, cpus, ticks);
    job_over(alloc, host, job, over)
}

/// Runs a script where nothing is done outside.
fn dry_over<H: Host>(
    alloc: Global,
    host: H,
    script: ByteText,
    cpus: u32,
    ticks: u64,
    words: Texts,
) -> (Outcome, H)
    requires { IsWithin (Dry cpus ticks script words) }
    ensures { DoesCommand (Some (Dry cpus ticks script words)) (H.log host) (H.log result.1) result.0 }
{
    let call = Call {
        path: script,
        cpus,
        ticks,
        words,
    };
    dry_script(alloc, host, call)
}

/// Runs each test of a script.
fn test_over<H: Host>(
    alloc: Global,
    host: H,
    script: ByteText,
    cpus: u32,
    ticks: u64,
) -> (Outcome, H)
    requires { IsWithin (Test cpus ticks script) }
    ensures { DoesCommand (Some (Test cpus ticks script)) (H.log host) (H.log result.1) result.0 }
{
    let call = Call {
        path: script,
        cpus,
        ticks,
        words: Listed::new(alloc),
    };
    test_script(alloc, host, call)
}

/// Does what words ask for, and gives the host back with the answer.
pub fn do_command<H: Host>(alloc: Global, host: H, command: Command) -> (Outcome, H)
    requires within { IsWithin command }
    ensures does { DoesCommand (Some command) (H.log host) (H.log result.1) result.0 }
    ensures saved { (c : ACall) → command ≡ Run c.cpus c.ticks c.path c.words Plain
        → SavesCheckpoints c (H.log host) (H.log result.1) }
{
    let mut host = host;
    match command {
        Command::Run {
            cpus,
            ticks,
            script,
            words,
            over,
        } => {
            let call = Call {
                path: script,
                cpus,
                ticks,
                words,
            };
            run_over(alloc, host, call, over)
        }
        Command::Resume {
            cpus,
            ticks,
            file,
            over,
        } => resume_over(alloc, host, file, cpus, ticks, over),
        Command::Check(script) => (check_script(alloc, &mut host, script), host),
        Command::Info(file) => (describe_file(alloc, &mut host, file), host),
        Command::Make(number) => (make_and_run(alloc, &mut host, number), host),
        Command::Format(script) => (format_script(alloc, &mut host, script), host),
        Command::Replay(log) => (replay_log(alloc, &mut host, log), host),
        Command::Dry {
            cpus,
            ticks,
            script,
            words,
        } => dry_over(alloc, host, script, cpus, ticks, words),
        Command::Test {
            cpus,
            ticks,
            script,
        } => test_over(alloc, host, script, cpus, ticks),
    }
}
