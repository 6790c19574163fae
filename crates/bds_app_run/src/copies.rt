//! What a job names, copied.
ghost use Rattle.std.specs.Prelude.{◌≡◌, IfOk};
ghost use Rattle.bds_app_run.specs.Jobs.{call_of};

use crate::call::Call;
use bds_replay::Job;
use bds_value::{Listed, NoMemory, Texts, copy_text};
use std::alloc::Global;

fn copy_words(alloc: Global, words: &Texts) -> Result<Texts, NoMemory>
    ensures { IfOk result (λ copied. copied ≡ words.now) }
{
    let mut copied = Listed::new(alloc);
    for word in words.as_slice() {
        copied.push(copy_text(alloc, word)?)?;
    }
    Ok(copied)
}

/// The script that a job runs.
pub fn call_of(alloc: Global, job: &Job) -> Result<Call, NoMemory>
    ensures { IfOk result (λ call. call ≡ call_of job.now) }
{
    Ok(Call {
        path: copy_text(alloc, &job.path)?,
        cpus: job.cpus,
        ticks: job.ticks,
        words: copy_words(alloc, &job.words)?,
    })
}
