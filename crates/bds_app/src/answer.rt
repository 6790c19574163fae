//! The top call.
ghost use Rattle.std.specs.Prelude.{◌≡◌, ◌<◌, ◌⊎◌, map, string_bytes};
ghost use Rattle.bds_host.specs.Host.{faults};
ghost use Rattle.bds_app.specs.Answers.{Answers};
ghost use Rattle.bds_app.specs.Causes.{Cause};
ghost use Rattle.bds_app.specs.Complete.{AreEndsTold, HasPassedOnly, IsComplete, IsOnly, IsReplayedAgain};
ghost use Rattle.bds_app.specs.FormattedAgain.{IsFormattedAgain, PrintsCanonicalText};
ghost use Rattle.bds_app.specs.Histories.{AreSaved, FarmKeepsHistories, GoesOnFrom};
ghost use Rattle.bds_app_run.specs.declared.outcome.Outcome.TheVariants.{Device, NoMemory as OutOfMemory};

use crate::commands::do_command;
use bds_app_fmt::{canonical_text_is_printed, canonical_text_is_printed_again};
use bds_app_run::{Outcome, files_are_determined, scripts_are_determined, tell};
use bds_app_words::{WordsFault, read_words};
use bds_ckpt::states_are_read_back;
use bds_engine_parts::ends_have_causes;
use bds_farm::ends_are_learnt;
use bds_front::{job_has_one_step, log_has_one_end, script_is_refused_or_run};
use bds_host::{Fault, Host};
use bds_made::{made_scripts_are_never_refused, made_scripts_are_never_spent};
use bds_sim_code::script_histories_go_on;
use std::alloc::Global;

/// The answer to the words, and the host.
fn answer<H: Host>(alloc: Global, host: H, words: &[String]) -> (Outcome, H)
    ensures answers { Answers (map string_bytes words.now) (H.log host) (H.log result.1) result.0 }
    ensures saved { AreSaved (map string_bytes words.now) (H.log host) (H.log result.1) }
{
    match read_words(alloc, words) {
        Ok(command) => do_command(alloc, host, command),
        Err(WordsFault::NotUnderstood) => {
            let mut host = host;
            (tell(alloc, &mut host, Fault::Words, Outcome::Words), host)
        }
        Err(WordsFault::NoMemory) => (Outcome::NoMemory, host),
    }
}

/// The top call: does what the words of the program ask for, and gives the host back with the answer. `meaning` says
/// that all that was asked, and the answer, are those of the command; of `run` they are those of the script's meaning;
/// `cause` says what stands behind each answer; `device` that a fault has no other answer than `Device`, but for want
/// of memory; `complete` that an accepted script is run to its end, a refused one is told as that, and a state of a
/// file goes on to its end; `one` that a log has one answer, where it holds all that was asked: those of a farm, of a
/// dry run and of tests don't, and are left out; `passes` that nothing reaches the outside of a dry run and of tests
/// but reads, stamps and what is printed; `ends` that each end that a farm gave was told it; `replayed` that what was
/// written of a job is replayed as that job; `canonical` that a formatted script spells the tree that it spelled
/// before,
/// in all but lines, and `again` that it is formatted as it is; `saved` that each save of a script's run is a
/// checkpoint
/// of its history; `goes_on` that from a checkpoint the history goes on; `farm_keeps` that both hold of the log of a
/// farm.
pub fn bds<H: Host>(alloc: Global, words: &[String], host: H) -> (Outcome, H)
    ensures meaning { Answers (map string_bytes words.now) (H.log host) (H.log result.1) result.0 }
    ensures cause { Cause (map string_bytes words.now) (H.log host) (H.log result.1) result.0 }
    ensures device { faults (H.log host) < faults (H.log result.1) → (result.0 ≡ Device) ⊎ (result.0 ≡ OutOfMemory) }
    ensures complete { IsComplete (map string_bytes words.now) (H.log host) (H.log result.1) result.0 }
    ensures one { IsOnly (map string_bytes words.now) (H.log host) (H.log result.1) result.0 }
    ensures passes { HasPassedOnly (map string_bytes words.now) (H.log host) (H.log result.1) }
    ensures ends { AreEndsTold (map string_bytes words.now) (H.log host) (H.log result.1) }
    ensures replayed { IsReplayedAgain (map string_bytes words.now) (H.log host) (H.log result.1) result.0 }
    ensures canonical { PrintsCanonicalText (map string_bytes words.now) (H.log host) (H.log result.1) result.0 }
    ensures again { IsFormattedAgain (map string_bytes words.now) (H.log host) (H.log result.1) result.0 }
    ensures saved { AreSaved (map string_bytes words.now) (H.log host) (H.log result.1) }
    ensures goes_on { GoesOnFrom (map string_bytes words.now) (H.log host) (H.log result.1) result.0 }
    ensures farm_keeps { FarmKeepsHistories (map string_bytes words.now) (H.log host) (H.log result.1) result.0 }
{
    scripts_are_determined();
    files_are_determined();
    ends_are_learnt();
    script_is_refused_or_run();
    log_has_one_end();
    job_has_one_step();
    ends_have_causes();
    states_are_read_back();
    script_histories_go_on();
    canonical_text_is_printed();
    canonical_text_is_printed_again();
    made_scripts_are_never_refused();
    made_scripts_are_never_spent();
    answer(alloc, host, words)
}
