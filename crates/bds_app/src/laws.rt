//! Laws of calls that follow each other, each the clause of a function.
ghost use Rattle.bds_app.specs.OneRun.{StopsMakeOneRun};
ghost use Rattle.bds_app.specs.WholeRun.{RunsAreWhole};

use bds_meaning_laws::{histories_keep_the_laws, jobs_are_histories, scripts_open_so};

/// What a script's run asked up to a save, what each call that resumed one asked up to its own, and all that
/// the last one asked are together one history of the script, however often it stops. The last answer is that of
/// this history, its saves are checkpoints of it, and it keeps the laws of every history.
pub fn stops_make_one_run()
    ensures { StopsMakeOneRun }
{
    scripts_open_so();
    histories_keep_the_laws();
}

/// What a script's run asked that never stops is one history of the script, too, unless it didn't come to run.
pub fn runs_are_whole()
    ensures { RunsAreWhole }
{
    jobs_are_histories();
    scripts_open_so();
    histories_keep_the_laws();
}
