//! What the log says of an answer, each law the clause of a function.
ghost use Rattle.bds_app_run.specs.Complete.{FilesAreDetermined, ScriptsAreDetermined};

use bds_ckpt::states_are_read_back;
use bds_engine_parts::ends_have_causes;
use bds_front::{log_has_one_end, script_is_refused_or_run};

/// The answer to a script that is run has its cause in the log, and no other answer has that log: a law, which does
/// nothing.
pub fn scripts_are_determined()
    ensures { ScriptsAreDetermined }
{
    script_is_refused_or_run();
    log_has_one_end();
}

/// So it is of a file that is resumed: a law, which does nothing.
pub fn files_are_determined()
    ensures { FilesAreDetermined }
{
    ends_have_causes();
    states_are_read_back();
}
