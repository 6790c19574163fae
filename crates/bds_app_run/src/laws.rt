//! What is loaded is what a job reads.

ghost use Rattle.bds_app_run.specs.Begun.{LoadsAsJobsRead};

/// A script is loaded as each job of its path reads it: so a script that is checked is read as one that is run.
pub fn script_is_loaded_as_jobs_read()
    ensures { LoadsAsJobsRead }
{}
