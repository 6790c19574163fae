//! What is read is determined by the replies, and so is what a job comes to.

ghost use Rattle.bds_front.specs.Unique.{SpellsOne, IsFlawedUnlessSpelled, HasOneFlaw, HasFreeLine, TellsFlaws};
ghost use Rattle.bds_front.specs.Unique.{HasOneNextFile, HasNoNextWhereWhole, HasOneProgram, HasOneStep, IsNeverStuck};
ghost use Rattle.bds_front.specs.Unique.{IsMadeByReplies, HasOneEnd, RunsWhereAccepted, IsRefusedOrRun};

use bds_meaning::next_step_is_one;
use bds_parse_stmt::at_most_one;

/// A text spells at most one script.
pub fn text_spells_one_script()
    ensures { SpellsOne }
{
    at_most_one();
}

/// A text has a flaw exactly where it spells no script.
pub fn text_is_flawed_unless_spelled()
    ensures { IsFlawedUnlessSpelled }
{}

/// A text has one flaw, but for the line on which it is told that it spells no script.
pub fn text_has_one_flaw()
    ensures { HasOneFlaw }
{}

/// That line is the line of any token.
pub fn line_of_flaw_is_free()
    ensures { HasFreeLine }
{}

/// Each flaw is told by a fault.
pub fn flaws_are_told()
    ensures { TellsFlaws }
{}

/// Behind these files at most one is next.
pub fn one_file_is_next()
    ensures { HasOneNextFile }
{
    text_spells_one_script();
}

/// None is next where these are all files of a program.
pub fn whole_program_has_no_next()
    ensures { HasNoNextWhereWhole }
{
    text_spells_one_script();
}

/// Files make at most one program, with the same includes beyond the limits.
pub fn files_make_one_program()
    ensures { HasOneProgram }
{
    text_spells_one_script();
}

/// A job has one next step, but for the line of a text that spells no script, and for the bytes of a saved state.
pub fn job_has_one_step()
    ensures { HasOneStep }
{
    text_spells_one_script();
    next_step_is_one();
}

/// A job never gets stuck: wherever it has come, it can't be that no step is next.
pub fn job_is_never_stuck()
    ensures { IsNeverStuck }
{
    text_is_flawed_unless_spelled();
    flaws_are_told();
}

/// A job is a function of its replies.
pub fn replies_make_job()
    ensures { IsMadeByReplies }
{
    job_has_one_step();
}

/// A log belongs to one end of a job.
pub fn log_has_one_end()
    ensures { HasOneEnd }
{
    job_has_one_step();
}

/// Where replies lead to the run of a script, no more replies lead to its refusal.
pub fn accepted_script_runs()
    ensures { RunsWhereAccepted }
{
    job_has_one_step();
}

/// No log goes on both from the refusal of a script and from its run.
pub fn script_is_refused_or_run()
    ensures { IsRefusedOrRun }
{
    job_has_one_step();
}
