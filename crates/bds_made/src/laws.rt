//! Laws of scripts that are made, each the clause of a function.
ghost use Rattle.bds_made.specs.Runs.{AreStraightNeverSpent, IsNeverRefused, IsNeverSpent};

use bds_front::job_has_one_step;

/// Threads without loops, calls, switches and `par` count no tick, so that their run is never spent.
pub fn straight_runs_are_never_spent()
    ensures { AreStraightNeverSpent }
{}

/// A script of up to 10,000 tasks that is made from a number is never refused.
pub fn made_scripts_are_never_refused()
    ensures { IsNeverRefused }
{
    job_has_one_step();
}

/// Nor are its ticks spent, however few there are.
pub fn made_scripts_are_never_spent()
    ensures { IsNeverSpent }
{
    job_has_one_step();
}
