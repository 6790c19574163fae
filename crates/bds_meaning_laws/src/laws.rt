//! Laws of every history, each the clause of a function.
ghost use Rattle.bds_meaning_laws.specs.Goals.{GoalsMakeTheirPlan};
ghost use Rattle.bds_meaning_laws.specs.Histories.{GoodEndsAreWell, GoodEndsStay, HistoriesTell, RunsEndAtRest, ScriptsOpenSo, TasksFit, TasksStartBehindNeeds};
ghost use Rattle.bds_meaning_laws.specs.Jobs.{HistoriesKeepTheLaws, JobsAreHistories, JobsKeepTheLaws};
ghost use Rattle.bds_meaning_laws.specs.Living.{HistoriesLiveInOne, LawsHoldBehindEachEvent};

/// The run of each script opens at a point, without tasks, as the laws ask of a history.
pub fn scripts_open_so()
    ensures { ScriptsOpenSo }
{}

/// An end is called good just where the table of tasks says so.
pub fn good_ends_are_well()
    ensures { GoodEndsAreWell }
{}

/// A history tells how many processors there are, and which tasks run: those whose start was answered
/// and that have not ended since, nor was there a restart.
pub fn histories_tell()
    ensures { HistoriesTell }
{}

/// Where a task starts, each task that it needs has ended well, and has neither started nor ended since.
pub fn tasks_start_behind_needs()
    ensures { TasksStartBehindNeeds }
{}

/// A task that has ended well doesn't start again, also behind a restart.
pub fn good_ends_stay()
    ensures { GoodEndsStay }
{}

/// The running tasks take no more processors than there are.
pub fn tasks_fit()
    ensures { TasksFit }
{}

/// Where a run is done with a status, no task runs.
pub fn runs_end_at_rest()
    ensures { RunsEndAtRest }
{}

/// A goal that comes to its value has made one task for each rule that is due and not busy by the stamps
/// that were asked for, and no other; a goal that doesn't come to its value makes none.
pub fn goals_make_their_plan()
    ensures { GoalsMakeTheirPlan }
{}

/// Wherever the run of a job is, the log has grown by the reads of its files, and then by a history of its program.
pub fn jobs_are_histories()
    ensures { JobsAreHistories }
{}

/// From its opening on, each history keeps all of these laws, through whatever restarts: so does what goes on
/// from a checkpoint.
pub fn histories_keep_the_laws()
    ensures { HistoriesKeepTheLaws }
{}

/// The laws of histories hold of each job that runs.
pub fn jobs_keep_the_laws()
    ensures { JobsKeepTheLaws }
{}

/// Behind each of its events a history has led somewhere, and has kept all of these laws there.
pub fn laws_hold_behind_each_event()
    ensures { LawsHoldBehindEachEvent }
{}

/// A history comes to rest in at most one configuration: where no further step can be taken without an ask,
/// a restart or a tick.
pub fn histories_live_in_one()
    ensures { HistoriesLiveInOne }
{}
