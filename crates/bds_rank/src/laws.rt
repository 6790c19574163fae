//! Laws of what is left of a run, each the clause of a function.
ghost use Rattle.bds_rank.specs.Keeping.{TurnsAreOfReady};
ghost use Rattle.bds_rank.specs.Lessening.{MovesLessen, PointsLessen, TurnsLessen};
ghost use Rattle.bds_rank.specs.Machine.{RowsFall, RunsLessen, RunsStaySound};

/// What a ready thread does in its turn leaves less of the run, whatever fitting reply is given, or the turn has
/// one stamp more: where rules have few retries, and the thread falls.
pub fn turns_lessen()
    ensures { TurnsLessen }
{}

/// Where it is no thread's turn, what comes next leaves less of the run: a start or an end of a task, the choice
/// of a thread, or a step towards the end.
pub fn points_lessen()
    ensures { PointsLessen }
{}

/// Each move of a run leaves less of it, whatever fitting reply is given, but for a stamp that is asked for: where
/// its turn is that of a ready thread, rules have few retries, and ready threads fall.
pub fn moves_lessen()
    ensures { MovesLessen }
{}

/// A turn is that of a thread which is there and ready, and each move keeps that.
pub fn turns_are_of_ready()
    ensures { TurnsAreOfReady }
{}

/// Each row of a live thread of the machine leaves less before it, or has used a tick, and leaves it live.
pub fn rows_fall()
    ensures { RowsFall }
{}

/// Wherever a run of the machine comes to from a sound state, its state is sound.
pub fn runs_stay_sound()
    ensures { RunsStaySound }
{}

/// Where a run of the machine has gone on from a sound state, less of it is left.
pub fn runs_lessen()
    ensures { RunsLessen }
{}
