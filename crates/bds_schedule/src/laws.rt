//! What a schedule does with tasks of which one ended badly.
ghost use Rattle.bds_schedule.specs.Cancelling.{CancelsLost};

/// A bad end cancels the waiting tasks that are reached from it through needs, and no others.
pub fn lost_tasks_are_cancelled()
    ensures { CancelsLost }
{}
