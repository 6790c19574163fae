//! Threads with a list of needs, and what scheduling asks for them: each law is a computation.
ghost use Rattle.bds_schedule.specs.ScheduleRows as rows;

/// Tasks start in the order of their numbers, as processors allow.
pub fn tasks_take_processors()
    ensures { rows.tasks_take_processors }
{}

/// A goal over a diamond of rules makes each rule a task once.
pub fn diamond_is_planned()
    ensures { rows.diamond_is_planned }
{}

/// Nothing is done for what is up to date, and a missing file needs a rule.
pub fn goal_without_rule()
    ensures { rows.goal_without_rule }
{}

/// Two rules may not make one file.
pub fn second_maker_is_told()
    ensures { rows.second_maker_is_told }
{}

/// A wait for a cancelled task names the one that failed.
pub fn cancelled_task_is_told()
    ensures { rows.cancelled_task_is_told }
{}

/// A fault in reply ends the run.
pub fn device_fault_is_told()
    ensures { rows.device_fault_is_told }
{}
