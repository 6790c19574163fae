//! What is computed for a goal is what the sets and chains of `specs/Goals.antt` say.
ghost use Rattle.bds_goal.specs.GoalLaws.{PlanIsComputed, ReachIsComputed};

/// The files that are computed for a goal are those that it reaches, and a cycle is found exactly where there is one.
pub fn reach_is_computed()
    ensures { ReachIsComputed }
{}

/// Where there is no cycle, what is computed for a goal is its plan, or the first file that can't be made.
pub fn plan_is_computed()
    ensures { PlanIsComputed }
{}
