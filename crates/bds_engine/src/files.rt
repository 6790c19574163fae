//! Requests about files: what is out of date, rules and goals.
ghost use Rattle.std.specs.Prelude.{◌≡◌, ◌≤◌, ◌+◌, Ok, false, length, nat_le};
ghost use Rattle.std.specs.List.{All};
ghost use Rattle.bds_goal.specs.Goals.{Reaches};
ghost use Rattle.bds_goal.specs.Reach.{has_cycle, reach};
ghost use Rattle.bds_host.specs.Host.{Log};
ghost use Rattle.bds_machine.specs.declared.point.Point.TheVariants as point;
ghost use Rattle.bds_value.specs.declared.TheConstants.{MAX_TASKS};
ghost use Rattle.bds_value.specs.declared.value.Ty.TheVariants as ty;
ghost use Rattle.bds_engine_stages.specs.Held.{FromRow, IsOut};
ghost use Rattle.bds_engine.specs.Given.{Awaits, FromStamps, MakesPlan};

use crate::giving::{breaks, hand};
use crate::stamps::{is_old, stamps_of};
use crate::tables::{add_tasks, put_rule};
use bds_code::Thread;
use bds_engine_stages::{Halt, Stage};
use bds_goal::{FilesFault, PlanFault, files, plan};
use bds_host::Host;
use bds_machine::{Answer, points_carry_what_fits};
use bds_rules::{Rule, RuleFault};
use bds_state::State;
use bds_value::{Listed, MAX_TASKS, RunFault, Stamps, Texts};
use std::alloc::Global;

/// Whether the first files are out of date against the second.
pub(crate) fn compare<H: Host>(
    alloc: Global,
    state: &mut State,
    k: u32,
    thread: Thread,
    outs: Texts,
    ins: Texts,
    host: &mut H,
) -> Result<Stage, Halt>
    requires { IsOut state.old k (point.Old outs ins) thread }
    ensures { FromRow state.old k thread (point.Old outs ins) (H.log host.old) (H.log host.new) state.new result }
{
    let Some(left) = stamps_of(alloc, outs.as_slice(), host)? else {
        return Ok(Stage::Faulted);
    };
    let Some(right) = stamps_of(alloc, ins.as_slice(), host)? else {
        return Ok(Stage::Faulted);
    };
    let old = is_old(&state.tasks, &outs, &ins, &left, &right);
    hand(alloc, state, k, thread, Answer::Bool(old), Stage::Turn(k))
}

/// Declares a rule.
pub(crate) fn declare(
    alloc: Global,
    state: &mut State,
    k: u32,
    thread: Thread,
    rule: Rule,
) -> Result<Stage, Halt>
    requires { IsOut state.old k (point.Declare rule) thread }
    ensures { (log : Log) → FromRow state.old k thread (point.Declare rule) log log state.new result }
{
    points_carry_what_fits();
    match put_rule(alloc, state, rule) {
        Ok(_) => hand(alloc, state, k, thread, Answer::Nothing, Stage::Turn(k)),
        Err(RuleFault::TwoRules(file, n)) => {
            breaks(alloc, state, &thread, RunFault::TwoRules(file, n))
        }
        Err(RuleFault::TooMany(_)) => breaks(alloc, state, &thread, RunFault::TooManyRules),
        Err(RuleFault::NoMemory) => Err(Halt::NoMemory),
    }
}

/// Makes tasks of the rules of a plan, where there is room.
fn make_plan(
    alloc: Global,
    state: &mut State,
    k: u32,
    thread: Thread,
    planned: &[u32],
) -> Result<Stage, Halt>
    requires awaits { Awaits state.old k thread (ty.List ty.Text) }
    requires rules { All (λ n. (1 ≤ n) × (n ≤ length state.old.rules)) planned.now }
    ensures { MakesPlan state.old k thread planned.now state.new result (nat_le (length state.old.tasks + length planned.now) MAX_TASKS) }
{
    state.tasks.are_tasks();
    if planned.len() as u64 > MAX_TASKS - state.tasks.count() as u64 {
        return breaks(alloc, state, &thread, RunFault::TooManyTasks);
    }
    let ids = add_tasks(alloc, state, k, planned)?;
    hand(alloc, state, k, thread, Answer::Texts(ids), Stage::Point)
}

/// Plans a goal by the stamps of the files that it reaches.
fn planned(
    alloc: Global,
    state: &mut State,
    k: u32,
    thread: Thread,
    targets: &Texts,
    stamps: &Stamps,
) -> Result<Stage, Halt>
    requires out { IsOut state.old k (point.Goal targets.now) thread }
    requires none { has_cycle state.old.rules targets.now ≡ false }
    requires all { length stamps.now ≡ length (reach state.old.rules targets.now) }
    ensures { FromStamps state.old k thread (point.Goal targets.now) stamps.now state.new result }
{
    match plan(alloc, &state.rules, targets, stamps, &state.tasks) {
        Ok(rules) => make_plan(alloc, state, k, thread, rules.as_slice()),
        Err(PlanFault::NoRule(file)) => breaks(alloc, state, &thread, RunFault::NoRule(file)),
        Err(PlanFault::NoMemory) => Err(Halt::NoMemory),
    }
}

/// Asks the stamps of the files that a goal reaches, and plans it by them.
fn stamped<H: Host>(
    alloc: Global,
    state: &mut State,
    k: u32,
    thread: Thread,
    targets: &Texts,
    reached: &Texts,
    host: &mut H,
) -> Result<Stage, Halt>
    requires out { IsOut state.old k (point.Goal targets.now) thread }
    requires reached { Reaches state.old.rules targets.now (Ok reached.now) }
    ensures { FromRow state.old k thread (point.Goal targets.now) (H.log host.old) (H.log host.new) state.new result }
{
    match stamps_of(alloc, reached.as_slice(), host)? {
        Some(stamps) => planned(alloc, state, k, thread, targets, &stamps),
        None => Ok(Stage::Faulted),
    }
}

/// A goal: the stamps of the files that it reaches, and then its plan.
pub(crate) fn achieve<H: Host>(
    alloc: Global,
    state: &mut State,
    k: u32,
    thread: Thread,
    targets: Texts,
    host: &mut H,
) -> Result<Stage, Halt>
    requires { IsOut state.old k (point.Goal targets) thread }
    ensures { FromRow state.old k thread (point.Goal targets) (H.log host.old) (H.log host.new) state.new result }
{
    match files(alloc, &state.rules, &targets) {
        Ok(reached) => stamped(alloc, state, k, thread, &targets, &reached, host),
        Err(FilesFault::Cycle(_)) => {
            breaks(alloc, state, &thread, RunFault::Cycle(Listed::new(alloc)))
        }
        Err(FilesFault::NoMemory) => Err(Halt::NoMemory),
    }
}
