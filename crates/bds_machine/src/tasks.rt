//! Tasks and rules made of operands.
ghost use Rattle.std.specs.Prelude.{◌≡◌, ◌≤◌, IsSome, Some, Ok};
ghost use Rattle.std.specs.Result.{result_map_both};
ghost use Rattle.bds_code_frames.specs.Stack.{stack};
ghost use Rattle.bds_machine.specs.declared.point.Point.{Point};
ghost use Rattle.bds_machine.specs.declared.point.Point.TheVariants as point;
ghost use Rattle.bds_machine_values.specs.Faults.{Answers};
ghost use Rattle.bds_machine.specs.Points.{with_work};
ghost use Rattle.bds_machine.specs.Tasks.{ranged, processors, retries, rule_of};

use bds_code_frames::Frames;
use bds_machine_values::{RowFault, fault_of, take_bool, take_int, take_text, take_texts};
use bds_rules::Rule;
use bds_tasks::TaskNew;
use bds_value::{MAX_CPUS, MAX_RETRY, RunFault};
use std::alloc::Global;

/// A number in a range, or the fault that names it.
fn in_range(alloc: Global, low: u32, high: u32, n: i64) -> Result<u32, RowFault>
    ensures { Answers (ranged low high n) result }
{
    if n < low as i64 || n > high as i64 {
        return Err(fault_of(alloc, RunFault::BadOption(n)));
    }
    Ok(n as u32)
}

fn processors(alloc: Global, n: i64) -> Result<u32, RowFault>
    ensures { Answers (processors n) result }
{
    in_range(alloc, 1, MAX_CPUS, n)
}

fn retries(alloc: Global, n: i64) -> Result<u32, RowFault>
    ensures { Answers (retries n) result }
{
    in_range(alloc, 0, MAX_RETRY, n)
}

/// Takes what a task or a rule is made of.
pub(crate) fn take_rule(alloc: Global, frames: &mut Frames) -> Result<Rule, RowFault>
    requires { IsSome (with_work (λ w cpus retry. point.Declare (rule_of w cpus retry)) (stack frames.old)) }
    ensures { Answers (with_work (λ w cpus retry. point.Declare (rule_of w cpus retry)) (stack frames.old)) (result_map_both (λ r. (point.Declare r, stack frames.new)) (λ e. e) result) }
{
    let command = take_text(frames);
    let name = take_text(frames);
    let retry = take_int(frames);
    let can_fail = take_bool(frames);
    let cpus = take_int(frames);
    let ins = take_texts(alloc, frames)?;
    let outs = take_texts(alloc, frames)?;
    let cpus = processors(alloc, cpus)?;
    let retry = retries(alloc, retry)?;
    Ok(Rule {
        outs,
        ins,
        cpus,
        can_fail,
        retry,
        name,
        command,
    })
}

/// The task that is made of what a rule is; its maker isn't known here.
pub(crate) fn task_of(rule: Rule) -> TaskNew
    ensures { result ≡ record { maker = 0; command = rule.command; name = rule.name; outs = rule.outs; ins = rule.ins; cpus = rule.cpus; can_fail = rule.can_fail; retry = rule.retry } }
{
    TaskNew {
        maker: 0,
        command: rule.command,
        name: rule.name,
        outs: rule.outs,
        ins: rule.ins,
        cpus: rule.cpus,
        can_fail: rule.can_fail,
        retry: rule.retry,
    }
}
