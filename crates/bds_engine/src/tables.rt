//! Tasks and rules that a thread makes.
ghost use Rattle.std.specs.Prelude.{◌≡◌, ◌≤◌, ◌<◌, ◌+◌, length, IfOk};
ghost use Rattle.bds_rules.specs.Own as rules;
ghost use Rattle.bds_tasks.specs.Sound as tasks;
ghost use Rattle.bds_schedule.specs.Turns.{task_of_rule};
ghost use Rattle.bds_value.specs.declared.TheConstants.{MAX_TASKS};
ghost use Rattle.std.specs.List.{All};
ghost use Rattle.bds_engine.specs.Given.{AddsPlan, AddsRule, AddsRuleTask, AddsTask};

use bds_engine_parts::task_id;
use bds_rules::{Rule, RuleFault};
use bds_state::State;
use bds_tasks::{AddFault, TaskNew};
use bds_value::{ByteText, Listed, NoMemory, Texts, copy_text};
use std::alloc::Global;

/// Adds a task of a thread that is there.
pub(crate) fn put_task(alloc: Global, state: &mut State, task: TaskNew) -> Result<u32, AddFault>
    requires legal { tasks.IsLegal task }
    requires maker { task.maker < length state.old.threads }
    ensures { AddsTask task state.old state.new result }
{
    state.tasks.add(alloc, task)
}

/// Declares a rule.
pub(crate) fn put_rule(alloc: Global, state: &mut State, rule: Rule) -> Result<u32, RuleFault>
    requires { rules.IsLegal rule }
    ensures { AddsRule rule state.old state.new result }
{
    state.rules.declare(alloc, rule)
}

fn copy_texts(alloc: Global, texts: &Texts) -> Result<Texts, NoMemory>
    ensures { IfOk result (λ copies. copies ≡ texts.now) }
{
    let mut copies = Listed::new(alloc);
    for text in texts.as_slice() {
        copies.push(copy_text(alloc, text)?)?;
    }
    Ok(copies)
}

/// The task of a rule.
fn task_of(alloc: Global, k: u32, rule: &Rule) -> Result<TaskNew, NoMemory>
    ensures { IfOk result (λ task. task ≡ task_of_rule k rule.now) }
{
    let command = copy_text(alloc, &rule.command)?;
    let name = copy_text(alloc, &rule.name)?;
    let outs = copy_texts(alloc, &rule.outs)?;
    let ins = copy_texts(alloc, &rule.ins)?;
    Ok(TaskNew {
        maker: k,
        command,
        name,
        outs,
        ins,
        cpus: rule.cpus,
        can_fail: rule.can_fail,
        retry: rule.retry,
    })
}

/// Adds the task of a rule, and gives its id.
fn add_task(alloc: Global, state: &mut State, k: u32, rule: u32) -> Result<ByteText, NoMemory>
    requires maker { k < length state.old.threads }
    requires rule { (1 ≤ rule) × (rule ≤ length state.old.rules) }
    requires room { length state.old.tasks < MAX_TASKS }
    ensures { AddsRuleTask k rule state.old state.new result }
{
    state.is_valid();
    let task = task_of(alloc, k, state.rules.rule(rule))?;
    match put_task(alloc, state, task) {
        Ok(n) => task_id(alloc, n),
        Err(AddFault::TooMany(_)) => unreachable!(),
        Err(AddFault::NoMemory) => Err(NoMemory),
    }
}

/// Adds the tasks of rules, and gives their ids.
pub(crate) fn add_tasks(
    alloc: Global,
    state: &mut State,
    k: u32,
    planned: &[u32],
) -> Result<Texts, NoMemory>
    requires maker { k < length state.old.threads }
    requires rules { All (λ n. (1 ≤ n) × (n ≤ length state.old.rules)) planned.now }
    requires room { length state.old.tasks + length planned.now ≤ MAX_TASKS }
    ensures { AddsPlan k planned.now state.old state.new result }
{
    let mut ids = Listed::new(alloc);
    for i in 0..planned.len() {
        ids.push(add_task(alloc, state, k, planned[i])?)?;
    }
    Ok(ids)
}
