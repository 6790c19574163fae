//! As many tasks and rules as there may be, each in a time that grows with them.
ghost use Rattle.std.specs.Prelude.{◌≤◌, IfOk, length};
ghost use Rattle.bds_value.specs.Fields.{AreFieldTexts};

use crate::goals::rule;
use crate::tasks::task;
use bds_goal::{files, plan};
use bds_rules::{RuleFault, RuleTable};
use bds_tasks::{AddFault, TaskTable};
use bds_value::{ByteText, Listed, NoMemory, Numbers, Stamp, Stamps, Texts};
use std::alloc::Global;
use std::test::Fail;

/// The name of file `n`.
fn name_of(alloc: Global, n: u32) -> Result<ByteText, NoMemory>
    ensures { IfOk result (λ name. length name ≤ 4) }
{
    let bytes = n.to_be_bytes();
    let mut name = Listed::new(alloc);
    name.push(bytes[0])?;
    name.push(bytes[1])?;
    name.push(bytes[2])?;
    name.push(bytes[3])?;
    Ok(name)
}

/// The files of so many numbers from the first on.
fn files_from(alloc: Global, first: u32, count: u32) -> Result<Texts, NoMemory>
    requires { count ≤ 16 }
    ensures { IfOk result AreFieldTexts }
{
    let mut files = Listed::new(alloc);
    for i in 0..count {
        files.push(name_of(alloc, first.saturating_add(i))?)?;
    }
    Ok(files)
}

/// Rules in one chain, declared from the target down: each makes the file of its number of the next
/// one's.
fn chain(alloc: Global, count: u32) -> Result<RuleTable, Fail> {
    let mut table = RuleTable::new(alloc);
    for i in 0..count {
        let outs = files_from(alloc, i, 1)?;
        let ins = files_from(alloc, i.saturating_add(1), 1)?;
        table.declare(alloc, rule(alloc, outs, ins))?;
    }
    Ok(table)
}

/// All files are there, and the last one is newer.
fn stamps(alloc: Global, count: usize) -> Result<Stamps, NoMemory> {
    let mut stamps = Listed::new(alloc);
    for i in 0..count {
        let time = if i.saturating_add(1) == count { 2 } else { 1 };
        stamps.push(Stamp {
            there: true,
            size: 1,
            time,
        })?;
    }
    Ok(stamps)
}

/// They fall from a number down to 1.
fn falls_from(numbers: &[u32], count: u32) -> bool {
    let mut next = count;
    for n in numbers {
        if *n != next {
            return false;
        }
        next = next.saturating_sub(1);
    }
    next == 0
}

/// The plan of the first file of a chain.
fn planned(alloc: Global, table: &RuleTable) -> Result<Numbers, Fail> {
    let targets = files_from(alloc, 0, 1)?;
    let reached = files(alloc, table, &targets)?;
    let stamps = stamps(alloc, reached.len())?;
    let tasks = TaskTable::new(alloc);
    Ok(plan(alloc, table, &targets, &stamps, &tasks)?)
}

/// All rules of a chain are planned, the last one first.
fn plans_chain(alloc: Global, count: u32) -> Result<bool, Fail> {
    let table = chain(alloc, count)?;
    let numbers = planned(alloc, &table)?;
    Ok(falls_from(numbers.as_slice(), count))
}

#[test]
fn fifty_thousand_rules_in_a_chain_are_planned(rt: HostRuntime) -> Result<(), Fail> {
    assert!(rt; plans_chain(rt.alloc(), 50_000)?);
    Ok(())
}

/// They are so many numbers from the first on.
fn are_from(numbers: &[u32], first: u32, count: u32) -> bool {
    let mut next = first;
    for n in numbers {
        if *n != next {
            return false;
        }
        next = next.saturating_add(1);
    }
    next == first.saturating_add(count)
}

/// Adds task `n`, which reads the files of the sixteen before it, or of all of them, and tells
/// whether it needs just those.
fn add(alloc: Global, table: &mut TaskTable, n: u32) -> Result<bool, Fail> {
    let count = n.saturating_sub(1).min(16);
    let first = n.saturating_sub(count);
    let outs = files_from(alloc, n, 1)?;
    let ins = files_from(alloc, first, count)?;
    table.add(alloc, task(alloc, outs, ins, false))?;
    match table.as_slice().last() {
        Some(added) => Ok(are_from(added.needs.as_slice(), first, count)),
        None => Ok(false),
    }
}

fn add_all(alloc: Global, table: &mut TaskTable, count: u32) -> Result<bool, Fail> {
    let mut all = true;
    for i in 0..count {
        all = all && add(alloc, table, i.saturating_add(1))?;
    }
    Ok(all)
}

/// One task more is refused.
fn has_no_room(alloc: Global, table: &mut TaskTable) -> Result<bool, Fail> {
    let outs = files_from(alloc, 0, 0)?;
    let ins = files_from(alloc, 0, 0)?;
    match table.add(alloc, task(alloc, outs, ins, false)) {
        Err(AddFault::TooMany(n)) => Ok(n == table.count()),
        Err(AddFault::NoMemory) => Ok(false),
        Ok(_) => Ok(false),
    }
}

/// Each task needs the sixteen before it, and there is no room for another behind them.
fn needs_sixteen(alloc: Global, count: u32) -> Result<bool, Fail> {
    let mut table = TaskTable::new(alloc);
    Ok(add_all(alloc, &mut table, count)? && has_no_room(alloc, &mut table)?)
}

#[test]
fn a_hundred_thousand_tasks_need_the_sixteen_before(rt: HostRuntime) -> Result<(), Fail> {
    assert!(rt; needs_sixteen(rt.alloc(), 100_000)?);
    Ok(())
}

/// Declares rules of four files each.
fn declare_all(alloc: Global, table: &mut RuleTable, count: u32) -> Result<(), Fail> {
    for i in 0..count {
        let outs = files_from(alloc, i.saturating_mul(4), 4)?;
        let ins = files_from(alloc, 0, 0)?;
        table.declare(alloc, rule(alloc, outs, ins))?;
    }
    Ok(())
}

/// Each of these files has the rule of its number.
fn have_makers(alloc: Global, table: &RuleTable, count: u32) -> Result<bool, Fail> {
    for i in 0..count {
        let wanted = (i / 4).saturating_add(1);
        if table.maker(&name_of(alloc, i)?) != Some(wanted) {
            return Ok(false);
        }
    }
    Ok(true)
}

/// One rule more is refused, which makes file `n`.
fn has_no_place(alloc: Global, table: &mut RuleTable, n: u32) -> Result<bool, Fail> {
    let outs = files_from(alloc, n, 1)?;
    let ins = files_from(alloc, 0, 0)?;
    match table.declare(alloc, rule(alloc, outs, ins)) {
        Err(RuleFault::TooMany(count)) => Ok(count == table.count()),
        Err(RuleFault::TwoRules(_, _)) => Ok(false),
        Err(RuleFault::NoMemory) => Ok(false),
        Ok(_) => Ok(false),
    }
}

/// The rules of four files each are found by them, and there is no room for another.
fn finds_makers(alloc: Global, count: u32) -> Result<bool, Fail> {
    let made = count.saturating_mul(4);
    let mut table = RuleTable::new(alloc);
    declare_all(alloc, &mut table, count)?;
    Ok(have_makers(alloc, &table, made)? && has_no_place(alloc, &mut table, made)?)
}

#[test]
fn a_hundred_thousand_rules_with_four_files_are_found(rt: HostRuntime) -> Result<(), Fail> {
    assert!(rt; finds_makers(rt.alloc(), 100_000)?);
    Ok(())
}
