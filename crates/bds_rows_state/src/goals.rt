//! Worked rows of goals.
ghost use Rattle.std.specs.Prelude.{IfOk};
ghost use Rattle.bds_value.specs.Fields.{AreFieldTexts};
ghost use Rattle.bds_rules.specs.Own.{IsLegal};

use bds_goal::{FilesFault, PlanFault, files, plan};
use bds_rules::{Rule, RuleTable};
use bds_tasks::TaskTable;
use bds_value::{Listed, NoMemory, Numbers, Stamp, Stamps, Texts};
use std::alloc::Global;
use std::process::Abort;
use std::test::Fail;

/// Two files, whose names are one byte each.
fn two(alloc: Global, first: u8, second: u8) -> Result<Texts, NoMemory>
    ensures { IfOk result AreFieldTexts }
{
    let mut one = Listed::new(alloc);
    one.push(first)?;
    let mut other = Listed::new(alloc);
    other.push(second)?;
    let mut texts = Listed::new(alloc);
    texts.push(one)?;
    texts.push(other)?;
    Ok(texts)
}

pub(crate) fn rule(alloc: Global, outs: Texts, ins: Texts) -> Rule
    requires outs { AreFieldTexts outs }
    requires ins { AreFieldTexts ins }
    ensures { IsLegal result }
{
    Rule {
        outs,
        ins,
        cpus: 1,
        can_fail: false,
        retry: 0,
        name: Listed::new(alloc),
        command: Listed::new(alloc),
    }
}

/// Rules of one output and two inputs each.
fn rules(alloc: Global, rows: &[(u8, u8, u8)]) -> Result<RuleTable, Fail> {
    let mut rules = RuleTable::new(alloc);
    for (out, first, second) in rows {
        let rule = rule(alloc, two(alloc, *out, *out)?, two(alloc, *first, *second)?);
        rules.declare(alloc, rule)?;
    }
    Ok(rules)
}

/// Stamps of files of one byte.
fn stamps(alloc: Global, times: &[i64]) -> Result<Stamps, NoMemory> {
    let mut stamps = Listed::new(alloc);
    for time in times {
        let there = *time > 0;
        let size = if there { 1 } else { 0 };
        stamps.push(Stamp {
            there,
            size,
            time: *time,
        })?;
    }
    Ok(stamps)
}

fn names(texts: &Texts, wanted: &[u8]) -> bool {
    let texts = texts.as_slice();
    if texts.len() != wanted.len() {
        return false;
    }
    for (text, name) in texts.iter().zip(wanted.iter()) {
        if text.as_slice() != [*name].as_slice() {
            return false;
        }
    }
    true
}

fn is_cycle(answer: Result<Texts, FilesFault>) -> bool {
    match answer {
        Err(FilesFault::Cycle(chain)) => {
            chain.as_slice() == [1, 2].as_slice() || chain.as_slice() == [2, 1].as_slice()
        }
        _ => false,
    }
}

#[test]
fn a_cycle_is_told(rt: HostRuntime) -> Result<(), Fail> {
    let alloc = rt.alloc();
    let targets = two(alloc, b'a', b'a')?;
    let circle = rules(alloc, &[(b'a', b'b', b'b'), (b'b', b'a', b'a')])?;
    assert!(rt; is_cycle(files(alloc, &circle, &targets)));
    Ok(())
}

/// Rules of one output and two inputs each, and the files that a goal for the first output asks for.
const REACHED: [(&[(u8, u8, u8)], &[u8]); 2] = [
    (&[(b'a', b'b', b'b')], b"ab"),
    (&[(b'a', b'b', b'b'), (b'b', b'c', b'c')], b"abc"),
];

fn reaches(alloc: Global, rows: &[(u8, u8, u8)], wanted: &[u8]) -> Result<bool, Fail> {
    let rules = rules(alloc, rows)?;
    let targets = two(alloc, b'a', b'a')?;
    Ok(names(&files(alloc, &rules, &targets)?, wanted))
}

#[test]
fn a_goal_asks_for_the_files_of_its_rules(rt: HostRuntime) -> Result<(), Fail> {
    for (rows, wanted) in &REACHED {
        assert!(rt; reaches(rt.alloc(), rows, wanted)?);
    }
    Ok(())
}

/// The plan of a goal for a file.
fn planned(
    alloc: Global,
    rules: &RuleTable,
    target: u8,
    times: &[i64],
) -> Result<Result<Numbers, PlanFault>, Fail> {
    let targets = two(alloc, target, target)?;
    files(alloc, rules, &targets)?;
    let stamps = stamps(alloc, times)?;
    let tasks = TaskTable::new(alloc);
    Ok(plan(alloc, rules, &targets, &stamps, &tasks))
}

fn is_plan(answer: Result<Numbers, PlanFault>, wanted: &[u32]) -> bool {
    match answer {
        Ok(numbers) => numbers.as_slice() == wanted,
        Err(_) => false,
    }
}

#[test]
fn what_is_old_is_planned_with_what_needs_it(rt: HostRuntime) -> Result<(), Fail> {
    let alloc = rt.alloc();
    let chain = rules(alloc, &[(b'a', b'b', b'b'), (b'b', b'c', b'c')])?;
    assert!(rt; is_plan(planned(alloc, &chain, b'a', &[5, 5, 5])?, &[]));
    assert!(rt; is_plan(planned(alloc, &chain, b'a', &[5, 5, 9])?, &[2, 1]));
    Ok(())
}

#[test]
fn a_diamond_is_planned_once(rt: HostRuntime) -> Result<(), Fail> {
    let alloc = rt.alloc();
    let rows = [
        (b'a', b's', b's'),
        (b'b', b'a', b'a'),
        (b'c', b'a', b'a'),
        (b'd', b'b', b'c'),
    ];
    let diamond = rules(alloc, &rows)?;
    assert!(rt;
        is_plan(
            planned(alloc, &diamond, b'd', &[5, 5, 5, 5, 9])?,
            &[1, 2, 3, 4]
        )
    );
    Ok(())
}

fn is_no_rule(answer: Result<Numbers, PlanFault>, file: &[u8]) -> bool {
    match answer {
        Err(PlanFault::NoRule(told)) => told.as_slice() == file,
        _ => false,
    }
}

#[test]
fn a_missing_file_without_a_rule_is_told(rt: HostRuntime) -> Result<(), Fail> {
    let alloc = rt.alloc();
    let chain = rules(alloc, &[(b'a', b'b', b'c')])?;
    assert!(rt; is_no_rule(planned(alloc, &chain, b'a', &[0, 0, 0])?, b"b"));
    Ok(())
}
