//! Worked rows of the table of rules.
ghost use Rattle.std.specs.Prelude.{IfOk};
ghost use Rattle.bds_value.specs.Fields.{AreFieldTexts};
ghost use Rattle.bds_rules.specs.Own.{IsLegal};

use bds_rules::{Rule, RuleFault, RuleTable, out_of_date, read_rules};
use bds_value::{Input, Listed, NoMemory, Stamp, Stamps, Texts};
use std::alloc::Global;
use std::process::Abort;
use std::test::Fail;

/// Two files, whose names are one byte each.
fn files(alloc: Global, first: u8, second: u8) -> Result<Texts, NoMemory>
    ensures { IfOk result AreFieldTexts }
{
    let mut one = Listed::new(alloc);
    one.push(first)?;
    let mut two = Listed::new(alloc);
    two.push(second)?;
    let mut files = Listed::new(alloc);
    files.push(one)?;
    files.push(two)?;
    Ok(files)
}

fn rule(alloc: Global, outs: Texts) -> Rule
    requires { AreFieldTexts outs }
    ensures { IsLegal result }
{
    Rule {
        outs,
        ins: Listed::new(alloc),
        cpus: 1,
        can_fail: false,
        retry: 0,
        name: Listed::new(alloc),
        command: Listed::new(alloc),
    }
}

fn declare(
    alloc: Global,
    table: &mut RuleTable,
    first: u8,
    second: u8,
) -> Result<Result<u32, RuleFault>, NoMemory> {
    let rule = rule(alloc, files(alloc, first, second)?);
    Ok(table.declare(alloc, rule))
}

fn is_two_rules(answer: Result<u32, RuleFault>, file: &[u8], n: u32) -> bool {
    match answer {
        Err(RuleFault::TwoRules(told, m)) => told.as_slice() == file && m == n,
        _ => false,
    }
}

#[test]
fn a_file_has_one_maker(rt: HostRuntime) -> Result<(), Fail> {
    let alloc = rt.alloc();
    let mut table = RuleTable::new(alloc);
    assert!(rt; declare(alloc, &mut table, b'a', b'c')?.is_ok());
    let refused = declare(alloc, &mut table, b'b', b'a')?;
    assert!(rt; is_two_rules(refused, b"a", 1));
    assert!(rt; table.count() == 1);
    let mut bytes = Listed::new(alloc);
    table.write(alloc, &mut bytes)?;
    let mut input = Input { bytes, at: 0 };
    let table = RuleTable::of(read_rules(alloc, &mut input)?)?;
    assert!(rt; table.count() == 1);
    let mut file = Listed::new(alloc);
    file.push(b'c')?;
    assert!(rt; table.maker(&file) == Some(1));
    Ok(())
}

fn stamp(alloc: Global, there: bool, size: u64, time: i64) -> Result<Stamps, NoMemory> {
    let mut stamps = Listed::new(alloc);
    stamps.push(Stamp { there, size, time })?;
    Ok(stamps)
}

/// Files with a size and a time, and whether the first is out of date against the second.
const DATES: [((bool, u64, i64), (bool, u64, i64), bool); 5] = [
    ((true, 1, 5), (true, 1, 5), false),
    ((true, 1, 5), (true, 1, 6), true),
    ((true, 0, 5), (true, 1, 5), true),
    ((false, 0, 0), (true, 1, 5), true),
    ((true, 1, 5), (false, 0, 0), true),
];

#[test]
fn files_are_out_of_date(rt: HostRuntime) -> Result<(), Fail> {
    let alloc = rt.alloc();
    for (left, right, old) in &DATES {
        let left = stamp(alloc, left.0, left.1, left.2)?;
        let right = stamp(alloc, right.0, right.1, right.2)?;
        assert!(rt; out_of_date(&left, &right, false) == *old);
        assert!(rt; out_of_date(&left, &right, true));
    }
    Ok(())
}
