//! The bytes of rules in a file.
ghost use Rattle.std.specs.Prelude.{◌≡◌, ◌++◌, OnOk, IfOk};
ghost use Rattle.std.specs.List.{flat_map, All};
ghost use Rattle.bds_value.specs.Reading.{Reads, many};
ghost use Rattle.bds_rules.specs.RuleFields.{rule_read, rules_at, files_field, names_field, numbers_field, rule_field, rules_field, IsFieldRule, AreFieldRules};

use crate::rule::{Rule, Rules};
use bds_value::{
    FieldFault, Input, Listed, MAX_RULES, NoMemory, are_bytes, put_bool, put_count, put_text_field,
    put_texts, put_u32, read_bool, read_count, read_text, read_texts, read_u32,
};
use std::alloc::Global;

fn read_rule(alloc: Global, input: &mut Input) -> Result<Rule, FieldFault>
    ensures read { Reads (rule_read input.old) input.new result }
    ensures kept { input.new.bytes ≡ input.old.bytes }
{
    let outs = read_texts(alloc, input)?;
    let ins = read_texts(alloc, input)?;
    let cpus = read_u32(input)?;
    let can_fail = read_bool(input)?;
    let retry = read_u32(input)?;
    let name = read_text(alloc, input)?;
    let command = read_text(alloc, input)?;
    Ok(Rule {
        outs,
        ins,
        cpus,
        can_fail,
        retry,
        name,
        command,
    })
}

fn read_counted_rules(alloc: Global, input: &mut Input, count: u32) -> Result<Rules, FieldFault>
    ensures read { Reads (many rule_read count input.old) input.new result }
    ensures kept { input.new.bytes ≡ input.old.bytes }
{
    let mut rules = Listed::new(alloc);
    for _ in 0..count {
        rules.push(read_rule(alloc, input)?)?;
    }
    Ok(rules)
}

fn read_list(alloc: Global, input: &mut Input) -> Result<Rules, FieldFault>
    ensures read { Reads (rules_at input.old) input.new result }
    ensures kept { input.new.bytes ≡ input.old.bytes }
{
    let count = read_count(input, MAX_RULES)?;
    read_counted_rules(alloc, input, count)
}

/// Reads rules behind their number.
pub fn read_rules(alloc: Global, input: &mut Input) -> Result<Rules, FieldFault>
    ensures read { Reads (rules_at input.old) input.new result }
    ensures legal { IfOk result AreFieldRules }
    ensures kept { input.new.bytes ≡ input.old.bytes }
{
    are_bytes(input.bytes.as_slice());
    read_list(alloc, input)
}

fn put_names(out: &mut Vec<u8>, rule: &Rule) -> Result<(), NoMemory>
    requires { IsFieldRule rule.now }
    ensures { OnOk result (out.new.items ≡ out.old.items ++ names_field rule.now) }
{
    put_text_field(out, rule.name.as_slice())?;
    put_text_field(out, rule.command.as_slice())
}

fn put_numbers(out: &mut Vec<u8>, rule: &Rule) -> Result<(), NoMemory>
    requires { IsFieldRule rule.now }
    ensures { OnOk result (out.new.items ≡ out.old.items ++ numbers_field rule.now) }
{
    put_u32(out, rule.cpus)?;
    put_bool(out, rule.can_fail)?;
    put_u32(out, rule.retry)?;
    put_names(out, rule)
}

fn put_files(out: &mut Vec<u8>, rule: &Rule) -> Result<(), NoMemory>
    requires { IsFieldRule rule.now }
    ensures { OnOk result (out.new.items ≡ out.old.items ++ files_field rule.now) }
{
    put_texts(out, rule.outs.as_slice())?;
    put_texts(out, rule.ins.as_slice())
}

fn put_rule(out: &mut Vec<u8>, rule: &Rule) -> Result<(), NoMemory>
    requires { IsFieldRule rule.now }
    ensures { OnOk result (out.new.items ≡ out.old.items ++ rule_field rule.now) }
{
    put_files(out, rule)?;
    put_numbers(out, rule)
}

fn put_each_rule(out: &mut Vec<u8>, rules: &[Rule]) -> Result<(), NoMemory>
    requires { All IsFieldRule rules.now }
    ensures { OnOk result (out.new.items ≡ out.old.items ++ flat_map rule_field rules.now) }
{
    for rule in rules {
        put_rule(out, rule)?;
    }
    Ok(())
}

/// Puts rules behind their number. After a refusal `out` is open.
pub(crate) fn put_rules(out: &mut Vec<u8>, rules: &[Rule]) -> Result<(), NoMemory>
    requires { AreFieldRules rules.now }
    ensures { OnOk result (out.new.items ≡ out.old.items ++ rules_field rules.now) }
{
    put_count(out, rules.len())?;
    put_each_rule(out, rules)
}
