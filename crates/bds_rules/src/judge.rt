//! Which of the rules of a file is the first that may not stand where it does.
ghost use Rattle.std.specs.Prelude.{◌≡◌, ◌≤◌, [], None, IfOk, MatchResult, length};
ghost use Rattle.bds_rules.specs.Indexes.{AreMakers, IsJudged, is_fit_in};
ghost use Rattle.bds_rules.specs.Own.{IsRulesFault, first_unfit};
ghost use Rattle.bds_value.specs.declared.TheConstants.{MAX_RULES};

use crate::indexes::{FileNumbers, are_new, put_files};
use crate::rule::{Rule, RulesFault};
use bds_value::{MAX_CPUS, MAX_RETRY, NoMemory};
use indexmap::IndexMap;
use std::alloc::Global;

/// A rule may stand behind those that make the files of an index.
fn is_fit_in(makers: &FileNumbers, rule: &Rule) -> bool
    ensures { result ≡ is_fit_in makers.now.entries rule.now }
{
    rule.cpus >= 1
        && rule.cpus <= MAX_CPUS
        && rule.retry <= MAX_RETRY
        && are_new(makers, rule.outs.as_slice())
}

/// The first rule that may not stand behind those before it. Where there is none, the index then
/// knows the files of all.
fn first_unfit(
    alloc: Global,
    makers: &mut FileNumbers,
    rules: &[Rule],
) -> Result<Option<u32>, NoMemory>
    requires few { length rules.now ≤ MAX_RULES }
    requires none { AreMakers [] makers.old.entries }
    ensures { IfOk result (IsJudged rules.now makers.new.entries) }
{
    for (i, rule) in rules.iter().enumerate() {
        if !is_fit_in(makers, rule) {
            return Ok(Some(i as u32 + 1));
        }
        put_files(alloc, makers, rule.outs.as_slice(), i + 1)?;
    }
    Ok(None)
}

/// An index of the files that rules make, or why they are no table. It takes a time that grows with
/// the rules.
pub(crate) fn judged(alloc: Global, rules: &[Rule]) -> Result<FileNumbers, RulesFault>
    requires { length rules.now ≤ MAX_RULES }
    ensures { MatchResult result (λ makers. (first_unfit rules.now ≡ None) × AreMakers rules.now makers.entries) (IsRulesFault rules.now) }
{
    let mut makers = IndexMap::new(alloc);
    match first_unfit(alloc, &mut makers, rules) {
        Ok(None) => Ok(makers),
        Ok(Some(n)) => Err(RulesFault::Unfit(n)),
        Err(_) => Err(RulesFault::NoMemory),
    }
}
