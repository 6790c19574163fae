//! The table of rules.
ghost use Rattle.std.specs.Prelude.{◌≡◌, ◌≤◌, ◌++◌, [], ◌∷◌, length, Some, None, OnOk, OnErr, MatchResult};
ghost use Rattle.bds_rules.specs.Indexes.{AreMakers};
ghost use Rattle.bds_rules.specs.Makers.{maker, rule_at};
ghost use Rattle.bds_rules.specs.Own.{AreOwn, AreRules, Declares, IsLegal, IsRulesFault, NamesMaker, first_unfit};
ghost use Rattle.bds_rules.specs.RuleFields.{AreFieldRules, rules_field};
ghost use Rattle.bds_value.specs.declared.TheConstants.{MAX_RULES};

use crate::fields::put_rules;
use crate::indexes::{FileNumbers, put_files};
use crate::judge::judged;
use crate::makers::{made_already, maker};
use crate::rule::{Rule, RuleFault, Rules, RulesFault};
use bds_value::{ByteText, MAX_RULES, NoMemory, copy_text};
use indexmap::IndexMap;
use std::alloc::Global;
use std::marker::Model;

/// The rules that were declared, numbered from 1.
#[derive(Drop)]
pub struct RuleTable {
    rules: Vec<Rule>,
    /// The least rule of each file.
    makers: FileNumbers,
}

impl Model for RuleTable {
    ghost use Rattle.std.specs.Prelude.{List};
    ghost use Rattle.std.specs.Coded.{coded_list};
    ghost use Rattle.bds_rules.specs.declared.rule.Rule.{Rule};
    ghost use Rattle.bds_rules.specs.contracts.rule.Rule as code;
    ghost use Rattle.bds_rules.specs.Indexes.{AreMakers};
    ghost use Rattle.bds_rules.specs.Own.{AreRules};

    ghost Value = { List Rule };

    ghost coded = { coded_list code.the_row.coded };

    ghost view = { λ t. t.rules.items };

    ghost invariant = { λ t. AreRules t.rules.items × AreMakers t.rules.items t.makers.entries };
}

/// Puts a rule at the end, and its files into the index. A refused call leaves both as they were.
fn put(
    alloc: Global,
    rules: &mut Vec<Rule>,
    makers: &mut FileNumbers,
    rule: Rule,
) -> Result<(), NoMemory>
    requires few { length rules.old.items ≤ MAX_RULES }
    requires known { AreMakers rules.old.items makers.old.entries }
    ensures ok { OnOk result (rules.new.items ≡ rules.old.items ++ rule ∷ []) }
    ensures err { OnErr result (rules.new.items ≡ rules.old.items) }
    ensures index { OnErr result (makers.new.entries ≡ makers.old.entries) }
    ensures known { AreMakers rules.new.items makers.new.entries }
{
    let count = rules.len();
    match rules.push(rule) {
        Ok(()) => {}
        Err(_) => return Err(NoMemory),
    }
    match put_files(alloc, makers, rules[count].outs.as_slice(), count + 1) {
        Ok(()) => Ok(()),
        Err(_) => {
            rules.truncate(count);
            Err(NoMemory)
        }
    }
}

/// The fault that tells of a rule which makes a file already.
fn two_rules(alloc: Global, file: &ByteText, n: u32) -> RuleFault
    ensures { NamesMaker file.now n result }
{
    match copy_text(alloc, file) {
        Ok(file) => RuleFault::TwoRules(file, n),
        Err(_) => RuleFault::NoMemory,
    }
}

impl RuleTable {
    /// The table of these rules, or the number of the first that may not stand behind those before
    /// it, or there is no memory for their files.
    pub fn of(rules: Rules) -> Result<RuleTable, RulesFault>
        requires { AreFieldRules rules }
        ensures { MatchResult result (λ table. (table ≡ rules) × (first_unfit rules ≡ None)) (IsRulesFault rules) }
    {
        let rules = rules.into_vec();
        match judged(*rules.allocator(), &rules) {
            Ok(makers) => Ok(RuleTable { rules, makers }),
            Err(fault) => Err(fault),
        }
    }

    /// Writes the rules at the end, behind their number. A refused call leaves `out` as it was.
    pub fn write(&self, alloc: Global, out: &mut ByteText) -> Result<(), NoMemory>
        ensures ok { OnOk result (out.new ≡ out.old ++ rules_field self.now) }
        ensures err { OnErr result (out.new ≡ out.old) }
    {
        let mut field = Vec::new(alloc);
        put_rules(&mut field, &self.rules)?;
        out.append(field.as_slice())
    }

    /// No rules.
    pub fn new(alloc: Global) -> RuleTable
        ensures { result ≡ [] }
    {
        RuleTable {
            rules: Vec::new(alloc),
            makers: IndexMap::new(alloc),
        }
    }

    /// Which rules a table holds: a law, which does nothing.
    pub fn are_rules(&self)
        ensures { AreRules self.now }
    {
        let _rules = &self.rules;
    }

    /// How many rules there are.
    pub fn count(&self) -> u32
        ensures { result ≡ length self.now }
    {
        self.rules.len() as u32
    }

    /// Rule `n`.
    pub fn rule(&self, n: u32) -> &Rule
        requires { (1 ≤ n) × (n ≤ length self.now) }
        ensures { rule_at self.now n ≡ Some result.now }
    {
        &self.rules[n as usize - 1]
    }

    /// The rules in their order. No two make one file.
    pub fn as_slice(&self) -> &[Rule]
        ensures same { result.now ≡ self.now }
        ensures few { length result.now ≤ MAX_RULES }
        ensures own { AreOwn [] self.now }
    {
        &self.rules
    }

    /// The least rule that makes a file.
    pub fn maker(&self, file: &ByteText) -> Option<u32>
        ensures { result ≡ maker self.now file.now }
    {
        maker(&self.rules, &self.makers, file.as_slice())
    }

    /// Adds a rule, and gives its number. A refused call leaves the table as it was.
    pub fn declare(&mut self, alloc: Global, rule: Rule) -> Result<u32, RuleFault>
        requires { IsLegal rule }
        ensures { Declares rule self.old self.new result }
    {
        if let Some((file, n)) = made_already(&self.rules, &self.makers, rule.outs.as_slice()) {
            return Err(two_rules(alloc, file, n));
        }
        let count = self.count();
        if count as u64 >= MAX_RULES {
            return Err(RuleFault::TooMany(count));
        }
        match put(alloc, &mut self.rules, &mut self.makers, rule) {
            Ok(()) => Ok(count + 1),
            Err(_) => Err(RuleFault::NoMemory),
        }
    }
}
