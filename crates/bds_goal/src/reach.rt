//! The files that a goal reaches.
ghost use Rattle.std.specs.Prelude.{◌≡◌, ◌++◌, IfOk, OnOk};
ghost use Rattle.bds_goal.specs.Collected.{files_where, collected};
ghost use Rattle.bds_goal.specs.Edges.{AreWanted};
ghost use Rattle.bds_goal.specs.Goals.{IsReach, Reaches};
ghost use Rattle.bds_goal.specs.Marks.{is_marked};

use crate::faults::FilesFault;
use crate::marks::is_marked;
use crate::needed::{edges, reversed};
use crate::order::order;
use crate::rising::rising;
use crate::wanted::wanted;
use bds_rules::{Rule, RuleTable};
use bds_value::{ByteText, Listed, NoMemory, Texts, copy_text};
use std::alloc::Global;

fn put_texts(alloc: Global, out: &mut Texts, texts: &[ByteText]) -> Result<(), NoMemory>
    ensures { OnOk result (out.new ≡ out.old ++ texts.now) }
{
    for text in texts {
        out.push(copy_text(alloc, text)?)?;
    }
    Ok(())
}

/// Puts the files of a rule at the end, where it is reached.
fn put_files(alloc: Global, out: &mut Texts, reached: bool, rule: &Rule) -> Result<(), NoMemory>
    ensures { OnOk result (out.new ≡ out.old ++ files_where reached rule.now) }
{
    if reached {
        put_texts(alloc, out, rule.ins.as_slice())?;
        put_texts(alloc, out, rule.outs.as_slice())?;
    }
    Ok(())
}

/// The files of the rules that are marked.
fn put_marked(
    alloc: Global,
    out: &mut Texts,
    rules: &RuleTable,
    marks: &[bool],
) -> Result<(), NoMemory>
    ensures { OnOk result (out.new ≡ collected rules.now marks.now out.old) }
{
    for (i, rule) in rules.as_slice().iter().enumerate() {
        put_files(alloc, out, is_marked(marks, i as u32 + 1), rule)?;
    }
    Ok(())
}

/// The files that a goal reaches, whose rules are marked, in rising order.
pub(crate) fn reach(
    alloc: Global,
    rules: &RuleTable,
    targets: &[ByteText],
    marks: &[bool],
) -> Result<Texts, NoMemory>
    requires { AreWanted rules.now targets.now marks.now }
    ensures { IfOk result (λ files. IsReach rules.now targets.now files) }
{
    let mut files = Listed::new(alloc);
    put_texts(alloc, &mut files, targets)?;
    put_marked(alloc, &mut files, rules, marks)?;
    rising(alloc, files)
}

/// The files that a goal reaches, in rising order of their bytes: the targets and, with a file that
/// a rule makes, all files of that rule. Where a chain of these rules leads from one to itself,
/// such a chain.
pub fn files(alloc: Global, rules: &RuleTable, targets: &Texts) -> Result<Texts, FilesFault>
    ensures { Reaches rules.now targets.now result }
{
    let edges = edges(alloc, rules)?;
    let users = reversed(alloc, edges.as_slice())?;
    let marks = wanted(alloc, rules, targets.as_slice(), edges.as_slice())?;
    let files = reach(alloc, rules, targets.as_slice(), &marks)?;
    match order(alloc, edges.as_slice(), users.as_slice(), marks) {
        Ok(_) => Ok(files),
        Err(fault) => Err(fault),
    }
}
