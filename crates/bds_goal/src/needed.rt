//! Which rules a rule needs, and which need it.
ghost use Rattle.std.specs.Prelude.{◌≡◌, ◌<◌, ◌≤◌, [], ◌++◌, IfOk, OnOk, length};
ghost use Rattle.bds_value.specs.declared.TheConstants.{MAX_COUNT};
ghost use Rattle.bds_rules.specs.Own.{AreOwn};
ghost use Rattle.bds_goal.specs.Edges.{number_of, makers_of, edges};
ghost use Rattle.bds_goal.specs.Marks.{with_user, with_users, AreEmpty, IsReversed};

use bds_rules::RuleTable;
use bds_value::{ByteText, Listed, NoMemory, Numbers};
use std::alloc::Global;

/// Puts the number of a rule at the end, where there is one.
fn put_number(makers: &mut Numbers, maker: Option<u32>) -> Result<(), NoMemory>
    ensures { OnOk result (makers.new ≡ makers.old ++ number_of maker) }
{
    match maker {
        Some(n) => makers.push(n),
        None => Ok(()),
    }
}

/// The rules that make these files.
fn makers_of(alloc: Global, rules: &RuleTable, files: &[ByteText]) -> Result<Numbers, NoMemory>
    ensures { IfOk result (λ makers. makers ≡ makers_of rules.now files.now) }
{
    let mut makers = Listed::new(alloc);
    for file in files {
        put_number(&mut makers, rules.maker(file))?;
    }
    Ok(makers)
}

/// For each rule those that make its inputs, behind an empty place.
pub(crate) fn edges(alloc: Global, rules: &RuleTable) -> Result<Listed<Numbers>, NoMemory>
    ensures edges { IfOk result (λ all. all ≡ edges rules.now) }
    ensures few { IfOk result (λ all. length all ≤ MAX_COUNT) }
    ensures own { IfOk result (λ all. AreOwn [] rules.now) }
{
    let mut all = Listed::new(alloc);
    all.push(Listed::new(alloc))?;
    for rule in rules.as_slice() {
        all.push(makers_of(alloc, rules, rule.ins.as_slice())?)?;
    }
    Ok(all)
}

/// So many empty lists.
fn empty(alloc: Global, count: usize) -> Result<Listed<Numbers>, NoMemory>
    ensures { IfOk result (λ lists. AreEmpty count lists) }
{
    let mut lists = Listed::new(alloc);
    for _ in 0..count {
        lists.push(Listed::new(alloc))?;
    }
    Ok(lists)
}

/// Puts `i` behind those that lead to `j`.
fn put_user(users: &mut Listed<Numbers>, i: u32, j: u32) -> Result<(), NoMemory>
    ensures { OnOk result (users.new ≡ with_user i j users.old) }
{
    if (j as usize) < users.len() {
        users.at_mut(j as usize).push(i)?;
    }
    Ok(())
}

/// Puts `i` behind those that lead to each of these.
fn put_users(users: &mut Listed<Numbers>, i: u32, numbers: &[u32]) -> Result<(), NoMemory>
    ensures { OnOk result (users.new ≡ with_users i numbers.now users.old) }
{
    for j in numbers {
        put_user(users, i, *j)?;
    }
    Ok(())
}

/// For each number those that lead to it.
pub(crate) fn reversed(alloc: Global, edges: &[Numbers]) -> Result<Listed<Numbers>, NoMemory>
    requires few { length edges.now ≤ MAX_COUNT }
    ensures { IfOk result (λ users. IsReversed edges.now users) }
{
    let mut users = empty(alloc, edges.len())?;
    for (i, numbers) in edges.iter().enumerate() {
        put_users(&mut users, i as u32, numbers.as_slice())?;
    }
    Ok(users)
}
