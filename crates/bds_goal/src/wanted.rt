//! The rules that a goal reaches.
ghost use Rattle.std.specs.Prelude.{◌≡◌, IfOk};
ghost use Rattle.bds_goal.specs.Edges.{with_maker, with_makers, edges, AreWanted};

use crate::marks::blank;
use crate::spreading::spread;
use bds_rules::RuleTable;
use bds_value::{ByteText, NoMemory, Numbers};
use std::alloc::Global;

fn mark_maker(marks: &mut Vec<bool>, maker: Option<u32>)
    ensures { marks.new.items ≡ with_maker maker marks.old.items }
{
    if let Some(n) = maker {
        if (n as usize) < marks.len() {
            marks[n as usize] = true;
        }
    }
}

/// Marks the rules that make these files.
fn mark_makers(rules: &RuleTable, files: &[ByteText], marks: &mut Vec<bool>)
    ensures { marks.new.items ≡ with_makers rules.now files.now marks.old.items }
{
    for file in files {
        mark_maker(marks, rules.maker(file));
    }
}

/// Marks the rules that make a target, and those that a marked one needs. The place 0 is empty.
pub(crate) fn wanted(
    alloc: Global,
    rules: &RuleTable,
    targets: &[ByteText],
    needed: &[Numbers],
) -> Result<Vec<bool>, NoMemory>
    requires { needed.now ≡ edges rules.now }
    ensures { IfOk result (λ marks. AreWanted rules.now targets.now marks.items) }
{
    let mut marks = blank(alloc, rules.as_slice().len() + 1)?;
    mark_makers(rules, targets, &mut marks);
    spread(alloc, needed, &mut marks)?;
    Ok(marks)
}
