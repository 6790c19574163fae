//! Marks are spread from numbers to those that they lead to.
ghost use Rattle.std.specs.Prelude.{◌≡◌, ℕ, ◌<◌, ◌≤◌, IfOk, OnOk, length};
ghost use Rattle.bds_value.specs.declared.TheConstants.{MAX_COUNT};
ghost use Rattle.bds_goal.specs.Marks.{Edge, IsSpread};
ghost use Rattle.bds_goal.specs.Spreading.{all_marked, all_ahead, is_new, marked_from, marked_if, put_if};

use crate::marks::edges_of;
use bds_value::{NoMemory, Numbers};
use std::alloc::Global;

/// The numbers that are marked.
fn marked(alloc: Global, marks: &[bool]) -> Result<Vec<u32>, NoMemory>
    requires { length marks.now ≤ MAX_COUNT }
    ensures { IfOk result (λ found. found.items ≡ marked_from 0 marks.now) }
{
    let mut found = Vec::new(alloc);
    for i in 0..marks.len() {
        if marks[i] {
            found.push(i as u32)?;
        }
    }
    Ok(found)
}

/// Marks a number and puts it at the end of those that are to be followed, where it wasn't marked.
fn visit(marks: &mut Vec<bool>, ahead: &mut Vec<u32>, i: u32) -> Result<(), NoMemory>
    ensures marks { OnOk result (marks.new.items ≡ marked_if (is_new marks.old.items i) i marks.old.items) }
    ensures ahead { OnOk result (ahead.new.items ≡ put_if (is_new marks.old.items i) i ahead.old.items) }
{
    if (i as usize) < marks.len() && !marks[i as usize] {
        marks[i as usize] = true;
        ahead.push(i)?;
    }
    Ok(())
}

/// Visits each of these.
fn visit_all(marks: &mut Vec<bool>, ahead: &mut Vec<u32>, numbers: &[u32]) -> Result<(), NoMemory>
    ensures marks { OnOk result (marks.new.items ≡ all_marked numbers.now marks.old.items) }
    ensures ahead { OnOk result (ahead.new.items ≡ all_ahead numbers.now marks.old.items ahead.old.items) }
{
    for i in numbers {
        visit(marks, ahead, *i)?;
    }
    Ok(())
}

/// Marks the numbers to which a list of numbers, each leading to the next, leads from a marked one.
/// Each is followed once.
pub(crate) fn spread(
    alloc: Global,
    edges: &[Numbers],
    marks: &mut Vec<bool>,
) -> Result<(), NoMemory>
    requires few { length marks.old.items ≤ MAX_COUNT }
    requires within { (i j : ℕ) → Edge edges.now i j → j < length marks.old.items }
    ensures same { OnOk result (length marks.new.items ≡ length marks.old.items) }
    ensures spread { OnOk result (IsSpread edges.now marks.old.items marks.new.items) }
{
    let mut ahead = marked(alloc, marks)?;
    while let Some(i) = ahead.pop() {
        visit_all(marks, &mut ahead, edges_of(edges, i))?;
    }
    Ok(())
}
