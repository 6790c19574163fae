//! The rules that a goal plans.
ghost use Rattle.std.specs.Prelude.{◌≡◌, IfOk, Some, None, MatchOption};
ghost use Rattle.bds_goal.specs.Goals.{stamp_in};
ghost use Rattle.bds_goal.specs.Due.{old_marks, planned_marks, first_unmade, is_unmade};

use crate::indexes::IndexedFiles;
use crate::marks::is_marked;
use crate::stamps::{any_pending, is_old, stamp_of};
use bds_rules::RuleTable;
use bds_tasks::TaskTable;
use bds_value::{ByteText, NoMemory, Stamp};
use std::alloc::Global;

/// Marks those of the marked rules that are old.
pub(crate) fn old(
    alloc: Global,
    rules: &RuleTable,
    marks: &[bool],
    files: &IndexedFiles,
    stamps: &[Stamp],
    tasks: &TaskTable,
) -> Result<Vec<bool>, NoMemory>
    ensures { IfOk result (λ old. old.items ≡ old_marks (stamp_in files.now stamps.now) tasks.now marks.now rules.now) }
{
    let mut old = vec![in alloc; false]?;
    for (i, rule) in rules.as_slice().iter().enumerate() {
        let is_old = is_marked(marks, i as u32 + 1) && is_old(alloc, files, stamps, tasks, rule)?;
        old.push(is_old)?;
    }
    Ok(old)
}

/// Marks those of the marked rules that are due and of which no pending task makes an output.
pub(crate) fn planned(
    alloc: Global,
    rules: &RuleTable,
    marks: &[bool],
    due: &[bool],
    tasks: &TaskTable,
) -> Result<Vec<bool>, NoMemory>
    ensures { IfOk result (λ planned. planned.items ≡ planned_marks tasks.now marks.now due.now rules.now) }
{
    let mut planned = vec![in alloc; false]?;
    for (i, rule) in rules.as_slice().iter().enumerate() {
        let n = i as u32 + 1;
        let is_planned = is_marked(marks, n)
            && is_marked(due, n)
            && !any_pending(tasks, rule.outs.as_slice());
        planned.push(is_planned)?;
    }
    Ok(planned)
}

/// A file is missing, and neither a rule nor a pending task makes it.
fn is_unmade(
    rules: &RuleTable,
    files: &IndexedFiles,
    stamps: &[Stamp],
    tasks: &TaskTable,
    file: &ByteText,
) -> bool
    ensures { result ≡ is_unmade (stamp_in files.now stamps.now) tasks.now rules.now file.now }
{
    !stamp_of(files, stamps, file.as_slice()).there
        && rules.maker(file).is_none()
        && !tasks.pending_makes(file)
}

/// The first of the files that is missing and that nothing makes.
pub(crate) fn first_unmade<'a>(
    rules: &RuleTable,
    files: &IndexedFiles<'a>,
    stamps: &[Stamp],
    tasks: &TaskTable,
) -> Option<&'a ByteText>
    ensures { MatchOption result (first_unmade (stamp_in files.now stamps.now) tasks.now rules.now files.now ≡ None) (λ f. first_unmade (stamp_in files.now stamps.now) tasks.now rules.now files.now ≡ Some f.now) }
{
    for file in files.as_slice() {
        if is_unmade(rules, files, stamps, tasks, file) {
            return Some(file);
        }
    }
    None
}
