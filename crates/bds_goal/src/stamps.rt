//! What is known of the files that a goal reaches.
ghost use Rattle.std.specs.Prelude.{◌≡◌, ◌++◌, IfOk, map};
ghost use Rattle.std.specs.List.{list_any};
ghost use Rattle.bds_goal.specs.Goals.{stamp_at, stamp_in};
ghost use Rattle.bds_goal.specs.Due.{is_old};
ghost use Rattle.bds_tasks.specs.Tasks.{pending_makes};

use crate::indexes::IndexedFiles;
use bds_rules::{Rule, out_of_date};
use bds_tasks::TaskTable;
use bds_value::{ByteText, Listed, NoMemory, Stamp, Stamps};
use std::alloc::Global;

/// The stamp at a place.
fn stamp_at(stamps: &[Stamp], place: Option<usize>) -> Stamp
    ensures { result ≡ stamp_at stamps.now place }
{
    if let Some(i) = place {
        if i < stamps.len() {
            return stamps[i];
        }
    }
    Stamp {
        there: false,
        size: 0,
        time: 0,
    }
}

/// The stamp of a file, among stamps in the order of the files.
pub(crate) fn stamp_of(files: &IndexedFiles, stamps: &[Stamp], file: &[u8]) -> Stamp
    ensures { result ≡ stamp_in files.now stamps.now file.now }
{
    stamp_at(stamps, files.place_of(file))
}

/// The stamps of some of the files.
fn stamps_of(
    alloc: Global,
    files: &IndexedFiles,
    stamps: &[Stamp],
    some: &[ByteText],
) -> Result<Stamps, NoMemory>
    ensures { IfOk result (λ found. found ≡ map (stamp_in files.now stamps.now) some.now) }
{
    let mut found = Listed::new(alloc);
    for file in some {
        found.push(stamp_of(files, stamps, file.as_slice()))?;
    }
    Ok(found)
}

/// A pending task makes one of these.
pub(crate) fn any_pending(tasks: &TaskTable, files: &[ByteText]) -> bool
    ensures { result ≡ list_any (pending_makes tasks.now) files.now }
{
    for file in files {
        if tasks.pending_makes(file) {
            return true;
        }
    }
    false
}

/// The outputs of a rule are out of date against its inputs.
pub(crate) fn is_old(
    alloc: Global,
    files: &IndexedFiles,
    stamps: &[Stamp],
    tasks: &TaskTable,
    rule: &Rule,
) -> Result<bool, NoMemory>
    ensures { IfOk result (λ old. old ≡ is_old (stamp_in files.now stamps.now) tasks.now rule.now) }
{
    let left = stamps_of(alloc, files, stamps, rule.outs.as_slice())?;
    let right = stamps_of(alloc, files, stamps, rule.ins.as_slice())?;
    let pending = any_pending(tasks, rule.ins.as_slice())
        || any_pending(tasks, rule.outs.as_slice());
    Ok(out_of_date(&left, &right, pending))
}
