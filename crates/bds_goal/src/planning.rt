//! The plan of a goal.
ghost use Rattle.std.specs.Prelude.{◌≡◌};
ghost use Rattle.bds_goal.specs.Goals.{HasNoCycle, PlansBy};
ghost use Rattle.bds_goal.specs.declared.faults.FilesFault.{FilesFault};
ghost use Rattle.bds_goal.specs.declared.faults.PlanFault.{PlanFault};

use crate::due::{first_unmade, old, planned};
use crate::faults::{FilesFault, PlanFault};
use crate::indexes::IndexedFiles;
use crate::needed::{edges, reversed};
use crate::order::order;
use crate::reach::reach;
use crate::spreading::spread;
use crate::wanted::wanted;
use bds_rules::RuleTable;
use bds_tasks::TaskTable;
use bds_value::{NoMemory, Numbers, Stamps, Texts, copy_text};
use std::alloc::Global;

/// Where there is no cycle, an order fails for want of memory alone.
fn no_memory(fault: &FilesFault) -> PlanFault
    requires { fault.now ≡ FilesFault.NoMemory }
    ensures { result ≡ PlanFault.NoMemory }
{
    match fault {
        FilesFault::NoMemory => PlanFault::NoMemory,
        FilesFault::Cycle(_) => unreachable!(),
    }
}

/// The rules that become tasks for a goal, in their order: those that are out of date, and those
/// that need one of them over any number of rules, without those of which a pending task makes an
/// output. The stamps stand in the order of the files that the goal reaches. Where one of these is
/// missing and neither a rule nor a pending task makes it, the least such file.
pub fn plan(
    alloc: Global,
    rules: &RuleTable,
    targets: &Texts,
    stamps: &Stamps,
    tasks: &TaskTable,
) -> Result<Numbers, PlanFault>
    requires { HasNoCycle rules.now targets.now }
    ensures { PlansBy rules.now targets.now stamps.now tasks.now result }
{
    let edges = edges(alloc, rules)?;
    let users = reversed(alloc, edges.as_slice())?;
    let marks = wanted(alloc, rules, targets.as_slice(), edges.as_slice())?;
    let files = reach(alloc, rules, targets.as_slice(), &marks)?;
    let (files, stamps) = (files.as_slice(), stamps.as_slice());
    let indexed = IndexedFiles::of(alloc, files)?;
    if let Some(file) = first_unmade(rules, &indexed, stamps, tasks) {
        return Err(PlanFault::NoRule(copy_text(alloc, file)?));
    }
    let mut due = old(alloc, rules, &marks, &indexed, stamps, tasks)?;
    spread(alloc, users.as_slice(), &mut due)?;
    let planned = planned(alloc, rules, &marks, &due, tasks)?;
    match order(alloc, edges.as_slice(), users.as_slice(), planned) {
        Ok(numbers) => Ok(numbers),
        Err(fault) => Err(no_memory(&fault)),
    }
}
