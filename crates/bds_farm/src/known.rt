//! What is known of the tasks.
ghost use Rattle.std.specs.Prelude.{◌≡◌, OnOk};
ghost use Rattle.bds_farm.specs.Farm.{submitted, without};
ghost use Rattle.bds_farm.specs.Inside.{queue_of};

use crate::learning::leave_out;
use bds_value::NoMemory;

/// The thread that went on last, the submissions of which no end was learnt, and the ends that were learnt and not
/// given, with their codes, the oldest first.
#[derive(Drop)]
pub struct Known {
    pub last: Option<u32>,
    pub open_ends: Vec<(u32, u32)>,
    pub ends: Vec<(u32, u8)>,
}

/// Leaves out the ends of a task.
fn leave_ends_out(ends: &mut Vec<(u32, u8)>, task: u32)
    ensures { ends.new.items ≡ without task ends.old.items }
{
    ends.retain(|end| end.0 != task);
}

/// A submission: nothing is known any more of those before it.
pub fn enter(known: &mut Known, task: u32, attempt: u32) -> Result<(), NoMemory>
    ensures { OnOk result (queue_of known.new ≡ submitted task attempt (queue_of known.old)) }
{
    leave_out(&mut known.open_ends, task);
    leave_ends_out(&mut known.ends, task);
    known.open_ends.insert(0, (task, attempt))?;
    Ok(())
}
