//! Questions to states.
ghost use Rattle.std.specs.Prelude.{◌≡◌, IfOk};
ghost use Rattle.std.specs.List.{All};
ghost use Rattle.std.specs.Prelude.{length};
ghost use Rattle.bds_state.specs.Ready.{ready};
ghost use Rattle.bds_state.specs.Valid.{IsThere};
ghost use Rattle.bds_engine_parts.specs.Look.{waited};

use crate::looks::{tasks_in, threads_ended, with_ended};
use bds_code::Id;
use bds_host::copy_numbers;
use bds_state::State;
use bds_tasks::Waited;
use bds_value::{Listed, NoMemory, Numbers};
use std::alloc::Global;

/// The ready threads, in rising order, one after another.
fn ready_in_turn(alloc: Global, state: &State) -> Result<Numbers, NoMemory>
    ensures { IfOk result (λ numbers. numbers ≡ ready state.now.threads state.now.tasks) }
{
    let mut numbers = Listed::new(alloc);
    let mut after = None;
    while let Some(k) = state.next_ready(after) {
        numbers.push(k)?;
        after = Some(k);
    }
    Ok(numbers)
}

/// The ready threads, in rising order, in as much room as they take: a log may keep the list of each turn.
pub fn ready(alloc: Global, state: &State) -> Result<Numbers, NoMemory>
    ensures { IfOk result (λ numbers. numbers ≡ ready state.now.threads state.now.tasks) }
{
    copy_numbers(alloc, &ready_in_turn(alloc, state)?)
}

/// What a wait on ids has come to.
pub fn waited(alloc: Global, state: &State, ids: &[Id]) -> Result<Waited, NoMemory>
    requires { All (IsThere (length state.now.tasks) (length state.now.threads)) ids.now }
    ensures { IfOk result (λ w. w ≡ waited state.now.threads state.now.tasks ids.now) }
{
    let tasks = tasks_in(alloc, ids)?;
    let ended = threads_ended(state.threads.as_slice(), ids);
    Ok(with_ended(ended, state.tasks.wait_state(&tasks)))
}
