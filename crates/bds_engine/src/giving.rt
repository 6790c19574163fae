//! What a thread is given where it has left the machine.
ghost use Rattle.std.specs.Prelude.{◌≡◌, ◌≤◌, length};
ghost use Rattle.std.specs.List.{All};
ghost use Rattle.bds_machine.specs.Answers.{AwaitsAnswer, FitsPoint, value_of};
ghost use Rattle.bds_machine.specs.declared.point.Point.{Point};
ghost use Rattle.bds_schedule.specs.Replies.{text_given};
ghost use Rattle.bds_state.specs.Valid.{IsThere};
ghost use Rattle.bds_value.specs.declared.TheConstants.{MAX_COUNT};
ghost use Rattle.bds_value.specs.declared.value.Ty.{Ty};
ghost use Rattle.bds_value.specs.declared.value.Ty.TheVariants as ty;
ghost use Rattle.bds_engine_stages.specs.Held.{FailsSo, GoesBack, IsOut};
ghost use Rattle.bds_engine.specs.Given.{Awaits, Gives, WaitsThen, at_of};

use bds_code::{Ids, Thread};
use bds_engine_stages::{Halt, Stage, answer, fails, wait};
use bds_machine::{Answer, give, line_behind};
use bds_state::State;
use bds_value::{ByteText, MAX_TEXT, RunFault};
use std::alloc::Global;

/// The run stops by a fault where a thread has left the machine.
pub(crate) fn breaks(
    alloc: Global,
    state: &State,
    thread: &Thread,
    fault: RunFault,
) -> Result<Stage, Halt>
    requires { (type : Ty) × AwaitsAnswer state.now.unit thread.now type }
    ensures { FailsSo state.now (at_of state.now.unit thread.now) fault result }
{
    let at = line_behind(&state.unit, thread);
    fails(alloc, state, at, fault)
}

/// Gives a thread what its point awaits, and puts it in its place.
pub(crate) fn hand(
    alloc: Global,
    state: &mut State,
    k: u32,
    thread: Thread,
    given: Answer,
    stage: Stage,
) -> Result<Stage, Halt>
    requires { (p : Point) × IsOut state.old k p thread × FitsPoint p given }
    ensures { GoesBack k (value_of given) thread state.old state.new stage result }
{
    answer(alloc, state, k, thread, given, stage)
}

/// Gives a text within the limit.
pub(crate) fn text_given(
    alloc: Global,
    state: &mut State,
    k: u32,
    thread: Thread,
    text: ByteText,
    stage: Stage,
) -> Result<Stage, Halt>
    requires { Awaits state.old k thread ty.Text }
    ensures { Gives state.old k thread stage state.new result (text_given text) }
{
    let length = text.len() as u64;
    if length > MAX_TEXT {
        breaks(alloc, state, &thread, RunFault::TooLong(length))
    } else {
        hand(alloc, state, k, thread, Answer::Text(text), stage)
    }
}

/// The thread goes on behind its wait once these have ended.
pub(crate) fn wait_behind(
    alloc: Global,
    state: &mut State,
    k: u32,
    thread: Thread,
    ids: Ids,
) -> Result<Stage, Halt>
    requires awaits { Awaits state.old k thread ty.Void }
    requires few { length ids ≤ MAX_COUNT }
    requires ids { All (IsThere (length state.old.tasks) (length state.old.threads)) ids }
    ensures { WaitsThen k ids thread state.old state.new result }
{
    let mut thread = thread;
    give(alloc, &state.unit, &mut thread, Answer::Nothing)?;
    Ok(wait(state, k, thread, ids))
}
