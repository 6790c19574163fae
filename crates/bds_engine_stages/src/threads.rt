//! Threads taken out of a state and put back.
ghost use Rattle.std.specs.Prelude.{◌≡◌, ◌<◌, ◌≤◌, [], length};
ghost use Rattle.std.specs.List.{All};
ghost use Rattle.bds_machine.specs.Answers.{AwaitsAnswer, IsAnswer, value_of};
ghost use Rattle.bds_state.specs.Keeping.{waiting, with_thread};
ghost use Rattle.bds_state.specs.Valid.{IsThere, IsThreadOf};
ghost use Rattle.bds_value.specs.declared.ids.Status.TheVariants as status;
ghost use Rattle.bds_value.specs.declared.TheConstants.{MAX_COUNT};
ghost use Rattle.bds_value.specs.declared.value.Ty.{Ty};
ghost use Rattle.bds_verify.specs.Threads.{AreLive};
ghost use Rattle.bds_code_frames.specs.Stack.{stack};
ghost use Rattle.bds_engine_stages.specs.Held.{GoesBack, HasPlace, IsTaken, IsWaiting, IsWoken};
ghost use Rattle.bds_engine_stages.specs.declared.stage.Stage.TheVariants as stage;

use crate::stage::Stage;
use crate::stop::Halt;
use bds_code::{Frames, Ids, Status, Thread};
use bds_machine::{Answer, give};
use bds_state::{State, ended_holder, holder};
use bds_value::Listed;
use std::alloc::Global;
use std::mem;

/// A thread that has ended.
fn ended(alloc: Global, parent: u32) -> Thread
    ensures { result ≡ record { parent = parent; status = status.Ended; globals = []; frames = [] } }
{
    Thread {
        parent,
        status: Status::Ended,
        globals: Listed::new(alloc),
        frames: Frames::new(alloc),
    }
}

/// Takes a thread out. One that has ended stands in its place.
pub fn take(alloc: Global, state: &mut State, k: u32) -> Thread
    requires { k < length state.old.threads }
    ensures { IsTaken k state.old state.new result }
{
    state.held.note(k, 0);
    let thread = state.threads.at_mut(k as usize);
    let parent = thread.parent;
    mem::replace(thread, ended(alloc, parent))
}

/// Puts a thread in its place.
pub fn put(state: &mut State, k: u32, thread: Thread)
    requires there { k < length state.old.threads }
    requires valid { IsThreadOf (length state.old.tasks) (length state.old.threads) state.old.unit k thread }
    ensures { state.new ≡ with_thread k thread state.old }
{
    let by = holder(&state.tasks, &thread.status);
    state.held.note(k, by);
    state.threads.set(k as usize, thread);
}

/// Gives a thread what it awaits, and puts it in its place.
pub fn answer(
    alloc: Global,
    state: &mut State,
    k: u32,
    thread: Thread,
    given: Answer,
    stage: Stage,
) -> Result<Stage, Halt>
    requires place { HasPlace state.old k thread }
    requires ready { thread.status ≡ status.Ready }
    requires awaits { (t : Ty) × AwaitsAnswer state.old.unit thread t × IsAnswer (value_of given) t }
    ensures { GoesBack k (value_of given) thread state.old state.new stage result }
{
    state.is_valid();
    let mut thread = thread;
    give(alloc, &state.unit, &mut thread, given)?;
    thread.frames.are_counted();
    put(state, k, thread);
    Ok(stage)
}

/// The thread waits for these.
pub fn wait(state: &mut State, k: u32, thread: Thread, ids: Ids) -> Stage
    requires place { HasPlace state.old k thread }
    requires live { AreLive state.old.unit thread.globals (stack thread.frames) }
    requires few { length ids ≤ MAX_COUNT }
    requires ids { All (IsThere (length state.old.tasks) (length state.old.threads)) ids }
    ensures stage { result ≡ stage.Point }
    ensures state { state.new ≡ with_thread k (waiting ids thread) state.old }
{
    state.is_valid();
    let mut thread = thread;
    thread.status = Status::Waiting(ids);
    thread.frames.are_counted();
    put(state, k, thread);
    Stage::Point
}

/// Lets a thread go that has ended. Behind the end of the main thread the process ends, and gives all back at once.
fn let_go(k: u32, thread: Thread) {
    if k == 0 {
        mem::forget(thread);
    } else {
        drop(thread);
    }
}

/// A thread whose wait is over goes on, or has ended where its code has.
pub fn wake(alloc: Global, state: &mut State, k: u32) -> Stage
    requires { IsWaiting state.old k }
    ensures { IsWoken k state.old state.new result }
{
    state.held.note(k, 0);
    let thread = state.threads.at_mut(k as usize);
    if thread.frames.count() == 0 {
        let parent = thread.parent;
        let_go(k, mem::replace(thread, ended(alloc, parent)));
        state.held.note(k, ended_holder(&state.tasks));
        Stage::Point
    } else {
        thread.status = Status::Ready;
        Stage::Turn(k)
    }
}
