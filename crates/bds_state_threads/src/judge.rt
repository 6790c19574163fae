//! Which threads are valid, part by part.
ghost use Rattle.std.specs.Prelude.{◌≡◌, ◌≢◌, ◌≤◌, ℕ, List, length, slice_get, Some};
ghost use Rattle.bds_value.specs.declared.TheConstants.{MAX_TEXT, MAX_ITEMS};
ghost use Rattle.bds_value.specs.declared.value.Ty.{Ty};
ghost use Rattle.bds_value.specs.declared.value.Value.{Value};
ghost use Rattle.bds_value.specs.declared.value.Value.TheVariants as Value;
ghost use Rattle.bds_value.specs.Spelling.{IsWithinLimits};
ghost use Rattle.bds_code.specs.declared.unit.Function.{Function};
ghost use Rattle.bds_code.specs.declared.unit.Unit.{Unit as CodeUnit};
ghost use Rattle.bds_code_frames.specs.declared.frame.Frame.{Frame};
ghost use Rattle.bds_code_frames.specs.declared.thread.Thread.{Thread};
ghost use Rattle.bds_code_frames.specs.Stack.{Call};
ghost use Rattle.bds_verify.specs.Threads.{IsCall, IsThread};
ghost use Rattle.bds_verify.specs.Verified.{VerifiedUnit};
ghost use Rattle.bds_state_threads.specs.declared.judge.ThreadFault.{ThreadFault};
ghost use Rattle.bds_state_threads.specs.Judged.{IsOwn, IsFrame, IsThreadFault, JudgesFrames, JudgesThread};
ghost use Rattle.bds_state_threads.specs.Fields.{IsFieldFrame, IsFieldThread};
ghost use Rattle.std.specs.List.{All};

use crate::fits::is_frame;
use crate::own::is_own;
use bds_code::{Frames, Thread};
use bds_verify::Verified;
use std::alloc::Global;

/// What of a thread isn't valid.
#[derive(Debug, Drop)]
pub enum ThreadFault {
    /// Its status, its globals or how many frames it has.
    Thread,
    /// A frame by its number, the oldest first.
    Frame(u32),
    NoMemory,
}

/// A thread of a verified unit is valid exactly where its own part is and each of its frames: laws,
/// which do nothing.
pub fn threads_are_judged_by_parts()
    ensures valid { (u : CodeUnit) → VerifiedUnit u → (t : Thread) → IsOwn u t → ((n : ℕ) (x : Frame) → slice_get t.frames n ≡ Some x → IsFrame u t.frames n x) → IsThread u t }
    ensures own { (u : CodeUnit) → (t : Thread) → IsThread u t → IsOwn u t }
    ensures frames { (u : CodeUnit) → (t : Thread) → IsThread u t → (n : ℕ) (x : Frame) → slice_get t.frames n ≡ Some x → IsFrame u t.frames n x }
    ensures fault { (u : CodeUnit) → (t : Thread) → (fault : ThreadFault) → IsThreadFault u t fault → fault ≢ ThreadFault.NoMemory → IsThread u t → ⊥ }
{}

/// What a call of a valid thread holds is within the limits, and so are its texts and lists: laws,
/// which do nothing.
pub fn calls_hold_short_values()
    ensures slots { (f : Function) (shape : List Ty) (c : Call) → IsCall f shape c → All IsWithinLimits c.slots }
    ensures operands { (f : Function) (shape : List Ty) (c : Call) → IsCall f shape c → All IsWithinLimits c.ops }
    ensures texts { (text : List ℕ) → IsWithinLimits (Value.Text text) → length text ≤ MAX_TEXT }
    ensures lists { (ty : Ty) (items : List Value) → IsWithinLimits (Value.List ty items) → length items ≤ MAX_ITEMS }
    ensures maps { (ty : Ty) (pairs : List (List ℕ × Value)) → IsWithinLimits (Value.Map ty pairs) → length pairs ≤ MAX_ITEMS }
{}

fn judge_frames(alloc: Global, unit: &Verified, frames: &Frames) -> Result<(), ThreadFault>
    requires verified { VerifiedUnit unit.now }
    requires values { All IsFieldFrame frames.now }
    ensures { JudgesFrames unit.now frames.now result }
{
    for i in 0..frames.count() {
        let Ok(fits) = is_frame(alloc, unit, frames, i) else {
            return Err(ThreadFault::NoMemory);
        };
        if !fits {
            return Err(ThreadFault::Frame(i));
        }
    }
    Ok(())
}

/// Accepts exactly the threads that are valid for a unit, and names what of another isn't: its own
/// part first, or else its first frame that isn't valid.
pub fn judge_thread(alloc: Global, unit: &Verified, thread: &Thread) -> Result<(), ThreadFault>
    requires { IsFieldThread thread.now }
    ensures { JudgesThread unit.now thread.now result }
{
    let code = unit.unit();
    let Ok(own) = is_own(alloc, code, thread) else {
        return Err(ThreadFault::NoMemory);
    };
    if !own {
        return Err(ThreadFault::Thread);
    }
    judge_frames(alloc, unit, &thread.frames)
}
