//! Writing threads with their frames.
ghost use Rattle.std.specs.Prelude.{◌≡◌, ◌<◌, ◌≤◌, ◌++◌, OnOk, Some, length, slice_get};
ghost use Rattle.std.specs.List.{flat_map, All};
ghost use Rattle.bds_value.specs.declared.TheConstants.{MAX_THREADS};
ghost use Rattle.bds_code_frames.specs.declared.frame.Frame.{Frame};
ghost use Rattle.bds_state_threads.specs.Fields.{IsFieldStatus};
ghost use Rattle.bds_state_threads.specs.Judged.{frame_of};
ghost use Rattle.bds_ckpt.specs.Short.{AreShort, IsShortFrame, IsShort};
ghost use Rattle.bds_state.specs.StateSpelling.{status_field, frame_field, frames_field, thread_field, threads_field};

use crate::writing::values::{put_ids, put_values};
use bds_code::{Frames, Status, Thread};
use bds_value::{NoMemory, Value, put_count, put_u8, put_u32};

fn put_status(out: &mut Vec<u8>, status: &Status) -> Result<(), NoMemory>
    requires { IsFieldStatus status.now }
    ensures { OnOk result (out.new.items ≡ out.old.items ++ status_field status.now) }
{
    match status {
        Status::Ready => put_u8(out, 0),
        Status::Waiting(ids) => {
            put_u8(out, 1)?;
            put_ids(out, ids.as_slice())
        }
        Status::Ended => put_u8(out, 2),
    }
}

fn put_call(
    out: &mut Vec<u8>,
    function: u32,
    place: u32,
    slots: &[Value],
    operands: &[Value],
) -> Result<(), NoMemory>
    requires slots { AreShort slots.now }
    requires operands { AreShort operands.now }
    ensures { OnOk result (out.new.items ≡ out.old.items ++ frame_field (frame_of function place slots.now operands.now)) }
{
    put_u32(out, function)?;
    put_u32(out, place)?;
    put_values(out, slots)?;
    put_values(out, operands)
}

/// Puts a frame by its number. After a refusal `out` is open.
fn put_frame(out: &mut Vec<u8>, frames: &Frames, i: u32) -> Result<(), NoMemory>
    requires there { i < length frames.now }
    requires short { All IsShortFrame frames.now }
    ensures { OnOk result ((f : Frame) → slice_get frames.now i ≡ Some f → out.new.items ≡ out.old.items ++ frame_field f) }
{
    frames.are_counted();
    let (function, place) = frames.head(i);
    put_call(out, function, place, frames.slots(i), frames.operands(i))
}

fn put_each_frame(out: &mut Vec<u8>, frames: &Frames) -> Result<(), NoMemory>
    requires { All IsShortFrame frames.now }
    ensures { OnOk result (out.new.items ≡ out.old.items ++ flat_map frame_field frames.now) }
{
    for i in 0..frames.count() {
        put_frame(out, frames, i)?;
    }
    Ok(())
}

/// Puts frames behind their number, the oldest first. After a refusal `out` is open.
fn put_frames(out: &mut Vec<u8>, frames: &Frames) -> Result<(), NoMemory>
    requires { All IsShortFrame frames.now }
    ensures { OnOk result (out.new.items ≡ out.old.items ++ frames_field frames.now) }
{
    put_u32(out, frames.count())?;
    put_each_frame(out, frames)
}

fn put_thread(out: &mut Vec<u8>, thread: &Thread) -> Result<(), NoMemory>
    requires { IsShort thread.now }
    ensures { OnOk result (out.new.items ≡ out.old.items ++ thread_field thread.now) }
{
    put_u32(out, thread.parent)?;
    put_status(out, &thread.status)?;
    put_values(out, thread.globals.as_slice())?;
    put_frames(out, &thread.frames)
}

fn put_each_thread(out: &mut Vec<u8>, threads: &[Thread]) -> Result<(), NoMemory>
    requires { All IsShort threads.now }
    ensures { OnOk result (out.new.items ≡ out.old.items ++ flat_map thread_field threads.now) }
{
    for thread in threads {
        put_thread(out, thread)?;
    }
    Ok(())
}

/// Puts threads behind their number. After a refusal `out` is open.
pub(crate) fn put_threads(out: &mut Vec<u8>, threads: &[Thread]) -> Result<(), NoMemory>
    requires count { length threads.now ≤ MAX_THREADS }
    requires each { All IsShort threads.now }
    ensures { OnOk result (out.new.items ≡ out.old.items ++ threads_field threads.now) }
{
    put_count(out, threads.len())?;
    put_each_thread(out, threads)
}
