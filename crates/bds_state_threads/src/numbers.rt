//! The numbers of threads have the bits of their fields.
ghost use Rattle.std.specs.Prelude.{◌≡◌, ◌<◌, ◌^◌, length, slice_get, Some};
ghost use Rattle.std.specs.List.{All};
ghost use Rattle.bds_value.specs.Fields.{NumbersFit};
ghost use Rattle.bds_code_frames.specs.declared.frame.Frame.{Frame};
ghost use Rattle.bds_code.specs.declared.unit.Unit.{Unit as CodeUnit};
ghost use Rattle.bds_code_frames.specs.declared.thread.Thread.{Thread as AnyThread};
ghost use Rattle.bds_verify.specs.Threads.{IsThread};
ghost use Rattle.bds_verify.specs.Verified.{VerifiedUnit};
ghost use Rattle.bds_state_threads.specs.Fields.{IsFieldStatus, IsFieldThread};
ghost use Rattle.bds_state_threads.specs.Numbers.{IdFits, StatusFits, FrameFits, ThreadFits};

use bds_code::{Frames, Id, Status, Thread};
use bds_value::{Value, numbers_fit};

fn all_numbers_fit(values: &[Value])
    ensures { All NumbersFit values.now }
{
    for value in values {
        numbers_fit(value);
    }
}

pub(crate) fn number_fits(n: u32)
    ensures { n < 2 ^ 32 }
{}

fn id_fits(id: Id)
    ensures { IdFits id }
{
    match id {
        Id::Task(n) => number_fits(n),
        Id::Thread(n) => number_fits(n),
    }
}

fn ids_fit(ids: &[Id])
    ensures { All IdFits ids.now }
{
    for i in 0..ids.len() {
        id_fits(ids[i]);
    }
}

fn status_fits(status: &Status)
    ensures { StatusFits status.now }
{
    match status {
        Status::Ready => {}
        Status::Waiting(ids) => ids_fit(ids.as_slice()),
        Status::Ended => {}
    }
}

fn frame_fits(frames: &Frames, i: u32)
    requires { i < length frames.now }
    ensures { (f : Frame) → slice_get frames.now i ≡ Some f → FrameFits f }
{
    let (function, place) = frames.head(i);
    number_fits(function);
    number_fits(place);
    all_numbers_fit(frames.slots(i));
    all_numbers_fit(frames.operands(i));
    frames.are_counted();
}

fn frames_fit(frames: &Frames)
    ensures { All FrameFits frames.now }
{
    for i in 0..frames.count() {
        frame_fits(frames, i);
    }
}

/// Each number in a thread has the bits of its field: a law, which looks through the thread.
pub fn thread_fits(thread: &Thread)
    ensures { ThreadFits thread.now }
{
    number_fits(thread.parent);
    status_fits(&thread.status);
    all_numbers_fit(thread.globals.as_slice());
    frames_fit(&thread.frames);
}

/// A valid thread of a verified unit is one that a file may hold, where it waits for no more ids than a
/// field may hold: a law, which does nothing.
pub fn valid_threads_may_be_written()
    ensures { (u : CodeUnit) → VerifiedUnit u → (t : AnyThread) → IsThread u t → ThreadFits t → IsFieldStatus t.status → IsFieldThread t }
{}
