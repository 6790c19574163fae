//! Reading threads.
ghost use Rattle.std.specs.Prelude.{◌≡◌};
ghost use Rattle.bds_value.specs.Reading.{Reads, many};
ghost use Rattle.bds_ckpt.specs.ThreadReading.{status_of, status_at, thread_at, threads_at};

use crate::reading::frames::read_frames;
use crate::reading::values::{read_ids, read_values};
use bds_code::{Status, Thread};
use bds_state_threads::Threads;
use bds_value::{FieldFault, Input, Listed, MAX_THREADS, read_count, read_u8, read_u32};
use std::alloc::Global;

fn read_status(alloc: Global, input: &mut Input) -> Result<Status, FieldFault>
    ensures read { Reads (status_at input.old) input.new result }
    ensures kept { input.new.bytes ≡ input.old.bytes }
{
    let at = input.at;
    let tag = read_u8(input)?;
    read_tagged_status(alloc, input, at, tag)
}

fn read_tagged_status(
    alloc: Global,
    input: &mut Input,
    at: u64,
    tag: u8,
) -> Result<Status, FieldFault>
    ensures read { Reads (status_of at tag input.old) input.new result }
    ensures kept { input.new.bytes ≡ input.old.bytes }
{
    match tag {
        0 => Ok(Status::Ready),
        1 => Ok(Status::Waiting(read_ids(alloc, input)?)),
        2 => Ok(Status::Ended),
        _ => Err(FieldFault::BadTag(at, tag)),
    }
}

fn read_thread(alloc: Global, input: &mut Input) -> Result<Thread, FieldFault>
    ensures read { Reads (thread_at input.old) input.new result }
    ensures kept { input.new.bytes ≡ input.old.bytes }
{
    let parent = read_u32(input)?;
    let status = read_status(alloc, input)?;
    let globals = read_values(alloc, input)?;
    let frames = read_frames(alloc, input)?;
    Ok(Thread {
        parent,
        status,
        globals,
        frames,
    })
}

/// Reads threads behind their number.
pub(crate) fn read_threads(alloc: Global, input: &mut Input) -> Result<Threads, FieldFault>
    ensures read { Reads (threads_at input.old) input.new result }
    ensures kept { input.new.bytes ≡ input.old.bytes }
{
    let count = read_count(input, MAX_THREADS)?;
    read_counted_threads(alloc, input, count)
}

fn read_counted_threads(alloc: Global, input: &mut Input, count: u32) -> Result<Threads, FieldFault>
    ensures read { Reads (many thread_at count input.old) input.new result }
    ensures kept { input.new.bytes ≡ input.old.bytes }
{
    let mut threads = Listed::new(alloc);
    for _ in 0..count {
        threads.push(read_thread(alloc, input)?)?;
    }
    Ok(threads)
}
