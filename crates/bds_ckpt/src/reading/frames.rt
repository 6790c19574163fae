//! Reading the frames of a thread.
ghost use Rattle.std.specs.Prelude.{◌≡◌, ◌<◌, ◌++◌, ◌∷◌, [], length, IsSome, OnOk};
ghost use Rattle.bds_value.specs.declared.TheConstants.{MAX_COUNT};
ghost use Rattle.bds_value.specs.Reading.{Reads, many};
ghost use Rattle.bds_code_frames.specs.Stack.{stack, place_of};
ghost use Rattle.bds_ckpt.specs.Adding.{begun, more_operands};
ghost use Rattle.bds_ckpt.specs.ThreadReading.{frame_at, frames_at};

use crate::reading::values::read_values;
use bds_code::{Frame, Frames};
use bds_value::{FieldFault, Input, Items, MAX_COUNT, NoMemory, read_count, read_u32};
use std::alloc::Global;

/// Adds a newest frame with these slots, and no operands.
fn open_frame(
    alloc: Global,
    frames: &mut Frames,
    function: u32,
    place: u32,
    slots: Items,
) -> Result<(), NoMemory>
    requires { length frames.old < MAX_COUNT }
    ensures { OnOk result (stack frames.new ≡ begun function place slots ∷ stack frames.old) }
{
    frames.open(alloc, function, place)?;
    let mut values = slots.into_vec();
    values.reverse();
    while let Some(value) = values.pop() {
        frames.add_slot(alloc, value)?;
    }
    Ok(())
}

/// Gives the newest frame further operands.
fn add_operands(alloc: Global, frames: &mut Frames, operands: Items) -> Result<(), NoMemory>
    requires { IsSome (place_of (stack frames.old)) }
    ensures { OnOk result (stack frames.new ≡ more_operands operands (stack frames.old)) }
{
    let mut rest = operands.into_vec();
    rest.reverse();
    while let Some(value) = rest.pop() {
        frames.add_operand(alloc, value)?;
    }
    Ok(())
}

/// Adds a newest frame.
fn add_frame(alloc: Global, frames: &mut Frames, frame: Frame) -> Result<(), NoMemory>
    requires { length frames.old < MAX_COUNT }
    ensures { OnOk result (frames.new ≡ frames.old ++ frame ∷ []) }
{
    let Frame {
        function,
        place,
        slots,
        operands,
    } = frame;
    open_frame(alloc, frames, function, place, slots)?;
    add_operands(alloc, frames, operands)
}

fn read_frame(alloc: Global, input: &mut Input) -> Result<Frame, FieldFault>
    ensures read { Reads (frame_at input.old) input.new result }
    ensures kept { input.new.bytes ≡ input.old.bytes }
{
    let function = read_u32(input)?;
    let place = read_u32(input)?;
    let slots = read_values(alloc, input)?;
    let operands = read_values(alloc, input)?;
    Ok(Frame {
        function,
        place,
        slots,
        operands,
    })
}

/// Reads frames behind their number, the oldest first.
pub(crate) fn read_frames(alloc: Global, input: &mut Input) -> Result<Frames, FieldFault>
    ensures read { Reads (frames_at input.old) input.new result }
    ensures kept { input.new.bytes ≡ input.old.bytes }
{
    let count = read_count(input, MAX_COUNT)?;
    read_counted_frames(alloc, input, count)
}

fn read_counted_frames(alloc: Global, input: &mut Input, count: u32) -> Result<Frames, FieldFault>
    ensures read { Reads (many frame_at count input.old) input.new result }
    ensures kept { input.new.bytes ≡ input.old.bytes }
{
    let mut frames = Frames::new(alloc);
    for _ in 0..count {
        let frame = read_frame(alloc, input)?;
        add_frame(alloc, &mut frames, frame)?;
    }
    Ok(frames)
}
