//! Frames.
use bds_code_frames::Frames;
use bds_value::{NoMemory, Value};
use std::alloc::Global;
use std::process::Abort;
use std::test::Fail;

/// What is looked at in a frame: its number, its function and place, its slots and its operands.
type Seen = (u32, (u32, u32), &'static [i64], &'static [i64]);

/// A frame with an operand.
const OPENED: [Seen; 1] = [(0, (0, 2), &[], &[40])];

/// A frame whose slot was its caller's operand.
const ENTERED: [Seen; 2] = [(0, (0, 2), &[], &[]), (1, (1, 0), &[40], &[])];

/// A frame with a slot.
const SLOTTED: [Seen; 1] = [(0, (0, 2), &[1], &[])];

/// The frame that was entered, at another place, with another slot and an operand.
const CHANGED: [Seen; 2] = [(0, (0, 2), &[], &[]), (1, (1, 5), &[41], &[7])];

/// Its caller, once it is closed.
const CLOSED: [Seen; 1] = [(0, (0, 2), &[], &[])];

/// Three frames with slots and operands.
const STACKED: [Seen; 3] = [
    (0, (0, 2), &[], &[]),
    (1, (1, 7), &[1], &[]),
    (2, (2, 0), &[2], &[6]),
];

/// The same once the newest is closed, and its caller has another operand.
const RETURNED: [Seen; 2] = [(0, (0, 2), &[], &[]), (1, (1, 7), &[1], &[8])];

fn are_numbers(values: &[Value], numbers: &[i64]) -> bool {
    if values.len() != numbers.len() {
        return false;
    }
    for (value, number) in values.iter().zip(numbers.iter()) {
        match value {
            Value::Int(n) if n == number => {}
            _ => return false,
        }
    }
    true
}

/// What stands behind numbers with which values begin.
fn behind<'a>(values: &'a [Value], numbers: &[i64]) -> Option<&'a [Value]> {
    if values.len() < numbers.len() {
        return None;
    }
    let (first, rest) = values.split_at(numbers.len());
    if are_numbers(first, numbers) {
        Some(rest)
    } else {
        None
    }
}

/// What stands behind the slots and then the operands of a frame.
fn behind_frame<'a>(values: &'a [Value], seen: &Seen) -> Option<&'a [Value]> {
    match behind(values, seen.2) {
        Some(rest) => behind(rest, seen.3),
        None => None,
    }
}

/// Whether values are those of each frame, the oldest first.
fn are_values(values: &[Value], seen: &[Seen]) -> bool {
    let mut rest = values;
    for frame in seen {
        match behind_frame(rest, frame) {
            Some(more) => rest = more,
            None => return false,
        }
    }
    rest.is_empty()
}

fn is_seen(frames: &Frames, seen: &[Seen]) -> bool {
    if frames.count() as usize != seen.len() || !are_values(frames.values(), seen) {
        return false;
    }
    for (i, head, slots, operands) in seen {
        if *i >= frames.count()
            || frames.head(*i) != *head
            || !are_numbers(frames.slots(*i), slots)
            || !are_numbers(frames.operands(*i), operands)
        {
            return false;
        }
    }
    true
}

/// Whether a frame holds its operand, and whether a call takes it.
fn operand_is_taken(alloc: Global) -> Result<(bool, bool), NoMemory> {
    let mut frames = Frames::new(alloc);
    frames.open(alloc, 0, 2)?;
    frames.add_operand(alloc, Value::Int(40))?;
    let opened = is_seen(&frames, &OPENED);
    frames.enter(alloc, 1, 1)?;
    Ok((opened, is_seen(&frames, &ENTERED)))
}

/// Whether a frame holds its slot.
fn slot_is_added(alloc: Global) -> Result<bool, NoMemory> {
    let mut frames = Frames::new(alloc);
    frames.open(alloc, 0, 2)?;
    frames.add_slot(alloc, Value::Int(1))?;
    Ok(is_seen(&frames, &SLOTTED))
}

#[test]
fn frames_hold_slots_and_operands(rt: HostRuntime) -> Result<(), Fail> {
    assert_eq!(rt; operand_is_taken(rt.alloc())?, (true, true));
    assert!(rt; slot_is_added(rt.alloc())?);
    Ok(())
}

/// Whether a call is at another place with another slot, and whether it is closed; what was taken of it.
fn call_is_changed(alloc: Global) -> Result<(bool, bool, Value), NoMemory> {
    let mut frames = Frames::new(alloc);
    frames.open(alloc, 0, 2)?;
    frames.open(alloc, 1, 0)?;
    frames.add_slot(alloc, Value::Int(40))?;
    frames.set_place(5);
    let old = frames.swap_slot(0, Value::Int(41));
    frames.add_operand(alloc, Value::Int(7))?;
    let changed = is_seen(&frames, &CHANGED);
    frames.add_operand(alloc, old)?;
    let taken = frames.take_operand();
    frames.close();
    Ok((changed, is_seen(&frames, &CLOSED), taken))
}

#[test]
fn a_call_is_changed_and_closed(rt: HostRuntime) -> Result<(), Fail> {
    let (changed, closed, taken) = call_is_changed(rt.alloc())?;
    assert!(rt; changed && closed);
    assert!(rt; matches!(taken, Value::Int(40)));
    Ok(())
}

/// Whether the values of three frames stand one behind the other, and those of two once the newest is closed.
fn frames_are_stacked(alloc: Global) -> Result<(bool, bool), NoMemory> {
    let mut frames = Frames::new(alloc);
    frames.open(alloc, 0, 2)?;
    frames.open(alloc, 1, 7)?;
    frames.add_slot(alloc, Value::Int(1))?;
    frames.add_operand(alloc, Value::Int(2))?;
    if frames.count() > 2 {
        return Ok((false, false));
    }
    frames.enter(alloc, 2, 1)?;
    frames.add_operand(alloc, Value::Int(6))?;
    let stacked = is_seen(&frames, &STACKED);
    frames.close();
    frames.add_operand(alloc, Value::Int(8))?;
    Ok((stacked, is_seen(&frames, &RETURNED)))
}

#[test]
fn values_stand_in_the_order_of_frames(rt: HostRuntime) -> Result<(), Fail> {
    assert_eq!(rt; frames_are_stacked(rt.alloc())?, (true, true));
    Ok(())
}
