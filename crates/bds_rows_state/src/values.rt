//! The values of a thread in states that are loaded, and in those that are loaded from what is written of them.
use crate::checkpoints::SAVED;
use bds_ckpt::{load, write};
use bds_state::State;
use bds_value::{ByteText, Listed, NoMemory, Value, text_of};
use std::alloc::Global;
use std::process::Abort;
use std::test::Fail;

/// What the script `int f() { checkpoint 'a.chp'; return 2 }` with `println 1 + f()` has saved, in version 1.
const CALLED: [u8; 454] = [
    66, 68, 83, 67, 1, 0, 0, 0, 5, 115, 46, 98, 100, 115, // how the file begins, and the path
    0, 0, 0, 1, 0, 0, 0, 5, 115, 46, 98, 100, 115, 0, 0, 0, 1, 3, 2, // files and globals
    0, 0, 0, 2, // two functions
    0, 0, 0, 0, 0, 0, 0, 0, 0, 0, 0, 8, 3, 2, 3, 2, 1, 0, 1, 2, 0, 2, 5, // the script's own up to its result
    0, 0, 0, 10, 27, 2, 0, 0, 0, 0, 7, 0, 0, 1, 0, 0, 0, 0, 0, 0, 0, 1, 35, 0, 0, 0, 1, 9, 16, 2,
    0, 0, 0, 1, 10, 18, 42, 36, // its code
    0, 0, 0, 0, // its labels
    0, 0, 0, 0, 0, 0, 0, 1, 0, 0, 0, 0, 0, 0, 0, 1, 0, 0, 0, 0, 0, 0, 0, 2, 0, 0, 0, 0, 0, 0, 0, 2,
    0, 0, 0, 0, 0, 0, 0, 2, 0, 0, 0, 0, 0, 0, 0, 2, 0, 0, 0, 0, 0, 0, 0, 2, 0, 0, 0, 0, 0, 0, 0, 2,
    0, 0, 0, 0, 0, 0, 0, 2, 0, 0, 0, 0, 0, 0, 0, 1, // its lines
    0, 0, 0, 1, 102, 0, 0, 0, 0, 0, 0, 0, 8, 3, 2, 3, 2, 1, 0, 1, 2, 0, 2, 1, // `f` up to its result
    0, 0, 0, 6, 2, 0, 0, 0, 5, 97, 46, 99, 104, 112, 53, 1, 0, 0, 0, 0, 0, 0, 0, 2, 36, 3, 1, 36, // its code
    0, 0, 0, 1, 0, 0, 0, 4, 0, 0, 0, 0, // its labels
    0, 0, 0, 0, 0, 0, 0, 1, 0, 0, 0, 0, 0, 0, 0, 1, 0, 0, 0, 0, 0, 0, 0, 1, 0, 0, 0, 0, 0, 0, 0, 1,
    0, 0, 0, 0, 0, 0, 0, 1, 0, 0, 0, 0, 0, 0, 0, 1, // its lines
    0, 0, 0, 1, 0, 0, 0, 0, 0, 0, 0, 0, 1, 3, 2, 0, 0, 0, 0, // a thread with its globals
    0, 0, 0, 2, // two calls
    0, 0, 0, 0, 0, 0, 0, 4, // where the script stands
    0, 0, 0, 8, 3, 2, 0, 0, 0, 0, 3, 2, 0, 0, 0, 0, 1, 0, 0, 0, 0, 0, 0, 0, 0, 0, 0, 1, 0, 0, 0, 0,
    0, 0, 0, 0, 2, 0, 0, 0, 0, 0, 0, 2, 0, 0, 0, 0, // its slots
    0, 0, 0, 1, 1, 0, 0, 0, 0, 0, 0, 0, 1, // its operands
    0, 0, 0, 1, 0, 0, 0, 2, // where `f` stands
    0, 0, 0, 8, 3, 2, 0, 0, 0, 0, 3, 2, 0, 0, 0, 0, 1, 0, 0, 0, 0, 0, 0, 0, 0, 0, 0, 1, 0, 0, 0, 0,
    0, 0, 0, 0, 2, 0, 0, 0, 0, 0, 0, 2, 0, 0, 0, 0, // its slots
    0, 0, 0, 0, // its operands
    0, 0, 0, 0, 0, 0, 0, 0, // no task and no rule
];

/// The file with another byte at a place.
fn with_byte(alloc: Global, at: usize, byte: u8) -> Result<ByteText, NoMemory> {
    let mut bytes = Vec::from_slice(alloc, &CALLED)?;
    if let Some(there) = bytes.get_mut(at) {
        *there = byte;
    }
    Ok(Listed::from_vec(bytes))
}

/// The texts of values, each with a comma behind it.
fn texts(alloc: Global, values: &[Value]) -> Result<Vec<u8>, Fail> {
    let mut told = Vec::new(alloc);
    for value in values {
        let text = text_of(alloc, value)?;
        told.extend_from_slice(text.as_slice())?;
        told.push(b',')?;
    }
    Ok(told)
}

/// The values of the main thread.
fn values_in(alloc: Global, state: &State) -> Result<Vec<u8>, Fail> {
    match state.threads.as_slice().first() {
        Some(thread) => texts(alloc, thread.frames.values()),
        None => Ok(Vec::new(alloc)),
    }
}

fn loaded(alloc: Global, bytes: ByteText) -> Result<State, NoMemory> {
    match load(alloc, bytes) {
        Ok(state) => Ok(state),
        Err(_) => Err(NoMemory),
    }
}

/// What is written of a state, and the values of its main thread.
fn seen(alloc: Global, bytes: ByteText) -> Result<(ByteText, Vec<u8>), Fail> {
    let state = loaded(alloc, bytes)?;
    let values = values_in(alloc, &state)?;
    Ok((write(alloc, &state)?, values))
}

/// Whether a state has these values, and also the state that is loaded from what is written of it.
fn has_values(alloc: Global, bytes: ByteText, wanted: &[u8]) -> Result<bool, Fail> {
    let (written, before) = seen(alloc, bytes)?;
    let (_, behind) = seen(alloc, written)?;
    Ok(before.as_slice() == wanted && behind.as_slice() == wanted)
}

#[test]
fn operands_are_values(rt: HostRuntime) -> Result<(), Fail> {
    let alloc = rt.alloc();
    let bytes = Listed::from_vec(Vec::from_slice(alloc, &SAVED)?);
    assert!(rt; has_values(alloc, bytes, b"40,2,")?);
    Ok(())
}

/// A place, the byte there, and the values: the slots of the script, its operand 1, and the slots of `f`.
const CALLS: [(usize, u8, &[u8]); 4] = [
    (4, 1, b"[],[],0,false,0,,false,,1,[],[],0,false,0,,false,,"),
    (
        349,
        7,
        b"[],[],7,false,0,,false,,1,[],[],0,false,0,,false,,",
    ),
    (
        385,
        9,
        b"[],[],0,false,0,,false,,9,[],[],0,false,0,,false,,",
    ),
    (
        418,
        5,
        b"[],[],0,false,0,,false,,1,[],[],5,false,0,,false,,",
    ),
];

/// A row of the table.
fn row(rt: &impl Abort, alloc: Global, at: usize, byte: u8, wanted: &[u8]) -> Result<(), Fail> {
    let bytes = with_byte(alloc, at, byte)?;
    assert!(rt; has_values(alloc, bytes, wanted)?);
    Ok(())
}

#[test]
fn slots_and_operands_of_each_call_are_values(rt: HostRuntime) -> Result<(), Fail> {
    for (at, byte, wanted) in &CALLS {
        row(&rt, rt.alloc(), *at, *byte, wanted)?;
    }
    Ok(())
}
