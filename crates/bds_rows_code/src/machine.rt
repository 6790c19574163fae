//! Scripts of instructions run from point to point.

use crate::machine::changes::CHANGES;
use crate::machine::operations::{OPERATIONS, Operation};
use crate::machine::points::tell;
use crate::machine::scripts::{Run, SCRIPTS, UNITS};
use bds_code::read_unit;
use bds_machine::run_to_point;
use bds_state_threads::first_thread;
use bds_value::{Input, Listed};
use bds_verify::{Verified, verify};
use std::alloc::Global;
use std::process::Abort;
use std::test::Fail;

mod changes;
mod every;
mod operations;
mod points;
mod scripts;

/// One file, no globals, and one function without parameters, locals and result; its code follows.
const HEAD: [u8; 30] = [
    0, 0, 0, 1, 0, 0, 0, 1, 104, 0, 0, 0, 0, 0, 0, 0, 1, 0, 0, 0, 0, 0, 0, 0, 0, 0, 0, 0, 0, 5,
];

fn verified(alloc: Global, first: &[u8], rest: &[u8]) -> Result<Verified, Fail> {
    let mut bytes = Vec::from_slice(alloc, first)?;
    bytes.extend_from_slice(rest)?;
    let bytes = Listed::from_vec(bytes);
    let mut input = Input { bytes, at: 0 };
    let unit = read_unit(alloc, &mut input)?;
    Ok(verify(alloc, unit)?)
}

/// Where the first thread of a unit leaves the machine, and how many ticks and calls are left.
fn run(alloc: Global, first: &[u8], rest: &[u8], ticks: u64) -> Result<(Vec<u8>, u64, u32), Fail> {
    let unit = verified(alloc, first, rest)?;
    let mut thread = first_thread(alloc, &unit)?;
    let mut left = ticks;
    let point = run_to_point(alloc, &unit, &mut thread, &mut left)?;
    let mut told = Vec::new(alloc);
    tell(alloc, &mut told, point)?;
    Ok((told, left, thread.frames.count()))
}

/// A row of a table.
fn row(rt: &impl Abort, alloc: Global, first: &[u8], wanted: &Run) -> Result<(), Fail> {
    let (rest, ticks, told, left, calls) = wanted;
    let (said, ticks, open) = run(alloc, first, rest, *ticks)?;
    assert_eq!(rt; said.as_slice(), *told);
    assert_eq!(rt; (ticks, open), (*left, *calls));
    Ok(())
}

#[test]
fn scripts_leave_the_machine(rt: HostRuntime) -> Result<(), Fail> {
    for script in &SCRIPTS {
        row(&rt, rt.alloc(), &HEAD, script)?;
    }
    Ok(())
}

/// What follows the head of a unit whose instructions stand on the lines from 1 on.
fn on_lines(alloc: Global, count: u32, code: &[u8]) -> Result<Vec<u8>, Fail> {
    let mut bytes = Vec::from_slice(alloc, &count.to_be_bytes())?;
    bytes.extend_from_slice(code)?;
    bytes.extend_from_slice(&[0; 4])?;
    for line in 0..count {
        bytes.extend_from_slice(&[0; 4])?;
        bytes.extend_from_slice(&line.wrapping_add(1).to_be_bytes())?;
    }
    Ok(bytes)
}

/// A row of the table of operations, which count no ticks.
fn operation(rt: &impl Abort, alloc: Global, wanted: &Operation) -> Result<(), Fail> {
    let (count, code, told) = wanted;
    let rest = on_lines(alloc, *count, code)?;
    let (said, _, _) = run(alloc, &HEAD, rest.as_slice(), 0)?;
    assert_eq!(rt; said.as_slice(), *told);
    Ok(())
}

#[test]
fn operations_leave_the_machine(rt: HostRuntime) -> Result<(), Fail> {
    for wanted in &OPERATIONS {
        operation(&rt, rt.alloc(), wanted)?;
    }
    Ok(())
}

#[test]
fn units_leave_the_machine(rt: HostRuntime) -> Result<(), Fail> {
    for unit in &UNITS {
        row(&rt, rt.alloc(), &[], unit)?;
    }
    for unit in &CHANGES {
        row(&rt, rt.alloc(), &[], unit)?;
    }
    Ok(())
}
