//! Threads of a unit that prints a sum, made and judged.
ghost use Rattle.std.specs.Prelude.{IfOk};
ghost use Rattle.bds_verify.specs.Threads.{IsThread};
ghost use Rattle.bds_state_threads.specs.Fields.{IsFieldStatus, IsFieldThread};

use bds_code::{Frames, Status, Thread, read_unit};
use bds_state_threads::{
    ThreadFault, first_thread, judge_thread, thread_fits, unit_fits, valid_threads_may_be_written,
};
use bds_value::{Input, Listed, NoMemory};
use bds_verify::{Verified, verify};
use std::alloc::Global;
use std::process::Abort;
use std::test::Fail;

/// One file, no globals, and one function that prints 40 plus 2: its instructions push the numbers, add,
/// show and print, and return.
const UNIT: [u8; 108] = [
    0, 0, 0, 1, 0, 0, 0, 1, 104, 0, 0, 0, 0, 0, 0, 0, 1, 0, 0, 0, 0, 0, 0, 0, 0, 0, 0, 0, 0, 5, 0,
    0, 0, 6, 1, 0, 0, 0, 0, 0, 0, 0, 40, 1, 0, 0, 0, 0, 0, 0, 0, 2, 9, 16, 42, 36, 0, 0, 0, 0, 0,
    0, 0, 0, 0, 0, 0, 1, 0, 0, 0, 0, 0, 0, 0, 1, 0, 0, 0, 0, 0, 0, 0, 1, 0, 0, 0, 0, 0, 0, 0, 1, 0,
    0, 0, 0, 0, 0, 0, 1, 0, 0, 0, 0, 0, 0, 0, 1,
];

fn verified(alloc: Global) -> Result<Verified, Fail> {
    let bytes = Listed::from_vec(Vec::from_slice(alloc, &UNIT)?);
    let mut input = Input { bytes, at: 0 };
    let unit = read_unit(alloc, &mut input)?;
    unit_fits(&unit);
    Ok(verify(alloc, unit)?)
}

/// What a judge says: 0 nothing, 1 the thread itself, 2 its first frame, 3 another, 4 no memory.
fn told(judged: Result<(), ThreadFault>) -> u8 {
    match judged {
        Ok(()) => 0,
        Err(ThreadFault::Thread) => 1,
        Err(ThreadFault::Frame(0)) => 2,
        Err(ThreadFault::Frame(_)) => 3,
        Err(ThreadFault::NoMemory) => 4,
    }
}

/// What is said of a valid thread.
fn accepted(alloc: Global, unit: &Verified, thread: &Thread) -> u8
    requires valid { IsThread unit.now thread.now }
    requires status { IsFieldStatus thread.now.status }
{
    let _code = unit.unit();
    thread_fits(thread);
    valid_threads_may_be_written();
    told(judge_thread(alloc, unit, thread))
}

fn first_is(alloc: Global, unit: &Verified) -> Result<u8, NoMemory> {
    let thread = first_thread(alloc, unit)?;
    Ok(accepted(alloc, unit, &thread))
}

#[test]
fn a_first_thread_is_accepted(rt: HostRuntime) -> Result<(), Fail> {
    let unit = verified(rt.alloc())?;
    assert_eq!(rt; first_is(rt.alloc(), &unit)?, 0);
    Ok(())
}

/// A ready thread with one call without values.
fn standing(alloc: Global, function: u32, place: u32) -> Result<Thread, NoMemory>
    ensures { IfOk result (λ thread. IsFieldThread thread) }
{
    let mut frames = Frames::new(alloc);
    frames.open(alloc, function, place)?;
    Ok(Thread {
        parent: 0,
        status: Status::Ready,
        globals: Listed::new(alloc),
        frames,
    })
}

fn standing_is(alloc: Global, unit: &Verified, function: u32, place: u32) -> Result<u8, NoMemory> {
    let thread = standing(alloc, function, place)?;
    Ok(told(judge_thread(alloc, unit, &thread)))
}

/// Functions and places of a call without values, and what is said of it: the second instruction finds
/// an operand, and there are no more than six of them and no more than one function.
const CALLS: [(u32, u32, u8); 4] = [(0, 0, 0), (0, 1, 2), (0, 6, 2), (1, 0, 2)];

#[test]
fn calls_are_judged(rt: HostRuntime) -> Result<(), Fail> {
    let unit = verified(rt.alloc())?;
    for (function, place, wanted) in &CALLS {
        let said = standing_is(rt.alloc(), &unit, *function, *place)?;
        assert_eq!(rt; said, *wanted);
    }
    Ok(())
}
