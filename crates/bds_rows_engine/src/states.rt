//! A state of a unit that prints a sum.
ghost use Rattle.std.specs.Prelude.{◌≡◌, true, OnOk};
ghost use Rattle.bds_value.specs.declared.ids.Status.TheVariants.{Ready};
ghost use Rattle.bds_verify.specs.Threads.{IsThread};
ghost use Rattle.bds_machine.specs.Answers.{is_awaited, IsLeft};

use bds_code::{Thread, read_unit};
use bds_engine::run_state;
use bds_engine_stages::take;
use bds_host::{Ask, Auto, Host, Reply};
use bds_machine::{Answer, Point, give, run_to_point};
use bds_state::State;
use bds_state_threads::unit_fits;
use bds_value::{Input, Listed, MAX_TICKS, NoMemory};
use bds_verify::{Verified, verify};
use std::alloc::Global;
use std::test::Fail;

/// One file, no globals, and one function that prints 40 plus 2: its instructions push the numbers, add,
/// show and print, and return.
const UNIT: [u8; 108] = [
    0, 0, 0, 1, 0, 0, 0, 1, 104, 0, 0, 0, 0, 0, 0, 0, 1, 0, 0, 0, 0, 0, 0, 0, 0, 0, 0, 0, 0, 5, 0,
    0, 0, 6, 1, 0, 0, 0, 0, 0, 0, 0, 40, 1, 0, 0, 0, 0, 0, 0, 0, 2, 9, 16, 42, 36, 0, 0, 0, 0, 0,
    0, 0, 0, 0, 0, 0, 1, 0, 0, 0, 0, 0, 0, 0, 1, 0, 0, 0, 0, 0, 0, 0, 1, 0, 0, 0, 0, 0, 0, 0, 1, 0,
    0, 0, 0, 0, 0, 0, 1, 0, 0, 0, 0, 0, 0, 0, 1,
];

fn verified(alloc: Global) -> Result<Verified, Fail> {
    let bytes = Listed::from_vec(Vec::from_slice(alloc, &UNIT)?);
    let mut input = Input { bytes, at: 0 };
    let unit = read_unit(alloc, &mut input)?;
    unit_fits(&unit);
    Ok(verify(alloc, unit)?)
}

/// A state whose main thread has made another, and the number of that.
fn spawned(alloc: Global) -> Result<(State, u32), Fail> {
    let mut state = State::begin(alloc, verified(alloc)?, Listed::new(alloc))?;
    state.is_valid();
    let n = state.spawn(alloc, 0, 0, Listed::new(alloc))?;
    Ok((state, n))
}

/// Numbers of threads and the ready thread above them.
const READY: [(Option<u32>, Option<u32>); 3] = [
    (None, Some(0)),
    (Some(0), Some(1)),
    (Some(1), None),
];

#[test]
fn threads_are_made_and_found(rt: HostRuntime) -> Result<(), Fail> {
    let (state, n) = spawned(rt.alloc())?;
    assert_eq!(rt; n, 1);
    for (after, wanted) in &READY {
        assert_eq!(rt; state.next_ready(*after), *wanted);
    }
    Ok(())
}

/// Gives a thread that has printed its answer.
fn give_printed(
    alloc: Global,
    unit: &Verified,
    thread: &mut Thread,
    ask: &Ask,
) -> Result<(), NoMemory>
    requires left { IsLeft unit.now (Point.Asks ask.now) thread.old }
    requires ready { thread.old.status ≡ Ready }
    ensures { OnOk result (IsThread unit.now thread.new × (thread.new.status ≡ Ready)) }
{
    match ask {
        Ask::Out(_) => give(alloc, unit, thread, Answer::Nothing),
        _ => Err(NoMemory),
    }
}

/// Gives a thread that has printed its answer, at whatever point.
fn give_nothing(
    alloc: Global,
    unit: &Verified,
    thread: &mut Thread,
    point: &Point,
) -> Result<(), NoMemory>
    requires left { is_awaited point.now ≡ true → IsLeft unit.now point.now thread.old }
    requires ready { thread.old.status ≡ Ready }
    ensures { OnOk result (IsThread unit.now thread.new × (thread.new.status ≡ Ready)) }
{
    match point {
        Point::Asks(ask) => give_printed(alloc, unit, thread, ask),
        _ => Err(NoMemory),
    }
}

/// Whether a thread stands at the print of the sum.
fn prints_the_sum(point: &Point) -> bool {
    match point {
        Point::Asks(Ask::Out(text)) => text.as_slice() == b"42".as_slice(),
        _ => false,
    }
}

/// Whether a thread comes to the print of the sum, and behind its answer to its end, without a tick.
fn prints_and_ends(alloc: Global, unit: &Verified, thread: &mut Thread) -> Result<bool, NoMemory>
    requires valid { IsThread unit.now thread.old }
    requires ready { thread.old.status ≡ Ready }
{
    let mut ticks = 0;
    let first = run_to_point(alloc, unit, thread, &mut ticks)?;
    give_nothing(alloc, unit, thread, &first)?;
    let second = run_to_point(alloc, unit, thread, &mut ticks)?;
    Ok(prints_the_sum(&first) && matches!(second, Point::Finished))
}

/// The same of the first thread of a state that begins.
fn begun_prints_and_ends(alloc: Global) -> Result<bool, Fail> {
    let mut state = State::begin(alloc, verified(alloc)?, Listed::new(alloc))?;
    state.is_valid();
    let mut thread = take(alloc, &mut state, 0);
    Ok(prints_and_ends(alloc, &state.unit, &mut thread)?)
}

#[test]
fn a_thread_goes_from_point_to_point(rt: HostRuntime) -> Result<(), Fail> {
    assert!(rt; begun_prints_and_ends(rt.alloc())?);
    Ok(())
}

/// Whether the sum was printed, and nothing else was asked.
fn has_told_the_sum(host: &Auto) -> bool {
    match host.trace().as_slice() {
        [(Ask::Out(text), Reply::Done)] => text.as_slice() == b"42".as_slice(),
        _ => false,
    }
}

#[test]
fn a_state_that_begins_is_run_to_its_end(rt: HostRuntime) -> Result<(), Fail> {
    let alloc = rt.alloc();
    let state = State::begin(alloc, verified(alloc)?, Listed::new(alloc))?;
    let mut host = Auto::new(alloc);
    assert_eq!(rt; run_state(alloc, state, 1, MAX_TICKS, &mut host)?, 0);
    assert!(rt; has_told_the_sum(&host));
    Ok(())
}
