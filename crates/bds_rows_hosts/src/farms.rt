//! Worked rows of a host whose tasks are run elsewhere.
ghost use Rattle.std.specs.Prelude.{◌≡◌, []};

use crate::rows::{Asked, Row, Said, answers, is_log, replies_of, text};
use bds_farm::{Farm, Farmed, ends_are_learnt};
use bds_host::{Host, Replies, Scripted};
use bds_value::ByteText;
use std::alloc::Global;
use std::marker::Brand;
use std::test::Fail;

/// Whether the host inside, which ends here, was asked so.
fn was_asked<K: Farmed>(farm: Farm<Scripted, K>, inner: &[Row]) -> bool {
    is_log(farm.into_inner().trace(), inner)
}

fn runs<K: Farmed>(
    alloc: Global,
    submit: ByteText,
    poll: ByteText,
    replies: Replies,
    own: &[Row],
    inner: &[Row],
) -> bool
    requires start { K.start ≡ [] }
    requires submit { submit ≡ K.submit }
    requires poll { poll ≡ K.poll }
{
    let mut farm: Farm<Scripted, K> = Farm::new(alloc, Scripted::new(alloc, replies), submit, poll);
    ends_are_learnt();
    let is_told = answers(alloc, &mut farm, own);
    was_asked(farm, inner) && is_told
}

fn runs_with(
    alloc: Global,
    submit: ByteText,
    poll: ByteText,
    replies: Replies,
    own: &[Row],
    inner: &[Row],
) -> bool {
    runs::<Brand>(alloc, submit, poll, replies, own, inner)
}

/// Whether asks over a farm with the commands `q` and `s` are answered so, where the host inside replies so.
fn farms(alloc: Global, own: &[Row], inner: &[Row]) -> Result<bool, Fail> {
    Ok(runs_with(
        alloc,
        text(alloc, b"q")?,
        text(alloc, b"s")?,
        replies_of(alloc, inner)?,
        own,
        inner,
    ))
}

const START: Row = (Asked::Start(1, 0, b"echo hi"), Said::Started);

const END: Row = (Asked::Next(&[], &[1]), Said::Ended(1, 0));

const WRITTEN: Row = (Asked::Write(b"bds-task.1.0.sh", b"echo hi"), Said::Done);

const SUBMIT: Asked = Asked::Sys(b"q bds-task.1.0.sh task.1.0");

const SUBMITTED: Row = (SUBMIT, Said::SysDone(0, b""));

const POLL: Asked = Asked::Sys(b"s");

const TASK: [Row; 3] = [START, (Asked::Next(&[0], &[1]), Said::Run(0)), END];

const TASK_INSIDE: [Row; 4] = [
    WRITTEN,
    SUBMITTED,
    (POLL, Said::SysDone(0, b"x\ntask.2.0 0\n")),
    (POLL, Said::SysDone(0, b"task.1.0 0\ntask.1.0 5\n")),
];

#[test]
fn an_unknown_job_is_skipped_and_the_first_end_counts(rt: HostRuntime) -> Result<(), Fail> {
    assert!(rt; farms(rt.alloc(), &TASK, &TASK_INSIDE)?);
    Ok(())
}

const NOT_STARTED: [Row; 1] = [(Asked::Start(1, 0, b"echo hi"), Said::Fault)];

#[test]
fn a_failed_submission_is_a_fault(rt: HostRuntime) -> Result<(), Fail> {
    let alloc = rt.alloc();
    assert!(rt;
        farms(
            alloc,
            &NOT_STARTED,
            &[WRITTEN, (SUBMIT, Said::SysDone(1, b""))]
        )?
    );
    assert!(rt; farms(alloc, &NOT_STARTED, &[WRITTEN, (SUBMIT, Said::Fault)])?);
    let unwritten = (Asked::Write(b"bds-task.1.0.sh", b"echo hi"), Said::Fault);
    assert!(rt; farms(alloc, &NOT_STARTED, &[unwritten])?);
    Ok(())
}

const NO_END: [Row; 2] = [START, (Asked::Next(&[], &[1]), Said::Fault)];

#[test]
fn a_failed_question_is_a_fault(rt: HostRuntime) -> Result<(), Fail> {
    let alloc = rt.alloc();
    let failed = (POLL, Said::SysDone(1, b"task.1.0 0\n"));
    assert!(rt; farms(alloc, &NO_END, &[WRITTEN, SUBMITTED, failed])?);
    assert!(rt; farms(alloc, &NO_END, &[WRITTEN, SUBMITTED, (POLL, Said::Fault)])?);
    Ok(())
}

const NOTHING: [Row; 1] = [(Asked::Next(&[], &[]), Said::Fault)];

#[test]
fn nothing_to_wait_for_is_a_fault(rt: HostRuntime) -> Result<(), Fail> {
    assert!(rt; farms(rt.alloc(), &NOTHING, &[])?);
    Ok(())
}

const TURNS: [Row; 6] = [
    (Asked::Next(&[0, 2, 5], &[1]), Said::Run(0)),
    (Asked::Next(&[0, 2, 5], &[1]), Said::Run(2)),
    (Asked::Next(&[0, 5], &[1]), Said::Run(5)),
    (Asked::Next(&[2, 5], &[1]), Said::Run(2)),
    (Asked::Next(&[2], &[]), Said::Run(2)),
    (Asked::Next(&[1, 2], &[]), Said::Run(1)),
];

#[test]
fn threads_take_turns(rt: HostRuntime) -> Result<(), Fail> {
    assert!(rt; farms(rt.alloc(), &TURNS, &[])?);
    Ok(())
}

const AGAIN: [Row; 4] = [
    START,
    (Asked::Next(&[], &[1]), Said::Ended(1, 3)),
    (Asked::Start(1, 1, b"echo hi"), Said::Started),
    END,
];

const AGAIN_INSIDE: [Row; 7] = [
    WRITTEN,
    SUBMITTED,
    (POLL, Said::SysDone(0, b"task.1.1 0\ntask.1.0 3\n")),
    (Asked::Write(b"bds-task.1.1.sh", b"echo hi"), Said::Done),
    (
        Asked::Sys(b"q bds-task.1.1.sh task.1.1"),
        Said::SysDone(0, b"Submitted batch job 7\n"),
    ),
    (POLL, Said::SysDone(0, b"task.1.0 4\n")),
    (POLL, Said::SysDone(0, b"task.1.0 4\ntask.1.1 0")),
];

#[test]
fn an_end_of_an_older_attempt_is_skipped(rt: HostRuntime) -> Result<(), Fail> {
    assert!(rt; farms(rt.alloc(), &AGAIN, &AGAIN_INSIDE)?);
    Ok(())
}

const TWO: [Row; 6] = [
    START,
    (Asked::Start(2, 0, b"b"), Said::Started),
    (Asked::Start(3, 0, b"c"), Said::Started),
    (Asked::Next(&[], &[1, 3]), Said::Ended(3, 7)),
    (Asked::Next(&[], &[1, 2]), Said::Ended(2, 255)),
    END,
];

const TWO_INSIDE: [Row; 7] = [
    WRITTEN,
    SUBMITTED,
    (Asked::Write(b"bds-task.2.0.sh", b"b"), Said::Done),
    (
        Asked::Sys(b"q bds-task.2.0.sh task.2.0"),
        Said::SysDone(0, b""),
    ),
    (Asked::Write(b"bds-task.3.0.sh", b"c"), Said::Done),
    (
        Asked::Sys(b"q bds-task.3.0.sh task.3.0"),
        Said::SysDone(0, b""),
    ),
    (
        POLL,
        Said::SysDone(0, b"task.2.0 255\ntask.3.0 7\ntask.1.0 0\n"),
    ),
];

#[test]
fn the_oldest_end_of_a_running_task_is_given(rt: HostRuntime) -> Result<(), Fail> {
    assert!(rt; farms(rt.alloc(), &TWO, &TWO_INSIDE)?);
    Ok(())
}

const OTHERS: [Row; 9] = [
    (Asked::Read(b"s.bds"), Said::Missing),
    (Asked::Stamp(b"f"), Said::Stamp(true, 3, -1)),
    (Asked::Write(b"o", b"t"), Said::Done),
    (Asked::Remove(b"o"), Said::Missing),
    (Asked::Out(b"7\n"), Said::Done),
    (Asked::Err(b"e"), Said::Fault),
    (Asked::Sys(b"s"), Said::SysDone(3, b"task.1.0 0\n")),
    (Asked::Save(b"s.bds.chp", b"BDSC"), Said::Done),
    (Asked::Read(b"t.bds"), Said::NoRoom),
];

#[test]
fn other_asks_are_handed_on(rt: HostRuntime) -> Result<(), Fail> {
    assert!(rt; farms(rt.alloc(), &OTHERS, &OTHERS)?);
    Ok(())
}

const STRANGE: [Row; 2] = [START, (Asked::Next(&[], &[1]), Said::Ended(1, 255))];

// none of these lines is an end but the last
const STRANGE_LINES: &[u8] = b"task.1.0 256\ntask.1.0 4294967296\n\
task.4294967297.0 0\ntask.1.4294967296 0\ntask.001.0 0\n\
task.1.00 0\ntask.1.0 00\n task.1.0 0\ntask.1.0 0 \ntask.1.0  0\ntask.1.0 +0\ntask.1.0 -0\ntask.1.0\ntask.1.0 \n\
Task.1.0 0\n\
task.1.0 0\r\ntask.10 0\ntask.1.0.0 0\ntask..0 0\n\n\0\n\xff\ntask.1.0 255";

#[test]
fn a_line_is_an_end_as_it_is_printed(rt: HostRuntime) -> Result<(), Fail> {
    assert!(rt;
        farms(
            rt.alloc(),
            &STRANGE,
            &[WRITTEN, SUBMITTED, (POLL, Said::SysDone(0, STRANGE_LINES))]
        )?
    );
    Ok(())
}
