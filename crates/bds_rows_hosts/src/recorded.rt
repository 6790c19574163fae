//! Worked rows of a host that stores replies, and of one that gives them again.
ghost use Rattle.std.specs.Prelude.{◌≡◌};

use crate::rows::{Asked, Row, Said, answers, are_replies, is_log, replies_of};
use bds_host::{Host, Replies, Scripted};
use bds_replay::{Given, Recorder, Replayed};
use std::alloc::Global;
use std::marker::Brand;
use std::test::Fail;

fn was_asked(recorder: Recorder<Scripted, Brand>, rows: &[Row]) -> bool {
    are_replies(recorder.replies().as_slice(), rows) && is_log(recorder.into_inner().trace(), rows)
}

fn records(alloc: Global, replies: Replies, rows: &[Row]) -> bool {
    let mut recorder: Recorder<Scripted, Brand> = Recorder::new(
        alloc,
        Scripted::new(alloc, replies),
    );
    let is_told = answers(alloc, &mut recorder, rows);
    was_asked(recorder, rows) && is_told
}

fn are_recorded(alloc: Global, rows: &[Row]) -> Result<bool, Fail> {
    Ok(records(alloc, replies_of(alloc, rows)?, rows))
}

const EXCHANGE: [Row; 12] = [
    (Asked::Read(b"s.bds"), Said::Bytes(b"println 1 + 2 * 3")),
    (Asked::Read(b"t.bds"), Said::Missing),
    (Asked::Stamp(b"f"), Said::Stamp(false, 0, 0)),
    (Asked::Write(b"o", b"t"), Said::Done),
    (Asked::Remove(b"o"), Said::Missing),
    (Asked::Sys(b"date"), Said::SysDone(3, b"now")),
    (Asked::Start(1, 0, b"echo hi"), Said::Started),
    (Asked::Next(&[0, 2], &[1]), Said::Run(2)),
    (Asked::Next(&[], &[1]), Said::Ended(1, 9)),
    (Asked::Save(b"s.bds.chp", b"BDSC"), Said::Done),
    (Asked::Out(b"7\n"), Said::Done),
    (Asked::Err(b"e"), Said::Fault),
];

#[test]
fn replies_are_stored(rt: HostRuntime) -> Result<(), Fail> {
    assert!(rt; are_recorded(rt.alloc(), &EXCHANGE)?);
    Ok(())
}

/// Whether given replies are given again so, and how many are left is as told.
fn replays<K: Given>(alloc: Global, given: Replies, rows: &[Row], is_used_up: bool) -> bool
    requires { given ≡ K.given }
{
    let mut replayed: Replayed<K> = Replayed::new(alloc, given);
    let is_told = answers(alloc, &mut replayed, rows);
    replayed.is_replayed();
    is_told && replayed.is_used_up() == is_used_up
}

fn replays_these(alloc: Global, given: Replies, rows: &[Row], is_used_up: bool) -> bool {
    replays::<Brand>(alloc, given, rows, is_used_up)
}

fn are_replayed(
    alloc: Global,
    given: &[Row],
    rows: &[Row],
    is_used_up: bool,
) -> Result<bool, Fail> {
    Ok(replays_these(alloc, replies_of(alloc, given)?, rows, is_used_up))
}

// a reply that doesn't answer its ask is used up, as a given fault is; behind all replies there is none
const OTHER: [Row; 4] = [
    (Asked::Read(b"s.bds"), Said::Bytes(b"println 1 + 2 * 3")),
    (Asked::Out(b"7\n"), Said::Fault),
    (Asked::Out(b"8\n"), Said::Fault),
    (Asked::Out(b"9\n"), Said::Fault),
];

const OTHER_GIVEN: [Row; 3] = [
    (Asked::Read(b""), Said::Bytes(b"println 1 + 2 * 3")),
    (Asked::Out(b""), Said::Started),
    (Asked::Out(b""), Said::NoRoom),
];

const FRONT: [Row; 1] = [(Asked::Read(b"s.bds"), Said::Bytes(b"println 1 + 2 * 3"))];

// given replies, what is then asked and answered, and whether all are used up
const REPLAYS: [(&[Row], &[Row], bool); 3] = [
    (&EXCHANGE, &EXCHANGE, true),
    (&EXCHANGE, &FRONT, false),
    (&OTHER_GIVEN, &OTHER, true),
];

#[test]
fn replies_are_given_again(rt: HostRuntime) -> Result<(), Fail> {
    let alloc = rt.alloc();
    for (given, rows, is_used_up) in &REPLAYS {
        assert!(rt; are_replayed(alloc, given, rows, *is_used_up)?);
    }
    Ok(())
}
