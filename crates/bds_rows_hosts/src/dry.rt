//! Worked rows of a host over which nothing is done outside.
use crate::rows::{Asked, Row, Said, answers, is_log, replies_of};
use bds_dry::Dry;
use bds_host::{Host, Replies, Scripted};
use std::alloc::Global;
use std::marker::Brand;
use std::test::Fail;

/// Whether the host inside, which ends here, was asked so.
fn was_asked(dry: Dry<Scripted, Brand>, inner: &[Row]) -> bool {
    is_log(dry.into_inner().trace(), inner)
}

fn runs(alloc: Global, replies: Replies, own: &[Row], inner: &[Row]) -> bool {
    let mut dry: Dry<Scripted, Brand> = Dry::new(alloc, Scripted::new(alloc, replies));
    let is_told = answers(alloc, &mut dry, own);
    was_asked(dry, inner) && is_told
}

/// Whether asks over a dry host are answered so, where the host inside replies so.
fn runs_dry(alloc: Global, own: &[Row], inner: &[Row]) -> Result<bool, Fail> {
    Ok(runs(alloc, replies_of(alloc, inner)?, own, inner))
}

// each row of the table
const ALL: [Row; 13] = [
    (Asked::Read(b"s.bds"), Said::Bytes(b"task sys echo hi")),
    (Asked::Stamp(b"f"), Said::Stamp(true, 3, -1)),
    (Asked::Out(b"7\n"), Said::Done),
    (Asked::Err(b"e"), Said::Done),
    (Asked::Start(1, 0, b"echo hi"), Said::Started),
    (Asked::Next(&[4, 2, 0], &[1]), Said::Run(0)),
    (Asked::Next(&[], &[3, 1]), Said::Ended(1, 0)),
    (Asked::Sys(b"date"), Said::SysDone(0, b"")),
    (Asked::Start(4_294_967_295, 7, b""), Said::Started),
    (Asked::Write(b"o", b"t"), Said::Done),
    (Asked::Remove(b"o"), Said::Done),
    (Asked::Save(b"s.bds.chp", b"BDSC"), Said::Done),
    (Asked::Next(&[], &[]), Said::Fault),
];

const ALL_INSIDE: [Row; 7] = [
    (Asked::Read(b"s.bds"), Said::Bytes(b"task sys echo hi")),
    (Asked::Stamp(b"f"), Said::Stamp(true, 3, -1)),
    (Asked::Out(b"7\n"), Said::Done),
    (Asked::Err(b"e"), Said::Done),
    (Asked::Out(b"task.1: echo hi\n"), Said::Done),
    (Asked::Out(b"sys: date\n"), Said::Done),
    (Asked::Out(b"task.4294967295: \n"), Said::Done),
];

#[test]
fn what_would_be_run_is_told(rt: HostRuntime) -> Result<(), Fail> {
    assert!(rt; runs_dry(rt.alloc(), &ALL, &ALL_INSIDE)?);
    Ok(())
}

// a fault inside is one here, and so is want of memory
const FAULTS: [Row; 9] = [
    (Asked::Read(b"f"), Said::Fault),
    (Asked::Stamp(b"f"), Said::Fault),
    (Asked::Out(b"x"), Said::Fault),
    (Asked::Err(b"x"), Said::Fault),
    (Asked::Start(1, 2, b"c"), Said::Fault),
    (Asked::Sys(b"c"), Said::Fault),
    (Asked::Read(b"f"), Said::Missing),
    (Asked::Start(2, 0, b"c"), Said::NoRoom),
    (Asked::Write(b"f", b""), Said::Done),
];

const FAULTS_INSIDE: [Row; 8] = [
    (Asked::Read(b"f"), Said::Fault),
    (Asked::Stamp(b"f"), Said::Fault),
    (Asked::Out(b"x"), Said::Fault),
    (Asked::Err(b"x"), Said::Fault),
    (Asked::Out(b"task.1: c\n"), Said::Fault),
    (Asked::Out(b"sys: c\n"), Said::Fault),
    (Asked::Read(b"f"), Said::Missing),
    (Asked::Out(b"task.2: c\n"), Said::NoRoom),
];

#[test]
fn faults_are_passed_on(rt: HostRuntime) -> Result<(), Fail> {
    assert!(rt; runs_dry(rt.alloc(), &FAULTS, &FAULTS_INSIDE)?);
    Ok(())
}
