//! Worked rows of logs: their bytes, and what is wrong with others.
ghost use Rattle.std.specs.Prelude.{◌≡◌, IfOk};
ghost use Rattle.std.specs.List.{All};
ghost use Rattle.bds_replay.specs.Log.{IsFieldJob, IsGiven};

use crate::rows::{Asked, Row, Said, are_replies, text};
use bds_host::{Replies, Reply};
use bds_replay::{Job, Log, LogFault, logs_are_read_back, read_log, write_log};
use bds_value::{ByteText, Listed, MAX_TICKS, NoMemory};
use std::alloc::Global;
use std::test::Fail;

/// The log of `run s.bds` with a script of 17 bytes, whose output was done.
const FIRST: [u8; 74] = [
    66, 68, 83, 76, 1, //
    0, //
    0, 0, 0, 0, 0, 0, 0, 5, b's', b'.', b'b', b'd', b's', //
    0, 0, 0, 4, //
    64, 0, 0, 0, 0, 0, 0, 0, //
    0, 0, 0, 0, 0, 0, 0, 0, //
    0, 0, 0, 0, 0, 0, 0, 2, //
    0, 0, 0, 0, 0, 0, 0, 0, 17, b'p', b'r', b'i', b'n', b't', b'l', b'n', b' ', b'1', b' ', b'+',
    b' ', b'2', b' ', b'*', b' ', b'3', //
    3,
];

/// The log of `run --cpus 1 --ticks 0 h` with two words, and each kind of reply.
const SECOND: [u8; 131] = [
    66, 68, 83, 76, 1, //
    0, //
    0, 0, 0, 0, 0, 0, 0, 1, b'h', //
    0, 0, 0, 1, //
    0, 0, 0, 0, 0, 0, 0, 0, //
    0, 0, 0, 0, 0, 0, 0, 2, //
    0, 0, 0, 0, 0, 0, 0, 2, b'-', b'n', //
    0, 0, 0, 0, 0, 0, 0, 0, //
    0, 0, 0, 0, 0, 0, 0, 9, //
    0, 0, 0, 0, 0, 0, 0, 0, 0, //
    1, //
    2, 1, 0, 0, 0, 0, 0, 0, 1, 0, 255, 255, 255, 255, 255, 255, 255, 254, //
    2, 0, 0, 0, 0, 0, 0, 0, 0, 0, 0, 0, 0, 0, 0, 0, 0, 0, //
    3, //
    4, 3, 0, 0, 0, 0, 0, 0, 0, 1, b'x', //
    5, //
    6, 0, 0, 1, 1, //
    7, 0, 1, 134, 160, 255,
];

const KINDS: [Row; 9] = [
    (Asked::Out(b""), Said::Bytes(b"")),
    (Asked::Out(b""), Said::Missing),
    (Asked::Out(b""), Said::Stamp(true, 256, -2)),
    (Asked::Out(b""), Said::Stamp(false, 0, 0)),
    (Asked::Out(b""), Said::Done),
    (Asked::Out(b""), Said::SysDone(3, b"x")),
    (Asked::Out(b""), Said::Started),
    (Asked::Out(b""), Said::Run(257)),
    (Asked::Out(b""), Said::Ended(100_000, 255)),
];

fn first_log(alloc: Global, path: ByteText, replies: Replies) -> Log
    ensures job { IsFieldJob result.job }
    ensures replies { result.replies ≡ replies }
{
    Log {
        job: Job {
            resume: false,
            path,
            cpus: 4,
            ticks: MAX_TICKS,
            words: Listed::new(alloc),
        },
        replies,
    }
}

/// The bytes of that log, which ends here.
fn write_first(alloc: Global, path: ByteText, replies: Replies) -> Result<ByteText, NoMemory>
    requires { All IsGiven replies }
{
    let log = first_log(alloc, path, replies);
    write_log(alloc, &log)
}

fn first_replies(alloc: Global, script: ByteText) -> Result<Replies, NoMemory>
    ensures { IfOk result (λ replies. All IsGiven replies) }
{
    let replies = vec![in alloc; Reply::Bytes(script), Reply::Done]?;
    Ok(Listed::from_vec(replies))
}

fn first_bytes(alloc: Global) -> Result<ByteText, NoMemory> {
    let replies = first_replies(alloc, text(alloc, b"println 1 + 2 * 3")?)?;
    match text(alloc, b"s.bds") {
        Ok(path) => write_first(alloc, path, replies),
        Err(NoMemory) => Err(NoMemory),
    }
}

#[test]
fn a_log_is_written(rt: HostRuntime) -> Result<(), Fail> {
    let bytes = first_bytes(rt.alloc())?;
    assert_eq!(rt; bytes.as_slice(), FIRST.as_slice());
    Ok(())
}

/// Whether a log is written as these bytes.
fn is_written(alloc: Global, log: &Log, bytes: &[u8]) -> bool
    requires job { IsFieldJob log.now.job }
    requires given { All IsGiven log.now.replies }
{
    match write_log(alloc, log) {
        Ok(written) => written.as_slice() == bytes,
        Err(NoMemory) => false,
    }
}

/// Whether a log that was read, and ends here, has these replies, and is written as the same bytes.
fn ends_same(alloc: Global, log: Log, replies: &[Row], bytes: &[u8]) -> bool
    requires job { IsFieldJob log.job }
    requires given { All IsGiven log.replies }
{
    are_replies(log.replies.as_slice(), replies) && is_written(alloc, &log, bytes)
}

/// Whether bytes are those of a log with these replies.
fn is_same(alloc: Global, bytes: &ByteText, replies: &[Row]) -> bool {
    logs_are_read_back();
    match read_log(alloc, bytes) {
        Ok(log) => ends_same(alloc, log, replies, bytes.as_slice()),
        Err(_) => false,
    }
}

const FIRST_ROWS: [Row; 2] = [
    (Asked::Read(b"s.bds"), Said::Bytes(b"println 1 + 2 * 3")),
    (Asked::Out(b"7\n"), Said::Done),
];

#[test]
fn what_is_read_is_written_so(rt: HostRuntime) -> Result<(), Fail> {
    let alloc = rt.alloc();
    let first = text(alloc, &FIRST)?;
    assert!(rt; is_same(alloc, &first, &FIRST_ROWS));
    let second = text(alloc, &SECOND)?;
    assert!(rt; is_same(alloc, &second, &KINDS));
    Ok(())
}

/// The processors and ticks of a job, how many words it has, and how long its path is.
fn numbers_of(log: Log) -> (u32, u64, usize, usize) {
    (
        log.job.cpus,
        log.job.ticks,
        log.job.words.as_slice().len(),
        log.job.path.as_slice().len(),
    )
}

fn job_of(alloc: Global, bytes: &ByteText) -> (u32, u64, usize, usize) {
    match read_log(alloc, bytes) {
        Ok(log) => numbers_of(log),
        Err(_) => (0, 0, 0, 0),
    }
}

/// The first letter of what is wrong with bytes, and the numbers of the fault.
fn told(given: Result<Log, LogFault>) -> (u8, u64, u64) {
    match given {
        Ok(_) => (b'-', 0, 0),
        Err(LogFault::Short(at)) => (b's', at, 0),
        Err(LogFault::BadTag(at, byte)) => (b't', at, byte as u64),
        Err(LogFault::BadNumber(at, n)) => (b'n', at, n),
        Err(LogFault::Extra(at)) => (b'e', at, 0),
        Err(LogFault::NoMemory) => (b'm', 0, 0),
    }
}

/// The byte that stands at a place behind changes.
fn byte_at(changes: &[(usize, u8)], place: usize, byte: u8) -> u8 {
    let mut last = byte;
    for change in changes {
        if change.0 == place {
            last = change.1;
        }
    }
    last
}

/// Bytes with some of them changed.
fn changed(alloc: Global, bytes: &[u8], changes: &[(usize, u8)]) -> Result<ByteText, NoMemory> {
    let mut out = Vec::new(alloc);
    for i in 0..bytes.len() {
        out.push(byte_at(changes, i, bytes[i]))?;
    }
    Ok(Listed::from_vec(out))
}

fn refusal(alloc: Global, changes: &[(usize, u8)]) -> Result<(u8, u64, u64), Fail> {
    let bytes = changed(alloc, &FIRST, changes)?;
    Ok(told(read_log(alloc, &bytes)))
}

const MAX_LONG: u64 = 72_057_594_037_927_936;

// each limit of the first log from both sides: what is within one is told where the bytes end
const LIMITS: [(&[(usize, u8)], u8, u64, u64); 26] = [
    (&[], b'-', 0, 0),
    // the mark
    (&[(0, 67)], b't', 0, 67),
    (&[(1, 0)], b't', 1, 0),
    (&[(2, 84)], b't', 2, 84),
    (&[(3, 67)], b't', 3, 67),
    (&[(4, 2)], b't', 4, 2),
    // run or resume
    (&[(5, 1)], b'-', 0, 0),
    (&[(5, 2)], b't', 5, 2),
    // the path has no limit
    (&[(6, 255)], b's', 74, 0),
    // processors
    (&[(22, 0)], b'n', 19, 0),
    (&[(22, 1)], b'-', 0, 0),
    (&[(21, 4), (22, 0)], b'-', 0, 0),
    (&[(21, 4), (22, 1)], b'n', 19, 1_025),
    // ticks
    (&[(23, 0)], b'-', 0, 0),
    (&[(30, 1)], b'n', 23, MAX_TICKS + 1),
    (&[(23, 63)], b'-', 0, 0),
    // words: their count, none behind a file, and their length
    (&[(36, 16)], b's', 74, 0),
    (&[(36, 16), (38, 1)], b'n', 31, 1_048_577),
    (&[(31, 1)], b'n', 31, MAX_LONG),
    (&[(5, 1), (38, 1)], b'n', 31, 1),
    (&[(38, 1), (43, 1), (46, 0)], b's', 74, 0),
    (&[(38, 1), (43, 1), (46, 1)], b'n', 39, 16_777_217),
    // replies
    (&[(46, 3)], b's', 74, 0),
    (&[(39, 255)], b's', 74, 0),
    (&[(73, 8)], b't', 73, 8),
    (&[(46, 1)], b'e', 73, 0),
];

#[test]
fn faults_name_their_places(rt: HostRuntime) -> Result<(), Fail> {
    let alloc = rt.alloc();
    for (changes, letter, at, n) in &LIMITS {
        assert_eq!(rt; refusal(alloc, changes)?, (*letter, *at, *n));
    }
    Ok(())
}

/// Whether bytes end within a field.
fn is_short(alloc: Global, bytes: &[u8]) -> Result<bool, NoMemory> {
    let front = text(alloc, bytes)?;
    Ok(told(read_log(alloc, &front)) == (b's', bytes.len() as u64, 0))
}

#[test]
fn no_beginning_of_a_log_is_one(rt: HostRuntime) -> Result<(), Fail> {
    let alloc = rt.alloc();
    for n in 0..FIRST.len() {
        assert!(rt; is_short(alloc, FIRST.split_at(n).0)?);
    }
    for n in 0..SECOND.len() {
        assert!(rt; is_short(alloc, SECOND.split_at(n).0)?);
    }
    Ok(())
}

// a reply by its tag is one, whether or not it answers the ask that it will be given
const STARTED: [Row; 2] = [
    (Asked::Read(b"s.bds"), Said::Bytes(b"println 1 + 2 * 3")),
    (Asked::Out(b"7\n"), Said::Started),
];

#[test]
fn a_reply_of_another_kind_is_read(rt: HostRuntime) -> Result<(), Fail> {
    let alloc = rt.alloc();
    let bytes = changed(alloc, &FIRST, &[(73, 5)])?;
    assert!(rt; is_same(alloc, &bytes, &STARTED));
    Ok(())
}

#[test]
fn a_job_is_read(rt: HostRuntime) -> Result<(), Fail> {
    let alloc = rt.alloc();
    let first = text(alloc, &FIRST)?;
    assert!(rt; job_of(alloc, &first) == (4, MAX_TICKS, 0, 5));
    let second = text(alloc, &SECOND)?;
    assert!(rt; job_of(alloc, &second) == (1, 0, 2, 1));
    Ok(())
}
