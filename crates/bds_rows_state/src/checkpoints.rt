//! A state of a unit that prints a sum, and what is wrong with other bytes.
use bds_ckpt::{LoadFault, load, write};
use bds_state::State;
use bds_value::{ByteText, Listed, NoMemory};
use byteorder::{BigEndian, ByteOrder};
use std::alloc::Global;
use std::test::Fail;

/// The script's path is `h`, and its unit prints 40 plus 2: it pushes the numbers, adds, shows and prints,
/// and returns. One thread stands before the addition, and there is no task and no rule.
pub(crate) const SAVED: [u8; 177] = [
    0x42, 0x44, 0x53, 0x43, 1, // how a file begins
    0, 0, 0, 1, 0x68, // the path
    0, 0, 0, 1, 0, 0, 0, 1, 0x68, 0, 0, 0, 0, // files and globals
    0, 0, 0, 1, 0, 0, 0, 0, 0, 0, 0, 0, 0, 0, 0, 0, 5, // a function up to its result
    0, 0, 0, 6, 1, 0, 0, 0, 0, 0, 0, 0, 40, 1, 0, 0, 0, 0, 0, 0, 0, 2, 9, 0x10, 0x2a, 0x24, // its code
    0, 0, 0, 0, // its labels
    0, 0, 0, 0, 0, 0, 0, 1, 0, 0, 0, 0, 0, 0, 0, 1, 0, 0, 0, 0, 0, 0, 0, 1, // its lines
    0, 0, 0, 0, 0, 0, 0, 1, 0, 0, 0, 0, 0, 0, 0, 1, 0, 0, 0, 0, 0, 0, 0, 1, //
    0, 0, 0, 1, 0, 0, 0, 0, 0, 0, 0, 0, 0, 0, 0, 0, 1, // a thread with a frame
    0, 0, 0, 0, 0, 0, 0, 2, 0, 0, 0, 0, 0, 0, 0, 2, // where it stands, no slots, two operands
    1, 0, 0, 0, 0, 0, 0, 0, 40, 1, 0, 0, 0, 0, 0, 0, 0, 2, 0, 0, 0, 0, 0, 0, 0, 0, //
];

/// What stands behind the unit of another file: three threads, two tasks and a rule.
pub(crate) const BUSY: [u8; 226] = [
    0, 0, 0, 3, 0, 0, 0, 0, 1, 0, 0, 0, 2, 0, 0, 0, 0, 1, 1, 0, 0, 0, 1, 0, 0, 0, 0, 0, 0, 0, 0, // one waits for task 1 and thread 1
    0, 0, 0, 0, 2, 0, 0, 0, 0, 0, 0, 0, 0, // one has ended
    0, 0, 0, 1, 0, 0, 0, 0, 0, 0, 0, 0, 1, 0, 0, 0, 0, 0, 0, 0, 2, 0, 0, 0, 0, 0, 0, 0, 2, // one stands before the addition
    1, 0, 0, 0, 0, 0, 0, 0, 40, 1, 0, 0, 0, 0, 0, 0, 0, 2, // its operands
    0, 0, 0, 2, 0, 0, 0, 0, 0, 0, 0, 1, 0x61, 0, 0, 0, 0, 0, 0, 0, 1, 0, 0, 0, 1, 0x6f, 0, 0, 0, 0, // a task that makes a file
    0, 0, 0, 1, 0, 0, 0, 0, 2, 0, 0, 0, 1, 0, 0, 0, 0, 2, 1, // it ended badly at its second attempt of three
    0, 0, 0, 2, 0, 0, 0, 1, 0x62, 0, 0, 0, 0, 0, 0, 0, 0, 0, 0, 0, 1, 0, 0, 0, 1, 0x6f, // a task that takes it
    0, 0, 0, 3, 1, 0, 0, 0, 0, 0, 0, 0, 0, 0, 0, 0, 1, 0, 0, 0, 1, 3, 0, 0, 0, 1, // it needs the other, and was cancelled
    0, 0, 0, 1, 0, 0, 0, 1, 0, 0, 0, 1, 0x72, 0, 0, 0, 0, 0, 0, 0, 1, 1, 0, 0, 0, 0, 0, 0, 0, 0, 0,
    0, 0, 0, // a rule
];

/// The first bytes of the file, with others behind them.
pub(crate) fn beginning(alloc: Global, end: usize, behind: &[u8]) -> Result<Vec<u8>, NoMemory> {
    let mut bytes = Vec::from_slice(alloc, &SAVED[..end.min(SAVED.len())])?;
    bytes.extend_from_slice(behind)?;
    Ok(bytes)
}

/// The file with another byte at a place.
pub(crate) fn with_byte(alloc: Global, at: usize, byte: u8) -> Result<Vec<u8>, NoMemory> {
    let mut bytes = Vec::from_slice(alloc, &SAVED)?;
    if let Some(there) = bytes.get_mut(at) {
        *there = byte;
    }
    Ok(bytes)
}

/// What is said of bytes: a kind with its numbers, where 0 is a state whose bytes they are.
pub(crate) fn told(alloc: Global, bytes: ByteText) -> (u8, u64, u64) {
    match load(alloc, bytes) {
        Ok(_) => (0, 0, 0),
        Err(LoadFault::Short(at)) => (1, at, 0),
        Err(LoadFault::BadTag(at, byte)) => (2, at, byte as u64),
        Err(LoadFault::BadNumber(at, n)) => (3, at, n),
        Err(LoadFault::NotRising(at)) => (4, at, 0),
        Err(LoadFault::Extra(at)) => (5, at, 0),
        Err(LoadFault::Unverified { function, at }) => (6, function as u64, at as u64),
        Err(LoadFault::BadThread(n)) => (7, n as u64, 0),
        Err(LoadFault::BadFrame(n, i)) => (8, n as u64, i as u64),
        Err(LoadFault::BadTask(n)) => (9, n as u64, 0),
        Err(LoadFault::BadRule(n)) => (10, n as u64, 0),
        Err(LoadFault::NoMemory) => (11, 0, 0),
        Err(LoadFault::BadSum(at)) => (12, at, 0),
    }
}

/// So many bytes of the file, others in the place of the next ones, and the rest.
fn changed(alloc: Global, keep: usize, put: &[u8], out: usize) -> Result<Vec<u8>, NoMemory> {
    let mut bytes = beginning(alloc, keep, put)?;
    if let Some(rest) = SAVED.get(keep.saturating_add(out)..) {
        bytes.extend_from_slice(rest)?;
    }
    Ok(bytes)
}

/// What is said of the file with such a change.
fn said(alloc: Global, keep: usize, put: &[u8], out: usize) -> Result<(u8, u64, u64), NoMemory> {
    let bytes = changed(alloc, keep, put, out)?;
    Ok(told(alloc, Listed::from_vec(bytes)))
}

/// Each beginning of the file is too short, and its length is told.
fn beginnings_are_short(alloc: Global) -> Result<bool, NoMemory> {
    for end in 0..177usize {
        if said(alloc, end, &[], 177)? != (1, end as u64, 0) {
            return Ok(false);
        }
    }
    Ok(true)
}

/// A change, by the bytes that stay before it, those that are put there and how many go; and what is said.
const DAMAGE: [(&str, usize, &[u8], usize, (u8, u64, u64)); 21] = [
    ("none", 177, &[], 0, (0, 0, 0)),
    ("a byte 00 behind its end", 177, &[0], 0, (5, 177, 0)),
    ("byte 0 is 43", 0, &[0x43], 1, (2, 0, 67)),
    ("byte 4 is 00", 4, &[0], 1, (2, 4, 0)),
    ("byte 4 is 02", 4, &[2], 1, (1, 177, 0)),
    ("byte 4 is 03", 4, &[3], 1, (2, 4, 3)),
    ("byte 4 is ff", 4, &[0xff], 1, (2, 4, 255)),
    (
        "bytes 5 to 8 are 01000001",
        5,
        &[1, 0, 0, 1],
        4,
        (3, 5, 16_777_217),
    ),
    ("byte 62 is 37", 62, &[0x37], 1, (2, 62, 55)),
    ("byte 62 is 0f", 62, &[0x0f], 1, (6, 0, 2)),
    ("byte 65 is 08", 65, &[8], 1, (6, 0, 5)),
    ("byte 121 is 00", 121, &[0], 1, (5, 130, 0)),
    (
        "twelve bytes 00 behind byte 117",
        118,
        &[0; 12],
        59,
        (7, 0, 0),
    ),
    ("byte 125 is 01", 125, &[1], 1, (7, 0, 0)),
    ("byte 126 is 02", 126, &[2], 1, (7, 0, 0)),
    ("byte 126 is 03", 126, &[3], 1, (2, 126, 3)),
    ("byte 138 is 01", 138, &[1], 1, (8, 0, 0)),
    ("byte 142 is 03", 142, &[3], 1, (8, 0, 0)),
    ("byte 142 is 06", 142, &[6], 1, (8, 0, 0)),
    ("the last operand is true", 160, &[0, 1], 9, (8, 0, 0)),
    ("without its last byte", 176, &[], 1, (1, 176, 0)),
];

#[test]
fn damage_of_a_small_state_is_told(rt: HostRuntime) -> Result<(), Fail> {
    let short = beginnings_are_short(rt.alloc())?;
    assert!(rt; short);
    for (_, keep, put, out, wanted) in &DAMAGE {
        let found = said(rt.alloc(), *keep, put, *out)?;
        assert_eq!(rt; found, *wanted);
    }
    Ok(())
}

/// Places of the other file, a byte there, and what is said.
const OTHER_DAMAGE: [(usize, u8, (u8, u64, u64)); 16] = [
    (118, 0, (0, 0, 0)),
    (135, 3, (7, 0, 0)),
    (140, 3, (7, 0, 0)),
    (152, 1, (7, 1, 0)),
    (165, 2, (7, 2, 0)),
    (182, 3, (8, 2, 0)),
    (216, 3, (9, 1, 0)),
    (242, 0, (9, 1, 0)),
    (251, 3, (9, 1, 0)),
    (243, 1, (9, 2, 0)),
    (257, 0, (9, 2, 0)),
    (304, 2, (9, 2, 0)),
    (309, 2, (9, 2, 0)),
    (288, 2, (2, 288, 2)),
    (330, 0, (10, 1, 0)),
    (335, 1, (0, 0, 0)),
];

/// What is said of the other file with a byte at a place.
fn said_of_other(alloc: Global, at: usize, byte: u8) -> Result<(u8, u64, u64), NoMemory> {
    let mut bytes = beginning(alloc, 118, &BUSY)?;
    if let Some(there) = bytes.get_mut(at) {
        *there = byte;
    }
    Ok(told(alloc, Listed::from_vec(bytes)))
}

#[test]
fn threads_tasks_and_rules_are_judged(rt: HostRuntime) -> Result<(), Fail> {
    for (at, byte, wanted) in &OTHER_DAMAGE {
        let found = said_of_other(rt.alloc(), *at, *byte)?;
        assert_eq!(rt; found, *wanted);
    }
    Ok(())
}

/// Whether bytes are refused, or are those of the state that is loaded.
fn are_kept(alloc: Global, bytes: Vec<u8>) -> Result<bool, NoMemory> {
    let same = Vec::from_slice(alloc, bytes.as_slice())?;
    match load(alloc, Listed::from_vec(bytes)) {
        Ok(state) => is_written(alloc, &state, same.as_slice()),
        Err(LoadFault::NoMemory) => Err(NoMemory),
        Err(_) => Ok(true),
    }
}

/// Whether a state is written as these bytes behind its version, with a trailer behind them.
fn is_written(alloc: Global, state: &State, bytes: &[u8]) -> Result<bool, NoMemory> {
    let written = write(alloc, state)?;
    Ok(written.as_slice().get(5..bytes.len()) == bytes.get(5..))
}

/// Whether the file is kept so with each other byte at a place.
fn each_byte_is_kept(alloc: Global, at: usize) -> Result<bool, NoMemory> {
    for byte in 0..=255u8 {
        if !are_kept(alloc, with_byte(alloc, at, byte)?)? {
            return Ok(false);
        }
    }
    Ok(true)
}

#[test]
fn each_byte_counts(rt: HostRuntime) -> Result<(), Fail> {
    for at in 0..177usize {
        let kept = each_byte_is_kept(rt.alloc(), at)?;
        assert!(rt; kept);
    }
    Ok(())
}

/// A number of 32 bits at a place of the file that is written, as another library reads it.
fn number_at(alloc: Global, at: usize) -> Result<Option<u32>, NoMemory> {
    match load(alloc, Listed::from_vec(beginning(alloc, 177, &[])?)) {
        Ok(state) => number_in(alloc, &state, at),
        Err(_) => Ok(None),
    }
}

fn number_in(alloc: Global, state: &State, at: usize) -> Result<Option<u32>, NoMemory> {
    let written = write(alloc, state)?;
    match written.as_slice().get(at..) {
        Some(rest) if rest.len() >= 4 => Ok(Some(BigEndian::read_u32(rest))),
        _ => Ok(None),
    }
}

/// Places of counts and numbers, and what stands there: the length of the path, the instructions, a number of the code and of the thread, the
/// place of the frame, its operands, tasks and rules.
const NUMBERS: [(usize, u32); 8] = [
    (5, 1),
    (40, 6),
    (49, 40),
    (118, 1),
    (139, 2),
    (147, 2),
    (169, 0),
    (173, 0),
];

#[test]
fn numbers_are_big_endian(rt: HostRuntime) -> Result<(), Fail> {
    for (at, wanted) in &NUMBERS {
        let found = number_at(rt.alloc(), *at)?;
        assert_eq!(rt; found, Some(*wanted));
    }
    Ok(())
}
