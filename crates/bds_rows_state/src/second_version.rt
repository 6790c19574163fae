//! The same state in a file of version 2, which ends with the SHA-256 of all bytes before it.
use crate::checkpoints::{beginning, told, with_byte};
use bds_ckpt::{load, write};
use bds_value::{ByteText, Listed, NoMemory};
use std::alloc::Global;
use std::test::Fail;

/// The trailer, as another program makes it.
const SUM: [u8; 32] = [
    0xdb, 0x0f, 0xb7, 0x6c, 0xa9, 0xce, 0xcb, 0x3e, 0x87, 0x02, 0x76, 0x69, 0xcd, 0x19, 0xda, 0xdc,
    0x2a, 0xf9, 0x0c, 0x23, 0x04, 0x8c, 0xea, 0x37, 0xa0, 0x2c, 0x54, 0xbb, 0x05, 0x73, 0x2e, 0x78,
];

/// The trailer of the file with 3 at byte 142: the frame stands where other operands are asked for.
const OTHER_SUM: [u8; 32] = [
    0xf8, 0x97, 0x16, 0xeb, 0x27, 0x14, 0xb8, 0xbe, 0x3c, 0xa4, 0xd3, 0x23, 0x29, 0xbc, 0x69, 0x0f,
    0x53, 0xd0, 0x63, 0x0a, 0xe7, 0x60, 0xf0, 0xec, 0x95, 0x17, 0x74, 0xf2, 0x61, 0x8d, 0x16, 0x53,
];

/// How many bytes the file has.
const SIZE: usize = 209;

/// The file of version 2 up to an end, with another byte at a place.
fn changed(alloc: Global, at: usize, byte: u8, end: usize) -> Result<Vec<u8>, NoMemory> {
    let mut bytes = with_byte(alloc, 4, 2)?;
    bytes.extend_from_slice(&SUM)?;
    if let Some(there) = bytes.get_mut(at) {
        *there = byte;
    }
    bytes.truncate(end);
    Ok(bytes)
}

/// What is said of it with further bytes behind.
fn said(
    alloc: Global,
    at: usize,
    byte: u8,
    end: usize,
    behind: &[u8],
) -> Result<(u8, u64, u64), NoMemory> {
    let mut bytes = changed(alloc, at, byte, end)?;
    bytes.extend_from_slice(behind)?;
    Ok(told(alloc, Listed::from_vec(bytes)))
}

/// A place, the byte there, how many bytes stay, others behind them, and what is said: a fault of a field,
/// then bytes behind the last one, then the trailer, and only then what is judged.
const DAMAGE: [(usize, u8, usize, &[u8], (u8, u64, u64)); 17] = [
    (4, 2, SIZE, &[], (0, 0, 0)),
    (4, 2, 208, &[], (1, 208, 0)),
    (4, 2, 177, &[], (1, 177, 0)),
    (4, 2, SIZE, &[0], (5, SIZE as u64, 0)),
    (208, 0, SIZE, &[], (12, 177, 0)),
    (208, 0, SIZE, &[0], (5, SIZE as u64, 0)),
    (177, 0, SIZE, &[], (12, 177, 0)),
    (0, 0x43, SIZE, &[], (2, 0, 67)),
    (4, 0, SIZE, &[], (2, 4, 0)),
    (4, 1, SIZE, &[], (5, 177, 0)),
    (4, 3, SIZE, &[], (2, 4, 3)),
    (4, 255, SIZE, &[], (2, 4, 255)),
    (9, 0x69, SIZE, &[], (12, 177, 0)),
    (62, 0x37, SIZE, &[], (2, 62, 55)),
    (62, 0x0f, SIZE, &[], (12, 177, 0)),
    (142, 3, SIZE, &[], (12, 177, 0)),
    (142, 3, 177, &OTHER_SUM, (8, 0, 0)),
];

#[test]
fn damage_is_told(rt: HostRuntime) -> Result<(), Fail> {
    for (at, byte, end, behind, wanted) in &DAMAGE {
        let found = said(rt.alloc(), *at, *byte, *end, *behind)?;
        assert_eq!(rt; found, *wanted);
    }
    Ok(())
}

/// What is written of the state whose bytes these are.
fn rewritten(alloc: Global, bytes: Vec<u8>) -> Result<Option<ByteText>, NoMemory> {
    match load(alloc, Listed::from_vec(bytes)) {
        Ok(state) => Ok(Some(write(alloc, &state)?)),
        Err(_) => Ok(None),
    }
}

/// Whether the state whose bytes these are is written as the file of version 2.
fn is_written_so(alloc: Global, bytes: Vec<u8>) -> Result<bool, NoMemory> {
    let wanted = changed(alloc, 4, 2, SIZE)?;
    match rewritten(alloc, bytes)? {
        Some(written) => Ok(written.as_slice() == wanted.as_slice()),
        None => Ok(false),
    }
}

#[test]
fn both_versions_hold_one_state(rt: HostRuntime) -> Result<(), Fail> {
    let alloc = rt.alloc();
    let first = is_written_so(alloc, beginning(alloc, 177, &[])?)?;
    assert!(rt; first);
    let second = is_written_so(alloc, changed(alloc, 4, 2, SIZE)?)?;
    assert!(rt; second);
    Ok(())
}

/// Each beginning of the file is too short, and its length is told.
fn beginnings_are_short(alloc: Global) -> Result<bool, NoMemory> {
    for end in 0..SIZE {
        if said(alloc, 4, 2, end, &[])? != (1, end as u64, 0) {
            return Ok(false);
        }
    }
    Ok(true)
}

#[test]
fn each_cut_is_refused(rt: HostRuntime) -> Result<(), Fail> {
    let short = beginnings_are_short(rt.alloc())?;
    assert!(rt; short);
    Ok(())
}

/// Whether a file is refused for a field, for bytes behind it, or for its trailer.
fn is_refused(kind: u8) -> bool {
    kind == 12 || (kind >= 1 && kind <= 5)
}

/// Whether each byte at a place but the one that stands there gives a file that is refused so.
fn others_are_refused(alloc: Global, at: usize, there: u8) -> Result<bool, NoMemory> {
    for byte in 0..=255u8 {
        let (kind, _, _) = said(alloc, at, byte, SIZE, &[])?;
        if is_refused(kind) == (byte == there) {
            return Ok(false);
        }
    }
    Ok(true)
}

#[test]
fn each_change_of_a_byte_is_refused(rt: HostRuntime) -> Result<(), Fail> {
    let alloc = rt.alloc();
    let file = changed(alloc, 4, 2, SIZE)?;
    for at in 0..file.len() {
        let refused = others_are_refused(alloc, at, file[at])?;
        assert!(rt; refused);
    }
    Ok(())
}
