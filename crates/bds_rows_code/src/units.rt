//! The bytes of units.
use bds_code::{read_unit, write_unit};
use bds_value::{ByteText, FieldFault, Input, Listed};
use std::alloc::Global;
use std::process::Abort;
use std::test::Fail;

/// How a file begins: its mark, its version and a path.
const FRONT: [u8; 10] = [66, 68, 83, 67, 1, 0, 0, 0, 1, 104];

/// A file up to the end of its unit, whose one function prints 40 plus 2.
const FILE: [u8; 118] = [
    66, 68, 83, 67, 1, 0, 0, 0, 1, 104, 0, 0, 0, 1, 0, 0, 0, 1, 104, 0, 0, 0, 0, 0, 0, 0, 1, 0, 0,
    0, 0, 0, 0, 0, 0, 0, 0, 0, 0, 5, 0, 0, 0, 6, 1, 0, 0, 0, 0, 0, 0, 0, 40, 1, 0, 0, 0, 0, 0, 0,
    0, 2, 9, 16, 42, 36, 0, 0, 0, 0, 0, 0, 0, 0, 0, 0, 0, 1, 0, 0, 0, 0, 0, 0, 0, 1, 0, 0, 0, 0, 0,
    0, 0, 1, 0, 0, 0, 0, 0, 0, 0, 1, 0, 0, 0, 0, 0, 0, 0, 1, 0, 0, 0, 0, 0, 0, 0, 1,
];

/// What follows in the file.
const REST: [u8; 59] = [
    0, 0, 0, 1, 0, 0, 0, 0, 0, 0, 0, 0, 0, 0, 0, 0, 1, 0, 0, 0, 0, 0, 0, 0, 2, 0, 0, 0, 0, 0, 0, 0,
    2, 1, 0, 0, 0, 0, 0, 0, 0, 40, 1, 0, 0, 0, 0, 0, 0, 0, 2, 0, 0, 0, 0, 0, 0, 0, 0,
];

/// No files, a global bool, and a function with the parameters int, list of texts and map of ints
/// and a local list of bools, which gives an int; its code begins behind it.
pub const BEFORE: [u8; 37] = [
    0, 0, 0, 0, 0, 0, 0, 1, 0, 0, 0, 0, 1, 0, 0, 0, 0, 0, 0, 0, 3, 1, 3, 2, 4, 1, 0, 0, 0, 1, 3, 0,
    1, 0, 0, 0, 1,
];

pub fn input(alloc: Global, at: u64, first: &[u8], rest: &[u8]) -> Result<Input, Fail> {
    let mut bytes = Vec::from_slice(alloc, first)?;
    bytes.extend_from_slice(rest)?;
    let bytes = Listed::from_vec(bytes);
    Ok(Input { bytes, at })
}

/// What is read as a unit, written behind `front`.
fn written(alloc: Global, front: &[u8], input: &mut Input) -> Result<ByteText, Fail> {
    let unit = read_unit(alloc, input)?;
    let mut out = Listed::from_vec(Vec::from_slice(alloc, front)?);
    write_unit(alloc, &mut out, &unit)?;
    Ok(out)
}

#[test]
fn a_unit_is_read_and_written(rt: HostRuntime) -> Result<(), Fail> {
    let alloc = rt.alloc();
    let mut input = input(alloc, 10, &FILE, &REST)?;
    let out = written(alloc, &FRONT, &mut input)?;
    assert_eq!(rt; out.as_slice(), FILE.as_slice());
    assert_eq!(rt; input.at, 118);
    Ok(())
}

/// The place of the fault of a unit, and its kind: 0 short, 1 tag, 2 number, 3 not rising.
fn fault(alloc: Global, at: u64, first: &[u8], rest: &[u8]) -> Result<(u64, u8), Fail> {
    let mut input = input(alloc, at, first, rest)?;
    match read_unit(alloc, &mut input) {
        Err(FieldFault::Short(at)) => Ok((at, 0)),
        Err(FieldFault::BadTag(at, _)) => Ok((at, 1)),
        Err(FieldFault::BadNumber(at, _)) => Ok((at, 2)),
        Err(FieldFault::NotRising(at)) => Ok((at, 3)),
        _ => Ok((0, 4)),
    }
}

/// How many bytes of the unit before stand first, what follows, and the fault.
const FAULTS: [(usize, &[u8], u64, u8); 5] = [
    (20, &[], 20, 0),
    (37, &[55], 37, 1),
    (37, &[31, 2], 38, 1),
    (33, &[1, 0, 0, 1], 33, 2),
    (
        37,
        &[34, 0, 0, 0, 2, 0, 0, 0, 3, 0, 0, 0, 0, 0, 0, 0, 3],
        50,
        3,
    ),
];

#[test]
fn bytes_are_no_unit(rt: HostRuntime) -> Result<(), Fail> {
    for (first, rest, at, kind) in &FAULTS {
        let found = fault(rt.alloc(), 0, &BEFORE[..*first], rest)?;
        assert_eq!(rt; found, (*at, *kind));
    }
    Ok(())
}

#[test]
fn a_file_ends_within_its_unit(rt: HostRuntime) -> Result<(), Fail> {
    for count in 10..118 {
        let found = fault(rt.alloc(), 10, &FILE[..count], &[])?;
        assert_eq!(rt; found, (count as u64, 0));
    }
    let found = fault(rt.alloc(), 10, &FILE[..62], &[55])?;
    assert_eq!(rt; found, (62, 1));
    Ok(())
}
