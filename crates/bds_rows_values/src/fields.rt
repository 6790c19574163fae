//! Fields of files: written, read, and what is wrong with others.
use crate::made::{bytes, ends_shown};
use bds_value::sharing::map_of;
use bds_value::{
    ByteText, FieldFault, Input, Listed, Rising, Shared, Ty, Value, put_bool, put_count, put_i64,
    put_u8, put_u16, put_u32, put_u64, read_bool, read_count, read_i64, read_ty, read_u8, read_u16,
    read_u32, read_u64, read_value, same_ty, write_ty, write_value,
};
use std::alloc::Global;
use std::test::Fail;

const NUMBERS: [u8; 12] = [7, 1, 1, 2, 0, 0, 0, 1, 0, 0, 0, 3];

const LONG_NUMBERS: [u8; 16] = [
    0, 0, 0, 0, 0, 0, 1, 2, 255, 255, 255, 255, 255, 255, 255, 254,
];

fn put_numbers(out: &mut Vec<u8>) -> Result<(), Fail> {
    put_u8(out, 7)?;
    put_bool(out, true)?;
    put_u16(out, 258)?;
    put_u32(out, 1)?;
    put_count(out, 3)?;
    Ok(())
}

fn put_long_numbers(out: &mut Vec<u8>) -> Result<(), Fail> {
    put_u64(out, 258)?;
    put_i64(out, -2)?;
    Ok(())
}

#[test]
fn numbers_are_put(rt: HostRuntime) -> Result<(), Fail> {
    let mut out = Vec::new(rt.alloc());
    put_numbers(&mut out)?;
    assert_eq!(rt; out.as_slice(), NUMBERS.as_slice());
    Ok(())
}

#[test]
fn long_numbers_are_put(rt: HostRuntime) -> Result<(), Fail> {
    let mut out = Vec::new(rt.alloc());
    put_long_numbers(&mut out)?;
    assert_eq!(rt; out.as_slice(), LONG_NUMBERS.as_slice());
    Ok(())
}

fn input(bytes: ByteText) -> Input {
    Input { bytes, at: 0 }
}

fn are_numbers(input: &mut Input) -> Result<bool, Fail> {
    Ok(
        read_u8(input)? == 7
            && read_bool(input)?
            && read_u16(input)? == 258
            && read_u32(input)? == 1
            && read_count(input, 3)? == 3,
    )
}

fn are_long_numbers(input: &mut Input) -> Result<bool, Fail> {
    Ok(read_u64(input)? == 258 && read_i64(input)? == -2)
}

#[test]
fn numbers_are_read(rt: HostRuntime) -> Result<(), Fail> {
    let alloc = rt.alloc();
    assert!(rt; are_numbers(&mut input(bytes(alloc, &NUMBERS)?))?);
    assert!(rt; are_long_numbers(&mut input(bytes(alloc, &LONG_NUMBERS)?))?);
    Ok(())
}

fn map_of_numbers(alloc: Global) -> Result<Ty, Fail> {
    Ok(Ty::Map(Shared::of(alloc, Ty::Int)?))
}

fn written_ty(alloc: Global, ty: Ty) -> Result<ByteText, Fail> {
    let mut out = Listed::new(alloc);
    match write_ty(alloc, &mut out, &ty) {
        Ok(()) => Ok(out),
        Err(_) => bytes(alloc, b"no memory"),
    }
}

fn is_map_of_numbers(ty: Ty) -> bool {
    match ty {
        Ty::Map(of) => same_ty(of.get(), &Ty::Int),
        _ => false,
    }
}

fn reads_map_of_numbers(alloc: Global, input: &mut Input) -> Result<bool, Fail> {
    Ok(is_map_of_numbers(read_ty(alloc, input)?))
}

#[test]
fn a_type_is_a_field(rt: HostRuntime) -> Result<(), Fail> {
    let alloc = rt.alloc();
    let out = written_ty(alloc, map_of_numbers(alloc)?)?;
    assert_eq!(rt; out.as_slice(), [4, 1].as_slice());
    assert!(rt; reads_map_of_numbers(alloc, &mut input(out))?);
    Ok(())
}

fn written_map(alloc: Global) -> Result<ByteText, Fail> {
    let map = map_of(alloc, Ty::Int, Rising::new(alloc))?;
    let mut out = Listed::new(alloc);
    match write_value(alloc, &mut out, &map) {
        Ok(()) => Ok(out),
        Err(_) => bytes(alloc, b"no memory"),
    }
}

fn read_shown(alloc: Global, input: &mut Input) -> Result<ByteText, Fail> {
    ends_shown(alloc, read_value(alloc, input)?)
}

#[test]
fn a_value_is_a_field(rt: HostRuntime) -> Result<(), Fail> {
    let alloc = rt.alloc();
    let out = written_map(alloc)?;
    assert_eq!(rt; out.as_slice(), [4, 1, 0, 0, 0, 0].as_slice());
    let shown = read_shown(alloc, &mut input(out))?;
    assert_eq!(rt; shown.as_slice(), b"{}".as_slice());
    Ok(())
}

/// The first letter of what is wrong with the bytes of a value, and the numbers of the fault.
fn told(given: Result<Value, FieldFault>) -> (u8, u64, u64) {
    match given {
        Ok(_) => (b'-', 0, 0),
        Err(FieldFault::Short(at)) => (b's', at, 0),
        Err(FieldFault::BadTag(at, byte)) => (b't', at, byte as u64),
        Err(FieldFault::BadNumber(at, n)) => (b'n', at, n),
        Err(FieldFault::NotRising(at)) => (b'r', at, 0),
        Err(FieldFault::NoMemory) => (b'm', 0, 0),
    }
}

fn refusal(alloc: Global, given: &[u8]) -> Result<(u8, u64, u64), Fail> {
    let mut input = input(bytes(alloc, given)?);
    Ok(told(read_value(alloc, &mut input)))
}

const REFUSALS: [(&[u8], u8, u64, u64); 11] = [
    (&[], b's', 0, 0),
    (&[5], b't', 0, 5),
    (&[3, 6, 0], b't', 1, 6),
    (&[3, 5], b't', 1, 5),
    (&[0, 2], b't', 1, 2),
    (&[1, 0, 0, 0], b's', 4, 0),
    (&[2, 1, 0, 0, 1], b'n', 1, 16_777_217),
    (&[2, 0, 0, 0, 2, 97], b's', 6, 0),
    (&[3, 0, 0, 16, 0, 1], b'n', 2, 1_048_577),
    (&[3, 0, 0, 0, 0, 2, 1, 7], b't', 7, 7),
    (
        &[4, 0, 0, 0, 0, 2, 0, 0, 0, 1, 97, 1, 0, 0, 0, 1, 97],
        b'r',
        12,
        0,
    ),
];

#[test]
fn faults_name_their_places(rt: HostRuntime) -> Result<(), Fail> {
    let alloc = rt.alloc();
    for (given, letter, at, n) in &REFUSALS {
        assert_eq!(rt; refusal(alloc, given)?, (*letter, *at, *n));
    }
    Ok(())
}
