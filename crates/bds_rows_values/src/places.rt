//! Places in values: what is put there, found there and missed.
use crate::made::{bytes, ends_shown, has_text, key_path, list_of_numbers};
use bds_value::sharing::map_of;
use bds_value::{ByteText, Listed, Path, Place, PutFault, Rising, Ty, Value, item, put_path};
use std::alloc::Global;
use std::test::Fail;

fn one(alloc: Global, place: Place) -> Result<Path, Fail> {
    let mut path = Listed::new(alloc);
    path.push(place)?;
    Ok(path)
}

/// What a place missed, or nothing.
#[derive(Clone, Copy, PartialEq, Eq)]
enum Missed {
    Nothing,
    Index(i64, u64),
    Key,
    TooLong(u64),
    NoMemory,
}

fn missed_by(fault: PutFault) -> Missed {
    match fault {
        PutFault::NoIndex(index, count) => Missed::Index(index, count),
        PutFault::NoKey(_) => Missed::Key,
        PutFault::TooLong(needed) => Missed::TooLong(needed),
        PutFault::NoMemory => Missed::NoMemory,
    }
}

fn missed_by_put(put: Result<(), PutFault>) -> Missed {
    match put {
        Ok(()) => Missed::Nothing,
        Err(fault) => missed_by(fault),
    }
}

fn missed_by_item(found: Result<Value, PutFault>) -> Missed {
    match found {
        Ok(_) => Missed::Nothing,
        Err(fault) => missed_by(fault),
    }
}

/// Puts a number at a path, which ends here.
fn put_number(alloc: Global, value: &mut Value, path: Path, n: i64) -> Missed {
    missed_by_put(put_path(alloc, value, &path, Value::Int(n)))
}

/// Puts keys in this order, each with its place as the value.
fn put_keys(alloc: Global, map: &mut Value, keys: &[&[u8]]) -> Result<bool, Fail> {
    let mut n = 0;
    for key in keys {
        if put_number(alloc, map, key_path(alloc, key)?, n) != Missed::Nothing {
            return Ok(false);
        }
        n = n.wrapping_add(1);
    }
    Ok(true)
}

/// A map with these keys, put in this order.
pub fn keyed(alloc: Global, keys: &[&[u8]]) -> Result<Value, Fail> {
    let mut map = map_of(alloc, Ty::Int, Rising::new(alloc))?;
    match put_keys(alloc, &mut map, keys) {
        Ok(true) => Ok(map),
        Ok(false) => Ok(Value::Bool(false)),
        Err(fault) => Err(fault),
    }
}

/// Whether a list of one item misses a path past its end, and stays as it is.
fn keeps_past(alloc: Global, list: &mut Value, path: Path) -> Result<bool, Fail> {
    if put_number(alloc, list, path, 5) != Missed::Index(1, 1) {
        return Ok(false);
    }
    has_text(alloc, list, b"[1]")
}

fn ends_keeping(alloc: Global, list: Value, path: Path) -> Result<bool, Fail> {
    let mut list = list;
    keeps_past(alloc, &mut list, path)
}

fn put_past(alloc: Global, list: Value) -> Result<bool, Fail> {
    match one(alloc, Place::Index(1)) {
        Ok(path) => ends_keeping(alloc, list, path),
        Err(fault) => Err(fault),
    }
}

/// What a path misses in a value, which both end here.
fn missed_in(alloc: Global, value: Value, path: Path) -> Missed {
    missed_by_item(item(alloc, &value, &path))
}

fn missed_at(alloc: Global, value: Value, place: Place) -> Result<Missed, Fail> {
    match one(alloc, place) {
        Ok(path) => Ok(missed_in(alloc, value, path)),
        Err(fault) => Err(fault),
    }
}

fn missed_index(alloc: Global, index: i64) -> Result<Missed, Fail> {
    missed_at(alloc, list_of_numbers(alloc, &[1])?, Place::Index(index))
}

fn missed_key(alloc: Global, path: Path) -> Result<Missed, Fail> {
    match keyed(alloc, &[b"a"]) {
        Ok(map) => Ok(missed_in(alloc, map, path)),
        Err(fault) => Err(fault),
    }
}

#[test]
fn a_place_past_the_end_changes_nothing(rt: HostRuntime) -> Result<(), Fail> {
    let alloc = rt.alloc();
    assert!(rt; put_past(alloc, list_of_numbers(alloc, &[1])?)?);
    Ok(())
}

#[test]
fn places_miss(rt: HostRuntime) -> Result<(), Fail> {
    let alloc = rt.alloc();
    assert!(rt; missed_index(alloc, 0)? == Missed::Nothing);
    assert!(rt; missed_index(alloc, 1)? == Missed::Index(1, 1));
    assert!(rt; missed_index(alloc, -1)? == Missed::Index(-1, 1));
    assert!(rt; missed_key(alloc, key_path(alloc, b"a")?)? == Missed::Nothing);
    assert!(rt; missed_key(alloc, key_path(alloc, b"c")?)? == Missed::Key);
    Ok(())
}

/// The text of the item at a path, which both end here.
fn item_shown(alloc: Global, value: Value, path: Path) -> Result<ByteText, Fail> {
    match item(alloc, &value, &path) {
        Ok(part) => ends_shown(alloc, part),
        Err(_) => bytes(alloc, b"no item"),
    }
}

fn first_shown(alloc: Global, list: Value) -> Result<ByteText, Fail> {
    match one(alloc, Place::Index(0)) {
        Ok(path) => item_shown(alloc, list, path),
        Err(fault) => Err(fault),
    }
}

#[test]
fn a_place_leads_to_an_item(rt: HostRuntime) -> Result<(), Fail> {
    let alloc = rt.alloc();
    let first = first_shown(alloc, list_of_numbers(alloc, &[1])?)?;
    assert_eq!(rt; first.as_slice(), b"1".as_slice());
    Ok(())
}
