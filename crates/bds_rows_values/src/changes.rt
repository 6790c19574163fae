//! Changes of lists and maps.
use crate::made::{bytes, list_of_numbers, map, numbers, texts};
use crate::numbering::{number_at_list, number_at_map};
use bds_lib::{LibFault, change};
use bds_value::sharing::list_of;
use bds_value::{ByteText, Items, Listed, Ty, Value, text_of};
use std::alloc::Global;
use std::test::Fail;

/// Whether a change had the memory that it needed.
fn had_room(changed: Result<(), LibFault>) -> bool {
    !matches!(changed, Err(LibFault::NoMemory))
}

/// The text of a value behind a change, made or refused.
fn left_by(alloc: Global, what: u8, value: &mut Value, args: Items) -> Result<ByteText, Fail> {
    if !had_room(change(alloc, what, value, args)) {
        return bytes(alloc, b"no memory");
    }
    match text_of(alloc, value) {
        Ok(text) => Ok(text),
        Err(_) => bytes(alloc, b"no text"),
    }
}

/// The same of a value that ends here.
fn ends_changed(alloc: Global, what: u8, value: Value, args: Items) -> Result<ByteText, Fail> {
    let mut value = value;
    left_by(alloc, what, &mut value, args)
}

const CHANGES: [(&str, &[i64], &[i64], &[u8]); 14] = [
    ("add", &[1, 2], &[3], b"[1, 2, 3]"),
    ("add", &[], &[3], b"[3]"),
    ("add", &[3], &[3], b"[3, 3]"),
    ("add", &[1, 2], &[0, 3], b"[3, 1, 2]"),
    ("add", &[1, 2], &[2, 3], b"[1, 2, 3]"),
    ("add", &[1, 2], &[3, 3], b"[1, 2]"),
    ("add", &[1, 2], &[-1, 3], b"[1, 2]"),
    ("removeIdx", &[1, 2], &[0], b"[2]"),
    ("removeIdx", &[1, 2], &[2], b"[1, 2]"),
    ("removeIdx", &[1, 2], &[-1], b"[1, 2]"),
    ("remove", &[1, 2], &[2], b"[1]"),
    ("remove", &[1, 2], &[3], b"[1, 2]"),
    ("remove", &[2, 1, 2], &[2], b"[1, 2]"),
    ("remove", &[], &[2], b"[]"),
];

fn changed_by_numbers(
    alloc: Global,
    what: u8,
    value: Value,
    args: &[i64],
) -> Result<ByteText, Fail> {
    match numbers(alloc, args) {
        Ok(args) => ends_changed(alloc, what, value, args),
        Err(fault) => Err(fault),
    }
}

fn list_left(alloc: Global, name: &str, items: &[i64], args: &[i64]) -> Result<ByteText, Fail> {
    let what = number_at_list(alloc, Ty::Int, name, args.len())?;
    changed_by_numbers(alloc, what, list_of_numbers(alloc, items)?, args)
}

#[test]
fn lists_change(rt: HostRuntime) -> Result<(), Fail> {
    let alloc = rt.alloc();
    for (name, items, args, wanted) in &CHANGES {
        assert_eq!(rt; list_left(alloc, name, items, args)?.as_slice(), *wanted);
    }
    Ok(())
}

const LOSSES: [(&[&[u8]], &[u8], &[u8]); 4] = [
    (&[b"a", b"bc"], b"a", b"{ bc => 2 }"),
    (&[b"a", b"bc"], b"b", b"{ a => 1, bc => 2 }"),
    (&[b""], b"", b"{}"),
    (&[], b"", b"{}"),
];

fn changed_by_text(alloc: Global, what: u8, value: Value, arg: &[u8]) -> Result<ByteText, Fail> {
    match texts(alloc, &[arg]) {
        Ok(args) => ends_changed(alloc, what, value, args),
        Err(fault) => Err(fault),
    }
}

fn map_left(alloc: Global, keys: &[&[u8]], key: &[u8]) -> Result<ByteText, Fail> {
    let what = number_at_map(alloc, "remove", 1)?;
    changed_by_text(alloc, what, map(alloc, keys)?, key)
}

#[test]
fn maps_lose_keys(rt: HostRuntime) -> Result<(), Fail> {
    let alloc = rt.alloc();
    for (keys, key, wanted) in &LOSSES {
        assert_eq!(rt; map_left(alloc, keys, key)?.as_slice(), *wanted);
    }
    Ok(())
}

/// A list with as many items as a list may have.
fn full(alloc: Global) -> Result<Value, Fail> {
    let mut items = Listed::new(alloc);
    for _ in 0..1_048_576_u32 {
        items.push(Value::Bool(true))?;
    }
    Ok(list_of(alloc, Ty::Bool, items)?)
}

/// One item, which a full list doesn't take.
fn at_end(alloc: Global) -> Result<Items, Fail> {
    let mut items = Listed::new(alloc);
    items.push(Value::Bool(false))?;
    Ok(items)
}

/// A place past the end of a full list, and an item.
fn past_end(alloc: Global) -> Result<Items, Fail> {
    let mut items = Listed::new(alloc);
    items.push(Value::Int(1_048_577))?;
    items.push(Value::Bool(false))?;
    Ok(items)
}

fn is_too_long(given: Result<(), LibFault>) -> bool {
    matches!(given, Err(LibFault::TooLong(1_048_577)))
}

fn is_past_end(given: Result<(), LibFault>) -> bool {
    matches!(given, Err(LibFault::NoIndex(1_048_577, 1_048_576)))
}

fn refuses_item(alloc: Global, list: &mut Value) -> Result<bool, Fail> {
    Ok(is_too_long(change(alloc, 6, list, at_end(alloc)?)))
}

fn refuses_place(alloc: Global, list: &mut Value) -> Result<bool, Fail> {
    Ok(is_past_end(change(alloc, 7, list, past_end(alloc)?)))
}

fn ends_refusing(alloc: Global, list: Value) -> Result<bool, Fail> {
    let mut list = list;
    refuses_item(alloc, &mut list)
}

fn ends_refusing_place(alloc: Global, list: Value) -> Result<bool, Fail> {
    let mut list = list;
    refuses_place(alloc, &mut list)
}

#[test]
fn a_full_list_takes_no_more(rt: HostRuntime) -> Result<(), Fail> {
    let alloc = rt.alloc();
    assert!(rt; ends_refusing(alloc, full(alloc)?)?);
    assert!(rt; ends_refusing_place(alloc, full(alloc)?)?);
    Ok(())
}

#[test]
fn push_is_add(rt: HostRuntime) -> Result<(), Fail> {
    let alloc = rt.alloc();
    assert_eq!(rt; number_at_list(alloc, Ty::Int, "push", 1)?, 6);
    Ok(())
}
