//! Values, their texts, operators and methods by name.
use crate::made::{bytes, ends_shown, has_text, list_of_numbers, text};
use crate::places::keyed;
use bds_value::sharing::list_of;
use bds_value::{
    At, ByteText, Listed, Method, Numbers, Op, OpFault, Shared, Stamp, Ty, Value, binary, copy,
    default_of, piece_of, signature,
};
use std::alloc::Global;
use std::test::Fail;

fn has_piece(alloc: Global, value: &Value, piece: &[u8]) -> Result<bool, Fail> {
    Ok(piece_of(alloc, value)?.as_slice() == piece)
}

/// The same as `has_text` of a value that ends here.
fn ends_with_text(alloc: Global, value: Value, text: &[u8]) -> Result<bool, Fail> {
    has_text(alloc, &value, text)
}

fn copy_has_text(alloc: Global, value: &Value, text: &[u8]) -> Result<bool, Fail> {
    ends_with_text(alloc, copy(alloc, value)?, text)
}

fn has_texts(alloc: Global, value: &Value, text: &[u8], piece: &[u8]) -> Result<bool, Fail> {
    Ok(
        has_text(alloc, value, text)?
            && has_piece(alloc, value, piece)?
            && copy_has_text(alloc, value, text)?,
    )
}

/// Whether a value, which ends here, has this text, also as a copy, and this text in another.
fn shows(alloc: Global, value: Value, text: &[u8], piece: &[u8]) -> Result<bool, Fail> {
    has_texts(alloc, &value, text, piece)
}

const NUMBER_LISTS: [(&[i64], &[u8], &[u8]); 4] = [
    (&[], b"[]", b""),
    (&[1, 2], b"[1, 2]", b"1 2"),
    (
        &[i64::MIN],
        b"[-9223372036854775808]",
        b"-9223372036854775808",
    ),
    (
        &[i64::MAX, -1],
        b"[9223372036854775807, -1]",
        b"9223372036854775807 -1",
    ),
];

const MAPS: [(&[&[u8]], &[u8]); 3] = [
    (&[], b"{}"),
    (&[b"b", b"a", b"b"], b"{ a => 1, b => 2 }"),
    (&[b"", b"ab", b"a"], b"{  => 0, a => 2, ab => 1 }"),
];

#[test]
fn lists_show_their_items(rt: HostRuntime) -> Result<(), Fail> {
    let alloc = rt.alloc();
    for (items, text, piece) in &NUMBER_LISTS {
        assert!(rt; shows(alloc, list_of_numbers(alloc, items)?, text, piece)?);
    }
    Ok(())
}

#[test]
fn maps_show_their_pairs(rt: HostRuntime) -> Result<(), Fail> {
    let alloc = rt.alloc();
    for (keys, text) in &MAPS {
        assert!(rt; shows(alloc, keyed(alloc, keys)?, text, text)?);
    }
    Ok(())
}

fn with_list(alloc: Global, item: Value) -> Result<Value, Fail> {
    let mut items = Listed::new(alloc);
    items.push(item)?;
    items.push(list_of(alloc, Ty::Int, Listed::new(alloc))?)?;
    Ok(list_of(alloc, Ty::List(Shared::of(alloc, Ty::Int)?), items)?)
}

#[test]
fn parts_show_their_texts(rt: HostRuntime) -> Result<(), Fail> {
    let alloc = rt.alloc();
    let lists = with_list(alloc, list_of_numbers(alloc, &[1])?)?;
    assert!(rt; shows(alloc, lists, b"[[1], []]", b"[1] []")?);
    assert!(rt; shows(alloc, Value::Int(1), b"1", b"1")?);
    assert!(rt; shows(alloc, Value::Bool(true), b"true", b"true")?);
    assert!(rt; shows(alloc, text(alloc, b"a b")?, b"a b", b"a b")?);
    Ok(())
}

/// The text of a result, or of what is wrong.
fn result_shown(alloc: Global, given: Result<Value, OpFault>) -> Result<ByteText, Fail> {
    match given {
        Ok(value) => ends_shown(alloc, value),
        Err(OpFault::ZeroDivisor) => bytes(alloc, b"zero divisor"),
        Err(_) => bytes(alloc, b"no result"),
    }
}

/// What an operator gives at operands that end here.
fn operated(alloc: Global, op: Op, left: Value, right: Value) -> Result<ByteText, Fail> {
    result_shown(alloc, binary(alloc, op, &left, &right))
}

const NUMBERS: [(Op, i64, i64, &[u8]); 11] = [
    (Op::Add, i64::MIN, -1, b"9223372036854775807"),
    (Op::Sub, 7, -2, b"9"),
    (Op::Mul, i64::MIN, -2, b"0"),
    (Op::Div, i64::MIN, -1, b"-9223372036854775808"),
    (Op::Rem, i64::MIN, -1, b"0"),
    (Op::Div, 7, -2, b"-3"),
    (Op::Rem, 7, -2, b"1"),
    (Op::Rem, -2, 7, b"-2"),
    (Op::Less, -2, 7, b"true"),
    (Op::GreaterEqual, -2, 7, b"false"),
    (Op::Div, 1, 0, b"zero divisor"),
];

const TEXTS: [(Op, &[u8], &[u8], &[u8]); 4] = [
    (Op::Less, b"a", b"ab", b"true"),
    (Op::Greater, b"Z", b"a", b"false"),
    (Op::Equal, b"a", b"a", b"true"),
    (Op::Concat, b"a", b"b", b"ab"),
];

#[test]
fn operators_take_numbers(rt: HostRuntime) -> Result<(), Fail> {
    let alloc = rt.alloc();
    for (op, a, b, wanted) in &NUMBERS {
        let given = operated(alloc, *op, Value::Int(*a), Value::Int(*b))?;
        assert_eq!(rt; given.as_slice(), *wanted);
    }
    Ok(())
}

fn with_text(alloc: Global, op: Op, left: Value, right: &[u8]) -> Result<ByteText, Fail> {
    match text(alloc, right) {
        Ok(right) => operated(alloc, op, left, right),
        Err(fault) => Err(fault),
    }
}

#[test]
fn operators_take_texts(rt: HostRuntime) -> Result<(), Fail> {
    let alloc = rt.alloc();
    for (op, a, b, wanted) in &TEXTS {
        let given = with_text(alloc, *op, text(alloc, a)?, b)?;
        assert_eq!(rt; given.as_slice(), *wanted);
    }
    Ok(())
}

fn with_itself(alloc: Global, op: Op, value: Value) -> Result<ByteText, Fail> {
    result_shown(alloc, binary(alloc, op, &value, &value))
}

#[test]
fn operators_take_lists(rt: HostRuntime) -> Result<(), Fail> {
    let alloc = rt.alloc();
    let added = operated(
        alloc,
        Op::ListAdd,
        list_of_numbers(alloc, &[1])?,
        Value::Int(2),
    )?;
    assert_eq!(rt; added.as_slice(), b"[1, 2]".as_slice());
    let joined = with_itself(alloc, Op::ListCat, list_of_numbers(alloc, &[1])?)?;
    assert_eq!(rt; joined.as_slice(), b"[1, 1]".as_slice());
    Ok(())
}

fn first_map(alloc: Global) -> Result<Value, Fail> {
    let ty = Ty::Map(Shared::of(alloc, Ty::Int)?);
    Ok(default_of(alloc, &ty)?)
}

#[test]
fn a_map_begins_empty(rt: HostRuntime) -> Result<(), Fail> {
    let alloc = rt.alloc();
    assert!(rt; shows(alloc, first_map(alloc)?, b"{}", b"{}")?);
    Ok(())
}

const LIST_METHODS: [(&[u8], u64, Option<Method>); 5] = [
    (b"join", 1, Some(Method::Plain(20))),
    (b"add", 1, Some(Method::Change(6))),
    (b"add", 2, Some(Method::Change(7))),
    (b"sort", 0, Some(Method::Plain(24))),
    (b"sort", 1, None),
];

const TEXT_METHODS: [(&[u8], u64, Option<Method>); 3] = [
    (b"swapExt", 1, Some(Method::Plain(16))),
    (b"size", 0, Some(Method::File(6))),
    (b"has", 1, None),
];

fn is_method(
    alloc: Global,
    receiver: &Ty,
    name: &[u8],
    count: u64,
    method: Option<Method>,
) -> Result<bool, Fail> {
    Ok(signature(receiver, &bytes(alloc, name)?, count) == method)
}

fn is_of_lists(
    alloc: Global,
    name: &[u8],
    count: u64,
    method: Option<Method>,
) -> Result<bool, Fail> {
    let list = Ty::List(Shared::of(alloc, Ty::Text)?);
    is_method(alloc, &list, name, count, method)
}

#[test]
fn names_have_methods(rt: HostRuntime) -> Result<(), Fail> {
    let alloc = rt.alloc();
    for (name, count, method) in &LIST_METHODS {
        assert!(rt; is_of_lists(alloc, name, *count, *method)?);
    }
    for (name, count, method) in &TEXT_METHODS {
        assert!(rt; is_method(alloc, &Ty::Text, name, *count, *method)?);
    }
    Ok(())
}

#[test]
fn lists_grow(rt: HostRuntime) -> Result<(), Fail> {
    let alloc = rt.alloc();
    let mut list: Numbers = Listed::from_vec(Vec::from_slice(alloc, &[1, 2])?);
    list.push(3)?;
    assert_eq!(rt; list.as_slice(), [1, 2, 3].as_slice());
    list.insert(1, 9)?;
    assert_eq!(rt; list.pop(), Some(3));
    assert_eq!(rt; list.into_vec().as_slice(), [1, 9, 2].as_slice());
    Ok(())
}

#[test]
fn records_compare(rt: HostRuntime) {
    let at = At { file: 0, line: 1 };
    assert_eq!(rt; at, At { file: 0, line: 1 });
    let stamp = Stamp {
        there: true,
        size: 1,
        time: -1,
    };
    assert_ne!(rt;
        stamp,
        Stamp {
            there: false,
            size: 1,
            time: -1
        }
    );
}
