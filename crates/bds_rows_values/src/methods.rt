//! Methods of texts, lists and maps.
use crate::made::{bytes, ends_shown, list_of_numbers, list_of_texts, map, numbers, text, texts};
use crate::numbering::{number_at_list, number_at_map, number_of};
use bds_lib::{LibFault, call};
use bds_value::{ByteText, Items, Listed, Method, Ty, Value, signature};
use std::alloc::Global;
use std::test::Fail;

fn not_a_number(alloc: Global, text: &ByteText) -> Result<ByteText, Fail> {
    let mut said = bytes(alloc, b"not ")?;
    said.append(text.as_slice())?;
    Ok(said)
}

/// What is wrong.
fn fault_shown(alloc: Global, fault: LibFault) -> Result<ByteText, Fail> {
    match fault {
        LibFault::NoIndex(_, _) => bytes(alloc, b"no index"),
        LibFault::TooLong(_) => bytes(alloc, b"too long"),
        LibFault::NotANumber(text) => not_a_number(alloc, &text),
        LibFault::NoMemory => bytes(alloc, b"no memory"),
    }
}

/// The text of a result, or of what is wrong.
fn shown(alloc: Global, given: Result<Value, LibFault>) -> Result<ByteText, Fail> {
    match given {
        Ok(value) => ends_shown(alloc, value),
        Err(fault) => fault_shown(alloc, fault),
    }
}

/// What a method gives at a receiver and arguments, which end here.
fn ends_called(alloc: Global, method: u8, receiver: Value, args: Items) -> Result<ByteText, Fail> {
    shown(alloc, call(alloc, method, &receiver, &args))
}

fn called_with_texts(
    alloc: Global,
    method: u8,
    receiver: Value,
    args: &[&[u8]],
) -> Result<ByteText, Fail> {
    match texts(alloc, args) {
        Ok(args) => ends_called(alloc, method, receiver, args),
        Err(fault) => Err(fault),
    }
}

fn called_with_numbers(
    alloc: Global,
    method: u8,
    receiver: Value,
    args: &[i64],
) -> Result<ByteText, Fail> {
    match numbers(alloc, args) {
        Ok(args) => ends_called(alloc, method, receiver, args),
        Err(fault) => Err(fault),
    }
}

fn text_gives(
    alloc: Global,
    name: &str,
    receiver: &[u8],
    args: &[&[u8]],
) -> Result<ByteText, Fail> {
    let method = number_of(alloc, &Ty::Text, name, args.len())?;
    called_with_texts(alloc, method, text(alloc, receiver)?, args)
}

const OF_TEXTS: [(&str, &[u8], &[&[u8]], &[u8]); 58] = [
    ("length", b"abc", &[], b"3"),
    ("length", b"", &[], b"0"),
    ("length", b"\xc3\xa9\0", &[], b"3"),
    ("toUpper", b"a1z{", &[], b"A1Z{"),
    ("toUpper", b"", &[], b""),
    ("toUpper", b"\xc3\xa9`", &[], b"\xc3\xa9`"),
    ("toLower", b"A1Z[", &[], b"a1z["),
    ("toLower", b"", &[], b""),
    ("toLower", b"\xc3\x89@", &[], b"\xc3\x89@"),
    ("trim", b" \t\r\na b\n ", &[], b"a b"),
    ("trim", b" \n", &[], b""),
    ("trim", b"", &[], b""),
    ("startsWith", b"abc", &[b"ab"], b"true"),
    ("startsWith", b"abc", &[b""], b"true"),
    ("startsWith", b"ab", &[b"abc"], b"false"),
    ("endsWith", b"abc", &[b"bc"], b"true"),
    ("endsWith", b"abc", &[b"ab"], b"false"),
    ("endsWith", b"", &[b""], b"true"),
    ("indexOf", b"abcbc", &[b"bc"], b"1"),
    ("indexOf", b"abc", &[b""], b"0"),
    ("indexOf", b"abc", &[b"d"], b"-1"),
    ("indexOf", b"aabaaba", &[b"aaba"], b"0"),
    ("indexOf", b"aabaab", &[b"abaab"], b"1"),
    ("lastIndexOf", b"abcbc", &[b"bc"], b"3"),
    ("lastIndexOf", b"abc", &[b""], b"3"),
    ("lastIndexOf", b"aaa", &[b"aa"], b"1"),
    ("lastIndexOf", b"", &[b"a"], b"-1"),
    ("replace", b"aaa", &[b"aa", b"b"], b"ba"),
    ("replace", b"abab", &[b"b", b""], b"aa"),
    ("replace", b"ab", &[b"", b"c"], b"ab"),
    ("replace", b"a", &[b"a", b"aa"], b"aa"),
    ("split", b"a,,b", &[b","], b"[a, , b]"),
    ("split", b"", &[b","], b"[]"),
    ("split", b"a,b", &[b""], b"[a,b]"),
    ("split", b"aaa", &[b"aa"], b"[, a]"),
    (
        "parseInt",
        b"-9223372036854775808",
        &[],
        b"-9223372036854775808",
    ),
    (
        "parseInt",
        b"-9223372036854775809",
        &[],
        b"not -9223372036854775809",
    ),
    (
        "parseInt",
        b"9223372036854775807",
        &[],
        b"9223372036854775807",
    ),
    (
        "parseInt",
        b"9223372036854775808",
        &[],
        b"not 9223372036854775808",
    ),
    ("parseInt", b"007", &[], b"7"),
    ("parseInt", b"+7", &[], b"not +7"),
    ("parseInt", b"-", &[], b"not -"),
    ("parseInt", b"", &[], b"not "),
    ("baseName", b"/a/b.c", &[], b"b.c"),
    ("baseName", b"a/", &[], b""),
    ("baseName", b"a.b", &[], b"a.b"),
    ("dirName", b"/a/b.c", &[], b"/a"),
    ("dirName", b"/a", &[], b"/"),
    ("dirName", b"a", &[], b"."),
    ("extName", b"a.b/c.d.e", &[], b"e"),
    ("extName", b"a.b/c", &[], b""),
    ("extName", b"a.", &[], b""),
    ("removeExt", b"a.b/c.d.e", &[], b"a.b/c.d"),
    ("removeExt", b"a.b/c", &[], b"a.b/c"),
    ("removeExt", b"/.b", &[], b"/"),
    ("swapExt", b"a.b", &[b"c"], b"a.c"),
    ("swapExt", b"a.b/c", &[b"d"], b"a.b/c.d"),
    ("swapExt", b"", &[b""], b"."),
];

#[test]
fn texts_have_methods(rt: HostRuntime) -> Result<(), Fail> {
    let alloc = rt.alloc();
    for (name, receiver, args, wanted) in &OF_TEXTS {
        assert_eq!(rt;
            text_gives(alloc, name, receiver, args)?.as_slice(),
            *wanted
        );
    }
    Ok(())
}

const PARTS: [(i64, i64, &[u8]); 5] = [
    (0, 3, b"abc"),
    (1, 2, b"b"),
    (3, 3, b""),
    (4, 4, b"no index"),
    (2, 1, b"no index"),
];

fn part(alloc: Global, from: i64, to: i64) -> Result<ByteText, Fail> {
    let method = number_of(alloc, &Ty::Text, "substr", 2)?;
    called_with_numbers(alloc, method, text(alloc, b"abc")?, &[from, to])
}

#[test]
fn texts_have_parts(rt: HostRuntime) -> Result<(), Fail> {
    let alloc = rt.alloc();
    for (from, to, wanted) in &PARTS {
        assert_eq!(rt; part(alloc, *from, *to)?.as_slice(), *wanted);
    }
    Ok(())
}

const OF_NUMBERS: [(&str, &[i64], &[i64], &[u8]); 21] = [
    ("size", &[5, 6], &[], b"2"),
    ("size", &[], &[], b"0"),
    ("size", &[5], &[], b"1"),
    ("isEmpty", &[], &[], b"true"),
    ("isEmpty", &[0], &[], b"false"),
    ("isEmpty", &[5, 6], &[], b"false"),
    ("has", &[5, 6], &[6], b"true"),
    ("has", &[5, 6], &[7], b"false"),
    ("has", &[], &[7], b"false"),
    ("head", &[5, 6], &[], b"5"),
    ("head", &[], &[], b"no index"),
    ("head", &[7], &[], b"7"),
    ("tail", &[5, 6], &[], b"[6]"),
    ("tail", &[], &[], b"[]"),
    ("tail", &[5], &[], b"[]"),
    ("reverse", &[5, 6], &[], b"[6, 5]"),
    ("reverse", &[], &[], b"[]"),
    ("reverse", &[1, 2, 3], &[], b"[3, 2, 1]"),
    ("sort", &[3, -1, 2], &[], b"[-1, 2, 3]"),
    ("sort", &[], &[], b"[]"),
    (
        "sort",
        &[i64::MAX, 1, i64::MIN, 1],
        &[],
        b"[-9223372036854775808, 1, 1, 9223372036854775807]",
    ),
];

fn list_gives(alloc: Global, name: &str, items: &[i64], args: &[i64]) -> Result<ByteText, Fail> {
    let method = number_at_list(alloc, Ty::Int, name, args.len())?;
    called_with_numbers(alloc, method, list_of_numbers(alloc, items)?, args)
}

#[test]
fn lists_have_methods(rt: HostRuntime) -> Result<(), Fail> {
    let alloc = rt.alloc();
    for (name, items, args, wanted) in &OF_NUMBERS {
        assert_eq!(rt; list_gives(alloc, name, items, args)?.as_slice(), *wanted);
    }
    Ok(())
}

const OF_TEXT_LISTS: [(&str, &[&[u8]], &[&[u8]], &[u8]); 9] = [
    ("has", &[b"a", b""], &[b""], b"true"),
    ("has", &[b"a", b"bc"], &[b"b"], b"false"),
    ("has", &[], &[b""], b"false"),
    ("join", &[b"b", b"", b"ab"], &[b"-"], b"b--ab"),
    ("join", &[], &[b"-"], b""),
    ("join", &[b"a", b"b"], &[b""], b"ab"),
    ("sort", &[b"b", b"", b"ab"], &[], b"[, ab, b]"),
    ("sort", &[b"a", b"Z", b"a"], &[], b"[Z, a, a]"),
    ("sort", &[], &[], b"[]"),
];

fn text_list_gives(
    alloc: Global,
    name: &str,
    items: &[&[u8]],
    args: &[&[u8]],
) -> Result<ByteText, Fail> {
    let method = number_at_list(alloc, Ty::Text, name, args.len())?;
    called_with_texts(alloc, method, list_of_texts(alloc, items)?, args)
}

#[test]
fn lists_of_texts_have_methods(rt: HostRuntime) -> Result<(), Fail> {
    let alloc = rt.alloc();
    for (name, items, args, wanted) in &OF_TEXT_LISTS {
        assert_eq!(rt;
            text_list_gives(alloc, name, items, args)?.as_slice(),
            *wanted
        );
    }
    Ok(())
}

const OF_MAPS: [(&str, &[&[u8]], &[&[u8]], &[u8]); 12] = [
    ("size", &[b"a", b"bc"], &[], b"2"),
    ("size", &[], &[], b"0"),
    ("size", &[b""], &[], b"1"),
    ("hasKey", &[b"a", b"bc"], &[b"bc"], b"true"),
    ("hasKey", &[b"a", b"bc"], &[b"b"], b"false"),
    ("hasKey", &[], &[b""], b"false"),
    ("keys", &[b"a", b"bc"], &[], b"[a, bc]"),
    ("keys", &[], &[], b"[]"),
    ("keys", &[b"", b"a"], &[], b"[, a]"),
    ("values", &[b"a", b"bc"], &[], b"[1, 2]"),
    ("values", &[], &[], b"[]"),
    ("values", &[b""], &[], b"[0]"),
];

fn map_gives(alloc: Global, name: &str, keys: &[&[u8]], args: &[&[u8]]) -> Result<ByteText, Fail> {
    let method = number_at_map(alloc, name, args.len())?;
    called_with_texts(alloc, method, map(alloc, keys)?, args)
}

#[test]
fn maps_have_methods(rt: HostRuntime) -> Result<(), Fail> {
    let alloc = rt.alloc();
    for (name, keys, args, wanted) in &OF_MAPS {
        assert_eq!(rt; map_gives(alloc, name, keys, args)?.as_slice(), *wanted);
    }
    Ok(())
}

/// A text of so many commas as a list may have items.
fn commas(alloc: Global) -> Result<Value, Fail> {
    let mut commas = Vec::new(alloc);
    for _ in 0..1_048_576_u32 {
        commas.push(b',')?;
    }
    Ok(Value::Text(Listed::from_vec(commas)))
}

fn has_too_many(given: Result<Value, LibFault>) -> bool {
    matches!(given, Err(LibFault::TooLong(1_048_577)))
}

fn ends_split(alloc: Global, text: Value, args: Items) -> bool {
    has_too_many(call(alloc, 10, &text, &args))
}

fn splits_too_long(alloc: Global, text: Value) -> Result<bool, Fail> {
    match texts(alloc, &[b","]) {
        Ok(args) => Ok(ends_split(alloc, text, args)),
        Err(fault) => Err(fault),
    }
}

#[test]
fn a_list_of_too_many_pieces_is_too_long(rt: HostRuntime) -> Result<(), Fail> {
    let alloc = rt.alloc();
    assert!(rt; splits_too_long(alloc, commas(alloc)?)?);
    Ok(())
}

const LINES: [(&[u8], &[u8]); 3] = [
    (b"a\n\nb\n", b"[a, , b]"),
    (b"", b"[]"),
    (b"\n\na", b"[, , a]"),
];

#[test]
fn texts_have_lines(rt: HostRuntime) -> Result<(), Fail> {
    let alloc = rt.alloc();
    for (given, wanted) in &LINES {
        let lines = ends_called(alloc, 29, text(alloc, given)?, Listed::new(alloc))?;
        assert_eq!(rt; lines.as_slice(), *wanted);
    }
    Ok(())
}

const OF_FILES: [(&str, u64, u8); 7] = [
    ("read", 0, 0),
    ("readLines", 0, 1),
    ("write", 1, 2),
    ("rm", 0, 3),
    ("exists", 0, 4),
    ("isEmpty", 0, 5),
    ("size", 0, 6),
];

fn is_call_of_files(alloc: Global, name: &str, count: u64, number: u8) -> Result<bool, Fail> {
    let name = bytes(alloc, name.as_bytes())?;
    Ok(signature(&Ty::Text, &name, count) == Some(Method::File(number)))
}

#[test]
fn files_have_calls(rt: HostRuntime) -> Result<(), Fail> {
    let alloc = rt.alloc();
    for (name, count, wanted) in &OF_FILES {
        assert!(rt; is_call_of_files(alloc, name, *count, *wanted)?);
    }
    Ok(())
}
