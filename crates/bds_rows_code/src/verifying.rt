//! Which units are accepted, and the first fault of the others.
use bds_code::read_unit;
use bds_value::{Input, Listed, Types, put_ty};
use bds_verify::{Kind, Verified, VerifyFault, verify};
use std::alloc::Global;
use std::process::Abort;
use std::test::Fail;

/// One file, no globals, and one function without parameters, locals and result; its code follows.
const HEAD: [u8; 30] = [
    0, 0, 0, 1, 0, 0, 0, 1, 104, 0, 0, 0, 0, 0, 0, 0, 1, 0, 0, 0, 0, 0, 0, 0, 0, 0, 0, 0, 0, 5,
];

fn input(alloc: Global, first: &[u8], rest: &[u8]) -> Result<Input, Fail> {
    let mut bytes = Vec::from_slice(alloc, first)?;
    bytes.extend_from_slice(rest)?;
    let bytes = Listed::from_vec(bytes);
    Ok(Input { bytes, at: 0 })
}

fn tags(alloc: Global, types: &Types) -> Result<Vec<u8>, Fail> {
    let mut tags = Vec::new(alloc);
    for ty in types.as_slice() {
        put_ty(&mut tags, ty)?;
    }
    Ok(tags)
}

/// What is told of a unit: the function, place and kind of its fault (1 needs, 2 differs, 3 number,
/// 4 no tick, 5 no label, 6 runs off, 7 shape), and the operands that were found, or the number.
#[derive(Drop)]
struct Outcome {
    function: u32,
    at: u32,
    kind: u8,
    found: Vec<u8>,
}

fn told(alloc: Global, fault: VerifyFault) -> Result<Outcome, Fail> {
    match fault {
        VerifyFault::Bad { function, at, kind } => {
            let (kind, found) = kind_of(alloc, kind)?;
            Ok(Outcome {
                function,
                at,
                kind,
                found,
            })
        }
        VerifyFault::NoMemory => Ok(nothing(alloc, 8)),
    }
}

/// No fault is told: the unit is accepted (0), or there is no memory (8).
fn nothing(alloc: Global, kind: u8) -> Outcome {
    Outcome {
        function: 0,
        at: 0,
        kind,
        found: Vec::new(alloc),
    }
}

fn kind_of(alloc: Global, kind: Kind) -> Result<(u8, Vec<u8>), Fail> {
    match kind {
        Kind::Needs(found) => Ok((1, tags(alloc, &found)?)),
        Kind::Differs { found, .. } => Ok((2, tags(alloc, &found)?)),
        Kind::Number(n) => Ok((3, Vec::from_slice(alloc, &[(n % 256) as u8])?)),
        Kind::NoTick(to) => Ok((4, Vec::from_slice(alloc, &[(to % 256) as u8])?)),
        Kind::NoLabel => Ok((5, Vec::new(alloc))),
        Kind::RunsOff => Ok((6, Vec::new(alloc))),
        Kind::Shape => Ok((7, Vec::new(alloc))),
    }
}

/// Codes that are accepted.
const GOOD: [&[u8]; 4] = [
    &[0, 0, 0, 1, 36, 0, 0, 0, 0, 0, 0, 0, 0, 0, 0, 0, 1],
    &[
        0, 0, 0, 4, 0, 1, 33, 0, 0, 0, 3, 34, 36, 0, 0, 0, 1, 0, 0, 0, 3, 0, 0, 0, 0, 0, 0, 0, 0,
        0, 0, 0, 1, 0, 0, 0, 0, 0, 0, 0, 1, 0, 0, 0, 0, 0, 0, 0, 1, 0, 0, 0, 0, 0, 0, 0, 1,
    ],
    &[
        0, 0, 0, 2, 34, 32, 0, 0, 0, 0, 0, 0, 0, 1, 0, 0, 0, 0, 0, 0, 0, 0, 0, 0, 0, 0, 0, 0, 0, 1,
        0, 0, 0, 0, 0, 0, 0, 1,
    ],
    &[
        0, 0, 0, 3, 1, 0, 0, 0, 0, 0, 0, 0, 0, 34, 32, 0, 0, 0, 1, 0, 0, 0, 1, 0, 0, 0, 1, 0, 0, 0,
        1, 1, 0, 0, 0, 0, 0, 0, 0, 1, 0, 0, 0, 0, 0, 0, 0, 1, 0, 0, 0, 0, 0, 0, 0, 1,
    ],
];

/// Codes, with the place, kind and operands of their first fault.
const BAD: [(&[u8], u32, u8, &[u8]); 17] = [
    (
        &[
            0, 0, 0, 6, 1, 0, 0, 0, 0, 0, 0, 0, 40, 1, 0, 0, 0, 0, 0, 0, 0, 2, 15, 16, 42, 36, 0,
            0, 0, 0, 0, 0, 0, 0, 0, 0, 0, 1, 0, 0, 0, 0, 0, 0, 0, 1, 0, 0, 0, 0, 0, 0, 0, 1, 0, 0,
            0, 0, 0, 0, 0, 1, 0, 0, 0, 0, 0, 0, 0, 1, 0, 0, 0, 0, 0, 0, 0, 1,
        ],
        2,
        1,
        &[1, 1],
    ),
    (
        &[
            0, 0, 0, 6, 1, 0, 0, 0, 0, 0, 0, 0, 40, 1, 0, 0, 0, 0, 0, 0, 0, 2, 9, 16, 42, 8, 0, 0,
            0, 0, 0, 0, 0, 0, 0, 0, 0, 1, 0, 0, 0, 0, 0, 0, 0, 1, 0, 0, 0, 0, 0, 0, 0, 1, 0, 0, 0,
            0, 0, 0, 0, 1, 0, 0, 0, 0, 0, 0, 0, 1, 0, 0, 0, 0, 0, 0, 0, 1,
        ],
        5,
        1,
        &[],
    ),
    (
        &[
            0, 0, 0, 2, 1, 0, 0, 0, 0, 0, 0, 0, 0, 36, 0, 0, 0, 0, 0, 0, 0, 0, 0, 0, 0, 1, 0, 0, 0,
            0, 0, 0, 0, 1,
        ],
        1,
        1,
        &[1],
    ),
    (
        &[
            0, 0, 0, 2, 4, 0, 0, 36, 0, 0, 0, 0, 0, 0, 0, 0, 0, 0, 0, 1, 0, 0, 0, 0, 0, 0, 0, 1,
        ],
        0,
        3,
        &[0],
    ),
    (
        &[
            0, 0, 0, 3, 1, 0, 0, 0, 0, 0, 0, 0, 0, 34, 36, 0, 0, 0, 1, 0, 0, 0, 1, 0, 0, 0, 1, 2,
            0, 0, 0, 0, 0, 0, 0, 1, 0, 0, 0, 0, 0, 0, 0, 1, 0, 0, 0, 0, 0, 0, 0, 1,
        ],
        1,
        2,
        &[1],
    ),
    (
        &[
            0, 0, 0, 2, 34, 36, 0, 0, 0, 1, 0, 0, 0, 0, 0, 0, 0, 1, 1, 0, 0, 0, 0, 0, 0, 0, 1, 0,
            0, 0, 0, 0, 0, 0, 1,
        ],
        0,
        2,
        &[],
    ),
    (
        &[
            0, 0, 0, 4, 1, 0, 0, 0, 0, 0, 0, 0, 0, 32, 0, 0, 0, 3, 34, 36, 0, 0, 0, 2, 0, 0, 0, 2,
            0, 0, 0, 0, 0, 0, 0, 3, 0, 0, 0, 0, 0, 0, 0, 0, 0, 0, 0, 1, 0, 0, 0, 0, 0, 0, 0, 1, 0,
            0, 0, 0, 0, 0, 0, 1, 0, 0, 0, 0, 0, 0, 0, 1,
        ],
        1,
        2,
        &[1],
    ),
    (
        &[
            0, 0, 0, 2, 36, 32, 0, 0, 0, 0, 0, 0, 0, 2, 0, 0, 0, 0, 0, 0, 0, 0, 0, 0, 0, 1, 0, 0,
            0, 0, 0, 0, 0, 0, 0, 0, 0, 1, 0, 0, 0, 0, 0, 0, 0, 1,
        ],
        1,
        4,
        &[0],
    ),
    (
        &[
            0, 0, 0, 2, 32, 0, 0, 0, 1, 36, 0, 0, 0, 0, 0, 0, 0, 0, 0, 0, 0, 1, 0, 0, 0, 0, 0, 0,
            0, 1,
        ],
        0,
        5,
        &[],
    ),
    (
        &[
            0, 0, 0, 3, 0, 0, 33, 0, 0, 0, 2, 36, 0, 0, 0, 0, 0, 0, 0, 0, 0, 0, 0, 1, 0, 0, 0, 0,
            0, 0, 0, 1, 0, 0, 0, 0, 0, 0, 0, 1,
        ],
        1,
        5,
        &[],
    ),
    (
        &[
            0, 0, 0, 2, 36, 36, 0, 0, 0, 0, 0, 0, 0, 0, 0, 0, 0, 1, 0, 0, 0, 0, 0, 0, 0, 1,
        ],
        0,
        6,
        &[],
    ),
    (
        &[
            0, 0, 0, 2, 1, 0, 0, 0, 0, 0, 0, 0, 0, 8, 0, 0, 0, 0, 0, 0, 0, 0, 0, 0, 0, 1, 0, 0, 0,
            0, 0, 0, 0, 1,
        ],
        1,
        6,
        &[],
    ),
    (
        &[
            0, 0, 0, 1, 36, 0, 0, 0, 1, 0, 0, 0, 1, 0, 0, 0, 0, 0, 0, 0, 0, 0, 0, 0, 1,
        ],
        0,
        7,
        &[],
    ),
    (
        &[0, 0, 0, 1, 36, 0, 0, 0, 0, 0, 0, 0, 1, 0, 0, 0, 1],
        0,
        7,
        &[],
    ),
    (
        &[
            0, 0, 0, 3, 3, 5, 8, 36, 0, 0, 0, 0, 0, 0, 0, 0, 0, 0, 0, 1, 0, 0, 0, 0, 0, 0, 0, 1, 0,
            0, 0, 0, 0, 0, 0, 1,
        ],
        0,
        7,
        &[],
    ),
    (&[0, 0, 0, 0, 0, 0, 0, 0], 0, 7, &[]),
    (
        &[
            0, 0, 0, 1, 36, 0, 0, 0, 1, 0, 0, 0, 0, 0, 0, 0, 1, 5, 0, 0, 0, 0, 0, 0, 0, 1,
        ],
        0,
        7,
        &[],
    ),
];

/// Code that prints 40 plus 2.
const SUM: [u8; 78] = [
    0, 0, 0, 6, 1, 0, 0, 0, 0, 0, 0, 0, 40, 1, 0, 0, 0, 0, 0, 0, 0, 2, 9, 16, 42, 36, 0, 0, 0, 0,
    0, 0, 0, 0, 0, 0, 0, 1, 0, 0, 0, 0, 0, 0, 0, 1, 0, 0, 0, 0, 0, 0, 0, 1, 0, 0, 0, 0, 0, 0, 0, 1,
    0, 0, 0, 0, 0, 0, 0, 1, 0, 0, 0, 0, 0, 0, 0, 1,
];

#[test]
fn codes_are_accepted(rt: HostRuntime) -> Result<(), Fail> {
    for code in &GOOD {
        assert_eq!(rt; refuses(rt.alloc(), &HEAD, code)?.kind, 0);
    }
    Ok(())
}

/// The first fault of a unit; of kind 0 where it is accepted.
fn refuses(alloc: Global, first: &[u8], rest: &[u8]) -> Result<Outcome, Fail> {
    let mut input = input(alloc, first, rest)?;
    let unit = read_unit(alloc, &mut input)?;
    match verify(alloc, unit) {
        Ok(_) => Ok(nothing(alloc, 0)),
        Err(fault) => told(alloc, fault),
    }
}

#[test]
fn codes_are_refused(rt: HostRuntime) -> Result<(), Fail> {
    for (code, at, kind, found) in &BAD {
        let told = refuses(rt.alloc(), &HEAD, code)?;
        assert_eq!(rt; (told.function, told.at, told.kind), (0, *at, *kind));
        assert_eq!(rt; told.found.as_slice(), *found);
    }
    Ok(())
}

/// A file, no globals, and two functions, of which the first is empty and the second follows.
const EMPTY_FIRST: [u8; 47] = [
    0, 0, 0, 1, 0, 0, 0, 1, 104, 0, 0, 0, 0, 0, 0, 0, 2, 0, 0, 0, 0, 0, 0, 0, 0, 0, 0, 0, 0, 5, 0,
    0, 0, 1, 36, 0, 0, 0, 0, 0, 0, 0, 0, 0, 0, 0, 1,
];

/// Second functions, with the function, place and kind of the first fault of the unit.
const SECOND: [(&[u8], u32, u32, u8); 4] = [
    (
        &[
            0, 0, 0, 0, 0, 0, 0, 0, 0, 0, 0, 0, 5, 0, 0, 0, 1, 36, 0, 0, 0, 0, 0, 0, 0, 0, 0, 0, 0,
            1,
        ],
        0,
        0,
        0,
    ),
    (
        &[
            0, 0, 0, 0, 0, 0, 0, 1, 1, 0, 0, 0, 0, 1, 0, 0, 0, 1, 36, 0, 0, 0, 0, 0, 0, 0, 0, 0, 0,
            0, 1,
        ],
        1,
        0,
        1,
    ),
    (
        &[
            0, 0, 0, 0, 0, 0, 0, 1, 5, 0, 0, 0, 0, 5, 0, 0, 0, 1, 36, 0, 0, 0, 0, 0, 0, 0, 0, 0, 0,
            0, 1,
        ],
        1,
        0,
        7,
    ),
    (
        &[
            0, 0, 0, 0, 0, 0, 0, 0, 0, 0, 0, 0, 5, 0, 0, 0, 1, 36, 0, 0, 0, 0, 0, 0, 0, 1, 0, 0, 0,
            1,
        ],
        1,
        0,
        7,
    ),
];

#[test]
fn the_second_function_is_named(rt: HostRuntime) -> Result<(), Fail> {
    for (second, function, at, kind) in &SECOND {
        let told = refuses(rt.alloc(), &EMPTY_FIRST, second)?;
        assert_eq!(rt;
            (told.function, told.at, told.kind),
            (*function, *at, *kind)
        );
    }
    Ok(())
}

/// Units that are refused as a whole: without functions, with a void global, and with functions 0
/// that take and give a number.
const NO_UNITS: [&[u8]; 4] = [
    &[0; 12],
    &[
        0, 0, 0, 1, 0, 0, 0, 1, 104, 0, 0, 0, 1, 5, 0, 0, 0, 1, 0, 0, 0, 0, 0, 0, 0, 0, 0, 0, 0, 0,
        5, 0, 0, 0, 1, 36, 0, 0, 0, 0, 0, 0, 0, 0, 0, 0, 0, 1,
    ],
    &[
        0, 0, 0, 1, 0, 0, 0, 1, 104, 0, 0, 0, 0, 0, 0, 0, 1, 0, 0, 0, 0, 0, 0, 0, 1, 1, 0, 0, 0, 0,
        5, 0, 0, 0, 1, 36, 0, 0, 0, 0, 0, 0, 0, 0, 0, 0, 0, 1,
    ],
    &[
        0, 0, 0, 1, 0, 0, 0, 1, 104, 0, 0, 0, 0, 0, 0, 0, 1, 0, 0, 0, 0, 0, 0, 0, 0, 0, 0, 0, 0, 1,
        0, 0, 0, 2, 1, 0, 0, 0, 0, 0, 0, 0, 0, 36, 0, 0, 0, 0, 0, 0, 0, 0, 0, 0, 0, 1, 0, 0, 0, 0,
        0, 0, 0, 1,
    ],
];

#[test]
fn wholes_are_refused(rt: HostRuntime) -> Result<(), Fail> {
    for bytes in &NO_UNITS {
        let told = refuses(rt.alloc(), bytes, &[])?;
        assert_eq!(rt; (told.function, told.at, told.kind), (0, 0, 7));
    }
    Ok(())
}

/// The types at a place that is there.
fn types_at(alloc: Global, verified: &Verified, place: u32) -> Result<Vec<u8>, Fail> {
    match verified.unit().functions.as_slice() {
        [first, ..] if (place as usize) < first.code.len() => {
            tags(alloc, &verified.shape_at(alloc, 0, place)?)
        }
        _ => Ok(Vec::new(alloc)),
    }
}

#[test]
fn a_sum_is_accepted(rt: HostRuntime) -> Result<(), Fail> {
    let alloc = rt.alloc();
    let mut input = input(alloc, &HEAD, &SUM)?;
    let unit = read_unit(alloc, &mut input)?;
    let verified = verify(alloc, unit)?;
    assert_eq!(rt;
        types_at(alloc, &verified, 2)?.as_slice(),
        [1, 1].as_slice()
    );
    Ok(())
}
