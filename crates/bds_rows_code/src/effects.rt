//! What an instruction does to the types of the operands.
use crate::units::{BEFORE, input};
use bds_code::{EffectFault, Unit, effect, read_unit};
use bds_value::{Input, Listed, Types, put_ty, read_ty};
use std::alloc::Global;
use std::process::Abort;
use std::test::Fail;

fn append(input: &mut Input, bytes: &[u8]) -> Result<(), Fail> {
    input.bytes.append(bytes)?;
    Ok(())
}

/// A unit whose function has one instruction.
fn unit_with(alloc: Global, instr: &[u8]) -> Result<Unit, Fail> {
    let mut input = input(alloc, 0, &BEFORE, instr)?;
    append(&mut input, &[0; 12])?;
    Ok(read_unit(alloc, &mut input)?)
}

fn types(alloc: Global, tags: &[u8]) -> Result<Types, Fail> {
    let mut input = input(alloc, 0, tags, &[])?;
    let mut types = Listed::new(alloc);
    for _ in 0..tags.len() {
        if input.at < tags.len() as u64 {
            types.push(read_ty(alloc, &mut input)?)?;
        }
    }
    Ok(types)
}

fn tags(alloc: Global, types: &Types) -> Result<Vec<u8>, Fail> {
    let mut tags = Vec::new(alloc);
    for ty in types.as_slice() {
        put_ty(&mut tags, ty)?;
    }
    Ok(tags)
}

/// The effect of the first instruction of function 0.
fn first_effect(alloc: Global, unit: &Unit, shape: &mut Types) -> Result<(), EffectFault> {
    match unit.functions.as_slice() {
        [first, ..] => match first.code.as_slice() {
            [instr, ..] => effect(alloc, unit, 0, instr, shape),
            [] => Err(EffectFault::NoMemory),
        },
        [] => Err(EffectFault::NoMemory),
    }
}

fn shape_behind(alloc: Global, unit: &Unit, before: &[u8]) -> Result<Types, Fail> {
    let mut shape = types(alloc, before)?;
    first_effect(alloc, unit, &mut shape)?;
    Ok(shape)
}

fn tags_behind(alloc: Global, unit: &Unit, before: &[u8]) -> Result<Vec<u8>, Fail> {
    let shape = shape_behind(alloc, unit, before)?;
    tags(alloc, &shape)
}

/// The tags of the operands behind an instruction.
fn turned(alloc: Global, instr: &[u8], before: &[u8]) -> Result<Vec<u8>, Fail> {
    let unit = unit_with(alloc, instr)?;
    tags_behind(alloc, &unit, before)
}

/// An instruction, and the tags of the types of the operands before and behind it.
type Row = (&'static [u8], &'static [u8], &'static [u8]);

fn turn(rt: &impl Abort, alloc: Global, rows: &[Row]) -> Result<(), Fail> {
    for (instr, before, after) in rows {
        let found = turned(alloc, instr, before)?;
        assert_eq!(rt; found.as_slice(), *after);
    }
    Ok(())
}

/// Values, variables and the operand that is dropped.
const VALUES: [Row; 12] = [
    (&[0, 1], &[], &[0]),
    (&[1, 0, 0, 0, 0, 0, 0, 0, 0], &[], &[1]),
    (&[2, 0, 0, 0, 0], &[], &[2]),
    (&[3, 4, 1], &[1], &[1, 4, 1]),
    (&[4, 0, 0], &[], &[1]),
    (&[4, 0, 1], &[], &[3, 2]),
    (&[4, 0, 3], &[], &[3, 0]),
    (&[5, 0, 0], &[1], &[]),
    (&[5, 0, 3], &[3, 0], &[]),
    (&[6, 0, 0], &[], &[0]),
    (&[7, 0, 0], &[0], &[]),
    (&[8], &[4, 1], &[]),
];

/// Operators, texts and comparisons.
const OPERATORS: [Row; 18] = [
    (&[9], &[1, 1], &[1]),
    (&[10], &[1, 1], &[1]),
    (&[11], &[1, 1], &[1]),
    (&[12], &[1, 1], &[1]),
    (&[13], &[1, 1], &[1]),
    (&[14], &[1], &[1]),
    (&[15], &[0], &[0]),
    (&[16], &[3, 1], &[2]),
    (&[17], &[0], &[2]),
    (&[18], &[2, 2], &[2]),
    (&[19], &[3, 0, 0], &[3, 0]),
    (&[20], &[3, 0, 3, 0], &[3, 0]),
    (&[21], &[0, 0], &[0]),
    (&[22], &[2, 2], &[0]),
    (&[23], &[1, 1], &[0]),
    (&[24], &[2, 2], &[0]),
    (&[25], &[1, 1], &[0]),
    (&[26], &[2, 2], &[0]),
];

/// Lists, maps and their parts.
const PARTS: [Row; 5] = [
    (&[27, 0, 0, 0, 0, 2], &[1, 0, 0], &[1, 3, 0]),
    (&[27, 2, 0, 0, 0, 0], &[1], &[1, 3, 2]),
    (&[28, 1, 0, 0, 0, 2], &[2, 1, 2, 1], &[4, 1]),
    (&[29], &[3, 2, 1], &[2]),
    (&[30], &[4, 0, 2], &[0]),
];

/// Changes of variables and of their parts.
const CHANGES: [Row; 16] = [
    (&[31, 1, 0, 0, 0, 0, 0, 0, 0], &[0], &[]),
    (&[31, 0, 0, 1, 0, 0, 0, 1, 0, 0], &[1, 2], &[]),
    (&[31, 0, 0, 2, 0, 0, 0, 1, 1, 0], &[2, 1], &[]),
    (&[31, 0, 0, 0, 0, 0, 0, 0, 1], &[1], &[]),
    (&[31, 0, 0, 1, 0, 0, 0, 1, 0, 1], &[1, 0], &[]),
    (&[31, 0, 0, 1, 0, 0, 0, 0, 1], &[2], &[]),
    (&[31, 0, 0, 1, 0, 0, 0, 0, 1], &[3, 2], &[]),
    (&[31, 0, 0, 0, 0, 0, 0, 0, 2], &[1], &[]),
    (&[31, 0, 0, 0, 0, 0, 0, 0, 3], &[1], &[]),
    (&[31, 0, 0, 0, 0, 0, 0, 0, 4], &[1], &[]),
    (&[31, 0, 0, 2, 0, 0, 0, 1, 1, 5], &[2, 1], &[]),
    (&[31, 0, 0, 1, 0, 0, 0, 0, 6], &[2], &[]),
    (&[31, 0, 0, 1, 0, 0, 0, 0, 7], &[1, 2], &[]),
    (&[31, 0, 0, 1, 0, 0, 0, 0, 8], &[1], &[]),
    (&[31, 0, 0, 3, 0, 0, 0, 0, 9], &[0], &[]),
    (&[31, 0, 0, 2, 0, 0, 0, 0, 10], &[2], &[]),
];

/// Jumps, ticks and calls.
const JUMPS: [Row; 5] = [
    (&[32, 0, 0, 0, 0], &[1], &[1]),
    (&[33, 0, 0, 0, 0], &[0], &[]),
    (&[34], &[], &[]),
    (&[35, 0, 0, 0, 0], &[1, 3, 2, 4, 1], &[1]),
    (&[36], &[1], &[]),
];

/// Methods of texts.
const TEXT_METHODS: [Row; 17] = [
    (&[37, 0], &[2], &[1]),
    (&[37, 1], &[2], &[2]),
    (&[37, 2], &[2], &[2]),
    (&[37, 3], &[2], &[2]),
    (&[37, 4], &[2, 1, 1], &[2]),
    (&[37, 5], &[2, 2], &[0]),
    (&[37, 6], &[2, 2], &[0]),
    (&[37, 7], &[2, 2], &[1]),
    (&[37, 8], &[2, 2], &[1]),
    (&[37, 9], &[2, 2, 2], &[2]),
    (&[37, 10], &[2, 2], &[3, 2]),
    (&[37, 11], &[2], &[1]),
    (&[37, 12], &[2], &[2]),
    (&[37, 13], &[2], &[2]),
    (&[37, 14], &[2], &[2]),
    (&[37, 15], &[2], &[2]),
    (&[37, 16], &[2, 2], &[2]),
];

/// Methods of lists and maps, and the lines of a text.
const LIST_METHODS: [Row; 13] = [
    (&[37, 17], &[3, 0], &[1]),
    (&[37, 18], &[3, 0], &[0]),
    (&[37, 19], &[3, 2, 2], &[0]),
    (&[37, 20], &[3, 2, 2], &[2]),
    (&[37, 21], &[3, 4, 1], &[4, 1]),
    (&[37, 22], &[3, 0], &[3, 0]),
    (&[37, 23], &[3, 0], &[3, 0]),
    (&[37, 24], &[3, 1], &[3, 1]),
    (&[37, 25], &[4, 1], &[1]),
    (&[37, 26], &[4, 1, 2], &[0]),
    (&[37, 27], &[4, 1], &[3, 2]),
    (&[37, 28], &[4, 1], &[3, 1]),
    (&[37, 29], &[2], &[3, 2]),
];

/// What asks the outside, and what steps of tasks and threads take.
const OUTSIDE: [Row; 19] = [
    (&[38], &[2], &[2]),
    (&[39], &[2, 2], &[]),
    (&[40], &[2], &[]),
    (&[41, 0], &[2], &[0]),
    (&[41, 1], &[2], &[0]),
    (&[41, 2], &[2], &[1]),
    (&[42], &[2], &[]),
    (&[43], &[2], &[]),
    (&[44], &[1], &[]),
    (&[45], &[2], &[2]),
    (&[46], &[3, 2, 3, 2], &[0]),
    (&[47], &[3, 2, 3, 2, 1, 0, 1, 2, 2], &[2]),
    (&[48], &[3, 2, 3, 2, 1, 0, 1, 2, 2], &[]),
    (&[49], &[3, 2], &[3, 2]),
    (&[50, 0, 0, 0, 0], &[1, 3, 2, 4, 1], &[2]),
    (&[51], &[3, 2], &[]),
    (&[52], &[], &[]),
    (&[53], &[2], &[]),
    (&[54], &[], &[]),
];

#[test]
fn values_and_operators_turn_operands(rt: HostRuntime) -> Result<(), Fail> {
    turn(&rt, rt.alloc(), &VALUES)?;
    turn(&rt, rt.alloc(), &OPERATORS)
}

#[test]
fn parts_and_changes_turn_operands(rt: HostRuntime) -> Result<(), Fail> {
    turn(&rt, rt.alloc(), &PARTS)?;
    turn(&rt, rt.alloc(), &CHANGES)
}

#[test]
fn jumps_and_asks_turn_operands(rt: HostRuntime) -> Result<(), Fail> {
    turn(&rt, rt.alloc(), &JUMPS)?;
    turn(&rt, rt.alloc(), &OUTSIDE)
}

#[test]
fn methods_turn_operands(rt: HostRuntime) -> Result<(), Fail> {
    turn(&rt, rt.alloc(), &TEXT_METHODS)?;
    turn(&rt, rt.alloc(), &LIST_METHODS)
}

/// Instructions with a number of which there is nothing, their operands, and the number.
const NUMBERS: [(&[u8], &[u8], u32); 10] = [
    (&[4, 0, 4], &[], 4),
    (&[5, 0, 4], &[1], 4),
    (&[6, 0, 1], &[], 1),
    (&[7, 0, 1], &[0], 1),
    (&[35, 0, 0, 0, 1], &[], 1),
    (&[50, 0, 0, 0, 2], &[], 2),
    (&[37, 30], &[], 30),
    (&[41, 3], &[], 3),
    (&[31, 0, 0, 4, 0, 0, 0, 0, 11], &[], 4),
    (&[31, 0, 0, 0, 0, 0, 0, 1, 1, 11], &[], 11),
];

/// Instructions and operands that don't fit.
const NEEDS: [(&[u8], &[u8]); 28] = [
    (&[8], &[]),
    (&[8], &[5]),
    (&[9], &[1, 2]),
    (&[9], &[2, 1]),
    (&[5, 0, 1], &[3, 1]),
    (&[19], &[3, 0, 1]),
    (&[20], &[3, 0, 3, 1]),
    (&[21], &[3, 1, 3, 1]),
    (&[21], &[0, 1]),
    (&[23], &[0, 0]),
    (&[27, 0, 0, 0, 0, 2], &[0]),
    (&[28, 1, 0, 0, 0, 1], &[1, 1]),
    (&[29], &[4, 1, 1]),
    (&[30], &[3, 1, 2]),
    (&[33, 0, 0, 0, 0], &[1]),
    (&[35, 0, 0, 0, 0], &[1, 3, 2, 4, 2]),
    (&[36], &[]),
    (&[36], &[2]),
    (&[36], &[1, 1]),
    (&[37, 19], &[3, 3, 1, 3, 1]),
    (&[37, 24], &[3, 0]),
    (&[37, 28], &[3, 0]),
    (&[31, 0, 0, 0, 0, 0, 0, 1, 1, 0], &[1, 1]),
    (&[31, 0, 0, 1, 0, 0, 0, 0, 2], &[1]),
    (&[31, 0, 0, 1, 0, 0, 0, 0, 7], &[2, 1]),
    (&[31, 0, 0, 1, 0, 0, 0, 1, 0, 0], &[2, 2]),
    (&[46], &[3, 2, 2]),
    (&[47], &[3, 2, 3, 2, 1, 0, 1, 2]),
];

/// The number that isn't there; none where the operands don't fit.
fn number_of(effect: Result<(), EffectFault>) -> Option<u32> {
    match effect {
        Err(EffectFault::Number(number)) => Some(number),
        Err(EffectFault::Needs) => None,
        _ => Some(u32::MAX),
    }
}

fn missing_in(alloc: Global, unit: &Unit, before: &[u8]) -> Result<Option<u32>, Fail> {
    let mut shape = types(alloc, before)?;
    Ok(number_of(first_effect(alloc, unit, &mut shape)))
}

fn missing(alloc: Global, instr: &[u8], before: &[u8]) -> Result<Option<u32>, Fail> {
    let unit = unit_with(alloc, instr)?;
    missing_in(alloc, &unit, before)
}

#[test]
fn instructions_miss_numbers(rt: HostRuntime) -> Result<(), Fail> {
    for (instr, before, number) in &NUMBERS {
        assert_eq!(rt; missing(rt.alloc(), instr, before)?, Some(*number));
    }
    Ok(())
}

#[test]
fn operands_do_not_fit(rt: HostRuntime) -> Result<(), Fail> {
    for (instr, before) in &NEEDS {
        assert_eq!(rt; missing(rt.alloc(), instr, before)?, None);
    }
    Ok(())
}
