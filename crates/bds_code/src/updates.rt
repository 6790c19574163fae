//! The rows of updates: steps into a variable, and what its part takes.
ghost use Rattle.std.specs.Prelude.{◌≡◌, ◌≤◌, length, map, reverse, take};
ghost use Rattle.std.specs.Option.{option_copied};
ghost use Rattle.bds_code.specs.Effects.{KeepsShape, Swaps, TakesItem};
ghost use Rattle.bds_value.specs.Methods.{inner_of};
ghost use Rattle.bds_code.specs.MethodRows.{arguments_taken};
ghost use Rattle.bds_code.specs.Operands.{all_taken, taken};
ghost use Rattle.bds_code.specs.UpdateRows.{step_ty, step_into, part_ty, one_or_all, added, counted, mutated, changed, updated};

use crate::effects::EffectFault;
use crate::instr::Kinds;
use crate::methods::take_arguments;
use crate::operands::{Exchange, last, take, take_all};
use crate::rows::{entry_of, item_of};
use bds_value::change_numbers::{
    ADD, ASSIGN, DIVIDE, INSERT, MULTIPLY, PUSH, REMAINDER, REMOVE_INDEX, REMOVE_ITEM, REMOVE_KEY,
    SUBTRACT,
};
use bds_value::{Method, Takes, Ty, row_at, same_ty};
use std::alloc::Global;

fn step_into(key: bool, ty: &Ty) -> Option<&Ty>
    ensures { TakesItem (step_into key ty.now) (option_copied result) }
{
    if key { entry_of(ty) } else { item_of(ty) }
}

/// The type of the part of a variable to which steps lead.
fn part_ty<'a>(variable: &'a Ty, kinds: &[bool]) -> Option<&'a Ty>
    ensures { TakesItem (part_ty variable.now kinds.now) (option_copied result) }
{
    let mut part = variable;
    for key in kinds {
        match step_into(*key, part) {
            Some(inner) => part = inner,
            None => return None,
        }
    }
    Some(part)
}

/// Takes the operand of a step.
fn take_step(shape: &[Ty], count: usize, key: bool) -> Result<usize, EffectFault>
    requires { count ≤ length shape.now }
    ensures { KeepsShape (taken (step_ty key) (reverse (take count shape.now))) shape.now result }
{
    if key {
        take(shape, count, &Ty::Text)
    } else {
        take(shape, count, &Ty::Int)
    }
}

/// Takes the operands of the steps.
fn take_steps(shape: &[Ty], count: usize, kinds: &[bool]) -> Result<usize, EffectFault>
    requires { count ≤ length shape.now }
    ensures { KeepsShape (all_taken (reverse (map step_ty kinds.now)) (reverse (take count shape.now))) shape.now result }
{
    let mut keeps = count;
    let mut left = kinds;
    while let [rest @ .., key] = left {
        keeps = take_step(shape, keeps, *key)?;
        left = rest;
    }
    Ok(keeps)
}

fn take_one_or_all(shape: &[Ty], list: &Ty, item: &Ty) -> Result<usize, EffectFault>
    ensures { KeepsShape (one_or_all list.now item.now (reverse shape.now)) shape.now result }
{
    match last(shape, shape.len()) {
        Some(ty) if same_ty(item, ty) || same_ty(list, ty) => Ok(shape.len() - 1),
        _ => Err(EffectFault::Needs),
    }
}

/// Takes what is added to a part.
fn take_added(shape: &[Ty], part: &Ty) -> Result<usize, EffectFault>
    ensures { KeepsShape (added part.now (reverse shape.now)) shape.now result }
{
    match part {
        Ty::Int => take(shape, shape.len(), &Ty::Int),
        Ty::Text => match last(shape, shape.len()) {
            Some(_) => Ok(shape.len() - 1),
            None => Err(EffectFault::Needs),
        },
        Ty::List(_) => match item_of(part) {
            Some(item) => take_one_or_all(shape, part, item),
            None => Err(EffectFault::Needs),
        },
        _ => Err(EffectFault::Needs),
    }
}

fn take_number(shape: &[Ty], part: &Ty) -> Result<usize, EffectFault>
    ensures { KeepsShape (counted part.now (reverse shape.now)) shape.now result }
{
    if same_ty(&Ty::Int, part) {
        take(shape, shape.len(), &Ty::Int)
    } else {
        Err(EffectFault::Needs)
    }
}

/// Takes the arguments of a method that changes a part.
fn take_mutated(shape: &[Ty], part: &Ty, what: u8) -> Result<usize, EffectFault>
    ensures { KeepsShape (mutated what part.now (reverse shape.now)) shape.now result }
{
    match row_at(part, Method::Change(what)) {
        Some(row) => take_inner(shape, part, row.takes),
        None => Err(EffectFault::Needs),
    }
}

/// Takes arguments at a part.
fn take_inner(shape: &[Ty], part: &Ty, takes: Takes) -> Result<usize, EffectFault>
    ensures { KeepsShape (arguments_taken (inner_of part.now) takes (reverse shape.now)) shape.now result }
{
    match part {
        Ty::List(item) => take_arguments(shape, item.get(), takes),
        Ty::Map(value) => take_arguments(shape, value.get(), takes),
        Ty::Bool | Ty::Int | Ty::Text | Ty::Void => take_arguments(shape, &Ty::Void, takes),
    }
}

/// Takes what a change needs.
fn take_changed(shape: &[Ty], part: &Ty, what: u8) -> Result<usize, EffectFault>
    ensures { KeepsShape (changed what part.now (reverse shape.now)) shape.now result }
{
    match what {
        ASSIGN => take(shape, shape.len(), part),
        ADD => take_added(shape, part),
        SUBTRACT | MULTIPLY | DIVIDE | REMAINDER => take_number(shape, part),
        PUSH | INSERT | REMOVE_INDEX | REMOVE_ITEM | REMOVE_KEY => take_mutated(shape, part, what),
        _ => Err(EffectFault::Number(what as u32)),
    }
}

/// Changes the operands as a change of a part of a variable does.
pub(crate) fn update(
    shape: &[Ty],
    variable: Option<&Ty>,
    slot: u16,
    kinds: &Kinds,
    what: u8,
) -> Result<Exchange, EffectFault>
    ensures { Swaps (updated (option_copied variable.entry) slot kinds.now what (reverse shape.now)) shape.now result }
{
    let Some(variable) = variable else {
        return Err(EffectFault::Number(slot as u32));
    };
    if what > REMOVE_KEY {
        return Err(EffectFault::Number(what as u32));
    }
    let Some(part) = part_ty(variable, kinds.as_slice()) else {
        return Err(EffectFault::Needs);
    };
    let count = take_changed(shape, part, what)?;
    let keeps = take_steps(shape, count, kinds.as_slice())?;
    Ok(Exchange { keeps, gives: None })
}
