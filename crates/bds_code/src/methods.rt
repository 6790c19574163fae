//! What methods do to the types of operands.
ghost use Rattle.std.specs.Prelude.{◌≡◌, ◌≤◌, length, map, reverse, slice_get, take};
ghost use Rattle.std.specs.Option.{option_copied};
ghost use Rattle.bds_value.specs.Methods.{part_ty, parts_of, gives_ty};
ghost use Rattle.bds_code.specs.Effects.{GivesTypes, KeepsShape, Swaps};
ghost use Rattle.bds_code.specs.MethodRows.{applied, arguments_taken, exchanged, method};
ghost use Rattle.bds_code.specs.Operands.{all_taken, given, taken};

use crate::effects::EffectFault;
use crate::operands::{Exchange, give, give_list, take, take_list};
use bds_value::{Method, MethodRow, Part, Takes, Ty, arguments_of, row_at};
use std::alloc::Global;

/// Changes the operands as a method does.
pub(crate) fn method(alloc: Global, shape: &[Ty], number: u8) -> Result<Exchange, EffectFault>
    ensures { Swaps (method number (reverse shape.now)) shape.now result }
{
    let Some(count) = arguments_of(Method::Plain(number)) else {
        return Err(EffectFault::Number(number as u32));
    };
    let Some(receiver) = below(shape, count as usize) else {
        return Err(EffectFault::Needs);
    };
    match row_at(receiver, Method::Plain(number)) {
        Some(row) => apply(alloc, shape, receiver, row),
        None => Err(EffectFault::Needs),
    }
}

/// The operand below so many.
fn below(shape: &[Ty], count: usize) -> Option<&Ty>
    ensures { option_copied result ≡ slice_get (reverse shape.now) count }
{
    if count < shape.len() {
        Some(&shape[shape.len() - 1 - count])
    } else {
        None
    }
}

/// Takes the arguments of a method and the receiver below them, and gives its result.
fn apply(
    alloc: Global,
    shape: &[Ty],
    receiver: &Ty,
    row: MethodRow,
) -> Result<Exchange, EffectFault>
    ensures { Swaps (applied receiver.now row (reverse shape.now)) shape.now result }
{
    match receiver {
        Ty::List(item) => exchange(alloc, shape, receiver, item.get(), row),
        Ty::Map(value) => exchange(alloc, shape, receiver, value.get(), row),
        Ty::Bool | Ty::Int | Ty::Text | Ty::Void => {
            exchange(alloc, shape, receiver, &Ty::Void, row)
        }
    }
}

/// The same for a receiver whose items or values have a type.
fn exchange(
    alloc: Global,
    shape: &[Ty],
    receiver: &Ty,
    item: &Ty,
    row: MethodRow,
) -> Result<Exchange, EffectFault>
    ensures { Swaps (exchanged receiver.now item.now row (reverse shape.now)) shape.now result }
{
    let count = take_arguments(shape, item, row.takes)?;
    let keeps = take(shape, count, receiver)?;
    give_part(alloc, keeps, item, row.gives)
}

/// Takes the arguments of a method.
pub(crate) fn take_arguments(shape: &[Ty], item: &Ty, takes: Takes) -> Result<usize, EffectFault>
    ensures { KeepsShape (arguments_taken item.now takes (reverse shape.now)) shape.now result }
{
    match takes {
        Takes::Nothing => Ok(shape.len()),
        Takes::One(part) => take_part(shape, shape.len(), item, part),
        Takes::Two(first, last) => {
            let count = take_part(shape, shape.len(), item, last)?;
            take_part(shape, count, item, first)
        }
    }
}

/// Takes the last of the first operands, of the type that a part of a row stands for.
fn take_part(shape: &[Ty], count: usize, item: &Ty, part: Part) -> Result<usize, EffectFault>
    requires { count ≤ length shape.now }
    ensures { KeepsShape (taken (part_ty item.now part) (reverse (take count shape.now))) shape.now result }
{
    match part {
        Part::Bool => take(shape, count, &Ty::Bool),
        Part::Int => take(shape, count, &Ty::Int),
        Part::Text => take(shape, count, &Ty::Text),
        Part::Texts => take_list(shape, count, &Ty::Text),
        Part::Item => take(shape, count, item),
        Part::Items => take_list(shape, count, item),
    }
}

/// Keeps so many operands, and gives what a row gives.
fn give_part(
    alloc: Global,
    keeps: usize,
    item: &Ty,
    gives: Option<Part>,
) -> Result<Exchange, EffectFault>
    ensures { GivesTypes (given (gives_ty item.now gives)) keeps result }
{
    match gives {
        Some(Part::Bool) => give(alloc, keeps, &Ty::Bool),
        Some(Part::Int) => give(alloc, keeps, &Ty::Int),
        Some(Part::Text) => give(alloc, keeps, &Ty::Text),
        Some(Part::Texts) => give_list(alloc, keeps, &Ty::Text),
        Some(Part::Item) => give(alloc, keeps, item),
        Some(Part::Items) => give_list(alloc, keeps, item),
        None => give(alloc, keeps, &Ty::Void),
    }
}
