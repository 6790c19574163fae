//! The rows of instructions on variables, texts, lists and maps.
ghost use Rattle.std.specs.Prelude.{◌≡◌, ◌≤◌, length, reverse, replicate, take, Ok, slice_get};
ghost use Rattle.std.specs.Option.{option_copied};
ghost use Rattle.bds_value.specs.declared.value.Ty.{out-Ty};
ghost use Rattle.bds_value.specs.Types.{is_plain, is_ordered};
ghost use Rattle.bds_code.specs.Effects.{KeepsShape, Swaps, TakesItem};
ghost use Rattle.bds_code.specs.Operands.{all_taken, item_of, entry_of, swapped};
ghost use Rattle.bds_code.specs.Row.{slot_ty, variable_ty, loaded, stored, dropped, shown, item_added, lists_joined, compared, item_taken, entry_taken, map_made, called, returned, asked};

use crate::effects::EffectFault;
use crate::operands::{
    Exchange, give, give_list, give_map, last, swap, take, take_list, take_pairs, take_times,
    value_ty,
};
use crate::unit::{Function, Unit};
use bds_value::{Ty, is_ordered, is_plain, is_void};
use std::alloc::Global;

/// The type of the items of a list.
pub(crate) fn item_of(ty: &Ty) -> Option<&Ty>
    ensures { TakesItem (item_of ty.now) (option_copied result) }
{
    match ty {
        Ty::List(item) => value_ty(item.get()),
        _ => None,
    }
}

/// The type of the values of a map.
pub(crate) fn entry_of(ty: &Ty) -> Option<&Ty>
    ensures { TakesItem (entry_of ty.now) (option_copied result) }
{
    match ty {
        Ty::Map(value) => value_ty(value.get()),
        _ => None,
    }
}

/// The type of a slot.
pub fn slot(function: &Function, slot: u16) -> Option<&Ty>
    ensures { option_copied result ≡ slot_ty function.now slot }
{
    let slot = slot as usize;
    let params = function.params.as_slice();
    if slot < params.len() {
        params.get(slot)
    } else {
        function.locals.as_slice().get(slot - params.len())
    }
}

/// The type of a slot or global.
pub(crate) fn variable<'a>(
    unit: &'a Unit,
    function: &'a Function,
    global: bool,
    number: u16,
) -> Option<&'a Ty>
    ensures { option_copied result ≡ variable_ty unit.now function.now global number }
{
    if global {
        unit.globals.as_slice().get(number as usize)
    } else {
        slot(function, number)
    }
}

pub(crate) fn load(
    alloc: Global,
    shape: &[Ty],
    variable: Option<&Ty>,
    number: u16,
) -> Result<Exchange, EffectFault>
    ensures { Swaps (loaded (option_copied variable.entry) number (reverse shape.now)) shape.now result }
{
    match variable {
        Some(ty) => give(alloc, shape.len(), ty),
        None => Err(EffectFault::Number(number as u32)),
    }
}

pub(crate) fn store(
    shape: &[Ty],
    variable: Option<&Ty>,
    number: u16,
) -> Result<Exchange, EffectFault>
    ensures { Swaps (stored (option_copied variable.entry) number (reverse shape.now)) shape.now result }
{
    match variable {
        Some(ty) => {
            let keeps = take(shape, shape.len(), ty)?;
            Ok(Exchange { keeps, gives: None })
        }
        None => Err(EffectFault::Number(number as u32)),
    }
}

pub(crate) fn drop_any(shape: &[Ty]) -> Result<Exchange, EffectFault>
    ensures { Swaps (dropped (reverse shape.now)) shape.now result }
{
    match last(shape, shape.len()) {
        Some(_) => Ok(Exchange {
            keeps: shape.len() - 1,
            gives: None,
        }),
        None => Err(EffectFault::Needs),
    }
}

pub(crate) fn show(alloc: Global, shape: &[Ty]) -> Result<Exchange, EffectFault>
    ensures { Swaps (shown (reverse shape.now)) shape.now result }
{
    match last(shape, shape.len()) {
        Some(_) => give(alloc, shape.len() - 1, &Ty::Text),
        None => Err(EffectFault::Needs),
    }
}

/// Adds an item to a list.
pub(crate) fn add_item(alloc: Global, shape: &[Ty]) -> Result<Exchange, EffectFault>
    ensures { Swaps (item_added (reverse shape.now)) shape.now result }
{
    let Some(item) = last(shape, shape.len()) else {
        return Err(EffectFault::Needs);
    };
    let keeps = take_list(shape, shape.len() - 1, item)?;
    give_list(alloc, keeps, item)
}

/// Joins two lists.
pub(crate) fn join_lists(alloc: Global, shape: &[Ty]) -> Result<Exchange, EffectFault>
    ensures { Swaps (lists_joined (reverse shape.now)) shape.now result }
{
    let Some(list) = last(shape, shape.len()) else {
        return Err(EffectFault::Needs);
    };
    if item_of(list).is_none() {
        return Err(EffectFault::Needs);
    }
    let keeps = take(shape, shape.len() - 1, list)?;
    give(alloc, keeps, list)
}

/// Compares two operands of a type whose values may be compared.
pub(crate) fn equal(alloc: Global, shape: &[Ty]) -> Result<Exchange, EffectFault>
    ensures { Swaps (compared is_plain (reverse shape.now)) shape.now result }
{
    match last(shape, shape.len()) {
        Some(ty) if is_plain(ty) => {
            let keeps = take(shape, shape.len() - 1, ty)?;
            give(alloc, keeps, &Ty::Bool)
        }
        _ => Err(EffectFault::Needs),
    }
}

/// Compares two operands of a type whose values have an order.
pub(crate) fn less(alloc: Global, shape: &[Ty]) -> Result<Exchange, EffectFault>
    ensures { Swaps (compared is_ordered (reverse shape.now)) shape.now result }
{
    match last(shape, shape.len()) {
        Some(ty) if is_ordered(ty) => {
            let keeps = take(shape, shape.len() - 1, ty)?;
            give(alloc, keeps, &Ty::Bool)
        }
        _ => Err(EffectFault::Needs),
    }
}

/// Makes a list of so many operands.
pub(crate) fn make_list(
    alloc: Global,
    shape: &[Ty],
    ty: &Ty,
    count: u32,
) -> Result<Exchange, EffectFault>
    ensures { Swaps (swapped (replicate count ty.now) (Ty.List ty.now) (reverse shape.now)) shape.now result }
{
    let keeps = take_times(shape, ty, count)?;
    give_list(alloc, keeps, ty)
}

/// Makes a map of so many pairs of operands.
pub(crate) fn make_map(
    alloc: Global,
    shape: &[Ty],
    ty: &Ty,
    count: u32,
) -> Result<Exchange, EffectFault>
    ensures { Swaps (map_made ty.now count (reverse shape.now)) shape.now result }
{
    let keeps = take_pairs(shape, ty, count)?;
    give_map(alloc, keeps, ty)
}

/// Takes an index and a list, and gives an item.
pub(crate) fn take_item(alloc: Global, shape: &[Ty]) -> Result<Exchange, EffectFault>
    ensures { Swaps (item_taken (reverse shape.now)) shape.now result }
{
    let count = take(shape, shape.len(), &Ty::Int)?;
    match last(shape, count) {
        Some(list) => match item_of(list) {
            Some(item) => give(alloc, count - 1, item),
            None => Err(EffectFault::Needs),
        },
        None => Err(EffectFault::Needs),
    }
}

/// Takes a key and a map, and gives a value.
pub(crate) fn take_entry(alloc: Global, shape: &[Ty]) -> Result<Exchange, EffectFault>
    ensures { Swaps (entry_taken (reverse shape.now)) shape.now result }
{
    let count = take(shape, shape.len(), &Ty::Text)?;
    match last(shape, count) {
        Some(map) => match entry_of(map) {
            Some(value) => give(alloc, count - 1, value),
            None => Err(EffectFault::Needs),
        },
        None => Err(EffectFault::Needs),
    }
}

/// Takes the parameters of a function, and gives its result.
pub(crate) fn call(
    alloc: Global,
    unit: &Unit,
    shape: &[Ty],
    callee: u32,
) -> Result<Exchange, EffectFault>
    ensures { Swaps (called unit.now callee (λ f. f.ret) (reverse shape.now)) shape.now result }
{
    match unit.functions.as_slice().get(callee as usize) {
        Some(f) => swap(alloc, shape, f.params.as_slice(), &f.ret),
        None => Err(EffectFault::Number(callee)),
    }
}

/// Takes the parameters of a function, and gives an id.
pub(crate) fn spawn(
    alloc: Global,
    unit: &Unit,
    shape: &[Ty],
    callee: u32,
) -> Result<Exchange, EffectFault>
    ensures { Swaps (called unit.now callee (λ f. Ty.Text) (reverse shape.now)) shape.now result }
{
    match unit.functions.as_slice().get(callee as usize) {
        Some(f) => swap(alloc, shape, f.params.as_slice(), &Ty::Text),
        None => Err(EffectFault::Number(callee)),
    }
}

/// Takes the result of a function, which is the only operand.
pub(crate) fn leave(shape: &[Ty], ret: &Ty) -> Result<Exchange, EffectFault>
    ensures { Swaps (returned ret.now (reverse shape.now)) shape.now result }
{
    let keeps = if is_void(ret) {
        shape.len()
    } else {
        take(shape, shape.len(), ret)?
    };
    if keeps == 0 {
        Ok(Exchange { keeps, gives: None })
    } else {
        Err(EffectFault::Needs)
    }
}

/// Asks a question on a file.
pub(crate) fn ask(alloc: Global, shape: &[Ty], question: u8) -> Result<Exchange, EffectFault>
    ensures { Swaps (asked question (reverse shape.now)) shape.now result }
{
    match question {
        0 | 1 => swap(alloc, shape, &[Ty::Text], &Ty::Bool),
        2 => swap(alloc, shape, &[Ty::Text], &Ty::Int),
        _ => Err(EffectFault::Number(question as u32)),
    }
}
