//! Operands taken from the top of a list of types.
ghost use Rattle.std.specs.Prelude.{◌≡◌, ◌≤◌, length, reverse, replicate, take, Ok, IfOk};
ghost use Rattle.std.specs.Option.{option_copied};
ghost use Rattle.bds_value.specs.declared.value.Ty.{out-Ty};
ghost use Rattle.bds_value.specs.Types.{same_ty, is_void};
ghost use Rattle.bds_code.specs.Effects.{KeepsShape, TakesLast, GivesTypes, Swaps, ChangesShape, TakesItem};
ghost use Rattle.bds_code.specs.Operands.{any_taken, taken, all_taken, given, pair_taken, pairs_taken, swapped, value_ty};

use crate::effects::EffectFault;
use bds_value::{NoMemory, Shared, Ty, Types, copy_ty, is_void, same_ty};
use std::alloc::Global;

/// What becomes of operands: how many of the first ones are kept, and what is put behind them.
#[derive(Debug, Drop)]
pub(crate) struct Exchange {
    pub keeps: usize,
    pub gives: Option<Ty>,
}

/// The last of the first operands.
pub(crate) fn last(shape: &[Ty], count: usize) -> Option<&Ty>
    requires { count ≤ length shape.now }
    ensures { TakesLast (any_taken (reverse (take count shape.now))) shape.now count (option_copied result) }
{
    if count == 0 {
        return None;
    }
    let ty = &shape[count - 1];
    if is_void(ty) { None } else { Some(ty) }
}

/// Takes the last of the first operands, which has to be of a type, and gives how many are left.
pub(crate) fn take(shape: &[Ty], count: usize, ty: &Ty) -> Result<usize, EffectFault>
    requires { count ≤ length shape.now }
    ensures { KeepsShape (taken ty.now (reverse (take count shape.now))) shape.now result }
{
    match last(shape, count) {
        Some(last) if same_ty(ty, last) => Ok(count - 1),
        _ => Err(EffectFault::Needs),
    }
}

/// Takes the last operands, which have to be of these types.
pub(crate) fn take_all(shape: &[Ty], count: usize, types: &[Ty]) -> Result<usize, EffectFault>
    requires { count ≤ length shape.now }
    ensures { KeepsShape (all_taken (reverse types.now) (reverse (take count shape.now))) shape.now result }
{
    let mut keeps = count;
    let mut left = types;
    while let [rest @ .., last] = left {
        keeps = take(shape, keeps, last)?;
        left = rest;
    }
    Ok(keeps)
}

/// Keeps so many operands, and gives one of a type; `Void` has none.
pub(crate) fn give(alloc: Global, keeps: usize, ty: &Ty) -> Result<Exchange, EffectFault>
    ensures { GivesTypes (given ty.now) keeps result }
{
    if is_void(ty) {
        return Ok(Exchange { keeps, gives: None });
    }
    match copy_ty(alloc, ty) {
        Ok(ty) => Ok(Exchange {
            keeps,
            gives: Some(ty),
        }),
        Err(_) => Err(EffectFault::NoMemory),
    }
}

/// Takes operands of these types, and gives one of that type.
pub(crate) fn swap(
    alloc: Global,
    shape: &[Ty],
    takes: &[Ty],
    gives: &Ty,
) -> Result<Exchange, EffectFault>
    ensures { Swaps (swapped (reverse takes.now) gives.now (reverse shape.now)) shape.now result }
{
    let keeps = take_all(shape, shape.len(), takes)?;
    give(alloc, keeps, gives)
}

/// Takes operands of these types, and gives a list of those items.
pub(crate) fn swap_list(
    alloc: Global,
    shape: &[Ty],
    takes: &[Ty],
    item: &Ty,
) -> Result<Exchange, EffectFault>
    ensures { Swaps (swapped (reverse takes.now) (Ty.List item.now) (reverse shape.now)) shape.now result }
{
    let keeps = take_all(shape, shape.len(), takes)?;
    give_list(alloc, keeps, item)
}

/// A type, unless it is `Void`.
pub(crate) fn value_ty(ty: &Ty) -> Option<&Ty>
    ensures { TakesItem (value_ty ty.now) (option_copied result) }
{
    if is_void(ty) { None } else { Some(ty) }
}

/// Whether a type is that of lists of these items.
#[tactic(auto, using(bds_value::proofs::TypeLaws::same_rules))]
fn is_list_of(item: &Ty, list: &Ty) -> bool
    ensures { result ≡ same_ty (Ty.List item.now) list.now }
{
    match list {
        Ty::List(other) => same_ty(item, other.get()),
        _ => false,
    }
}

/// Takes the last of the first operands, which has to be a list of these items.
pub(crate) fn take_list(shape: &[Ty], count: usize, item: &Ty) -> Result<usize, EffectFault>
    requires { count ≤ length shape.now }
    ensures { KeepsShape (taken (Ty.List item.now) (reverse (take count shape.now))) shape.now result }
{
    match last(shape, count) {
        Some(last) if is_list_of(item, last) => Ok(count - 1),
        _ => Err(EffectFault::Needs),
    }
}

/// Takes so many operands of one type.
pub(crate) fn take_times(shape: &[Ty], ty: &Ty, times: u32) -> Result<usize, EffectFault>
    ensures { KeepsShape (all_taken (replicate times ty.now) (reverse shape.now)) shape.now result }
{
    let mut keeps = shape.len();
    let mut left = times;
    while left > 0 {
        keeps = take(shape, keeps, ty)?;
        left -= 1;
    }
    Ok(keeps)
}

fn take_pair(shape: &[Ty], count: usize, ty: &Ty) -> Result<usize, EffectFault>
    requires { count ≤ length shape.now }
    ensures { KeepsShape (pair_taken ty.now (reverse (take count shape.now))) shape.now result }
{
    let keys = take(shape, count, ty)?;
    take(shape, keys, &Ty::Text)
}

/// Takes so many pairs of a key and a value of this type.
pub(crate) fn take_pairs(shape: &[Ty], ty: &Ty, times: u32) -> Result<usize, EffectFault>
    ensures { KeepsShape (pairs_taken times ty.now (reverse shape.now)) shape.now result }
{
    let mut keeps = shape.len();
    let mut left = times;
    while left > 0 {
        keeps = take_pair(shape, keeps, ty)?;
        left -= 1;
    }
    Ok(keeps)
}

/// Keeps so many operands, and gives a list of these items.
#[tactic(auto, using(crate::proofs::GivenLaws::given_rules))]
pub(crate) fn give_list(alloc: Global, keeps: usize, item: &Ty) -> Result<Exchange, EffectFault>
    ensures { GivesTypes (given (Ty.List item.now)) keeps result }
{
    let Ok(item) = shared(alloc, item) else {
        return Err(EffectFault::NoMemory);
    };
    Ok(Exchange {
        keeps,
        gives: Some(Ty::List(item)),
    })
}

/// Keeps so many operands, and gives a map of these values.
#[tactic(auto, using(crate::proofs::GivenLaws::given_rules))]
pub(crate) fn give_map(alloc: Global, keeps: usize, value: &Ty) -> Result<Exchange, EffectFault>
    ensures { GivesTypes (given (Ty.Map value.now)) keeps result }
{
    let Ok(value) = shared(alloc, value) else {
        return Err(EffectFault::NoMemory);
    };
    Ok(Exchange {
        keeps,
        gives: Some(Ty::Map(value)),
    })
}

fn shared(alloc: Global, ty: &Ty) -> Result<Shared<Ty>, NoMemory>
    ensures { IfOk result (λ b. b ≡ ty.now) }
{
    let ty = copy_ty(alloc, ty)?;
    Shared::of(alloc, ty)
}
