//! The values of types before anything is stored, at the end of the values of a thread.
ghost use Rattle.std.specs.Prelude.{◌≡◌, ◌≢◌, ◌<◌, ◌≤◌, ◌+◌, [], ◌∷◌, ◌++◌, map, length, take, vec_len, vec_capacity, IfOk, IfSome, OnOk, OnErr};
ghost use Rattle.std.specs.List.{All};
ghost use Rattle.bds_value.specs.declared.TheConstants.{MAX_COUNT};
ghost use Rattle.bds_value.specs.declared.value.Value.{Value};
ghost use Rattle.bds_value.specs.declared.value.Ty.TheVariants.{Void};
ghost use Rattle.bds_value.specs.Value.{default_of};

use bds_value::{Items, Listed, MAX_COUNT, NoMemory, Shared, Ty, Value, copy_ty, default_of};
use std::alloc::Global;

/// A list without items. Those that were made before are shared.
fn empty_list(
    alloc: Global,
    no_items: &mut Option<Shared<Items>>,
    item: &Ty,
) -> Result<Value, NoMemory>
    ensures { IfOk result (λ list. list ≡ Value.List item.now []) }
{
    let item = copy_ty(alloc, item)?;
    match no_items {
        Some(items) if items.get().len() == 0 => Ok(Value::List(item, items.share()?)),
        _ => {
            let items = Shared::of(alloc, Listed::new(alloc))?;
            let list = Value::List(item, items.share()?);
            *no_items = Some(items);
            Ok(list)
        }
    }
}

/// The value of a type before anything is stored.
fn blank(alloc: Global, no_items: &mut Option<Shared<Items>>, ty: &Ty) -> Result<Value, NoMemory>
    requires { ty.now ≢ Void }
    ensures { IfOk result (λ value. value ≡ default_of ty.now) }
{
    match ty {
        Ty::List(item) => empty_list(alloc, no_items, item.get()),
        _ => default_of(alloc, ty),
    }
}

/// A list of texts without items, where one that was made before is shared without a call.
#[inline(always)]
fn shared_list(no_items: &Option<Shared<Items>>, item: &Ty) -> Option<Value>
    ensures { IfSome result (λ list. list ≡ Value.List item.now []) }
{
    match no_items {
        Some(items) if items.get().len() == 0 => match item {
            Ty::Text => match items.share() {
                Ok(items) => Some(Value::List(Ty::Text, items)),
                Err(_) => None,
            },
            _ => None,
        },
        _ => None,
    }
}

/// Adds the value of a type that isn't made in place, where there is room for it.
#[inline(never)]
fn add_made(
    alloc: Global,
    no_items: &mut Option<Shared<Items>>,
    values: &mut Vec<Value>,
    ty: &Ty,
) -> Result<(), NoMemory>
    requires value { ty.now ≢ Void }
    requires room { vec_len values.old < vec_capacity values.old }
    ensures ok { OnOk result (values.new.items ≡ values.old.items ++ default_of ty.now ∷ []) }
    ensures err { OnErr result (values.new.items ≡ values.old.items) }
    ensures capacity { vec_capacity values.new ≡ vec_capacity values.old }
{
    match blank(alloc, no_items, ty) {
        Ok(value) => {
            values.push_reserved(value);
            Ok(())
        }
        Err(NoMemory) => Err(NoMemory),
    }
}

/// Adds an empty list, where there is room for it.
#[inline(always)]
fn add_list(
    alloc: Global,
    no_items: &mut Option<Shared<Items>>,
    values: &mut Vec<Value>,
    ty: &Ty,
    item: &Ty,
) -> Result<(), NoMemory>
    requires list { ty.now ≡ Ty.List item.now }
    requires room { vec_len values.old < vec_capacity values.old }
    ensures ok { OnOk result (values.new.items ≡ values.old.items ++ default_of ty.now ∷ []) }
    ensures err { OnErr result (values.new.items ≡ values.old.items) }
    ensures capacity { vec_capacity values.new ≡ vec_capacity values.old }
{
    match shared_list(no_items, item) {
        Some(list) => {
            values.push_reserved(list);
            Ok(())
        }
        None => add_made(alloc, no_items, values, ty),
    }
}

/// Adds the value of a type before anything is stored, where there is room for it.
#[inline(always)]
fn add_blank(
    alloc: Global,
    no_items: &mut Option<Shared<Items>>,
    values: &mut Vec<Value>,
    ty: &Ty,
) -> Result<(), NoMemory>
    requires value { ty.now ≢ Void }
    requires room { vec_len values.old < vec_capacity values.old }
    ensures ok { OnOk result (values.new.items ≡ values.old.items ++ default_of ty.now ∷ []) }
    ensures err { OnErr result (values.new.items ≡ values.old.items) }
    ensures capacity { vec_capacity values.new ≡ vec_capacity values.old }
{
    match ty {
        Ty::Bool => {
            values.push_reserved(Value::Bool(false));
            Ok(())
        }
        Ty::Int => {
            values.push_reserved(Value::Int(0));
            Ok(())
        }
        Ty::Text => {
            values.push_reserved(Value::Text(Listed::new(alloc)));
            Ok(())
        }
        Ty::List(item) => add_list(alloc, no_items, values, ty, item.get()),
        Ty::Map(_) => add_made(alloc, no_items, values, ty),
        Ty::Void => unreachable!(),
    }
}

/// Adds the values of types before anything is stored, where there is room. A refused call leaves some of them.
#[inline(always)]
fn fill(
    alloc: Global,
    no_items: &mut Option<Shared<Items>>,
    values: &mut Vec<Value>,
    types: &[Ty],
) -> Result<(), NoMemory>
    requires values { All (λ ty. ty ≢ Void) types.now }
    requires room { vec_len values.old + length types.now ≤ vec_capacity values.old }
    ensures ok { OnOk result (values.new.items ≡ values.old.items ++ map default_of types.now) }
    ensures err { OnErr result (take (length values.old.items) values.new.items ≡ values.old.items) }
{
    for ty in types {
        add_blank(alloc, no_items, values, ty)?;
    }
    Ok(())
}

/// Adds the values of types before anything is stored, all of them or none.
#[inline(always)]
fn fill_whole(
    alloc: Global,
    no_items: &mut Option<Shared<Items>>,
    values: &mut Vec<Value>,
    types: &[Ty],
) -> Result<(), NoMemory>
    requires values { All (λ ty. ty ≢ Void) types.now }
    requires room { vec_len values.old + length types.now ≤ vec_capacity values.old }
    ensures ok { OnOk result (values.new.items ≡ values.old.items ++ map default_of types.now) }
    ensures err { OnErr result (values.new.items ≡ values.old.items) }
{
    let before = values.len();
    match fill(alloc, no_items, values, types) {
        Ok(()) => Ok(()),
        Err(NoMemory) => {
            values.truncate(before);
            Err(NoMemory)
        }
    }
}

/// Adds the values of types before anything is stored to those that begin at a place, where 32 bits can count them. A
/// refused call leaves the values as they were.
#[inline(always)]
pub(crate) fn add_blanks(
    alloc: Global,
    no_items: &mut Option<Shared<Items>>,
    values: &mut Vec<Value>,
    begin: usize,
    types: &[Ty],
) -> Result<(), NoMemory>
    requires values { All (λ ty. ty ≢ Void) types.now }
    requires begin { begin ≤ length values.old.items }
    ensures ok { OnOk result ((values.new.items ≡ values.old.items ++ map default_of types.now) × (length values.old.items + length types.now ≤ begin + MAX_COUNT)) }
    ensures err { OnErr result (values.new.items ≡ values.old.items) }
{
    if types.len() as u64 > MAX_COUNT
        || ((values.len() - begin) as u64) > MAX_COUNT - types.len() as u64
    {
        return Err(NoMemory);
    }
    match values.reserve(types.len()) {
        Ok(()) => fill_whole(alloc, no_items, values, types),
        Err(_) => Err(NoMemory),
    }
}
