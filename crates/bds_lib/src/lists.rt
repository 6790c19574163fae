//! Methods of lists.
ghost use Rattle.std.specs.Prelude.{◌≡◌, drop, reverse, IfOk, Ok};
ghost use Rattle.std.specs.List.{list_any};
ghost use Rattle.bds_value.specs.declared.value.Ty.TheVariants as ty;
ghost use Rattle.bds_value.specs.declared.value.Value.{out-Value};
ghost use Rattle.bds_value.specs.declared.value.Ty.{out-Ty};
ghost use Rattle.bds_lib.specs.Lists.{is_same, head, is_earlier, is_less, item_number, list_alone, list_with, join_with, sort_at, sorted};
ghost use Rattle.bds_lib.specs.Results.{short_list, OrNoMemory};

use crate::faults::LibFault;
use crate::joins::{item_text, join};
use crate::places::counted;
use bds_value::method_numbers::{HAS, HEAD, IS_EMPTY, JOIN, LIST_SIZE, REVERSE, SORT, TAIL};
use bds_value::{Items, Listed, MAX_ITEMS, NoMemory, Ty, Value, copy, copy_ty, sharing};
use std::alloc::Global;

/// Whether two values are the same bool, number or text.
pub fn is_same(left: &Value, right: &Value) -> bool
    ensures { result ≡ is_same left.now right.now }
{
    match (left, right) {
        (Value::Bool(a), Value::Bool(b)) => a.cmp(b).is_eq(),
        (Value::Int(a), Value::Int(b)) => a == b,
        (Value::Text(a), Value::Text(b)) => a.as_slice() == b.as_slice(),
        _ => false,
    }
}

fn has(items: &[Value], item: &Value) -> bool
    ensures { result ≡ list_any (λ v. is_same v item.now) items.now }
{
    for other in items {
        if is_same(other, item) {
            return true;
        }
    }
    false
}

fn copy_values(alloc: Global, items: &[Value]) -> Result<Items, NoMemory>
    ensures { IfOk result (λ copied. copied ≡ items.now) }
{
    let mut copies = Listed::new(alloc);
    for item in items {
        copies.push(copy(alloc, item)?)?;
    }
    Ok(copies)
}

/// A list of items of a type.
pub fn list_of(alloc: Global, ty: &Ty, items: Items) -> Result<Value, LibFault>
    ensures { OrNoMemory (Ok (Value.List ty.now items)) result }
{
    let ty = copy_ty(alloc, ty)?;
    Ok(sharing::list_of(alloc, ty, items)?)
}

/// A list of texts, or `TooLong` with the number of items where they are above the limit.
pub fn text_list(alloc: Global, items: Items) -> Result<Value, LibFault>
    ensures { OrNoMemory (short_list ty.Text items) result }
{
    let count = items.len() as u64;
    if count > MAX_ITEMS {
        return Err(LibFault::TooLong(count));
    }
    Ok(sharing::list_of(alloc, Ty::Text, items)?)
}

fn head(alloc: Global, items: &[Value]) -> Result<Value, LibFault>
    ensures { OrNoMemory (head items.now) result }
{
    match items {
        [] => Err(LibFault::NoIndex(0, 0)),
        [first, ..] => Ok(copy(alloc, first)?),
    }
}

fn tail(items: &[Value]) -> &[Value]
    ensures { result.now ≡ drop 1 items.now }
{
    match items {
        [] => items,
        [_, rest @ ..] => rest,
    }
}

fn reversed(alloc: Global, items: &[Value]) -> Result<Items, NoMemory>
    ensures { IfOk result (λ turned. turned ≡ reverse items.now) }
{
    let mut values = copy_values(alloc, items)?.into_vec();
    values.reverse();
    Ok(Listed::from_vec(values))
}

/// The number that an item of a list of numbers is.
fn item_number(item: &Value) -> i64
    ensures { result ≡ item_number item.now }
{
    match item {
        Value::Int(number) => *number,
        _ => 0,
    }
}

fn sorted_numbers(alloc: Global, items: &[Value]) -> Result<Items, NoMemory>
    ensures { IfOk result (λ found. found ≡ sorted is_less items.now) }
{
    let mut values = copy_values(alloc, items)?.into_vec();
    values.sort_by(|a, b| item_number(a).cmp(&item_number(b)))?;
    Ok(Listed::from_vec(values))
}

fn sorted_texts(alloc: Global, items: &[Value]) -> Result<Items, NoMemory>
    ensures { IfOk result (λ found. found ≡ sorted is_earlier items.now) }
{
    let mut values = copy_values(alloc, items)?.into_vec();
    values.sort_by(|a, b| item_text(a).cmp(&item_text(b)))?;
    Ok(Listed::from_vec(values))
}

fn sort(alloc: Global, ty: &Ty, items: &[Value]) -> Result<Value, LibFault>
    ensures { OrNoMemory (sort_at (out-Ty ty.now) ty.now items.now) result }
{
    match ty {
        Ty::Int => list_of(alloc, ty, sorted_numbers(alloc, items)?),
        Ty::Text => list_of(alloc, ty, sorted_texts(alloc, items)?),
        _ => Ok(Value::Bool(false)),
    }
}

/// The methods of a list without an argument.
pub fn list_alone(alloc: Global, method: u8, ty: &Ty, items: &[Value]) -> Result<Value, LibFault>
    ensures { OrNoMemory (list_alone method ty.now items.now) result }
{
    match method {
        LIST_SIZE => Ok(Value::Int(counted(items.len()))),
        IS_EMPTY => Ok(Value::Bool(items.is_empty())),
        HEAD => head(alloc, items),
        TAIL => list_of(alloc, ty, copy_values(alloc, tail(items))?),
        REVERSE => list_of(alloc, ty, reversed(alloc, items)?),
        SORT => sort(alloc, ty, items),
        _ => Ok(Value::Bool(false)),
    }
}

/// The methods of a list with an argument.
pub fn list_with(
    alloc: Global,
    method: u8,
    items: &[Value],
    argument: &Value,
) -> Result<Value, LibFault>
    ensures { OrNoMemory (list_with method items.now argument.now) result }
{
    match method {
        HAS => Ok(Value::Bool(has(items, argument))),
        JOIN => join_with(alloc, items, argument),
        _ => Ok(Value::Bool(false)),
    }
}

fn join_with(alloc: Global, items: &[Value], separator: &Value) -> Result<Value, LibFault>
    ensures { OrNoMemory (join_with items.now (out-Value separator.now)) result }
{
    match separator {
        Value::Text(separator) => join(alloc, items, separator.as_slice()),
        _ => Ok(Value::Bool(false)),
    }
}
