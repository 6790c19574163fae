//! The results of operators.
ghost use Rattle.std.specs.Prelude.{◌≡◌, ◌++◌, [], ◌∷◌, OnOk, IfOk};
ghost use Rattle.bds_value.specs.declared.value.Value.{out-Value};
ghost use Rattle.bds_value.specs.Operators.{binary_of, holds, number_result, text_result, short_text, list_result, short_list, joined_result, OrNoMemory, Takes, result_type};
ghost use Rattle.bds_value.specs.Value.{type_of, IsWellFormed, IsOf};

use crate::arith::{add, div, mul, rem, sub};
use crate::copies::{copy, copy_items, copy_ty};
use crate::faults::OpFault;
use crate::listed::{Listed, NoMemory};
use crate::sharing::list_of;
use crate::value::{ByteText, Items, Op, Ty, Value};
use crate::{MAX_ITEMS, MAX_TEXT};
use std::alloc::Global;
use std::cmp::Ordering;

/// The result of an operator at two values. `Div` and `Rem` by 0 are `ZeroDivisor`, and a text or
/// list above its limit is `TooLong` with the length needed. Operands that the operator doesn't
/// take give false.
pub fn binary(alloc: Global, op: Op, left: &Value, right: &Value) -> Result<Value, OpFault>
    ensures value { OrNoMemory (binary_of op left.now right.now) result }
    ensures formed { IsWellFormed left.now → IsWellFormed right.now → Takes op (type_of left.now) (type_of right.now)
        → IfOk result (λ v. IsOf v (result_type op (type_of left.now))) }
{
    binary_value(alloc, op, left, right)
}

fn binary_value(alloc: Global, op: Op, left: &Value, right: &Value) -> Result<Value, OpFault>
    ensures { OrNoMemory (binary_of op left.now right.now) result }
{
    match (left, right) {
        (Value::List(ty, items), _) => binary_lists(alloc, op, ty, items.get(), right),
        (Value::Int(a), Value::Int(b)) => binary_numbers(op, *a, *b),
        (Value::Text(a), Value::Text(b)) => binary_texts(alloc, op, a, b),
        (Value::Bool(a), Value::Bool(b)) => Ok(Value::Bool(holds(op, a.cmp(b)))),
        _ => Ok(Value::Bool(false)),
    }
}

/// What a comparison says of operands in this order.
fn holds(op: Op, order: Ordering) -> bool
    ensures { result ≡ holds op order }
{
    match op {
        Op::Equal => order.is_eq(),
        Op::NotEqual => order.is_ne(),
        Op::Less => order.is_lt(),
        Op::LessEqual => order.is_le(),
        Op::Greater => order.is_gt(),
        Op::GreaterEqual => order.is_ge(),
        _ => false,
    }
}

fn binary_numbers(op: Op, a: i64, b: i64) -> Result<Value, OpFault>
    ensures { result ≡ number_result op a b }
{
    match op {
        Op::Add => Ok(Value::Int(add(a, b))),
        Op::Sub => Ok(Value::Int(sub(a, b))),
        Op::Mul => Ok(Value::Int(mul(a, b))),
        Op::Div if b == 0 => Err(OpFault::ZeroDivisor),
        Op::Div => Ok(Value::Int(div(a, b))),
        Op::Rem if b == 0 => Err(OpFault::ZeroDivisor),
        Op::Rem => Ok(Value::Int(rem(a, b))),
        _ => Ok(Value::Bool(holds(op, a.cmp(&b)))),
    }
}

fn binary_texts(alloc: Global, op: Op, a: &ByteText, b: &ByteText) -> Result<Value, OpFault>
    ensures { OrNoMemory (text_result op a.now b.now) result }
{
    match op {
        Op::Concat => concat(alloc, a.as_slice(), b.as_slice()),
        _ => Ok(Value::Bool(holds(op, a.as_slice().cmp(&b.as_slice())))),
    }
}

fn concat(alloc: Global, a: &[u8], b: &[u8]) -> Result<Value, OpFault>
    ensures { OrNoMemory (short_text (a.now ++ b.now)) result }
{
    let length = (a.len() as u64).saturating_add(b.len() as u64);
    if length > MAX_TEXT {
        return Err(OpFault::TooLong(length));
    }
    let mut out = Vec::new(alloc);
    if out.extend_from_slice(a).is_err() || out.extend_from_slice(b).is_err() {
        return Err(OpFault::NoMemory);
    }
    Ok(Value::Text(Listed::from_vec(out)))
}

fn binary_lists(
    alloc: Global,
    op: Op,
    ty: &Ty,
    items: &Items,
    right: &Value,
) -> Result<Value, OpFault>
    ensures { OrNoMemory (list_result op ty.now items.now right.now) result }
{
    match op {
        Op::ListAdd => append(alloc, ty, items, right),
        Op::ListCat => join(alloc, ty, items, right),
        _ => Ok(Value::Bool(false)),
    }
}

fn append(alloc: Global, ty: &Ty, items: &Items, item: &Value) -> Result<Value, OpFault>
    ensures { OrNoMemory (short_list ty.now (items.now ++ item.now ∷ [])) result }
{
    let length = (items.as_slice().len() as u64).saturating_add(1);
    if length > MAX_ITEMS {
        return Err(OpFault::TooLong(length));
    }
    let mut all = copy_items(alloc, items)?;
    all.push(copy(alloc, item)?)?;
    Ok(list_of(alloc, copy_ty(alloc, ty)?, all)?)
}

fn join(alloc: Global, ty: &Ty, items: &Items, right: &Value) -> Result<Value, OpFault>
    ensures { OrNoMemory (joined_result ty.now items.now (out-Value right.now)) result }
{
    match right {
        Value::List(_, more) => join_items(alloc, ty, items, more.get()),
        _ => Ok(Value::Bool(false)),
    }
}

fn join_items(alloc: Global, ty: &Ty, items: &Items, more: &Items) -> Result<Value, OpFault>
    ensures { OrNoMemory (short_list ty.now (items.now ++ more.now)) result }
{
    let length = (items.as_slice().len() as u64).saturating_add(more.as_slice().len() as u64);
    if length > MAX_ITEMS {
        return Err(OpFault::TooLong(length));
    }
    let mut all = copy_items(alloc, items)?;
    push_copies(alloc, &mut all, more)?;
    Ok(list_of(alloc, copy_ty(alloc, ty)?, all)?)
}

fn push_copies(alloc: Global, all: &mut Items, more: &Items) -> Result<(), NoMemory>
    ensures { OnOk result (all.new ≡ all.old ++ more.now) }
{
    for item in more.as_slice() {
        all.push(copy(alloc, item)?)?;
    }
    Ok(())
}
