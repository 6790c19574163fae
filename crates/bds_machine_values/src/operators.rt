//! Operators between operands that they use up: what can stay where it is, does.
ghost use Rattle.std.specs.Prelude.{◌≡◌, ◌++◌, [], ◌∷◌, IsSome, Some, OnOk};
ghost use Rattle.bds_value.specs.Operators.{short_text, short_list};
ghost use Rattle.bds_value.specs.RunFaults.{op_fault};
ghost use Rattle.bds_machine_values.specs.Faults.{Answers, outcome};
ghost use Rattle.bds_machine_values.specs.Results.{applied};

use crate::faults::{RowFault, fault_of, of_operator};
use bds_value::sharing::{taken_items, unshare_items};
use bds_value::{
    ByteText, Items, MAX_ITEMS, MAX_TEXT, NoMemory, Op, RunFault, Shared, Ty, Value, add, binary,
    div, mul, rem, sub,
};
use std::alloc::Global;

/// The result of an operator at two values that it takes.
pub(crate) fn operate(alloc: Global, op: Op, left: Value, right: Value) -> Result<Value, RowFault>
    requires { IsSome (applied op left right) }
    ensures { Answers (applied op left right) result }
{
    match (left, right) {
        (Value::Int(a), Value::Int(b)) => operate_numbers(alloc, op, a, b),
        (Value::Text(a), Value::Text(b)) => operate_texts(alloc, op, a, b),
        (Value::Bool(a), Value::Bool(b)) => operate_truths(alloc, op, a, b),
        (Value::List(ty, items), right) => operate_list(alloc, op, ty, items, right),
        _ => unreachable!(),
    }
}

fn operate_others(alloc: Global, op: Op, left: &Value, right: &Value) -> Result<Value, RowFault>
    requires { IsSome (applied op left.now right.now) }
    ensures { Answers (applied op left.now right.now) result }
{
    match binary(alloc, op, left, right) {
        Ok(value) => Ok(value),
        Err(fault) => Err(of_operator(alloc, fault)),
    }
}

pub(crate) fn operate_numbers(alloc: Global, op: Op, a: i64, b: i64) -> Result<Value, RowFault>
    requires { IsSome (applied op (Value.Int a) (Value.Int b)) }
    ensures { Answers (applied op (Value.Int a) (Value.Int b)) result }
{
    match op {
        Op::Add => Ok(Value::Int(add(a, b))),
        Op::Sub => Ok(Value::Int(sub(a, b))),
        Op::Mul => Ok(Value::Int(mul(a, b))),
        Op::Div if b == 0 => Err(fault_of(alloc, RunFault::ZeroDivisor)),
        Op::Div => Ok(Value::Int(div(a, b))),
        Op::Rem if b == 0 => Err(fault_of(alloc, RunFault::ZeroDivisor)),
        Op::Rem => Ok(Value::Int(rem(a, b))),
        Op::Concat | Op::ListAdd | Op::ListCat => unreachable!(),
        _ => operate_others(alloc, op, &Value::Int(a), &Value::Int(b)),
    }
}

fn operate_texts(alloc: Global, op: Op, a: ByteText, b: ByteText) -> Result<Value, RowFault>
    requires { IsSome (applied op (Value.Text a) (Value.Text b)) }
    ensures { Answers (applied op (Value.Text a) (Value.Text b)) result }
{
    match op {
        Op::Concat => append(alloc, a, &b),
        Op::Add | Op::Sub | Op::Mul | Op::Div | Op::Rem | Op::ListAdd | Op::ListCat => {
            unreachable!()
        }
        _ => operate_others(alloc, op, &Value::Text(a), &Value::Text(b)),
    }
}

fn operate_truths(alloc: Global, op: Op, a: bool, b: bool) -> Result<Value, RowFault>
    requires { IsSome (applied op (Value.Bool a) (Value.Bool b)) }
    ensures { Answers (applied op (Value.Bool a) (Value.Bool b)) result }
{
    match op {
        Op::Equal | Op::NotEqual => { operate_others(alloc, op, &Value::Bool(a), &Value::Bool(b)) }
        _ => unreachable!(),
    }
}

fn append(alloc: Global, mut text: ByteText, more: &ByteText) -> Result<Value, RowFault>
    ensures { Answers (outcome op_fault (short_text (text ++ more.now))) result }
{
    let length = (text.len() as u64).saturating_add(more.len() as u64);
    if length > MAX_TEXT {
        return Err(fault_of(alloc, RunFault::TooLong(length)));
    }
    text.append(more.as_slice())?;
    Ok(Value::Text(text))
}

fn operate_list(
    alloc: Global,
    op: Op,
    ty: Ty,
    items: Shared<Items>,
    right: Value,
) -> Result<Value, RowFault>
    requires { IsSome (applied op (Value.List ty items) right) }
    ensures { Answers (applied op (Value.List ty items) right) result }
{
    match op {
        Op::ListAdd => append_item(alloc, ty, items, right),
        Op::ListCat => append_list(alloc, ty, items, right),
        _ => unreachable!(),
    }
}

/// Puts an item at the end of a list, of which it gets a copy first where other values hold it, too.
fn put_item(alloc: Global, items: &mut Shared<Items>, item: Value) -> Result<(), NoMemory>
    ensures { OnOk result (items.new ≡ items.old ++ item ∷ []) }
{
    unshare_items(alloc, items)?;
    match items.get_mut() {
        Some(items) => items.push(item),
        None => Err(NoMemory),
    }
}

/// Puts items at the end of a list, of which it gets a copy first where other values hold it, too.
fn put_items(alloc: Global, items: &mut Shared<Items>, more: Items) -> Result<(), NoMemory>
    ensures { OnOk result (items.new ≡ items.old ++ more) }
{
    unshare_items(alloc, items)?;
    match items.get_mut() {
        Some(items) => items.join(more),
        None => Err(NoMemory),
    }
}

fn append_item(
    alloc: Global,
    ty: Ty,
    mut items: Shared<Items>,
    item: Value,
) -> Result<Value, RowFault>
    ensures { Answers (outcome op_fault (short_list ty (items ++ item ∷ []))) result }
{
    let length = (items.get().len() as u64).saturating_add(1);
    if length > MAX_ITEMS {
        return Err(fault_of(alloc, RunFault::TooLong(length)));
    }
    put_item(alloc, &mut items, item)?;
    Ok(Value::List(ty, items))
}

fn append_list(alloc: Global, ty: Ty, items: Shared<Items>, right: Value) -> Result<Value, RowFault>
    requires { IsSome (applied Op.ListCat (Value.List ty items) right) }
    ensures { Answers (applied Op.ListCat (Value.List ty items) right) result }
{
    match right {
        Value::List(_, more) => append_items(alloc, ty, items, more),
        _ => unreachable!(),
    }
}

fn append_items(
    alloc: Global,
    ty: Ty,
    mut items: Shared<Items>,
    more: Shared<Items>,
) -> Result<Value, RowFault>
    ensures { Answers (outcome op_fault (short_list ty (items ++ more))) result }
{
    let length = (items.get().len() as u64).saturating_add(more.get().len() as u64);
    if length > MAX_ITEMS {
        return Err(fault_of(alloc, RunFault::TooLong(length)));
    }
    let more = taken_items(alloc, more)?;
    put_items(alloc, &mut items, more)?;
    Ok(Value::List(ty, items))
}
