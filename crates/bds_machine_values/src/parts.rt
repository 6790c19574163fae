//! Changes of a part of a value.
ghost use Rattle.std.specs.Prelude.{◌≡◌, IsSome};
ghost use Rattle.bds_value.specs.Value.{type_of};
ghost use Rattle.bds_value.specs.Types.{same_ty};
ghost use Rattle.bds_machine_values.specs.Faults.{Answers, Leaves};
ghost use Rattle.bds_machine_values.specs.Changes.{part_after};
ghost use Rattle.bds_machine_values.specs.Results.{mutated};
ghost use Rattle.bds_machine_values.specs.Updates.{added, more_items};

use crate::changes::Change;
use crate::faults::{RowFault, of_method};
use crate::operators::operate;
use crate::values::text_shown;
use bds_lib::change;
use bds_value::{ByteText, Items, Op, Shared, Ty, Value, add, same_ty};
use std::alloc::Global;
use std::mem;

fn is_list_of(ty: &Ty, value: &Value) -> bool
    ensures { result ≡ same_ty (Ty.List ty.now) (type_of value.now) }
{
    match value {
        Value::List(item, _) => same_ty(ty, item),
        _ => false,
    }
}

/// What a list is joined with, or gets as an item.
fn more_items(alloc: Global, ty: Ty, items: Shared<Items>, more: Value) -> Result<Value, RowFault>
    requires { IsSome (more_items (Value.List ty items) more) }
    ensures { Answers (more_items (Value.List ty items) more) result }
{
    let op = if is_list_of(&ty, &more) {
        Op::ListCat
    } else {
        Op::ListAdd
    };
    operate(alloc, op, Value::List(ty, items), more)
}

/// A text, joined with the text of a value.
fn joined(alloc: Global, text: ByteText, more: Value) -> Result<Value, RowFault>
    requires { IsSome (added (Value.Text text) more) }
    ensures { Answers (added (Value.Text text) more) result }
{
    let more = text_shown(alloc, &more)?;
    operate(alloc, Op::Concat, Value::Text(text), more)
}

fn added(alloc: Global, part: Value, more: Value) -> Result<Value, RowFault>
    requires { IsSome (added part more) }
    ensures { Answers (added part more) result }
{
    match part {
        Value::Int(n) => operate(alloc, Op::Add, Value::Int(n), more),
        Value::Text(text) => joined(alloc, text, more),
        Value::List(ty, items) => more_items(alloc, ty, items, more),
        _ => unreachable!(),
    }
}

/// A list or map after a mutating method.
fn changed(alloc: Global, what: u8, mut part: Value, args: Items) -> Result<Value, RowFault>
    requires { IsSome (mutated what part args) }
    ensures { Answers (mutated what part args) result }
{
    match change(alloc, what, &mut part, args) {
        Ok(()) => Ok(part),
        Err(fault) => Err(of_method(alloc, fault)),
    }
}

fn part_after(alloc: Global, change: Change, part: Value) -> Result<Value, RowFault>
    requires { IsSome (part_after change part) }
    ensures { Answers (part_after change part) result }
{
    match change {
        Change::Replace(new) => Ok(new),
        Change::Add(more) => added(alloc, part, more),
        Change::Operate(op, operand) => operate(alloc, op, part, operand),
        Change::Mutate(method, args) => changed(alloc, method, part, args),
    }
}

/// Adds a number to a part, where it stands if that is a number.
fn add_number(alloc: Global, more: i64, part: &mut Value) -> Result<(), RowFault>
    requires { IsSome (added part.old (Value.Int more)) }
    ensures { Leaves (added part.old (Value.Int more)) part.new result }
{
    match mem::replace(part, Value::Bool(false)) {
        Value::Int(n) => *part = Value::Int(add(n, more)),
        old => *part = added(alloc, old, Value::Int(more))?,
    }
    Ok(())
}

/// Changes a part where it stands. After a fault the part is gone.
pub(crate) fn change_part(alloc: Global, change: Change, part: &mut Value) -> Result<(), RowFault>
    requires { IsSome (part_after change part.old) }
    ensures { Leaves (part_after change part.old) part.new result }
{
    match change {
        Change::Add(Value::Int(more)) => add_number(alloc, more, part),
        other => {
            let old = mem::replace(part, Value::Bool(false));
            *part = part_after(alloc, other, old)?;
            Ok(())
        }
    }
}
