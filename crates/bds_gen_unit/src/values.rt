//! The code of values that words give.
ghost use Rattle.std.specs.Prelude.{◌≡◌, OnOk, IfOk};
ghost use Rattle.bds_value.specs.declared.value.Value.{out-Value};
ghost use Rattle.bds_gen_expr.specs.Marks.{written};
ghost use Rattle.bds_gen_stmt.specs.UnitCode.{push_at, items_code, value_code, texts_code, args_code};

use bds_code::{Function, Instr};
use bds_gen_expr::{act, counted};
use bds_value::{At, ByteText, NoMemory, Shared, Ty, Value, copy_text, copy_ty};
use std::alloc::Global;

/// A value in one instruction; of a list or a map that of its type.
fn push_of(alloc: Global, value: &Value) -> Result<Instr, NoMemory>
    ensures { IfOk result (λ i. i ≡ push_at (out-Value value.now)) }
{
    match value {
        Value::Bool(truth) => Ok(Instr::PushBool(*truth)),
        Value::Int(number) => Ok(Instr::PushInt(*number)),
        Value::Text(text) => Ok(Instr::PushText(copy_text(alloc, text)?)),
        Value::List(item, _) => {
            let item = copy_ty(alloc, item)?;
            Ok(Instr::PushDefault(Ty::List(Shared::of(alloc, item)?)))
        }
        Value::Map(item, _) => {
            let item = copy_ty(alloc, item)?;
            Ok(Instr::PushDefault(Ty::Map(Shared::of(alloc, item)?)))
        }
    }
}

/// Values behind each other, each in one instruction.
fn write_items(
    alloc: Global,
    function: &mut Function,
    at: At,
    items: &[Value],
) -> Result<(), NoMemory>
    ensures { OnOk result (function.new ≡ written function.old (items_code at items.now)) }
{
    for item in items {
        let push = push_of(alloc, item)?;
        act(function, at, push)?;
    }
    Ok(())
}

/// What makes a value that words give.
pub fn write_value(
    alloc: Global,
    function: &mut Function,
    at: At,
    value: &Value,
) -> Result<(), NoMemory>
    ensures { OnOk result (function.new ≡ written function.old (value_code at value.now)) }
{
    match value {
        Value::List(item, items) => {
            let held = items.get();
            write_items(alloc, function, at, held.as_slice())?;
            let count = counted(held.len())?;
            let item = copy_ty(alloc, item)?;
            act(function, at, Instr::MakeList(item, count))
        }
        Value::Bool(_) | Value::Int(_) | Value::Text(_) | Value::Map(_, _) => {
            let push = push_of(alloc, value)?;
            act(function, at, push)
        }
    }
}

fn write_texts(
    alloc: Global,
    function: &mut Function,
    at: At,
    texts: &[ByteText],
) -> Result<(), NoMemory>
    ensures { OnOk result (function.new ≡ written function.old (texts_code at texts.now)) }
{
    for text in texts {
        let text = copy_text(alloc, text)?;
        act(function, at, Instr::PushText(text))?;
    }
    Ok(())
}

/// The list of the words of `args`.
pub fn write_args(
    alloc: Global,
    function: &mut Function,
    at: At,
    args: &[ByteText],
) -> Result<(), NoMemory>
    ensures { OnOk result (function.new ≡ written function.old (args_code at args.now)) }
{
    write_texts(alloc, function, at, args)?;
    let count = counted(args.len())?;
    act(function, at, Instr::MakeList(Ty::Text, count))?;
    act(function, at, Instr::StoreGlobal(0))
}
