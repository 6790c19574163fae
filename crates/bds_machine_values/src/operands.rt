//! Operands taken from the newest frame.
ghost use Rattle.std.specs.Prelude.{◌≡◌, IsSome, Some, IfOk};
ghost use Rattle.bds_value.specs.Readers.{as_bool, as_int, as_text, as_texts, all_texts};
ghost use Rattle.bds_code_frames.specs.Stack.{stack};
ghost use Rattle.bds_machine_values.specs.Operands.{taken_as, taken_all};

use bds_code_frames::Frames;
use bds_value::sharing::taken_items;
use bds_value::{ByteText, Items, Listed, NoMemory, Texts, Value};
use std::alloc::Global;

/// Takes the last operand, a bool.
pub fn take_bool(frames: &mut Frames) -> bool
    requires { IsSome (taken_as as_bool (stack frames.old)) }
    ensures { taken_as as_bool (stack frames.old) ≡ Some (result, stack frames.new) }
{
    match frames.take_operand() {
        Value::Bool(b) => b,
        _ => unreachable!(),
    }
}

/// Takes the last operand, a number.
pub fn take_int(frames: &mut Frames) -> i64
    requires { IsSome (taken_as as_int (stack frames.old)) }
    ensures { taken_as as_int (stack frames.old) ≡ Some (result, stack frames.new) }
{
    match frames.take_operand() {
        Value::Int(n) => n,
        _ => unreachable!(),
    }
}

/// Takes the last operand, a text.
pub fn take_text(frames: &mut Frames) -> ByteText
    requires { IsSome (taken_as as_text (stack frames.old)) }
    ensures { taken_as as_text (stack frames.old) ≡ Some (result, stack frames.new) }
{
    match frames.take_operand() {
        Value::Text(text) => text,
        _ => unreachable!(),
    }
}

fn text_of_item(item: Value) -> ByteText
    requires { IsSome (as_text item) }
    ensures { as_text item ≡ Some result }
{
    match item {
        Value::Text(text) => text,
        _ => unreachable!(),
    }
}

fn texts_of(alloc: Global, mut items: Items) -> Result<Texts, NoMemory>
    requires { IsSome (all_texts items) }
    ensures { IfOk result (λ texts. all_texts items ≡ Some texts) }
{
    let count = items.len();
    let mut texts = Vec::with_capacity(alloc, count)?;
    for _ in 0..count {
        match items.pop() {
            Some(item) => match texts.push(text_of_item(item)) {
                Ok(()) => {}
                Err(_) => unreachable!(),
            },
            None => unreachable!(),
        }
    }
    texts.reverse();
    Ok(Listed::from_vec(texts))
}

/// Takes the last operand, a list of texts.
pub fn take_texts(alloc: Global, frames: &mut Frames) -> Result<Texts, NoMemory>
    requires { IsSome (taken_as as_texts (stack frames.old)) }
    ensures { IfOk result (λ texts. taken_as as_texts (stack frames.old) ≡ Some (texts, stack frames.new)) }
{
    match frames.take_operand() {
        Value::List(_, items) => texts_of(alloc, taken_items(alloc, items)?),
        _ => unreachable!(),
    }
}

/// Takes the last operands, in their order. Without memory none is taken.
pub fn take_all(alloc: Global, frames: &mut Frames, count: usize) -> Result<Items, NoMemory>
    requires { IsSome (taken_all count (stack frames.old)) }
    ensures { IfOk result (λ taken. taken_all count (stack frames.old) ≡ Some (taken, stack frames.new)) }
{
    let mut taken = Vec::with_capacity(alloc, count)?;
    for _ in 0..count {
        match taken.push(frames.take_operand()) {
            Ok(()) => {}
            Err(_) => unreachable!(),
        }
    }
    taken.reverse();
    Ok(Listed::from_vec(taken))
}
