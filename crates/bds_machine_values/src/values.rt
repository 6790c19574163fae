//! The rows that take operands and give a value, or move one between operands and slots.
ghost use Rattle.std.specs.Prelude.{◌≡◌, IsSome, Some, Ok, IfOk};
ghost use Rattle.bds_value.specs.Operators.{short_text};
ghost use Rattle.bds_value.specs.Text.{text_of, piece_of};
ghost use Rattle.bds_value.specs.Path.{at_key, onward};
ghost use Rattle.bds_value.specs.RunFaults.{op_fault, put_fault};
ghost use Rattle.bds_value.specs.declared.faults.PutFault.{PutFault};
ghost use Rattle.bds_code_frames.specs.Stack.{stack};
ghost use Rattle.bds_machine_values.specs.Faults.{Answers, Leaves, outcome, finishes, gives};
ghost use Rattle.bds_machine_values.specs.Results.{applied, part_of};
ghost use Rattle.bds_machine_values.specs.Values.{defaulted, dropped, operated, negated, shown, part_given, item_given, entry_given};

use crate::faults::{RowFault, absent, no_key, text_value};
use crate::operands::{take_int, take_text};
use crate::operators::{operate, operate_numbers};
use bds_code_frames::Frames;
use bds_value::{
    ByteText, Entries, Listed, NoMemory, Op, Place, Ty, Value, add, child, copy, default_of, mul,
    neg, piece_of, put, sub, text_of,
};
use std::alloc::Global;

/// Goes on with this value as the last operand.
#[inline(always)]
pub(crate) fn gives(alloc: Global, value: Value, frames: &mut Frames) -> Result<(), RowFault>
    requires { IsSome (gives value (stack frames.old)) }
    ensures { Leaves (gives value (stack frames.old)) (stack frames.new) result }
{
    frames.add_operand(alloc, value)?;
    Ok(())
}

/// The least room that a text of the code gets. Mostly a piece is joined to it, and the system hands out as much for a byte.
const ROOM: usize = 24;

/// A copy of a text with room for more.
fn with_room(alloc: Global, text: &ByteText) -> Result<ByteText, NoMemory>
    ensures { IfOk result (λ copied. copied ≡ text.now) }
{
    let mut copied = Vec::with_capacity(alloc, text.len().max(ROOM))?;
    put(&mut copied, text.as_slice())?;
    Ok(Listed::from_vec(copied))
}

/// Goes on with a text of the code as the last operand.
pub(crate) fn text_given(
    alloc: Global,
    text: &ByteText,
    frames: &mut Frames,
) -> Result<(), RowFault>
    requires { IsSome (gives (Value.Text text.now) (stack frames.old)) }
    ensures { Leaves (gives (Value.Text text.now) (stack frames.old)) (stack frames.new) result }
{
    let text = with_room(alloc, text)?;
    gives(alloc, Value::Text(text), frames)
}

/// The value of a type before anything is stored.
pub(crate) fn defaulted(alloc: Global, ty: &Ty, frames: &mut Frames) -> Result<(), RowFault>
    requires { IsSome (defaulted ty.now (stack frames.old)) }
    ensures { Leaves (defaulted ty.now (stack frames.old)) (stack frames.new) result }
{
    let value = default_of(alloc, ty)?;
    gives(alloc, value, frames)
}

pub(crate) fn dropped(frames: &mut Frames) -> Result<(), RowFault>
    requires { IsSome (dropped (stack frames.old)) }
    ensures { Leaves (dropped (stack frames.old)) (stack frames.new) result }
{
    let _value = frames.take_operand();
    Ok(())
}

/// An operator between the last two operands.
#[inline(always)]
pub fn operated(alloc: Global, op: Op, frames: &mut Frames) -> Result<(), RowFault>
    requires { IsSome (operated op (stack frames.old)) }
    ensures { Leaves (operated op (stack frames.old)) (stack frames.new) result }
{
    match frames.take_operand() {
        Value::Int(b) => match frames.take_operand() {
            Value::Int(a) => numbers_operated(alloc, op, a, b, frames),
            left => values_operated(alloc, op, left, Value::Int(b), frames),
        },
        right => {
            let left = frames.take_operand();
            values_operated(alloc, op, left, right, frames)
        }
    }
}

fn values_operated(
    alloc: Global,
    op: Op,
    left: Value,
    right: Value,
    frames: &mut Frames,
) -> Result<(), RowFault>
    requires { IsSome (finishes (applied op left right) (stack frames.old)) }
    ensures { Leaves (finishes (applied op left right) (stack frames.old)) (stack frames.new) result }
{
    let value = operate(alloc, op, left, right)?;
    gives(alloc, value, frames)
}

/// An operator between numbers, which takes the shortest way for those that loops are made of.
#[inline(always)]
fn numbers_operated(
    alloc: Global,
    op: Op,
    a: i64,
    b: i64,
    frames: &mut Frames,
) -> Result<(), RowFault>
    requires { IsSome (finishes (applied op (Value.Int a) (Value.Int b)) (stack frames.old)) }
    ensures { Leaves (finishes (applied op (Value.Int a) (Value.Int b)) (stack frames.old)) (stack frames.new) result }
{
    match op {
        Op::Add => gives(alloc, Value::Int(add(a, b)), frames),
        Op::Sub => gives(alloc, Value::Int(sub(a, b)), frames),
        Op::Mul => gives(alloc, Value::Int(mul(a, b)), frames),
        Op::Less => gives(alloc, Value::Bool(a.cmp(&b).is_lt()), frames),
        Op::LessEqual => gives(alloc, Value::Bool(a.cmp(&b).is_le()), frames),
        Op::Greater => gives(alloc, Value::Bool(a.cmp(&b).is_gt()), frames),
        Op::GreaterEqual => gives(alloc, Value::Bool(a.cmp(&b).is_ge()), frames),
        Op::Equal => gives(alloc, Value::Bool(a.cmp(&b).is_eq()), frames),
        Op::NotEqual => gives(alloc, Value::Bool(a.cmp(&b).is_ne()), frames),
        _ => {
            let value = operate_numbers(alloc, op, a, b)?;
            gives(alloc, value, frames)
        }
    }
}

pub(crate) fn negated(alloc: Global, frames: &mut Frames) -> Result<(), RowFault>
    requires { IsSome (negated (stack frames.old)) }
    ensures { Leaves (negated (stack frames.old)) (stack frames.new) result }
{
    let n = take_int(frames);
    gives(alloc, Value::Int(neg(n)), frames)
}

/// The text of a value.
pub(crate) fn text_shown(alloc: Global, value: &Value) -> Result<Value, RowFault>
    ensures { Answers (outcome op_fault (short_text (text_of value.now))) result }
{
    text_value(alloc, text_of(alloc, value))
}

/// The text of the last operand.
pub(crate) fn shown(alloc: Global, frames: &mut Frames) -> Result<(), RowFault>
    requires { IsSome (shown text_of (stack frames.old)) }
    ensures { Leaves (shown text_of (stack frames.old)) (stack frames.new) result }
{
    let value = frames.take_operand();
    let text = text_shown(alloc, &value)?;
    gives(alloc, text, frames)
}

/// The text of a value as a piece of a text.
fn piece_shown(alloc: Global, value: &Value) -> Result<Value, RowFault>
    ensures { Answers (outcome op_fault (short_text (piece_of value.now))) result }
{
    text_value(alloc, piece_of(alloc, value))
}

/// The text of the last operand as a piece of a text.
pub(crate) fn shown_piece(alloc: Global, frames: &mut Frames) -> Result<(), RowFault>
    requires { IsSome (shown piece_of (stack frames.old)) }
    ensures { Leaves (shown piece_of (stack frames.old)) (stack frames.new) result }
{
    let value = frames.take_operand();
    let text = piece_shown(alloc, &value)?;
    gives(alloc, text, frames)
}

/// The part of a value one step below.
pub fn part(alloc: Global, value: &Value, place: Place) -> Result<Value, RowFault>
    requires { IsSome (part_of place value.now) }
    ensures { Answers (part_of place value.now) result }
{
    match child(value, &place) {
        Some(part) => Ok(copy(alloc, part)?),
        None => Err(absent(alloc, value, place)),
    }
}

/// The value at a key.
fn entry_of(alloc: Global, pairs: &Entries, key: &ByteText) -> Result<Value, RowFault>
    ensures { Answers (outcome put_fault (onward (at_key key.now pairs.now) (PutFault.NoKey key.now) (λ v. Ok v))) result }
{
    match pairs.get(key) {
        Some(value) => Ok(copy(alloc, value)?),
        None => Err(no_key(alloc, key)),
    }
}

/// The value at a key of a map.
pub fn entry_at(alloc: Global, value: &Value, key: &ByteText) -> Result<Value, RowFault>
    requires { IsSome (part_of (Place.Key key.now) value.now) }
    ensures { Answers (part_of (Place.Key key.now) value.now) result }
{
    match value {
        Value::Map(_, pairs) => entry_of(alloc, pairs.get(), key),
        _ => unreachable!(),
    }
}

/// The part of the last operand one step below.
fn part_given(alloc: Global, place: Place, frames: &mut Frames) -> Result<(), RowFault>
    requires { IsSome (part_given place (stack frames.old)) }
    ensures { Leaves (part_given place (stack frames.old)) (stack frames.new) result }
{
    let value = frames.take_operand();
    let part = part(alloc, &value, place)?;
    gives(alloc, part, frames)
}

/// The item of a list at an index, of the last two operands.
pub(crate) fn item_given(alloc: Global, frames: &mut Frames) -> Result<(), RowFault>
    requires { IsSome (item_given (stack frames.old)) }
    ensures { Leaves (item_given (stack frames.old)) (stack frames.new) result }
{
    let index = take_int(frames);
    part_given(alloc, Place::Index(index), frames)
}

/// The value of a map at a key, of the last two operands.
pub(crate) fn entry_given(alloc: Global, frames: &mut Frames) -> Result<(), RowFault>
    requires { IsSome (entry_given (stack frames.old)) }
    ensures { Leaves (entry_given (stack frames.old)) (stack frames.new) result }
{
    let key = take_text(frames);
    part_given(alloc, Place::Key(key), frames)
}
