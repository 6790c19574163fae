//! Methods by number.
ghost use Rattle.std.specs.Prelude.{map, IfOk};
ghost use Rattle.bds_value.specs.declared.value.Ty.{Ty};
ghost use Rattle.bds_value.specs.declared.value.Value.{out-Value};
ghost use Rattle.bds_value.specs.Value.{type_of, IsWellFormed, IsOf};
ghost use Rattle.bds_lib.specs.Call.{method_of, text_method, list_method, map_method};
ghost use Rattle.bds_lib.specs.Numbers.{number_of};
ghost use Rattle.bds_lib.specs.Paths.{swap_ext};
ghost use Rattle.bds_lib.specs.Results.{OrNoMemory, short_text};
ghost use Rattle.bds_lib.specs.Rows.{IsRow};
ghost use Rattle.bds_lib.specs.Searching.{place_number};
ghost use Rattle.bds_lib.specs.Texts.{part, part_from, part_to, parsed, replaced, text_alone, text_with, text_with_text, text_with_two};

use crate::faults::LibFault;
use crate::joins::join;
use crate::lists::{list_alone, list_with, text_list};
use crate::maps::{map_alone, map_with};
use crate::numbers::number_of;
use crate::paths::{base_name, dir_name, ext_name, remove_ext};
use crate::places::{counted, place_number, place_within};
use crate::searching::{begins_with, closes_with, first_place, last_place, lines, pieces};
use crate::texts::{lower, text_of, trim, upper};
use bds_value::method_numbers::{
    BASE_NAME, DIR_NAME, ENDS_WITH, EXT_NAME, INDEX_OF, LAST_INDEX_OF, LENGTH, LINES, PARSE_INT,
    REMOVE_EXT, REPLACE, SPLIT, STARTS_WITH, SUBSTR, SWAP_EXT, TO_LOWER, TO_UPPER, TRIM,
};
use bds_value::{ByteText, Entries, Items, Listed, MAX_TEXT, Ty, Value, put};
use std::alloc::Global;

fn part(alloc: Global, text: &[u8], from: i64, to: i64) -> Result<Value, LibFault>
    ensures { OrNoMemory (part text.now from to) result }
{
    let length = text.len();
    let Some(start) = place_within(0, length, from) else {
        return Err(LibFault::NoIndex(from, length as u64));
    };
    let Some(end) = place_within(start, length, to) else {
        return Err(LibFault::NoIndex(to, length as u64));
    };
    Ok(Value::Text(text_of(alloc, &text[start..end])?))
}

fn replaced(alloc: Global, text: &[u8], old: &[u8], new: &[u8]) -> Result<Value, LibFault>
    ensures { OrNoMemory (short_text (replaced old.now new.now text.now)) result }
{
    let items = pieces(alloc, text, old)?;
    join(alloc, items.as_slice(), new)
}

fn parsed(alloc: Global, text: &[u8]) -> Result<Value, LibFault>
    ensures { OrNoMemory (parsed text.now (number_of text.now)) result }
{
    match number_of(text) {
        Some(number) => Ok(Value::Int(number)),
        None => Err(LibFault::NotANumber(text_of(alloc, text)?)),
    }
}

fn swap_ext(alloc: Global, path: &[u8], ext: &[u8]) -> Result<Value, LibFault>
    ensures { OrNoMemory (short_text (swap_ext path.now ext.now)) result }
{
    let stem = remove_ext(path);
    let length = (stem.len() as u64)
        .saturating_add(1)
        .saturating_add(ext.len() as u64);
    if length > MAX_TEXT {
        return Err(LibFault::TooLong(length));
    }
    let mut out = Vec::new(alloc);
    put(&mut out, stem)?;
    put(&mut out, b".")?;
    put(&mut out, ext)?;
    Ok(Value::Text(Listed::from_vec(out)))
}

/// The methods of a text without an argument.
fn text_alone(alloc: Global, method: u8, text: &[u8]) -> Result<Value, LibFault>
    ensures { OrNoMemory (text_alone method text.now) result }
{
    match method {
        LENGTH => Ok(Value::Int(counted(text.len()))),
        TO_UPPER => Ok(Value::Text(upper(alloc, text)?)),
        TO_LOWER => Ok(Value::Text(lower(alloc, text)?)),
        TRIM => Ok(Value::Text(text_of(alloc, trim(text))?)),
        PARSE_INT => parsed(alloc, text),
        BASE_NAME => Ok(Value::Text(text_of(alloc, base_name(text))?)),
        DIR_NAME => Ok(Value::Text(text_of(alloc, dir_name(text))?)),
        EXT_NAME => Ok(Value::Text(text_of(alloc, ext_name(text))?)),
        REMOVE_EXT => Ok(Value::Text(text_of(alloc, remove_ext(text))?)),
        LINES => text_list(alloc, lines(alloc, text)?),
        _ => Ok(Value::Bool(false)),
    }
}

fn text_with_text(alloc: Global, method: u8, text: &[u8], other: &[u8]) -> Result<Value, LibFault>
    ensures { OrNoMemory (text_with_text method text.now other.now) result }
{
    match method {
        STARTS_WITH => Ok(Value::Bool(begins_with(text, other))),
        ENDS_WITH => Ok(Value::Bool(closes_with(text, other))),
        INDEX_OF => Ok(Value::Int(place_number(first_place(text, other)))),
        LAST_INDEX_OF => Ok(Value::Int(place_number(last_place(text, other)))),
        SPLIT => text_list(alloc, pieces(alloc, text, other)?),
        SWAP_EXT => swap_ext(alloc, text, other),
        _ => Ok(Value::Bool(false)),
    }
}

/// The methods of a text with an argument.
fn text_with(alloc: Global, method: u8, text: &[u8], argument: &Value) -> Result<Value, LibFault>
    ensures { OrNoMemory (text_with method text.now (out-Value argument.now)) result }
{
    match argument {
        Value::Text(other) => text_with_text(alloc, method, text, other.as_slice()),
        _ => Ok(Value::Bool(false)),
    }
}

/// The methods of a text with two arguments.
fn text_with_two(
    alloc: Global,
    method: u8,
    text: &[u8],
    first: &Value,
    second: &Value,
) -> Result<Value, LibFault>
    ensures { OrNoMemory (text_with_two method text.now (out-Value first.now) (out-Value second.now)) result }
{
    match (first, second) {
        (Value::Int(from), Value::Int(to)) if method == SUBSTR => part(alloc, text, *from, *to),
        (Value::Text(old), Value::Text(new)) if method == REPLACE => {
            replaced(alloc, text, old.as_slice(), new.as_slice())
        }
        _ => Ok(Value::Bool(false)),
    }
}

fn text_method(alloc: Global, method: u8, text: &[u8], args: &[Value]) -> Result<Value, LibFault>
    ensures { OrNoMemory (text_method method text.now args.now) result }
{
    match args {
        [] => text_alone(alloc, method, text),
        [argument] => text_with(alloc, method, text, argument),
        [first, second] => text_with_two(alloc, method, text, first, second),
        _ => Ok(Value::Bool(false)),
    }
}

fn list_method(
    alloc: Global,
    method: u8,
    ty: &Ty,
    items: &[Value],
    args: &[Value],
) -> Result<Value, LibFault>
    ensures { OrNoMemory (list_method method ty.now items.now args.now) result }
{
    match args {
        [] => list_alone(alloc, method, ty, items),
        [argument] => list_with(alloc, method, items, argument),
        _ => Ok(Value::Bool(false)),
    }
}

fn map_method(
    alloc: Global,
    method: u8,
    ty: &Ty,
    pairs: &Entries,
    args: &[Value],
) -> Result<Value, LibFault>
    ensures { OrNoMemory (map_method method ty.now pairs.now args.now) result }
{
    match args {
        [] => map_alone(alloc, method, ty, pairs),
        [key] => map_with(method, pairs, key),
        _ => Ok(Value::Bool(false)),
    }
}

fn of_method(alloc: Global, number: u8, receiver: &Value, args: &[Value]) -> Result<Value, LibFault>
    ensures { OrNoMemory (method_of number receiver.now args.now) result }
{
    match receiver {
        Value::Text(text) => text_method(alloc, number, text.as_slice(), args),
        Value::List(ty, items) => list_method(alloc, number, ty, items.get().as_slice(), args),
        Value::Map(ty, pairs) => map_method(alloc, number, ty, pairs.get(), args),
        _ => Ok(Value::Bool(false)),
    }
}

/// What a method gives of a receiver and arguments, by the method's number; some value where they
/// are of no row. A place that isn't there is `NoIndex`, a text or list above its limit is `TooLong`
/// with the bytes or items needed, and a text that writes no number is `NotANumber`.
pub fn call(alloc: Global, method: u8, receiver: &Value, args: &Items) -> Result<Value, LibFault>
    ensures value { OrNoMemory (method_of method receiver.now args.now) result }
    ensures formed { IsWellFormed receiver.now → IfOk result IsWellFormed }
    // Where the number and the types are a row of the table, the result has the type of the row.
    ensures typed { (ty : Ty) → IsRow method (type_of receiver.now) (map type_of args.now) ty → IsWellFormed receiver.now
        → IfOk result (λ v. IsOf v ty) }
{
    of_method(alloc, method, receiver, args.as_slice())
}
