//! Texts, types and values read from their fields.
ghost use Rattle.std.specs.Prelude.{◌≡◌, ◌≤◌, length, IfOk};
ghost use Rattle.bds_value.specs.Fields.{IsFieldTy, IsFieldValue};
ghost use Rattle.bds_value.specs.Reading.{Reads, read_map, bytes_at, text_at, many, list_at, rising, rising_at, pair_at, follows, key_behind, item_ty, ty_layer, deeper, ty_at, body_at, value_at, last_key};
ghost use Rattle.bds_value.specs.Order.{is_before};

use crate::copies::copy_ty;
use crate::faults::FieldFault;
use crate::fields::numbers::{next, read_bool, read_count, read_i64, read_u8};
use crate::laws::are_bytes;
use crate::listed::Listed;
use crate::order::is_before;
use crate::rising::Rising;
use crate::shared::Shared;
use crate::sharing::{list_of, map_of};
use crate::value::{ByteText, Input, Items, Pairs, Ty, Value};
use crate::{MAX_ITEMS, MAX_NESTING, MAX_TEXT};
use std::alloc::Global;

/// Reads a text.
pub fn read_text(alloc: Global, input: &mut Input) -> Result<ByteText, FieldFault>
    ensures read { Reads (text_at input.old) input.new result }
    ensures legal { IfOk result (λ text. length text ≤ MAX_TEXT) }
    ensures kept { input.new.bytes ≡ input.old.bytes }
{
    are_bytes(input.bytes.as_slice());
    read_counted(alloc, input)
}

fn read_counted(alloc: Global, input: &mut Input) -> Result<ByteText, FieldFault>
    ensures read { Reads (text_at input.old) input.new result }
    ensures kept { input.new.bytes ≡ input.old.bytes }
{
    let count = read_count(input, MAX_TEXT)?;
    read_bytes(alloc, input, count as usize)
}

fn read_bytes(alloc: Global, input: &mut Input, count: usize) -> Result<ByteText, FieldFault>
    ensures read { Reads (bytes_at count input.old) input.new result }
    ensures kept { input.new.bytes ≡ input.old.bytes }
{
    let bytes = next(input, count)?;
    match Vec::from_slice(alloc, bytes) {
        Ok(text) => {
            input.at += count as u64;
            Ok(Listed::from_vec(text))
        }
        Err(_) => Err(FieldFault::NoMemory),
    }
}

/// Reads a type, which nests at most 200 deep and holds no `Void` inside.
pub fn read_ty(alloc: Global, input: &mut Input) -> Result<Ty, FieldFault>
    ensures read { Reads (ty_at input.old) input.new result }
    ensures legal { IfOk result IsFieldTy }
    ensures kept { input.new.bytes ≡ input.old.bytes }
{
    are_bytes(input.bytes.as_slice());
    read_ty_within(alloc, input, true, MAX_NESTING)
}

#[cycle(ty)]
fn read_ty_within(alloc: Global, input: &mut Input, void: bool, room: u32) -> Result<Ty, FieldFault>
    ensures read { Reads (ty_layer void (deeper room) input.old) input.new result }
    ensures kept { input.new.bytes ≡ input.old.bytes }
{
    let at = input.at;
    match read_u8(input)? {
        0 => Ok(Ty::Bool),
        1 => Ok(Ty::Int),
        2 => Ok(Ty::Text),
        3 => Ok(Ty::List(read_item_ty(alloc, input, at, 3, room)?)),
        4 => Ok(Ty::Map(read_item_ty(alloc, input, at, 4, room)?)),
        5 if void => Ok(Ty::Void),
        tag => Err(FieldFault::BadTag(at, tag)),
    }
}

/// Reads the type of items behind the tag of a list or map that stands at a place.
#[cycle(ty)]
#[tactic(auto, using(crate::proofs::ReadLaws::deeper_rules))]
fn read_item_ty(
    alloc: Global,
    input: &mut Input,
    at: u64,
    tag: u8,
    room: u32,
) -> Result<Shared<Ty>, FieldFault>
    ensures read { Reads (item_ty (deeper room) at tag input.old) input.new result }
    ensures kept { input.new.bytes ≡ input.old.bytes }
{
    if room == 0 {
        return Err(FieldFault::BadTag(at, tag));
    }
    let item = read_ty_within(alloc, input, false, room - 1)?;
    Ok(Shared::of(alloc, item)?)
}

/// Reads a value: its type and its body.
pub fn read_value(alloc: Global, input: &mut Input) -> Result<Value, FieldFault>
    ensures read { Reads (value_at input.old) input.new result }
    ensures legal { IfOk result IsFieldValue }
    ensures kept { input.new.bytes ≡ input.old.bytes }
{
    are_bytes(input.bytes.as_slice());
    read_typed(alloc, input)
}

fn read_typed(alloc: Global, input: &mut Input) -> Result<Value, FieldFault>
    ensures read { Reads (value_at input.old) input.new result }
    ensures kept { input.new.bytes ≡ input.old.bytes }
{
    let ty = read_ty_within(alloc, input, false, MAX_NESTING)?;
    read_body(alloc, input, &ty)
}

/// Reads the body of a value of a type.
#[cycle(read)]
#[tactic(auto, using(crate::proofs::ReadLaws::reader_rules))]
fn read_body(alloc: Global, input: &mut Input, ty: &Ty) -> Result<Value, FieldFault>
    ensures read { Reads (body_at ty.now input.old) input.new result }
    ensures kept { input.new.bytes ≡ input.old.bytes }
{
    match ty {
        Ty::Bool => Ok(Value::Bool(read_bool(input)?)),
        Ty::Int => Ok(Value::Int(read_i64(input)?)),
        Ty::Text => Ok(Value::Text(read_text(alloc, input)?)),
        Ty::List(item) => read_list(alloc, input, item.get()),
        Ty::Map(item) => read_map(alloc, input, item.get()),
        Ty::Void => Err(FieldFault::BadTag(input.at, 5)),
    }
}

#[cycle(read)]
fn read_list(alloc: Global, input: &mut Input, item: &Ty) -> Result<Value, FieldFault>
    ensures read { Reads (read_map (Value.List item.now) (list_at MAX_ITEMS (body_at item.now) input.old)) input.new result }
    ensures kept { input.new.bytes ≡ input.old.bytes }
{
    let count = read_count(input, MAX_ITEMS)?;
    let items = read_items(alloc, input, item, count)?;
    Ok(list_of(alloc, copy_ty(alloc, item)?, items)?)
}

#[cycle(read)]
fn read_items(alloc: Global, input: &mut Input, item: &Ty, count: u32) -> Result<Items, FieldFault>
    ensures read { Reads (many (body_at item.now) count input.old) input.new result }
    ensures kept { input.new.bytes ≡ input.old.bytes }
{
    let mut items = Listed::new(alloc);
    for _ in 0..count {
        items.push(read_body(alloc, input, item)?)?;
    }
    Ok(items)
}

#[cycle(read)]
fn read_map(alloc: Global, input: &mut Input, item: &Ty) -> Result<Value, FieldFault>
    ensures read { Reads (read_map (Value.Map item.now)
        (rising_at MAX_ITEMS is_before text_at (pair_at (body_at item.now)) input.old)) input.new result }
    ensures kept { input.new.bytes ≡ input.old.bytes }
{
    let count = read_count(input, MAX_ITEMS)?;
    let pairs = read_pairs(alloc, input, item, count)?;
    let rising = Rising::from_vec(alloc, pairs.into_vec())?;
    Ok(map_of(alloc, copy_ty(alloc, item)?, rising)?)
}

#[cycle(read)]
fn read_pairs(alloc: Global, input: &mut Input, item: &Ty, count: u32) -> Result<Pairs, FieldFault>
    ensures read { Reads (rising is_before text_at (pair_at (body_at item.now)) None count input.old) input.new result }
    ensures kept { input.new.bytes ≡ input.old.bytes }
{
    let mut pairs = Listed::new(alloc);
    for _ in 0..count {
        let key = read_key(alloc, input, &pairs)?;
        let value = read_body(alloc, input, item)?;
        pairs.push((key, value))?;
    }
    Ok(pairs)
}

/// Reads a key, which has to come behind the last one.
fn read_key(alloc: Global, input: &mut Input, pairs: &Pairs) -> Result<ByteText, FieldFault>
    ensures read { Reads (key_behind is_before text_at (last_key pairs.now) input.old) input.new result }
    ensures kept { input.new.bytes ≡ input.old.bytes }
{
    let at = input.at;
    let key = read_text(alloc, input)?;
    if !follows(pairs, &key) {
        return Err(FieldFault::NotRising(at));
    }
    Ok(key)
}

/// Whether a key comes behind the last one.
#[tactic(auto, using(crate::proofs::ReadLaws::last_key_rules))]
fn follows(pairs: &Pairs, key: &ByteText) -> bool
    ensures { result ≡ follows is_before (last_key pairs.now) key.now }
{
    match pairs.as_slice().last() {
        Some(last) => is_before(&last.0, key),
        None => true,
    }
}
