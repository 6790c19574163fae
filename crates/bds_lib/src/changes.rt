//! Changes of lists and maps by number.
ghost use Rattle.std.specs.Prelude.{◌≡◌, ◌≤◌, length, map, OnOk, OnErr};
ghost use Rattle.std.specs.List.{AllByRecursion, position_or_len};
ghost use Rattle.std.specs.Str.{bytes_eq};
ghost use Rattle.bds_value.specs.declared.value.Value.{out-Value};
ghost use Rattle.bds_value.specs.Value.{type_of, IsWellFormed, IsOf};
ghost use Rattle.bds_lib.specs.Lists.{is_same};
ghost use Rattle.bds_lib.specs.Change.{change_of, list_change, list_changed, list_changed_at, map_change, map_changed, inserted, add_at, remove_at, remove_index, without, without_key};
ghost use Rattle.bds_lib.specs.Places.{place_within, place_below};
ghost use Rattle.bds_lib.specs.Results.{Changes};
ghost use Rattle.bds_lib.specs.Rows.{IsChangeRow};

use crate::faults::LibFault;
use crate::lists::is_same;
use crate::places::{place_below, place_within};
use bds_value::change_numbers::{INSERT, PUSH, REMOVE_INDEX, REMOVE_ITEM, REMOVE_KEY};
use bds_value::sharing::{unshare_entries, unshare_items};
use bds_value::{ByteText, Entries, Items, MAX_ITEMS, NoMemory, Shared, Value};
use std::alloc::Global;

/// Puts an item before the one at a place, or at the end.
fn insert(items: &mut Items, at: usize, item: Value) -> Result<(), LibFault>
    requires { at ≤ length items.old }
    ensures { Changes (inserted items.old at item) items.old items.new result }
{
    let count = items.len() as u64;
    if count >= MAX_ITEMS {
        return Err(LibFault::TooLong(count.saturating_add(1)));
    }
    items.insert(at, item)?;
    Ok(())
}

fn add_at(items: &mut Items, index: i64, item: Value) -> Result<(), LibFault>
    ensures { Changes (add_at items.old index item (place_within 0 (length items.old) index)) items.old items.new result }
{
    let count = items.len();
    match place_within(0, count, index) {
        Some(at) => insert(items, at, item),
        None => Err(LibFault::NoIndex(index, count as u64)),
    }
}

fn remove_at(items: &mut Items, index: i64) -> Result<(), LibFault>
    ensures { Changes (remove_at items.old index (place_below (length items.old) index)) items.old items.new result }
{
    let count = items.len();
    match place_below(count, index) {
        Some(at) => {
            items.remove(at);
            Ok(())
        }
        None => Err(LibFault::NoIndex(index, count as u64)),
    }
}

fn remove_index(items: &mut Items, index: &Value) -> Result<(), LibFault>
    ensures { Changes (remove_index items.old (out-Value index.now)) items.old items.new result }
{
    match index {
        Value::Int(index) => remove_at(items, *index),
        _ => Ok(()),
    }
}

/// The place of the first item that is the same, or the number of items.
fn place_of(items: &[Value], item: &Value) -> usize
    ensures { result ≡ position_or_len (λ v. is_same v item.now) items.now }
{
    for (i, other) in items.iter().enumerate() {
        if is_same(other, item) {
            return i;
        }
    }
    items.len()
}

fn remove_item(items: &mut Items, item: &Value)
    ensures { items.new ≡ without item.now items.old }
{
    let at = place_of(items.as_slice(), item);
    if at < items.len() {
        items.remove(at);
    }
}

fn remove_key(pairs: &mut Entries, key: &ByteText)
    ensures { pairs.new ≡ without_key key.now pairs.old }
{
    pairs.remove(key);
}

fn change_list_with(what: u8, items: &mut Items, item: Value) -> Result<(), LibFault>
    ensures { Changes (list_changed what items.old item) items.old items.new result }
{
    match what {
        PUSH => {
            let count = items.len();
            insert(items, count, item)
        }
        REMOVE_INDEX => remove_index(items, &item),
        REMOVE_ITEM => {
            remove_item(items, &item);
            Ok(())
        }
        _ => Ok(()),
    }
}

fn change_list_at(what: u8, items: &mut Items, index: &Value, item: Value) -> Result<(), LibFault>
    ensures { Changes (list_changed_at what items.old (out-Value index.now) item) items.old items.new result }
{
    match index {
        Value::Int(index) if what == INSERT => add_at(items, *index, item),
        _ => Ok(()),
    }
}

fn change_own_list(what: u8, items: &mut Items, mut args: Items) -> Result<(), LibFault>
    ensures { Changes (list_change what items.old args) items.old items.new result }
{
    match args.len() {
        1 => change_list_with(what, items, args.remove(0)),
        2 => {
            let item = args.remove(1);
            change_list_at(what, items, &args.remove(0), item)
        }
        _ => Ok(()),
    }
}

fn change_map_with(what: u8, pairs: &mut Entries, key: &Value)
    ensures { pairs.new ≡ map_changed what pairs.old (out-Value key.now) }
{
    match key {
        Value::Text(key) if what == REMOVE_KEY => remove_key(pairs, key),
        _ => {}
    }
}

/// Changes a list, of which it gets a copy first where other values hold it, too.
fn change_list(
    alloc: Global,
    what: u8,
    items: &mut Shared<Items>,
    args: Items,
) -> Result<(), LibFault>
    ensures { Changes (list_change what items.old args) items.old items.new result }
{
    unshare_items(alloc, items)?;
    match items.get_mut() {
        Some(items) => change_own_list(what, items, args),
        None => Err(LibFault::NoMemory),
    }
}

fn change_own_map(what: u8, pairs: &mut Entries, args: &[Value])
    ensures { pairs.new ≡ map_change what pairs.old args.now }
{
    match args {
        [key] => change_map_with(what, pairs, key),
        _ => {}
    }
}

/// Changes a map, of which it gets a copy first where other values hold it, too. A refused call leaves it as it was.
fn change_map(
    alloc: Global,
    what: u8,
    pairs: &mut Shared<Entries>,
    args: &[Value],
) -> Result<(), NoMemory>
    ensures ok { OnOk result (pairs.new ≡ map_change what pairs.old args.now) }
    ensures err { OnErr result (pairs.new ≡ pairs.old) }
{
    unshare_entries(alloc, pairs)?;
    match pairs.get_mut() {
        Some(pairs) => {
            change_own_map(what, pairs, args);
            Ok(())
        }
        None => Err(NoMemory),
    }
}

fn change_place(alloc: Global, what: u8, place: &mut Value, args: Items) -> Result<(), LibFault>
    ensures { Changes (change_of what place.old args) place.old place.new result }
{
    match place {
        Value::List(_, items) => change_list(alloc, what, items, args),
        Value::Map(_, pairs) => {
            change_map(alloc, what, pairs, args.as_slice())?;
            Ok(())
        }
        _ => Ok(()),
    }
}

/// Changes a list or map, by the change's number; where the place and the arguments are of no row,
/// the place is some value behind it. A place that isn't there is `NoIndex`, and a list that is full is `TooLong` with
/// the items needed. A refused call leaves the place as it was.
pub fn change(alloc: Global, what: u8, place: &mut Value, args: Items) -> Result<(), LibFault>
    ensures value { Changes (change_of what place.old args) place.old place.new result }
    // Where the number and the types are a row of the table, the place keeps its type.
    ensures typed { IsChangeRow what (type_of place.old) (map type_of args) → IsWellFormed place.old → AllByRecursion IsWellFormed args
        → IsOf place.new (type_of place.old) }
{
    change_place(alloc, what, place, args)
}
