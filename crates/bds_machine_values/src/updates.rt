//! Changes of a value at a path.
ghost use Rattle.std.specs.Prelude.{◌≡◌, [], ◌∷◌, ◌<◌, ◌≤◌, ℕ, pos, IsSome, Ok, IfSome, IfNone};
ghost use Rattle.bds_value.specs.Path.{at_key, put_index, put_key};
ghost use Rattle.bds_value.specs.RunFaults.{put_fault};
ghost use Rattle.bds_machine_values.specs.Faults.{Leaves, outcome};
ghost use Rattle.bds_machine_values.specs.Changes.{part_after, places_of, value_after};
ghost use Rattle.bds_machine_values.specs.Results.{put_at, with_part};

use crate::changes::Change;
use crate::faults::{RowFault, fault_of, no_key, of_place};
use crate::parts::change_part;
use crate::route::Route;
use bds_value::sharing::{unshare_entries, unshare_items};
use bds_value::{
    ByteText, Entries, Items, Path, Place, RunFault, Shared, Ty, Value, put_entry, put_path,
};
use std::alloc::Global;

/// The index where it is one of a list of this length.
fn within(index: i64, length: usize) -> Option<usize>
    ensures some { IfSome result (λ at. (index ≡ pos at) × (at < length)) }
    ensures none { IfNone result ((at : ℕ) → index ≡ pos at → length ≤ at) }
{
    match usize::try_from(index) {
        Ok(at) => if at < length { Some(at) } else { None },
        Err(_) => None,
    }
}

#[cycle(change)]
fn change_at(
    alloc: Global,
    change: Change,
    value: &mut Value,
    path: &[Place],
) -> Result<(), RowFault>
    requires { IsSome (with_part (part_after change) path.now value.old) }
    ensures { Leaves (with_part (part_after change) path.now value.old) value.new result }
{
    match path {
        [] => change_part(alloc, change, value),
        [Place::Index(index), rest @ ..] => change_at_index(alloc, change, value, *index, rest),
        [Place::Key(key), rest @ ..] => change_at_key(alloc, change, value, key, rest),
    }
}

#[cycle(change)]
fn change_at_index(
    alloc: Global,
    change: Change,
    value: &mut Value,
    index: i64,
    rest: &[Place],
) -> Result<(), RowFault>
    requires { IsSome (with_part (part_after change) (Place.Index index ∷ rest.now) value.old) }
    ensures { Leaves (with_part (part_after change) (Place.Index index ∷ rest.now) value.old) value.new result }
{
    match value {
        Value::List(_, items) => change_item(alloc, change, items, index, rest),
        _ => unreachable!(),
    }
}

#[cycle(change)]
fn change_item(
    alloc: Global,
    change: Change,
    items: &mut Shared<Items>,
    index: i64,
    rest: &[Place],
) -> Result<(), RowFault>
    requires { (ty : Ty) × IsSome (with_part (part_after change) (Place.Index index ∷ rest.now) (Value.List ty items.old)) }
    ensures { (ty : Ty) → Leaves (with_part (part_after change) (Place.Index index ∷ rest.now) (Value.List ty items.old)) (Value.List ty items.new) result }
{
    unshare_items(alloc, items)?;
    match items.get_mut() {
        Some(items) => change_own_item(alloc, change, items, index, rest),
        None => Err(RowFault::NoMemory),
    }
}

#[cycle(change)]
fn change_own_item(
    alloc: Global,
    change: Change,
    items: &mut Items,
    index: i64,
    rest: &[Place],
) -> Result<(), RowFault>
    requires { (ty : Ty) × IsSome (with_part (part_after change) (Place.Index index ∷ rest.now) (Value.List ty items.old)) }
    ensures { (ty : Ty) → Leaves (with_part (part_after change) (Place.Index index ∷ rest.now) (Value.List ty items.old)) (Value.List ty items.new) result }
{
    let length = items.len();
    match within(index, length) {
        Some(at) => change_at(alloc, change, items.at_mut(at), rest),
        None => Err(fault_of(alloc, RunFault::NoIndex(index, length as u64))),
    }
}

#[cycle(change)]
fn change_at_key(
    alloc: Global,
    change: Change,
    value: &mut Value,
    key: &ByteText,
    rest: &[Place],
) -> Result<(), RowFault>
    requires { IsSome (with_part (part_after change) (Place.Key key.now ∷ rest.now) value.old) }
    ensures { Leaves (with_part (part_after change) (Place.Key key.now ∷ rest.now) value.old) value.new result }
{
    match value {
        Value::Map(_, pairs) => change_entry(alloc, change, pairs, key, rest),
        _ => unreachable!(),
    }
}

#[cycle(change)]
fn change_entry(
    alloc: Global,
    change: Change,
    pairs: &mut Shared<Entries>,
    key: &ByteText,
    rest: &[Place],
) -> Result<(), RowFault>
    requires { (ty : Ty) × IsSome (with_part (part_after change) (Place.Key key.now ∷ rest.now) (Value.Map ty pairs.old)) }
    ensures { (ty : Ty) → Leaves (with_part (part_after change) (Place.Key key.now ∷ rest.now) (Value.Map ty pairs.old)) (Value.Map ty pairs.new) result }
{
    unshare_entries(alloc, pairs)?;
    match pairs.get_mut() {
        Some(pairs) => change_own_entry(alloc, change, pairs, key, rest),
        None => Err(RowFault::NoMemory),
    }
}

#[cycle(change)]
fn change_own_entry(
    alloc: Global,
    change: Change,
    pairs: &mut Entries,
    key: &ByteText,
    rest: &[Place],
) -> Result<(), RowFault>
    requires { (ty : Ty) × IsSome (with_part (part_after change) (Place.Key key.now ∷ rest.now) (Value.Map ty pairs.old)) }
    ensures { (ty : Ty) → Leaves (with_part (part_after change) (Place.Key key.now ∷ rest.now) (Value.Map ty pairs.old)) (Value.Map ty pairs.new) result }
{
    if pairs.get(key).is_some() {
        change_held(alloc, change, pairs, key, rest)
    } else {
        Err(no_key(alloc, key))
    }
}

/// Changes the value at a key that is there: another one stands in its place meanwhile.
#[cycle(change)]
fn change_held(
    alloc: Global,
    change: Change,
    pairs: &mut Entries,
    key: &ByteText,
    rest: &[Place],
) -> Result<(), RowFault>
    requires there { IsSome (at_key key.now pairs.old) }
    requires fits { (ty : Ty) × IsSome (with_part (part_after change) (Place.Key key.now ∷ rest.now) (Value.Map ty pairs.old)) }
    ensures { (ty : Ty) → Leaves (with_part (part_after change) (Place.Key key.now ∷ rest.now) (Value.Map ty pairs.old)) (Value.Map ty pairs.new) result }
{
    let mut held = pairs.swap(key, Value::Bool(false));
    let changed = change_at(alloc, change, &mut held, rest);
    pairs.swap(key, held);
    changed
}

/// Puts a value at a key of a map.
fn replace_entry(
    alloc: Global,
    value: &mut Value,
    key: ByteText,
    new: Value,
) -> Result<(), RowFault>
    requires { IsSome (put_at (Place.Key key ∷ []) value.old new) }
    ensures { Leaves (put_at (Place.Key key ∷ []) value.old new) value.new result }
{
    match value {
        Value::Map(_, pairs) => put_new(alloc, pairs, key, new),
        _ => unreachable!(),
    }
}

fn put_new(
    alloc: Global,
    pairs: &mut Shared<Entries>,
    key: ByteText,
    new: Value,
) -> Result<(), RowFault>
    ensures { Leaves (outcome put_fault (put_key key pairs.old [] new (λ w. Ok new))) pairs.new result }
{
    unshare_entries(alloc, pairs)?;
    match pairs.get_mut() {
        Some(pairs) => put_own_entry(alloc, pairs, key, new),
        None => Err(RowFault::NoMemory),
    }
}

fn put_own_entry(
    alloc: Global,
    pairs: &mut Entries,
    key: ByteText,
    new: Value,
) -> Result<(), RowFault>
    ensures { Leaves (outcome put_fault (put_key key pairs.old [] new (λ w. Ok new))) pairs.new result }
{
    match put_entry(pairs, key, new) {
        Ok(()) => Ok(()),
        Err(fault) => Err(of_place(alloc, fault)),
    }
}

/// Puts a value at an index of a list.
fn replace_item(alloc: Global, value: &mut Value, index: i64, new: Value) -> Result<(), RowFault>
    requires { IsSome (put_at (Place.Index index ∷ []) value.old new) }
    ensures { Leaves (put_at (Place.Index index ∷ []) value.old new) value.new result }
{
    match value {
        Value::List(_, items) => put_item(alloc, items, index, new),
        _ => unreachable!(),
    }
}

fn put_item(
    alloc: Global,
    items: &mut Shared<Items>,
    index: i64,
    new: Value,
) -> Result<(), RowFault>
    ensures { Leaves (outcome put_fault (put_index index items.old (λ w. Ok new))) items.new result }
{
    unshare_items(alloc, items)?;
    match items.get_mut() {
        Some(items) => put_own_item(alloc, items, index, new),
        None => Err(RowFault::NoMemory),
    }
}

fn put_own_item(alloc: Global, items: &mut Items, index: i64, new: Value) -> Result<(), RowFault>
    ensures { Leaves (outcome put_fault (put_index index items.old (λ w. Ok new))) items.new result }
{
    let length = items.len();
    match within(index, length) {
        Some(at) => {
            items.set(at, new);
            Ok(())
        }
        None => {
            drop(new);
            Err(fault_of(alloc, RunFault::NoIndex(index, length as u64)))
        }
    }
}

/// Puts a new value at a path.
fn replace_part(alloc: Global, value: &mut Value, path: &Path, new: Value) -> Result<(), RowFault>
    requires { IsSome (put_at path.now value.old new) }
    ensures { Leaves (put_at path.now value.old new) value.new result }
{
    match put_path(alloc, value, path, new) {
        Ok(()) => Ok(()),
        Err(fault) => Err(of_place(alloc, fault)),
    }
}

fn replace(alloc: Global, value: &mut Value, route: Route, new: Value) -> Result<(), RowFault>
    requires { IsSome (put_at (places_of route) value.old new) }
    ensures { Leaves (put_at (places_of route) value.old new) value.new result }
{
    match route {
        Route::One(Place::Index(index)) => replace_item(alloc, value, index, new),
        Route::One(Place::Key(key)) => replace_entry(alloc, value, key, new),
        Route::Path(path) => replace_part(alloc, value, &path, new),
    }
}

fn change_along(
    alloc: Global,
    change: Change,
    value: &mut Value,
    route: &Route,
) -> Result<(), RowFault>
    requires { IsSome (with_part (part_after change) (places_of route.now) value.old) }
    ensures { Leaves (with_part (part_after change) (places_of route.now) value.old) value.new result }
{
    match route {
        Route::One(Place::Index(index)) => change_at_index(alloc, change, value, *index, &[]),
        Route::One(Place::Key(key)) => change_at_key(alloc, change, value, key, &[]),
        Route::Path(path) => change_at(alloc, change, value, path.as_slice()),
    }
}

/// Changes a part of a value where it stands. After a fault the part may be gone.
pub(crate) fn change_value(
    alloc: Global,
    change: Change,
    value: &mut Value,
    route: Route,
) -> Result<(), RowFault>
    requires { IsSome (value_after change (places_of route) value.old) }
    ensures { Leaves (value_after change (places_of route) value.old) value.new result }
{
    match change {
        Change::Replace(new) => replace(alloc, value, route, new),
        other => change_along(alloc, other, value, &route),
    }
}
