//! Methods of maps.
ghost use Rattle.std.specs.Prelude.{◌≡◌, IfOk};
ghost use Rattle.bds_value.specs.declared.value.Value.{out-Value};
ghost use Rattle.bds_lib.specs.Maps.{has_key, keys, values, map_alone, map_with};
ghost use Rattle.bds_lib.specs.Results.{OrNoMemory};

use crate::faults::LibFault;
use crate::lists::list_of;
use crate::places::counted;
use bds_value::method_numbers::{HAS_KEY, KEYS, MAP_SIZE, VALUES};
use bds_value::{ByteText, Entries, Items, Listed, NoMemory, Ty, Value, copy, copy_text};
use std::alloc::Global;

fn has_key(pairs: &Entries, key: &ByteText) -> bool
    ensures { result ≡ has_key key.now pairs.now }
{
    match pairs.get(key) {
        Some(_) => true,
        None => false,
    }
}

fn keys(alloc: Global, pairs: &Entries) -> Result<Items, NoMemory>
    ensures { IfOk result (λ found. found ≡ keys pairs.now) }
{
    let mut found = Listed::new(alloc);
    for (key, _) in pairs.iter() {
        found.push(Value::Text(copy_text(alloc, key)?))?;
    }
    Ok(found)
}

fn values(alloc: Global, pairs: &Entries) -> Result<Items, NoMemory>
    ensures { IfOk result (λ found. found ≡ values pairs.now) }
{
    let mut found = Listed::new(alloc);
    for (_, value) in pairs.iter() {
        found.push(copy(alloc, value)?)?;
    }
    Ok(found)
}

/// The methods of a map without an argument.
pub fn map_alone(alloc: Global, method: u8, ty: &Ty, pairs: &Entries) -> Result<Value, LibFault>
    ensures { OrNoMemory (map_alone method ty.now pairs.now) result }
{
    match method {
        MAP_SIZE => Ok(Value::Int(counted(pairs.len()))),
        KEYS => list_of(alloc, &Ty::Text, keys(alloc, pairs)?),
        VALUES => list_of(alloc, ty, values(alloc, pairs)?),
        _ => Ok(Value::Bool(false)),
    }
}

/// The method of a map with a key.
pub fn map_with(method: u8, pairs: &Entries, key: &Value) -> Result<Value, LibFault>
    ensures { result ≡ map_with method pairs.now (out-Value key.now) }
{
    match key {
        Value::Text(key) if method == HAS_KEY => Ok(Value::Bool(has_key(pairs, key))),
        _ => Ok(Value::Bool(false)),
    }
}
