//! Lists and maps that are shared until one of them changes.
ghost use Rattle.std.specs.Prelude.{◌≡◌, IfOk};

use crate::copies::{copy_entries, copy_items};
use crate::listed::NoMemory;
use crate::shared::Shared;
use crate::value::{Entries, Items, Ty, Value};
use std::alloc::Global;

/// A list of these items.
pub fn list_of(alloc: Global, ty: Ty, items: Items) -> Result<Value, NoMemory>
    ensures { IfOk result (λ list. list ≡ Value.List ty items) }
{
    match Shared::of(alloc, items) {
        Ok(items) => Ok(Value::List(ty, items)),
        Err(_) => Err(NoMemory),
    }
}

/// A map of these pairs.
pub fn map_of(alloc: Global, ty: Ty, pairs: Entries) -> Result<Value, NoMemory>
    ensures { IfOk result (λ map. map ≡ Value.Map ty pairs) }
{
    match Shared::of(alloc, pairs) {
        Ok(pairs) => Ok(Value::Map(ty, pairs)),
        Err(_) => Err(NoMemory),
    }
}

/// Has no other value hold the items: where others do, this one gets a copy. Then they may be lent for writing.
pub fn unshare_items(alloc: Global, items: &mut Shared<Items>) -> Result<(), NoMemory>
    ensures { items.new ≡ items.old }
{
    if !items.is_only() {
        let copies = copy_items(alloc, items.get())?;
        *items = Shared::of(alloc, copies)?;
    }
    Ok(())
}

/// Has no other value hold the pairs: where others do, this one gets a copy. Then they may be lent for writing.
pub fn unshare_entries(alloc: Global, pairs: &mut Shared<Entries>) -> Result<(), NoMemory>
    ensures { pairs.new ≡ pairs.old }
{
    if !pairs.is_only() {
        let copies = copy_entries(alloc, pairs.get())?;
        *pairs = Shared::of(alloc, copies)?;
    }
    Ok(())
}

/// The items themselves, or a copy of them where other values have them, too.
pub fn taken_items(alloc: Global, items: Shared<Items>) -> Result<Items, NoMemory>
    ensures { IfOk result (λ taken. taken ≡ items) }
{
    match items.into_inner() {
        Ok(items) => Ok(items),
        Err(shared) => copy_items(alloc, shared.get()),
    }
}
