//! Texts joined with a separator.
ghost use Rattle.std.specs.Prelude.{◌≡◌, ◌++◌, [], nat_lt, length, OnOk, if◌then◌else◌};
ghost use Rattle.std.specs.List.{join_by};
ghost use Rattle.bds_value.specs.TextResult.{held};
ghost use Rattle.bds_lib.specs.Lists.{item_text};
ghost use Rattle.bds_lib.specs.Results.{short_text, OrNoMemory};

use crate::faults::LibFault;
use bds_value::{Listed, MAX_TEXT, NoMemory, Value, put};
use std::alloc::Global;

/// The text that an item of a list of texts is.
pub fn item_text(item: &Value) -> &[u8]
    ensures { result.now ≡ item_text item.now }
{
    match item {
        Value::Text(text) => text.as_slice(),
        _ => b"",
    }
}

/// What stands before an item.
fn before(separator: &[u8], index: usize) -> &[u8]
    ensures { result.now ≡ (if nat_lt 0 index then separator.now else []) }
{
    if index > 0 { separator } else { b"" }
}

/// How many bytes the joined texts have, or the greatest number where they are more.
fn joined_length(items: &[Value], separator: &[u8]) -> u64
    ensures { result ≡ held (length (join_by item_text separator.now items.now)) }
{
    let mut total: u64 = 0;
    for (i, item) in items.iter().enumerate() {
        total = total.saturating_add(before(separator, i).len() as u64);
        total = total.saturating_add(item_text(item).len() as u64);
    }
    total
}

fn put_joined(out: &mut Vec<u8>, items: &[Value], separator: &[u8]) -> Result<(), NoMemory>
    ensures { OnOk result (out.new.items ≡ out.old.items ++ join_by item_text separator.now items.now) }
{
    for (i, item) in items.iter().enumerate() {
        put(out, before(separator, i))?;
        put(out, item_text(item))?;
    }
    Ok(())
}

/// The texts of a list with a separator between each two.
pub fn join(alloc: Global, items: &[Value], separator: &[u8]) -> Result<Value, LibFault>
    ensures { OrNoMemory (short_text (join_by item_text separator.now items.now)) result }
{
    let length = joined_length(items, separator);
    if length > MAX_TEXT {
        return Err(LibFault::TooLong(length));
    }
    let mut out = Vec::new(alloc);
    put_joined(&mut out, items, separator)?;
    Ok(Value::Text(Listed::from_vec(out)))
}
