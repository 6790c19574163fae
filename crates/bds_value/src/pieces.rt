//! The text of a value as a piece of another text.
ghost use Rattle.std.specs.Prelude.{◌≡◌, ◌++◌, OnOk, codes, nat_lt, [], if◌then◌else◌, length};
ghost use Rattle.std.specs.List.{join_by};
ghost use Rattle.bds_value.specs.Text.{text_of, piece_of};
ghost use Rattle.bds_value.specs.TextResult.{TextResult, held};

use crate::MAX_TEXT;
use crate::faults::TextFault;
use crate::length::{text_length, text_of};
use crate::listed::{Listed, NoMemory};
use crate::text::{put, put_text};
use crate::value::{ByteText, Value};
use std::alloc::Global;

/// The text of a value within another text: the items of a list stand with one space between.
/// `TooLong` has the length needed.
pub fn piece_of(alloc: Global, value: &Value) -> Result<ByteText, TextFault>
    ensures { TextResult (piece_of value.now) result }
{
    match value {
        Value::List(_, items) => list_piece(alloc, items.get().as_slice()),
        _ => text_of(alloc, value),
    }
}

fn list_piece(alloc: Global, items: &[Value]) -> Result<ByteText, TextFault>
    ensures { TextResult (join_by text_of (codes " ") items.now) result }
{
    let length = pieces_length(items);
    if length > MAX_TEXT {
        return Err(TextFault::TooLong(length));
    }
    let mut out = Vec::new(alloc);
    put_pieces(&mut out, items)?;
    Ok(Listed::from_vec(out))
}

fn space_length(index: usize) -> u64
    ensures { result ≡ length (if nat_lt 0 index then codes " " else []) }
{
    if index > 0 { 1 } else { 0 }
}

/// How many bytes the items' texts have with the spaces, or the greatest number where they are
/// more.
fn pieces_length(items: &[Value]) -> u64
    ensures { result ≡ held (length (join_by text_of (codes " ") items.now)) }
{
    let mut total: u64 = 0;
    for (i, item) in items.iter().enumerate() {
        total = total.saturating_add(space_length(i));
        total = total.saturating_add(text_length(item));
    }
    total
}

fn put_space(out: &mut Vec<u8>, index: usize) -> Result<(), NoMemory>
    ensures { OnOk result (out.new.items ≡ out.old.items ++ (if nat_lt 0 index then codes " " else [])) }
{
    if index > 0 { put(out, b" ") } else { Ok(()) }
}

fn put_pieces(out: &mut Vec<u8>, items: &[Value]) -> Result<(), NoMemory>
    ensures { OnOk result (out.new.items ≡ out.old.items ++ join_by text_of (codes " ") items.now) }
{
    for (i, item) in items.iter().enumerate() {
        put_space(out, i)?;
        put_text(out, item)?;
    }
    Ok(())
}
