//! Texts searched and cut.
ghost use Rattle.std.specs.Prelude.{◌≡◌, ◌+◌, ◌<◌, ◌≤◌, length, map, IfOk, IfSome};
ghost use Rattle.bds_lib.specs.Searching.{begins_with, closes_with, first_place, last_place, pieces, lines, Splits};

use crate::texts::text_of;
use bds_value::{Items, Listed, NoMemory, Value};
use memchr::memmem;
use std::alloc::Global;

/// Whether a text begins with another.
pub fn begins_with(text: &[u8], part: &[u8]) -> bool
    ensures { result ≡ begins_with part.now text.now }
{
    text.starts_with(part)
}

/// Whether a text ends with another.
pub fn closes_with(text: &[u8], part: &[u8]) -> bool
    ensures { result ≡ closes_with part.now text.now }
{
    text.ends_with(part)
}

/// The first place at which a part stands in a text.
pub fn first_place(text: &[u8], part: &[u8]) -> Option<usize>
    ensures value { result ≡ first_place part.now text.now }
    ensures inside { IfSome result (λ at. at + length part.now ≤ length text.now) }
{
    memmem::find(text, part)
}

/// The last place at which a part stands in a text.
pub fn last_place(text: &[u8], part: &[u8]) -> Option<usize>
    ensures value { result ≡ last_place part.now text.now }
    ensures inside { IfSome result (λ at. at + length part.now ≤ length text.now) }
{
    memmem::rfind(text, part)
}

/// The pieces of a text between the parts, from the left without overlap: all but the last, and
/// the last.
fn split<'a>(alloc: Global, text: &'a [u8], part: &[u8]) -> Result<(Items, &'a [u8]), NoMemory>
    ensures { IfOk result (λ r. Splits part.now text.now r.0 r.1.now) }
{
    let mut items = Listed::new(alloc);
    if part.is_empty() {
        return Ok((items, text));
    }
    let mut rest = text;
    while let Some(at) = first_place(rest, part) {
        let (piece, behind) = rest.split_at(at);
        items.push(Value::Text(text_of(alloc, piece)?))?;
        rest = behind.split_at(part.len()).1;
    }
    Ok((items, rest))
}

/// The pieces of a text between the parts, from the left without overlap.
pub fn pieces(alloc: Global, text: &[u8], part: &[u8]) -> Result<Items, NoMemory>
    ensures { IfOk result (λ items. items ≡ map Value.Text (pieces part.now text.now)) }
{
    let (mut items, last) = split(alloc, text, part)?;
    items.push(Value::Text(text_of(alloc, last)?))?;
    Ok(items)
}

/// The lines that a line end closes, and a last one that isn't empty.
pub fn lines(alloc: Global, text: &[u8]) -> Result<Items, NoMemory>
    ensures { IfOk result (λ items. items ≡ map Value.Text (lines text.now)) }
{
    let (mut items, last) = split(alloc, text, b"\n")?;
    if last.is_empty() {
        return Ok(items);
    }
    items.push(Value::Text(text_of(alloc, last)?))?;
    Ok(items)
}
