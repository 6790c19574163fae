//! Texts in other cases, and trimmed.
ghost use Rattle.std.specs.Prelude.{◌≡◌, map, IfOk};
ghost use Rattle.std.specs.Char.{to_ascii_uppercase, to_ascii_lowercase};
ghost use Rattle.bds_lib.specs.Texts.{trim, is_blank, trim_start, trim_end};

use bds_value::{ByteText, Listed, NoMemory};
use std::alloc::Global;

/// An equal text.
pub fn text_of(alloc: Global, bytes: &[u8]) -> Result<ByteText, NoMemory>
    ensures { IfOk result (λ text. text ≡ bytes.now) }
{
    match Vec::from_slice(alloc, bytes) {
        Ok(bytes) => Ok(Listed::from_vec(bytes)),
        Err(_) => Err(NoMemory),
    }
}

/// The text with each small letter of ASCII as a capital one.
pub fn upper(alloc: Global, text: &[u8]) -> Result<ByteText, NoMemory>
    ensures { IfOk result (λ changed. changed ≡ map to_ascii_uppercase text.now) }
{
    match text
        .iter()
        .map(|byte| byte.to_ascii_uppercase())
        .collect(alloc)
    {
        Ok(bytes) => Ok(Listed::from_vec(bytes)),
        Err(_) => Err(NoMemory),
    }
}

/// The text with each capital letter of ASCII as a small one.
pub fn lower(alloc: Global, text: &[u8]) -> Result<ByteText, NoMemory>
    ensures { IfOk result (λ changed. changed ≡ map to_ascii_lowercase text.now) }
{
    match text
        .iter()
        .map(|byte| byte.to_ascii_lowercase())
        .collect(alloc)
    {
        Ok(bytes) => Ok(Listed::from_vec(bytes)),
        Err(_) => Err(NoMemory),
    }
}

fn is_blank(byte: u8) -> bool
    ensures { result ≡ is_blank byte }
{
    byte == b' ' || byte == b'\t' || byte == b'\n' || byte == b'\r'
}

fn trim_start(text: &[u8]) -> &[u8]
    ensures { result.now ≡ trim_start text.now }
{
    for (i, byte) in text.iter().enumerate() {
        if !is_blank(*byte) {
            return text.split_at(i).1;
        }
    }
    b""
}

fn trim_end(text: &[u8]) -> &[u8]
    ensures { result.now ≡ trim_end text.now }
{
    let mut end = text.len();
    while end > 0 && is_blank(text[end - 1]) {
        end -= 1;
    }
    text.split_at(end).0
}

/// The text without blanks at both ends.
pub fn trim(text: &[u8]) -> &[u8]
    ensures { result.now ≡ trim text.now }
{
    trim_end(trim_start(text))
}
