//! Lines of texts for people.
ghost use Rattle.std.specs.Prelude.{◌≡◌, ◌++◌, OnOk, codes, decimal};
ghost use Rattle.bds_tools.specs.Lines.{counted, numbered};

use bds_value::{NoMemory, put};
use itoa::Buffer;

/// Puts a number in decimal digits at the end.
fn put_number(out: &mut Vec<u8>, number: u64) -> Result<(), NoMemory>
    ensures { OnOk result (out.new.items ≡ out.old.items ++ decimal number) }
{
    let mut buffer = Buffer::new();
    put(out, buffer.format(number).as_bytes())
}

/// Puts a text and a number behind it at the end.
pub(crate) fn put_numbered(out: &mut Vec<u8>, text: &[u8], number: u64) -> Result<(), NoMemory>
    ensures { OnOk result (out.new.items ≡ out.old.items ++ numbered text.now number) }
{
    put(out, text)?;
    put_number(out, number)
}

/// Puts a word, a blank and a number at the end.
pub(crate) fn put_counted(out: &mut Vec<u8>, word: &[u8], number: u64) -> Result<(), NoMemory>
    ensures { OnOk result (out.new.items ≡ out.old.items ++ counted word.now number) }
{
    put(out, word)?;
    put(out, b" ")?;
    put_number(out, number)
}

/// Puts a line of a word and a number at the end.
pub(crate) fn put_line(out: &mut Vec<u8>, word: &[u8], number: u64) -> Result<(), NoMemory>
    ensures { OnOk result (out.new.items ≡ out.old.items ++ (counted word.now number ++ codes "\n")) }
{
    put_counted(out, word, number)?;
    put(out, b"\n")
}
