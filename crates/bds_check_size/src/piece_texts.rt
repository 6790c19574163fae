//! The text of a piece as it is written.
ghost use Rattle.std.specs.Prelude.{◌≡◌, ◌++◌, OnOk, IfOk};
ghost use Rattle.bds_check_names.specs.PieceKinds as kinds;
ghost use Rattle.bds_check_size.specs.Parts.{suffix_text};

use bds_tree::{Index, KeyName, Piece};
use bds_value::{ByteText, Listed, NoMemory, copy_text, put};
use itoa::Buffer;
use std::alloc::Global;

/// An index as it is written, behind what `out` has.
fn put_index(out: &mut Vec<u8>, index: &Index) -> Result<(), NoMemory>
    ensures { OnOk result (out.new.items ≡ out.old.items ++ kinds.index_text index.now) }
{
    put(out, b"[")?;
    match index {
        Index::Number(number) => put(out, Buffer::new().format(*number).as_bytes())?,
        Index::Name(name) => put(out, name.as_slice())?,
    }
    put(out, b"]")
}

/// A key as it is written, behind what `out` has.
fn put_key(out: &mut Vec<u8>, key: &KeyName) -> Result<(), NoMemory>
    ensures { OnOk result (out.new.items ≡ out.old.items ++ kinds.key_text key.now) }
{
    match key {
        KeyName::Text(text) => {
            put(out, b"{'")?;
            put(out, text.as_slice())?;
            put(out, b"'}")
        }
        KeyName::Name(name) => {
            put(out, b"{")?;
            put(out, name.as_slice())?;
            put(out, b"}")
        }
    }
}

/// The suffix of a piece as it is written, behind what `out` has.
fn put_suffix(out: &mut Vec<u8>, piece: &Piece) -> Result<(), NoMemory>
    ensures { OnOk result (out.new.items ≡ out.old.items ++ suffix_text piece.now) }
{
    match piece {
        Piece::Plain(_) | Piece::Name(_) => Ok(()),
        Piece::Item(_, index) => put_index(out, index),
        Piece::Key(_, key) => put_key(out, key),
    }
}

/// The suffix of a piece as it is written.
pub fn suffix_text(alloc: Global, piece: &Piece) -> Result<ByteText, NoMemory>
    ensures { IfOk result (λ text. text ≡ suffix_text piece.now) }
{
    let mut out = Vec::new(alloc);
    put_suffix(&mut out, piece)?;
    Ok(Listed::from_vec(out))
}

/// A piece of a variable as it is written.
fn variable_as_written(alloc: Global, name: &ByteText, piece: &Piece) -> Result<ByteText, NoMemory>
    ensures { IfOk result (λ text. text ≡ kinds.name_text name.now ++ suffix_text piece.now) }
{
    let mut out = Vec::new(alloc);
    put(&mut out, b"$")?;
    put(&mut out, name.as_slice())?;
    put_suffix(&mut out, piece)?;
    Ok(Listed::from_vec(out))
}

/// A piece as it is written.
pub fn as_written(alloc: Global, piece: &Piece) -> Result<ByteText, NoMemory>
    ensures { IfOk result (λ text. text ≡ kinds.as_written piece.now) }
{
    match piece {
        Piece::Plain(text) => copy_text(alloc, text),
        Piece::Name(name) | Piece::Item(name, _) | Piece::Key(name, _) => {
            variable_as_written(alloc, name, piece)
        }
    }
}
