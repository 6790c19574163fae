//! Copies of the pieces of a text.

ghost use Rattle.std.specs.Prelude.{◌≡◌, IfOk};

use crate::token::{Index, KeyName, Piece, Pieces};
use bds_value::{Listed, NoMemory, copy_text};
use std::alloc::Global;

fn copy_index(alloc: Global, index: &Index) -> Result<Index, NoMemory>
    ensures { IfOk result (λ copied. copied ≡ index.now) }
{
    match index {
        Index::Number(n) => Ok(Index::Number(*n)),
        Index::Name(name) => Ok(Index::Name(copy_text(alloc, name)?)),
    }
}

fn copy_key(alloc: Global, key: &KeyName) -> Result<KeyName, NoMemory>
    ensures { IfOk result (λ copied. copied ≡ key.now) }
{
    match key {
        KeyName::Text(text) => Ok(KeyName::Text(copy_text(alloc, text)?)),
        KeyName::Name(name) => Ok(KeyName::Name(copy_text(alloc, name)?)),
    }
}

fn copy_piece(alloc: Global, piece: &Piece) -> Result<Piece, NoMemory>
    ensures { IfOk result (λ copied. copied ≡ piece.now) }
{
    match piece {
        Piece::Plain(text) => Ok(Piece::Plain(copy_text(alloc, text)?)),
        Piece::Name(name) => Ok(Piece::Name(copy_text(alloc, name)?)),
        Piece::Item(name, index) => {
            let name = copy_text(alloc, name)?;
            Ok(Piece::Item(name, copy_index(alloc, index)?))
        }
        Piece::Key(name, key) => {
            let name = copy_text(alloc, name)?;
            Ok(Piece::Key(name, copy_key(alloc, key)?))
        }
    }
}

/// Equal pieces.
pub fn copy_pieces(alloc: Global, pieces: &Pieces) -> Result<Pieces, NoMemory>
    ensures { IfOk result (λ copied. copied ≡ pieces.now) }
{
    let mut copies = Listed::new(alloc);
    for piece in pieces.as_slice() {
        copies.push(copy_piece(alloc, piece)?)?;
    }
    Ok(copies)
}
