//! What a piece of a text is under the names in force.
ghost use Rattle.std.specs.Prelude.{◌≡◌};
ghost use Rattle.bds_check_names.specs.PieceKinds as kinds;
ghost use Rattle.bds_check_names.specs.Scopes as scopes;

use crate::names::Names;
use crate::scopes::found;
use crate::types::{is_list, is_map};
use bds_tree::{Index, KeyName, Piece};
use bds_value::ByteText;

/// What a piece of a text is.
#[derive(Clone, Copy, Debug, PartialEq, Eq)]
pub enum PieceKind {
    /// It stands for itself, as it is written.
    Plain,
    /// The value of a variable.
    Value,
    /// An item of a list, or the value of a key in a map.
    Part,
    /// The value of a variable, and its suffix as it is written.
    ValueThenPlain,
}

/// This where the name is in force.
fn if_in_force(names: &Names, name: &ByteText, kind: PieceKind) -> PieceKind
    ensures { result ≡ kinds.if_in_force (λ x. scopes.found x names.now) name.now kind }
{
    match found(names, name) {
        Some(_) => kind,
        None => PieceKind::Plain,
    }
}

/// This where the variable is a list.
fn if_list(names: &Names, name: &ByteText, kind: PieceKind) -> PieceKind
    ensures { result ≡ kinds.if_list (λ x. scopes.found x names.now) name.now kind }
{
    match found(names, name) {
        Some(ty) if is_list(ty) => kind,
        _ => PieceKind::ValueThenPlain,
    }
}

/// This where the variable is a map.
fn if_map(names: &Names, name: &ByteText, kind: PieceKind) -> PieceKind
    ensures { result ≡ kinds.if_map (λ x. scopes.found x names.now) name.now kind }
{
    match found(names, name) {
        Some(ty) if is_map(ty) => kind,
        _ => PieceKind::ValueThenPlain,
    }
}

/// What a piece of a text is under the names in force: in quotes, where a name that isn't in force is
/// refused, and behind `sys`, where its piece is plain as it is written.
pub fn piece_kind(names: &Names, piece: &Piece) -> PieceKind
    ensures { result ≡ kinds.piece_kind (λ x. scopes.found x names.now) piece.now }
{
    match piece {
        Piece::Plain(_) => PieceKind::Plain,
        Piece::Name(name) => if_in_force(names, name, PieceKind::Value),
        Piece::Item(name, Index::Number(_)) => {
            if_in_force(names, name, if_list(names, name, PieceKind::Part))
        }
        Piece::Item(name, Index::Name(index)) => {
            let part = if_in_force(names, index, PieceKind::Part);
            if_in_force(names, name, if_list(names, name, part))
        }
        Piece::Key(name, KeyName::Text(_)) => {
            if_in_force(names, name, if_map(names, name, PieceKind::Part))
        }
        Piece::Key(name, KeyName::Name(key)) => {
            let part = if_in_force(names, key, PieceKind::Part);
            if_in_force(names, name, if_map(names, name, part))
        }
    }
}
