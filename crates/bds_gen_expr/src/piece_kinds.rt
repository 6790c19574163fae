//! What a piece of a text is, by the variables of a scope.
ghost use Rattle.std.specs.Prelude.{◌≡◌};
ghost use Rattle.bds_check_names.specs.PieceKinds as kinds;
ghost use Rattle.bds_gen_expr.specs.Scope.{types_in};

use crate::scope::{Scope, type_in};
use bds_check_names::{PieceKind, is_list, is_map};
use bds_tree::{Index, KeyName, Piece};
use bds_value::ByteText;

/// This where the name is in force.
fn if_in_force(scope: &Scope, name: &ByteText, kind: PieceKind) -> PieceKind
    ensures { result ≡ kinds.if_in_force (types_in scope.now) name.now kind }
{
    match type_in(scope, name) {
        Some(_) => kind,
        None => PieceKind::Plain,
    }
}

/// This where the variable is a list.
fn if_list(scope: &Scope, name: &ByteText, kind: PieceKind) -> PieceKind
    ensures { result ≡ kinds.if_list (types_in scope.now) name.now kind }
{
    match type_in(scope, name) {
        Some(ty) if is_list(ty) => kind,
        _ => PieceKind::ValueThenPlain,
    }
}

/// This where the variable is a map.
fn if_map(scope: &Scope, name: &ByteText, kind: PieceKind) -> PieceKind
    ensures { result ≡ kinds.if_map (types_in scope.now) name.now kind }
{
    match type_in(scope, name) {
        Some(ty) if is_map(ty) => kind,
        _ => PieceKind::ValueThenPlain,
    }
}

/// What a piece is under the names in force.
pub fn kind_of(scope: &Scope, piece: &Piece) -> PieceKind
    ensures { result ≡ kinds.piece_kind (types_in scope.now) piece.now }
{
    match piece {
        Piece::Plain(_) => PieceKind::Plain,
        Piece::Name(name) => if_in_force(scope, name, PieceKind::Value),
        Piece::Item(name, Index::Number(_)) => {
            if_in_force(scope, name, if_list(scope, name, PieceKind::Part))
        }
        Piece::Item(name, Index::Name(index)) => {
            let part = if_in_force(scope, index, PieceKind::Part);
            if_in_force(scope, name, if_list(scope, name, part))
        }
        Piece::Key(name, KeyName::Text(_)) => {
            if_in_force(scope, name, if_map(scope, name, PieceKind::Part))
        }
        Piece::Key(name, KeyName::Name(key)) => {
            let part = if_in_force(scope, key, PieceKind::Part);
            if_in_force(scope, name, if_map(scope, name, part))
        }
    }
}
