//! The size of a text with variables in it.
ghost use Rattle.std.specs.Prelude.{◌≡◌, is_some};
ghost use Rattle.bds_check_size.specs.Parts.{joined_size, parts_size, parts_of};
ghost use Rattle.bds_gen_expr.specs.Scope.{types_in};
ghost use Rattle.bds_gen_size.specs.Capped.{capped};
ghost use Rattle.bds_gen_size.specs.PieceSize.{first_size, index_size, key_size};

use bds_check_names::{is_list, is_map};
use bds_gen_expr::{Scope, type_in};
use bds_tree::{Index, KeyName, Piece};
use bds_value::{ByteText, Ty};

fn is_in_force(scope: &Scope, name: &ByteText) -> bool
    ensures { result ≡ is_some (types_in scope.now name.now) }
{
    type_in(scope, name).is_some()
}

/// An index in the brackets behind a variable that is in force.
fn index_size(scope: &Scope, ty: &Ty, index: &Index) -> u64
    ensures { result ≡ index_size (types_in scope.now) ty.now index.now }
{
    match index {
        Index::Number(_) => 4,
        Index::Name(name) => {
            if !is_list(ty) || is_in_force(scope, name) {
                4
            } else {
                1
            }
        }
    }
}

/// A key in the braces behind a variable that is in force.
fn key_size(scope: &Scope, ty: &Ty, key: &KeyName) -> u64
    ensures { result ≡ key_size (types_in scope.now) ty.now key.now }
{
    match key {
        KeyName::Text(_) => 4,
        KeyName::Name(name) => {
            if !is_map(ty) || is_in_force(scope, name) {
                4
            } else {
                1
            }
        }
    }
}

/// A piece in front of others: one that is plain is pushed, a variable is made a text, and its suffix takes
/// two more, whether it is read or stays plain.
fn first_size(scope: &Scope, piece: &Piece) -> u64
    ensures { result ≡ first_size (types_in scope.now) piece.now }
{
    match piece {
        Piece::Plain(_) => 1,
        Piece::Name(name) => match type_in(scope, name) {
            Some(_) => 2,
            None => 1,
        },
        Piece::Item(name, index) => match type_in(scope, name) {
            Some(ty) => index_size(scope, ty, index),
            None => 1,
        },
        Piece::Key(name, key) => match type_in(scope, name) {
            Some(ty) => key_size(scope, ty, key),
            None => 1,
        },
    }
}

/// Pieces behind others, each joined to those before it.
#[tactic(auto, using(crate::proofs::PieceLaws::piece_rules))]
fn joined_size(scope: &Scope, pieces: &[Piece]) -> u64
    ensures { result ≡ capped (joined_size (parts_of (types_in scope.now) pieces.now)) }
{
    let mut sum: u64 = 0;
    for piece in pieces {
        let size = first_size(scope, piece);
        let before = sum.saturating_add(size);
        sum = before.saturating_add(1);
    }
    sum
}

/// A text of these pieces.
#[tactic(auto, using(crate::proofs::PieceLaws::piece_rules))]
pub fn pieces_size(scope: &Scope, pieces: &[Piece]) -> u64
    ensures { result ≡ capped (parts_size (parts_of (types_in scope.now) pieces.now)) }
{
    match pieces {
        [] => 1,
        [piece, rest @ ..] => first_size(scope, piece).saturating_add(joined_size(scope, rest)),
    }
}
