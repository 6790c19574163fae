//! The rules that the pieces of a text break.
ghost use Rattle.std.specs.Prelude.{◌≡◌};
ghost use Rattle.std.specs.List.{list_any};
ghost use Rattle.bds_check_rules.specs.Pieces as pieces;
ghost use Rattle.bds_check_names.specs.Types.{differ};
ghost use Rattle.bds_check_names.specs.Scopes as scopes;

use crate::rules::Rule;
use bds_check_names::{Names, differ, found, is_list, is_map, is_missing, is_untyped};
use bds_tree::{Index, KeyName, Piece};
use bds_value::{ByteText, Ty};

/// The variable is a list.
fn is_list_named(names: &Names, name: &ByteText) -> bool
    ensures { result ≡ pieces.is_list_named name.now names.now }
{
    match found(names, name) {
        Some(ty) => is_list(ty),
        None => false,
    }
}

/// The variable is a map.
fn is_map_named(names: &Names, name: &ByteText) -> bool
    ensures { result ≡ pieces.is_map_named name.now names.now }
{
    match found(names, name) {
        Some(ty) => is_map(ty),
        None => false,
    }
}

/// The variable has another type than this.
fn differs_named(names: &Names, wanted: &Ty, name: &ByteText) -> bool
    ensures { result ≡ differ wanted.now (scopes.type_named name.now names.now) }
{
    match found(names, name) {
        Some(ty) => differ(wanted, ty),
        None => false,
    }
}

/// A name that the piece looks for isn't in force.
fn is_missing_in(names: &Names, piece: &Piece) -> bool
    ensures { result ≡ pieces.any_name (scopes.is_missing names.now.finding) names.now piece.now }
{
    match piece {
        Piece::Plain(_) => false,
        Piece::Name(name) => is_missing(names, name),
        Piece::Item(name, Index::Number(_)) => is_missing(names, name),
        Piece::Item(name, Index::Name(index)) => {
            is_missing(names, name) || is_list_named(names, name) && is_missing(names, index)
        }
        Piece::Key(name, KeyName::Text(_)) => is_missing(names, name),
        Piece::Key(name, KeyName::Name(key)) => {
            is_missing(names, name) || is_map_named(names, name) && is_missing(names, key)
        }
    }
}

/// A name that the piece looks for is a global without a type.
fn is_untyped_in(names: &Names, piece: &Piece) -> bool
    ensures { result ≡ pieces.any_name (scopes.is_untyped names.now.finding) names.now piece.now }
{
    match piece {
        Piece::Plain(_) => false,
        Piece::Name(name) => is_untyped(names, name),
        Piece::Item(name, Index::Number(_)) => is_untyped(names, name),
        Piece::Item(name, Index::Name(index)) => {
            is_untyped(names, name) || is_list_named(names, name) && is_untyped(names, index)
        }
        Piece::Key(name, KeyName::Text(_)) => is_untyped(names, name),
        Piece::Key(name, KeyName::Name(key)) => {
            is_untyped(names, name) || is_map_named(names, name) && is_untyped(names, key)
        }
    }
}

/// The index behind a list isn't a number, or the key behind a map isn't a text.
fn is_wrong_piece(names: &Names, piece: &Piece) -> bool
    ensures { result ≡ pieces.is_wrong_piece names.now piece.now }
{
    match piece {
        Piece::Item(name, Index::Name(index)) => {
            is_list_named(names, name) && differs_named(names, &Ty::Int, index)
        }
        Piece::Key(name, KeyName::Name(key)) => {
            is_map_named(names, name) && differs_named(names, &Ty::Text, key)
        }
        _ => false,
    }
}

fn any_missing(names: &Names, text: &[Piece]) -> bool
    ensures { result ≡ list_any (pieces.any_name (scopes.is_missing names.now.finding) names.now) text.now }
{
    for piece in text {
        if is_missing_in(names, piece) {
            return true;
        }
    }
    false
}

fn any_untyped(names: &Names, text: &[Piece]) -> bool
    ensures { result ≡ list_any (pieces.any_name (scopes.is_untyped names.now.finding) names.now) text.now }
{
    for piece in text {
        if is_untyped_in(names, piece) {
            return true;
        }
    }
    false
}

fn any_wrong_piece(names: &Names, text: &[Piece]) -> bool
    ensures { result ≡ list_any (pieces.is_wrong_piece names.now) text.now }
{
    for piece in text {
        if is_wrong_piece(names, piece) {
            return true;
        }
    }
    false
}

/// The least rule that a text in quotes breaks.
pub fn text_rule(names: &Names, text: &[Piece]) -> Option<Rule>
    ensures { result ≡ pieces.text_rule names.now text.now }
{
    if any_missing(names, text) {
        Some(Rule::UnknownName)
    } else if any_wrong_piece(names, text) {
        Some(Rule::WrongType)
    } else {
        None
    }
}

/// The least rule that the text of a `sys` breaks.
pub fn sys_rule(names: &Names, text: &[Piece]) -> Option<Rule>
    ensures { result ≡ pieces.sys_rule names.now text.now }
{
    if any_untyped(names, text) {
        Some(Rule::UnknownName)
    } else if any_wrong_piece(names, text) {
        Some(Rule::WrongType)
    } else {
        None
    }
}
