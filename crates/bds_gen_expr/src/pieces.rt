//! Texts with variables in them: each part is made by itself and joined to those before it.
ghost use Rattle.std.specs.Prelude.{◌≡◌, ◌++◌, OnOk};
ghost use Rattle.bds_tree.specs.declared.token.Piece.TheVariants as piece;
ghost use Rattle.bds_check_size.specs.Parts.{shows, shown_part, shown_variable, first_part, further_parts, piece_parts, parts_of};
ghost use Rattle.bds_gen_expr.specs.ExprCode.{part_code, joined_code, parts_code, pieces_code};
ghost use Rattle.bds_gen_expr.specs.Gen.{act};
ghost use Rattle.bds_gen_expr.specs.Grown.{Grown};
ghost use Rattle.bds_gen_expr.specs.Marks.{written};
ghost use Rattle.bds_gen_expr.specs.PieceCode.{index_push, key_push};
ghost use Rattle.bds_gen_expr.specs.Scope.{types_in};

use crate::piece_kinds::kind_of;
use crate::scope::{Scope, load};
use crate::writing::act;
use bds_check_names::PieceKind;
use bds_check_size::{as_written, suffix_text};
use bds_code::{Function, Instr};
use bds_tree::{Index, KeyName, Piece};
use bds_value::{At, ByteText, Listed, NoMemory, copy_text};
use std::alloc::Global;

/// What stands in the brackets of an item.
fn push_index(function: &mut Function, at: At, scope: &Scope, index: &Index) -> Result<(), NoMemory>
    ensures code { OnOk result (function.new ≡ act function.old at (index_push scope.now index.now)) }
    ensures kept { Grown function.old function.new }
{
    match index {
        Index::Number(number) => act(function, at, Instr::PushInt(*number)),
        Index::Name(name) => act(function, at, load(scope, name)),
    }
}

/// What stands in the braces of a key.
fn push_key(
    alloc: Global,
    function: &mut Function,
    at: At,
    scope: &Scope,
    key: &KeyName,
) -> Result<(), NoMemory>
    ensures code { OnOk result (function.new ≡ act function.old at (key_push scope.now key.now)) }
    ensures kept { Grown function.old function.new }
{
    match key {
        KeyName::Text(text) => {
            let text = copy_text(alloc, text)?;
            act(function, at, Instr::PushText(text))
        }
        KeyName::Name(name) => act(function, at, load(scope, name)),
    }
}

/// The text of a variable.
#[tactic(auto, using(crate::proofs::Growing::grown_on))]
fn write_variable(
    function: &mut Function,
    at: At,
    scope: &Scope,
    name: &ByteText,
) -> Result<(), NoMemory>
    ensures code { OnOk result (function.new ≡ written function.old (part_code scope.now at (shows name.now))) }
    ensures kept { Grown function.old function.new }
{
    act(function, at, load(scope, name))?;
    act(function, at, Instr::Blank)
}

/// The text of an item of a list.
#[tactic(auto, using(crate::proofs::Growing::grown_on))]
fn write_item(
    function: &mut Function,
    at: At,
    scope: &Scope,
    name: &ByteText,
    index: &Index,
) -> Result<(), NoMemory>
    ensures code { OnOk result (function.new ≡ written function.old (part_code scope.now at (shown_part (piece.Item name.now index.now)))) }
    ensures kept { Grown function.old function.new }
{
    act(function, at, load(scope, name))?;
    push_index(function, at, scope, index)?;
    act(function, at, Instr::Item)?;
    act(function, at, Instr::Blank)
}

/// The text of the value of a key in a map.
#[tactic(auto, using(crate::proofs::Growing::grown_on))]
fn write_entry(
    alloc: Global,
    function: &mut Function,
    at: At,
    scope: &Scope,
    name: &ByteText,
    key: &KeyName,
) -> Result<(), NoMemory>
    ensures code { OnOk result (function.new ≡ written function.old (part_code scope.now at (shown_part (piece.Key name.now key.now)))) }
    ensures kept { Grown function.old function.new }
{
    act(function, at, load(scope, name))?;
    push_key(alloc, function, at, scope, key)?;
    act(function, at, Instr::Key)?;
    act(function, at, Instr::Blank)
}

/// The part of a variable that a piece names.
fn write_shown(
    alloc: Global,
    function: &mut Function,
    at: At,
    scope: &Scope,
    piece: &Piece,
) -> Result<(), NoMemory>
    ensures code { OnOk result (function.new ≡ written function.old (part_code scope.now at (shown_part piece.now))) }
    ensures kept { Grown function.old function.new }
{
    match piece {
        Piece::Plain(text) => {
            let text = copy_text(alloc, text)?;
            act(function, at, Instr::PushText(text))
        }
        Piece::Name(name) => write_variable(function, at, scope, name),
        Piece::Item(name, index) => write_item(function, at, scope, name, index),
        Piece::Key(name, key) => write_entry(alloc, function, at, scope, name, key),
    }
}

/// The variable of a piece.
fn write_named(
    alloc: Global,
    function: &mut Function,
    at: At,
    scope: &Scope,
    piece: &Piece,
) -> Result<(), NoMemory>
    ensures code { OnOk result (function.new ≡ written function.old (part_code scope.now at (shown_variable piece.now))) }
    ensures kept { Grown function.old function.new }
{
    match piece {
        Piece::Plain(text) => {
            let text = copy_text(alloc, text)?;
            act(function, at, Instr::PushText(text))
        }
        Piece::Name(name) => write_variable(function, at, scope, name),
        Piece::Item(name, _) => write_variable(function, at, scope, name),
        Piece::Key(name, _) => write_variable(function, at, scope, name),
    }
}

/// The first part of a piece.
fn write_first(
    alloc: Global,
    function: &mut Function,
    at: At,
    scope: &Scope,
    piece: &Piece,
    kind: PieceKind,
) -> Result<(), NoMemory>
    ensures code { OnOk result (function.new ≡ written function.old (part_code scope.now at (first_part kind piece.now))) }
    ensures kept { Grown function.old function.new }
{
    match kind {
        PieceKind::Plain => {
            let text = as_written(alloc, piece)?;
            act(function, at, Instr::PushText(text))
        }
        PieceKind::Part => write_shown(alloc, function, at, scope, piece),
        PieceKind::Value | PieceKind::ValueThenPlain => {
            write_named(alloc, function, at, scope, piece)
        }
    }
}

/// A suffix that doesn't fit its variable, joined to it.
#[tactic(auto, using(crate::proofs::Growing::grown_on))]
fn write_further(
    alloc: Global,
    function: &mut Function,
    at: At,
    scope: &Scope,
    piece: &Piece,
    kind: PieceKind,
) -> Result<(), NoMemory>
    ensures code { OnOk result (function.new ≡ written function.old (joined_code scope.now at (further_parts kind piece.now))) }
    ensures kept { Grown function.old function.new }
{
    match kind {
        PieceKind::ValueThenPlain => {
            let text = suffix_text(alloc, piece)?;
            act(function, at, Instr::PushText(text))?;
            act(function, at, Instr::Concat)
        }
        PieceKind::Plain | PieceKind::Value | PieceKind::Part => Ok(()),
    }
}

/// A piece at the front of a text.
#[tactic(auto, using(crate::proofs::Growing::grown_on))]
fn write_opening(
    alloc: Global,
    function: &mut Function,
    at: At,
    scope: &Scope,
    piece: &Piece,
) -> Result<(), NoMemory>
    ensures code { OnOk result (function.new ≡ written function.old (parts_code scope.now at (piece_parts (types_in scope.now) piece.now))) }
    ensures kept { Grown function.old function.new }
{
    let kind = kind_of(scope, piece);
    write_first(alloc, function, at, scope, piece, kind)?;
    write_further(alloc, function, at, scope, piece, kind)
}

/// A piece joined to those before it.
#[tactic(auto, using(crate::proofs::Growing::grown_on))]
fn write_joined(
    alloc: Global,
    function: &mut Function,
    at: At,
    scope: &Scope,
    piece: &Piece,
) -> Result<(), NoMemory>
    ensures code { OnOk result (function.new ≡ written function.old (joined_code scope.now at (piece_parts (types_in scope.now) piece.now))) }
    ensures kept { Grown function.old function.new }
{
    let kind = kind_of(scope, piece);
    write_first(alloc, function, at, scope, piece, kind)?;
    act(function, at, Instr::Concat)?;
    write_further(alloc, function, at, scope, piece, kind)
}

/// Pieces joined to those before them.
#[tactic(auto, using(crate::proofs::Growing::grown_on))]
fn write_rest(
    alloc: Global,
    function: &mut Function,
    at: At,
    scope: &Scope,
    pieces: &[Piece],
) -> Result<(), NoMemory>
    ensures code { OnOk result (function.new ≡ written function.old (joined_code scope.now at (parts_of (types_in scope.now) pieces.now))) }
    ensures kept { Grown function.old function.new }
{
    for piece in pieces {
        write_joined(alloc, function, at, scope, piece)?;
    }
    Ok(())
}

/// A text of pieces.
#[tactic(auto, using(crate::proofs::Growing::grown_on))]
pub fn write_pieces(
    alloc: Global,
    function: &mut Function,
    at: At,
    scope: &Scope,
    pieces: &[Piece],
) -> Result<(), NoMemory>
    ensures code { OnOk result (function.new ≡ written function.old (pieces_code scope.now at pieces.now)) }
    ensures kept { Grown function.old function.new }
{
    match pieces {
        [] => act(function, at, Instr::PushText(Listed::new(alloc))),
        [piece, rest @ ..] => {
            write_opening(alloc, function, at, scope, piece)?;
            write_rest(alloc, function, at, scope, rest)
        }
    }
}
