//! The terms of names and of texts with pieces.
ghost use Rattle.std.specs.Prelude.{◌≡◌, ◌++◌, ◌∷◌, IfOk, codes, map};
ghost use Rattle.bds_check_names.specs.Scopes as scopes;
ghost use Rattle.bds_check_size.specs.Parts.{first_part, shown_part, shown_variable, piece_parts, parts_of};
ghost use Rattle.bds_meaning.specs.OpeningTexts as texts;
ghost use Rattle.bds_source_exprs.specs.Pieces.{index_of, key_of, further_terms};
ghost use Rattle.bds_source_terms.specs.View as view;
ghost use Rattle.bds_source_terms.specs.View.{term_of};

use bds_check_names::{Names, PieceKind, piece_kind};
use bds_check_size::{as_written, suffix_text};
use bds_source_terms::{
    Computation, Scope, Term, Terms, computed, item_taken, key_taken, let_go, one,
};
use bds_tree::{Index, KeyName, Piece};
use bds_value::{At, ByteText, Listed, NoMemory, Value, copy_text};
use std::alloc::Global;

/// Where a variable is found: a local counts before a global.
pub fn scope_of(names: &Names, name: &ByteText) -> Scope
    ensures { view.scope_of result ≡ texts.scope_of names.now name.now }
{
    match names.locals.type_of(name) {
        Some(_) => Scope::Local,
        None => Scope::Global,
    }
}

pub fn variable(alloc: Global, names: &Names, name: &ByteText) -> Result<Term, NoMemory>
    ensures { IfOk result (λ t. term_of t ≡ texts.variable names.now name.now) }
{
    let scope = scope_of(names, name);
    Ok(Term::Variable(scope, copy_text(alloc, name)?))
}

/// A text that stands for itself.
pub fn plain(text: ByteText) -> Term
    ensures { term_of result ≡ texts.plain text }
{
    Term::Constant(Value::Text(text))
}

/// A text of a line end. Only want of memory refuses it.
pub fn line_end(alloc: Global) -> Result<Term, NoMemory>
    ensures { IfOk result (λ t. term_of t ≡ texts.plain (codes "\n")) }
{
    let mut text = Listed::new(alloc);
    text.append(b"\n")?;
    Ok(plain(text))
}

/// The text of a value as a piece.
fn pieced(alloc: Global, at: At, term: Term) -> Result<Term, NoMemory>
    ensures { IfOk result (λ t. term_of t ≡ texts.pieced at (term_of term)) }
{
    match one(alloc, term) {
        Ok(part) => computed(alloc, Computation::Pieced, at, part),
        Err(fault) => Err(fault),
    }
}

fn shown_name(alloc: Global, names: &Names, at: At, name: &ByteText) -> Result<Term, NoMemory>
    ensures { IfOk result (λ t. term_of t ≡ texts.pieced at (texts.variable names.now name.now)) }
{
    match variable(alloc, names, name) {
        Ok(variable) => pieced(alloc, at, variable),
        Err(fault) => Err(fault),
    }
}

/// An item of a list.
fn item_part(
    alloc: Global,
    names: &Names,
    at: At,
    name: &ByteText,
    index: Term,
) -> Result<Term, NoMemory>
    ensures { IfOk result (λ t. term_of t ≡ texts.item_term names.now at name.now (term_of index)) }
{
    match variable(alloc, names, name) {
        Ok(list) => match item_taken(alloc, at, list, index) {
            Ok(item) => pieced(alloc, at, item),
            Err(fault) => Err(fault),
        },
        Err(fault) => {
            let_go(index);
            Err(fault)
        }
    }
}

/// The value of a key in a map.
fn key_part(
    alloc: Global,
    names: &Names,
    at: At,
    name: &ByteText,
    key: Term,
) -> Result<Term, NoMemory>
    ensures { IfOk result (λ t. term_of t ≡ texts.entry_term names.now at name.now (term_of key)) }
{
    match variable(alloc, names, name) {
        Ok(map) => match key_taken(alloc, at, map, key) {
            Ok(value) => pieced(alloc, at, value),
            Err(fault) => Err(fault),
        },
        Err(fault) => {
            let_go(key);
            Err(fault)
        }
    }
}

fn index_term(alloc: Global, names: &Names, index: &Index) -> Result<Term, NoMemory>
    ensures { IfOk result (λ t. term_of t ≡ index_of names.now index.now) }
{
    match index {
        Index::Number(number) => Ok(Term::Constant(Value::Int(*number))),
        Index::Name(name) => variable(alloc, names, name),
    }
}

fn key_term(alloc: Global, names: &Names, key: &KeyName) -> Result<Term, NoMemory>
    ensures { IfOk result (λ t. term_of t ≡ key_of names.now key.now) }
{
    match key {
        KeyName::Text(text) => Ok(plain(copy_text(alloc, text)?)),
        KeyName::Name(name) => variable(alloc, names, name),
    }
}

/// The part of a variable that a piece names.
fn part_of(alloc: Global, names: &Names, at: At, piece: &Piece) -> Result<Term, NoMemory>
    ensures { IfOk result (λ t. term_of t ≡ texts.part_term names.now at (shown_part piece.now)) }
{
    match piece {
        Piece::Plain(text) => Ok(plain(copy_text(alloc, text)?)),
        Piece::Name(name) => shown_name(alloc, names, at, name),
        Piece::Item(name, index) => match index_term(alloc, names, index) {
            Ok(index) => item_part(alloc, names, at, name, index),
            Err(fault) => Err(fault),
        },
        Piece::Key(name, key) => match key_term(alloc, names, key) {
            Ok(key) => key_part(alloc, names, at, name, key),
            Err(fault) => Err(fault),
        },
    }
}

/// The variable of a piece.
fn variable_of(alloc: Global, names: &Names, at: At, piece: &Piece) -> Result<Term, NoMemory>
    ensures { IfOk result (λ t. term_of t ≡ texts.part_term names.now at (shown_variable piece.now)) }
{
    match piece {
        Piece::Plain(text) => Ok(plain(copy_text(alloc, text)?)),
        Piece::Name(name) => shown_name(alloc, names, at, name),
        Piece::Item(name, _) => shown_name(alloc, names, at, name),
        Piece::Key(name, _) => shown_name(alloc, names, at, name),
    }
}

fn first_part(
    alloc: Global,
    names: &Names,
    at: At,
    kind: PieceKind,
    piece: &Piece,
) -> Result<Term, NoMemory>
    ensures { IfOk result (λ t. term_of t ≡ texts.part_term names.now at (first_part kind piece.now)) }
{
    match kind {
        PieceKind::Plain => Ok(plain(as_written(alloc, piece)?)),
        PieceKind::Part => part_of(alloc, names, at, piece),
        PieceKind::Value | PieceKind::ValueThenPlain => variable_of(alloc, names, at, piece),
    }
}

/// The parts of a piece, of which the first is made, behind others.
fn put_parts(
    alloc: Global,
    kind: PieceKind,
    piece: &Piece,
    first: Term,
    parts: &mut Terms,
) -> Result<(), NoMemory>
    ensures { IfOk result (λ _. map term_of parts.new ≡ map term_of parts.old ++ term_of first ∷ further_terms kind piece.now) }
{
    parts.push(first)?;
    match kind {
        PieceKind::ValueThenPlain => match suffix_text(alloc, piece) {
            Ok(rest) => parts.push(plain(rest)),
            Err(fault) => Err(fault),
        },
        PieceKind::Plain | PieceKind::Part | PieceKind::Value => Ok(()),
    }
}

/// The parts of a piece, behind others.
fn put_piece(
    alloc: Global,
    names: &Names,
    at: At,
    piece: &Piece,
    parts: &mut Terms,
) -> Result<(), NoMemory>
    ensures { IfOk result (λ _. map term_of parts.new ≡ map term_of parts.old ++ map (texts.part_term names.now at) (piece_parts (λ x. scopes.found x names.now) piece.now)) }
{
    let kind = piece_kind(names, piece);
    match first_part(alloc, names, at, kind, piece) {
        Ok(first) => put_parts(alloc, kind, piece, first, parts),
        Err(fault) => Err(fault),
    }
}

/// The parts of pieces, behind others.
fn put_pieces(
    alloc: Global,
    names: &Names,
    at: At,
    pieces: &[Piece],
    parts: &mut Terms,
) -> Result<(), NoMemory>
    ensures { IfOk result (λ _. map term_of parts.new ≡ map term_of parts.old ++ map (texts.part_term names.now at) (parts_of (λ x. scopes.found x names.now) pieces.now)) }
{
    for piece in pieces {
        put_piece(alloc, names, at, piece, parts)?;
    }
    Ok(())
}

/// A text in quotes or of a command.
pub fn text_term(alloc: Global, names: &Names, at: At, pieces: &[Piece]) -> Result<Term, NoMemory>
    ensures { IfOk result (λ t. term_of t ≡ texts.text_term names.now at pieces.now) }
{
    let mut parts = Listed::new(alloc);
    match put_pieces(alloc, names, at, pieces, &mut parts) {
        Ok(()) => Ok(Term::Joined(at, parts)),
        Err(fault) => Err(fault),
    }
}
