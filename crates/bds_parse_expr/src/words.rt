//! What a word says of an expression.

ghost use Rattle.std.specs.Prelude.{◌≡◌};
ghost use Rattle.bds_parse_expr.specs.Reading.{next_of, strength, closes, is_comma, is_colon, is_arrow, is_open_round};

use bds_tree::{BinaryOp, Word, level_of};

/// How a word may continue an expression.
#[derive(Clone, Copy, PartialEq, Eq)]
pub enum Next {
    /// An operator between two expressions.
    Joins(BinaryOp),
    /// `?`
    Chooses,
    /// `<-`
    Depends,
    /// `[`
    Indexes,
    /// `{`
    Keys,
    /// `.`
    Asks,
    /// `(`
    Calls,
    Stops,
}

/// What closes several expressions.
#[derive(Clone, Copy, PartialEq, Eq)]
pub enum Close {
    Round,
    Square,
    Value,
}

pub fn next_of(word: &Word) -> Next
    ensures { result ≡ next_of word.now }
{
    match word {
        Word::Or => Next::Joins(BinaryOp::Or),
        Word::And => Next::Joins(BinaryOp::And),
        Word::Equal => Next::Joins(BinaryOp::Equal),
        Word::NotEqual => Next::Joins(BinaryOp::NotEqual),
        Word::Less => Next::Joins(BinaryOp::Less),
        Word::AtMost => Next::Joins(BinaryOp::AtMost),
        Word::Greater => Next::Joins(BinaryOp::Greater),
        Word::AtLeast => Next::Joins(BinaryOp::AtLeast),
        Word::Plus => Next::Joins(BinaryOp::Add),
        Word::Minus => Next::Joins(BinaryOp::Sub),
        Word::Star => Next::Joins(BinaryOp::Mul),
        Word::Slash => Next::Joins(BinaryOp::Div),
        Word::Percent => Next::Joins(BinaryOp::Rem),
        Word::Question => Next::Chooses,
        Word::From => Next::Depends,
        Word::OpenSquare => Next::Indexes,
        Word::OpenValue => Next::Keys,
        Word::Dot => Next::Asks,
        Word::OpenRound => Next::Calls,
        _ => Next::Stops,
    }
}

pub fn strength(next: Next) -> u8
    ensures { result ≡ strength next }
{
    match next {
        Next::Joins(op) => level_of(op),
        Next::Chooses => 2,
        Next::Depends => 1,
        Next::Indexes | Next::Keys | Next::Asks => 10,
        Next::Calls => 11,
        Next::Stops => 0,
    }
}

pub fn is_close(close: Close, word: &Word) -> bool
    ensures { result ≡ closes close word.now }
{
    match close {
        Close::Round => matches!(word, Word::CloseRound),
        Close::Square => matches!(word, Word::CloseSquare),
        Close::Value => matches!(word, Word::CloseValue),
    }
}

pub fn is_comma(word: &Word) -> bool
    ensures { result ≡ is_comma word.now }
{
    matches!(word, Word::Comma)
}

pub fn is_colon(word: &Word) -> bool
    ensures { result ≡ is_colon word.now }
{
    matches!(word, Word::Colon)
}

pub fn is_arrow(word: &Word) -> bool
    ensures { result ≡ is_arrow word.now }
{
    matches!(word, Word::Arrow)
}

pub fn is_open_round(word: &Word) -> bool
    ensures { result ≡ is_open_round word.now }
{
    matches!(word, Word::OpenRound)
}
