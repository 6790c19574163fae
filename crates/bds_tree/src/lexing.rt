//! What the tokens of a text are made of, by which they are defined, and why a text has none.

ghost use Rattle.std.specs.Prelude.{◌≡◌};
ghost use Rattle.bds_tree.specs.declared.lexing.Flaw.TheVariants as flaw;
ghost use Rattle.bds_tree.specs.declared.lexing.LexFault.TheVariants as fault;

use crate::token::{Piece, Word};
use bds_value::NoMemory;
use thiserror::Error;

/// Why a text has no tokens, with the line, from 1, of the first byte of the token that is wrong.
#[derive(Clone, Copy, Debug, PartialEq, Eq, Error)]
pub enum LexFault {
    /// A quoted text has no end.
    #[error("line {0}: open text")]
    OpenText(u32),
    /// A block comment has no end.
    #[error("line {0}: open comment")]
    OpenComment(u32),
    /// No token, blank or comment begins with this byte.
    #[error("line {0}: bad byte {1}")]
    BadByte(u32, u8),
    /// A number is above 9223372036854775807.
    #[error("line {0}: big number")]
    BigNumber(u32),
    /// No escape has this byte behind its backslash.
    #[error("line {0}: bad escape {1}")]
    BadEscape(u32, u8),
    /// Memory ran out.
    #[error("out of memory")]
    NoMemory,
}

/// The same without the line.
#[derive(Clone, Copy, Debug, PartialEq, Eq)]
pub enum Flaw {
    OpenText,
    OpenComment,
    BadByte(u8),
    BigNumber,
    BadEscape(u8),
    NoMemory,
}

impl From<NoMemory> for Flaw {
    ghost from_gives = { λ _ e. e ≡ flaw.NoMemory };

    fn from(_e: NoMemory) -> Flaw {
        Flaw::NoMemory
    }
}

impl From<NoMemory> for LexFault {
    ghost from_gives = { λ _ e. e ≡ fault.NoMemory };

    fn from(_e: NoMemory) -> LexFault {
        LexFault::NoMemory
    }
}

/// Which rules for a backslash hold in a text.
#[derive(Clone, Copy, Debug, PartialEq, Eq)]
pub enum Style {
    Quoted,
    Sys,
}

/// What one step over a text meets.
#[derive(Debug, Drop)]
pub enum TextStep {
    Byte(u8),
    Bytes(u8, u8),
    Found(Piece),
}

/// What stands at a place of a text.
#[derive(Debug, Drop)]
pub enum Lexeme {
    /// A blank, a line end or a comment.
    Blank,
    Token(Word),
}

/// A token as it is written, in which each brace counts as a value brace.
#[derive(Debug, Drop)]
pub struct RawToken {
    /// A line end stands between it and the token before.
    pub new_line: bool,
    pub line: u32,
    pub word: Word,
}
