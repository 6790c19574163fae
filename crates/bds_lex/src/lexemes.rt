//! What stands at a place of a text: a token, a blank, a line end or a comment.

ghost use Rattle.std.specs.Prelude.{◌≡◌, ◌≤◌, ◌<◌, ◌+◌, ◌∷◌, not, length, IfOk};
ghost use Rattle.std.specs.Char.{is_ascii_digit};
ghost use Rattle.std.specs.List.{prefix_len};
ghost use Rattle.bds_tree.specs.lexing.Bytes.{is_line_end, is_name_byte};
ghost use Rattle.bds_lex.specs.Gives.{Gives};
ghost use Rattle.bds_lex.specs.Sizes.{word_size};
ghost use Rattle.bds_lex.specs.PartSizes.{lexeme_size};
ghost use Rattle.bds_tree.specs.lexing.Lexemes.{name_or_word, numeral, token_at, line_comment, block_comment, comment_or_sign, lexeme_at};

use crate::newlines::is_line_end;
use crate::reserved_words::word_of;
use crate::scan::{begins_name, behind, behind_comment, digits_at, is_blank, name_len, number};
use crate::signs::sign_at;
use crate::texts::{double_quoted_text, single_quoted_text, sys_text};
use bds_tree::Word;
use bds_tree::lexing::{Flaw, Lexeme};
use std::alloc::Global;

/// Reads a Name, a reserved word, or `sys` with the rest of its line.
#[tactic(auto, unfolding(bds_tree::specs::lexing::Lexemes::name_or_word))]
fn name_or_word(alloc: Global, bytes: &[u8]) -> Result<(Word, &[u8]), Flaw>
    requires { 0 < prefix_len is_name_byte bytes.now }
    ensures value { Gives (λ x. (x.0, x.1.now)) result (name_or_word bytes.now) }
    ensures shorter { IfOk result (λ x. length x.1.now < length bytes.now) }
    ensures fits { IfOk result (λ x. word_size x.0 + length x.1.now ≤ length bytes.now) }
{
    let (name, after) = bytes.split_at(name_len(bytes));
    if name == b"sys".as_slice() {
        sys_text(alloc, after)
    } else {
        Ok((word_of(alloc, name)?, after))
    }
}

/// Reads a Number.
#[tactic(auto, unfolding(bds_tree::specs::lexing::Lexemes::numeral))]
fn numeral(bytes: &[u8]) -> Result<(Word, &[u8]), Flaw>
    requires { 0 < prefix_len is_ascii_digit bytes.now }
    ensures value { Gives (λ x. (x.0, x.1.now)) result (numeral bytes.now) }
    ensures shorter { IfOk result (λ x. length x.1.now < length bytes.now) }
    ensures fits { IfOk result (λ x. word_size x.0 + length x.1.now ≤ length bytes.now) }
{
    let (digits, after) = digits_at(bytes);
    Ok((Word::Number(number(digits)?), after))
}

/// Reads the token that begins with the first byte of `all`, which isn't a `/`.
#[tactic(auto, unfolding(bds_tree::specs::lexing::Lexemes::token_at))]
fn token_at<'a>(
    alloc: Global,
    b: u8,
    bytes: &'a [u8],
    all: &'a [u8],
) -> Result<(Word, &'a [u8]), Flaw>
    requires { all.now ≡ b ∷ bytes.now }
    ensures value { Gives (λ x. (x.0, x.1.now)) result (token_at b bytes.now) }
    ensures shorter { IfOk result (λ x. length x.1.now < length all.now) }
    ensures fits { IfOk result (λ x. word_size x.0 + length x.1.now ≤ length all.now) }
{
    if begins_name(b) {
        name_or_word(alloc, all)
    } else if b.is_ascii_digit() {
        numeral(all)
    } else if b == b'\'' {
        single_quoted_text(alloc, bytes)
    } else if b == b'"' {
        double_quoted_text(alloc, bytes)
    } else {
        sign_at(b, bytes)
    }
}

/// How many bytes stand before the next line end, or before the end.
fn line_len(bytes: &[u8]) -> usize
    ensures value { result ≡ prefix_len (λ b. not (is_line_end b)) bytes.now }
    ensures within { result ≤ length bytes.now }
{
    let mut n = 0;
    while n < bytes.len() && !is_line_end(bytes[n]) {
        n += 1;
    }
    n
}

/// Passes over a comment behind its sign, up to the line end.
fn line_comment(bytes: &[u8]) -> (Lexeme, &[u8])
    ensures value { (result.0, result.1.now) ≡ line_comment bytes.now }
    ensures fits { lexeme_size result.0 + length result.1.now ≤ length bytes.now }
{
    let (_, rest) = bytes.split_at(line_len(bytes));
    (Lexeme::Blank, rest)
}

/// Passes over a comment behind its `/*`, up to its `*/`.
#[tactic(auto, unfolding(bds_tree::specs::lexing::Lexemes::block_comment))]
fn block_comment(bytes: &[u8]) -> Result<(Lexeme, &[u8]), Flaw>
    ensures value { Gives (λ x. (x.0, x.1.now)) result (block_comment bytes.now) }
    ensures fits { IfOk result (λ x. lexeme_size x.0 + length x.1.now ≤ length bytes.now) }
{
    match behind_comment(bytes) {
        None => Err(Flaw::OpenComment),
        Some(rest) => Ok((Lexeme::Blank, rest)),
    }
}

/// Reads what begins with a `/`, behind it.
#[tactic(auto, unfolding(bds_tree::specs::lexing::Lexemes::comment_or_sign))]
fn comment_or_sign(bytes: &[u8]) -> Result<(Lexeme, &[u8]), Flaw>
    ensures value { Gives (λ x. (x.0, x.1.now)) result (comment_or_sign bytes.now) }
    ensures fits { IfOk result (λ x. lexeme_size x.0 + length x.1.now ≤ length bytes.now) }
{
    match behind(b'/', bytes) {
        Some(rest) => Ok(line_comment(rest)),
        None => match behind(b'*', bytes) {
            Some(rest) => block_comment(rest),
            None => {
                let (word, rest) = sign_at(b'/', bytes)?;
                Ok((Lexeme::Token(word), rest))
            }
        },
    }
}

/// Reads what begins with the byte `b`; `bytes` stand behind it, and `all` is both.
#[tactic(auto, unfolding(bds_tree::specs::lexing::Lexemes::lexeme_at))]
pub fn lexeme_at<'a>(
    alloc: Global,
    b: u8,
    bytes: &'a [u8],
    all: &'a [u8],
) -> Result<(Lexeme, &'a [u8]), Flaw>
    requires { all.now ≡ b ∷ bytes.now }
    ensures value { Gives (λ x. (x.0, x.1.now)) result (lexeme_at b bytes.now) }
    ensures shorter { IfOk result (λ x. length x.1.now < length all.now) }
    ensures fits { IfOk result (λ x. lexeme_size x.0 + length x.1.now ≤ length all.now) }
{
    if is_blank(b) || is_line_end(b) {
        Ok((Lexeme::Blank, bytes))
    } else if b == b'#' {
        Ok(line_comment(bytes))
    } else if b == b'/' {
        comment_or_sign(bytes)
    } else {
        let (word, rest) = token_at(alloc, b, bytes, all)?;
        Ok((Lexeme::Token(word), rest))
    }
}
