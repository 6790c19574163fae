//! Quoted texts, and what stands behind `sys`.

ghost use Rattle.std.specs.Prelude.{◌≡◌, ◌≤◌, ◌+◌, ◌-◌, not, ◌==◌, length, IfOk};
ghost use Rattle.std.specs.List.{prefix_len, suffix_len};
ghost use Rattle.bds_tree.specs.lexing.Bytes.{single_quote, is_blank};
ghost use Rattle.bds_lex.specs.Gives.{Gives};
ghost use Rattle.bds_tree.specs.lexing.Scan.{without_blanks};
ghost use Rattle.bds_lex.specs.Sizes.{word_size};
ghost use Rattle.bds_tree.specs.lexing.Lexemes.{single_quoted_text, double_quoted_text, sys_text};

use crate::pieces::pieces_of;
use crate::reserved_words::text_of;
use crate::scan::{behind, is_blank, quoted_len, sys_len};
use bds_tree::lexing::{Flaw, Style};
use bds_tree::{Piece, Word};
use bds_value::Listed;
use std::alloc::Global;

/// How many bytes stand before the next `'`, or before the end.
fn single_quoted_len(bytes: &[u8]) -> usize
    ensures value { result ≡ prefix_len (λ b. not (b == single_quote)) bytes.now }
    ensures within { result ≤ length bytes.now }
{
    let mut n = 0;
    while n < bytes.len() && bytes[n] != b'\'' {
        n += 1;
    }
    n
}

/// Reads a text behind its `'`.
#[tactic(auto, unfolding(bds_tree::specs::lexing::Lexemes::single_quoted_text))]
pub fn single_quoted_text(alloc: Global, bytes: &[u8]) -> Result<(Word, &[u8]), Flaw>
    ensures value { Gives (λ x. (x.0, x.1.now)) result (single_quoted_text bytes.now) }
    ensures fits { IfOk result (λ x. word_size x.0 + length x.1.now ≤ length bytes.now) }
{
    let (text, after) = bytes.split_at(single_quoted_len(bytes));
    match behind(b'\'', after) {
        None => Err(Flaw::OpenText),
        Some(rest) => {
            let mut pieces = Listed::new(alloc);
            if !text.is_empty() {
                pieces.push(Piece::Plain(text_of(alloc, text)?))?;
            }
            Ok((Word::Text(pieces), rest))
        }
    }
}

/// Reads a text behind its `"`.
#[tactic(auto, unfolding(bds_tree::specs::lexing::Lexemes::double_quoted_text))]
pub fn double_quoted_text(alloc: Global, bytes: &[u8]) -> Result<(Word, &[u8]), Flaw>
    ensures value { Gives (λ x. (x.0, x.1.now)) result (double_quoted_text bytes.now) }
    ensures fits { IfOk result (λ x. word_size x.0 + length x.1.now ≤ length bytes.now) }
{
    let (text, after) = bytes.split_at(quoted_len(bytes));
    let pieces = pieces_of(alloc, Style::Quoted, text)?;
    match behind(b'"', after) {
        None => Err(Flaw::OpenText),
        Some(rest) => Ok((Word::Text(pieces), rest)),
    }
}

fn leading_blanks(bytes: &[u8]) -> usize
    ensures value { result ≡ prefix_len is_blank bytes.now }
    ensures within { result ≤ length bytes.now }
{
    let mut n = 0;
    while n < bytes.len() && is_blank(bytes[n]) {
        n += 1;
    }
    n
}

/// How many bytes stand before the blanks at the end.
fn len_without_trailing_blanks(bytes: &[u8]) -> usize
    ensures value { result ≡ length bytes.now - suffix_len is_blank bytes.now }
    ensures within { result ≤ length bytes.now }
{
    let mut n = bytes.len();
    while n > 0 && is_blank(bytes[n - 1]) {
        n -= 1;
    }
    n
}

/// The bytes without blanks at both ends.
fn without_blanks(bytes: &[u8]) -> &[u8]
    ensures value { result.now ≡ without_blanks bytes.now }
    ensures fits { length result.now ≤ length bytes.now }
{
    let (_, rest) = bytes.split_at(leading_blanks(bytes));
    let (kept, _) = rest.split_at(len_without_trailing_blanks(rest));
    kept
}

/// Reads the rest of the line behind the word `sys`.
#[tactic(auto, unfolding(bds_tree::specs::lexing::Lexemes::sys_text))]
pub fn sys_text(alloc: Global, bytes: &[u8]) -> Result<(Word, &[u8]), Flaw>
    ensures value { Gives (λ x. (x.0, x.1.now)) result (sys_text bytes.now) }
    ensures fits { IfOk result (λ x. word_size x.0 + length x.1.now ≤ length bytes.now) }
{
    let (line, rest) = bytes.split_at(sys_len(bytes));
    let pieces = pieces_of(alloc, Style::Sys, without_blanks(line))?;
    Ok((Word::Sys(pieces), rest))
}
