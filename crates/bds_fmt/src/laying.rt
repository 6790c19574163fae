//! The canonical text of tokens.
ghost use Rattle.std.specs.Prelude.{◌≡◌, ◌++◌, ◌∷◌, ◌*◌, ◌+◌, ◌-◌, [], OnOk, IfOk, ◌&&◌, cond, drop, length, nat_lt, replicate};
ghost use Rattle.bds_fmt.specs.Layout.{layout as layout_of, layout_behind, begins_with_else};
ghost use Rattle.bds_fmt.specs.Put.{Puts};
ghost use Rattle.bds_fmt.specs.Told.{gap_by, indent_by, line_end_by, spell_by, told_of, written_by};
ghost use Rattle.bds_tree.specs.Words.{words};
ghost use Rattle.bds_tree.specs.lexing.LineEnds.{is_semicolon};

use crate::before::{Before, closes_block, is_else_word, is_semicolon_word, one_more_if};
use crate::fault::FormatFault;
use crate::words::put_word;
use bds_tree::{Token, Tokens, Word};
use bds_value::{ByteText, NoMemory};
use std::alloc::Global;

/// Four spaces for each of a number of open braces.
#[tactic(auto, using(crate::proofs::Laid::spaces_more))]
fn put_indent(out: &mut ByteText, depth: usize) -> Result<(), NoMemory>
    ensures { OnOk result (out.new ≡ out.old ++ replicate (4 * depth) 32) }
{
    for _level in 0..depth {
        out.append(b"    ")?;
    }
    Ok(())
}

fn put_gap(out: &mut ByteText, before: Before, word: &Word) -> Result<(), NoMemory>
    ensures { OnOk result (out.new ≡ out.old ++ gap_by before word.now) }
{
    if before.begins_line {
        put_indent(out, depth_at(before, closes_block(word)))
    } else if before.is_joined(word) {
        Ok(())
    } else {
        out.push(b' ')
    }
}

/// How many braces are open, but for one that is closed.
fn depth_at(before: Before, is_closing: bool) -> usize
    ensures { result ≡ before.opened_blocks - (cond is_closing 1 0 + before.closed_blocks) }
{
    let depth = before.opened_blocks.saturating_sub(before.closed_blocks);
    if is_closing {
        depth.saturating_sub(1)
    } else {
        depth
    }
}

fn put_spelled(
    alloc: Global,
    out: &mut ByteText,
    word: &Word,
    is_doubled: bool,
) -> Result<(), NoMemory>
    ensures { OnOk result (out.new ≡ out.old ++ spell_by is_doubled word.now) }
{
    if is_doubled {
        out.append(b";;")
    } else {
        put_word(alloc, out, word)
    }
}

fn put_line_end(out: &mut ByteText, before: Before, word: &Word) -> Result<(), NoMemory>
    ensures { OnOk result (out.new ≡ out.old ++ line_end_by before word.now) }
{
    if before.ends_line(word) {
        out.push(b'\n')
    } else {
        Ok(())
    }
}

fn put_all(
    alloc: Global,
    out: &mut ByteText,
    before: Before,
    word: &Word,
    is_doubled: bool,
) -> Result<(), NoMemory>
    ensures { OnOk result (out.new ≡ out.old ++ (gap_by before word.now ++ (spell_by is_doubled word.now ++ line_end_by before word.now))) }
{
    put_gap(out, before, word)?;
    put_spelled(alloc, out, word, is_doubled)?;
    put_line_end(out, before, word)
}

/// Puts a word, with what stands before and behind it.
fn put_written(
    alloc: Global,
    out: &mut ByteText,
    before: Before,
    word: &Word,
    else_next: bool,
) -> Result<(), NoMemory>
    ensures { OnOk result (out.new ≡ out.old ++ written_by before else_next word.now) }
{
    let is_semicolon = is_semicolon_word(word);
    if before.is_sys && is_semicolon {
        Ok(())
    } else {
        put_all(alloc, out, before, word, is_semicolon && else_next)
    }
}

fn begins_with_else_word(tokens: &[Token]) -> bool
    ensures { result ≡ begins_with_else (words tokens.now) }
{
    match tokens {
        [] => false,
        [first, ..] => is_else_word(&first.word),
    }
}

fn nothing_before() -> Before
    ensures { result ≡ told_of [] }
{
    Before {
        begins_line: true,
        is_sys: false,
        joins: false,
        followed: false,
        opened_blocks: 0,
        closed_blocks: 0,
        opened_rounds: 0,
        closed_rounds: 0,
    }
}

/// Whether a text is longer than this.
pub fn is_beyond(out: &ByteText, most: u64) -> bool
    ensures { result ≡ nat_lt most (length out.now) }
{
    out.len() as u64 > most
}

/// Puts tokens with what stands between them, and stops where the text is longer than this.
pub fn put_tokens(
    alloc: Global,
    out: &mut ByteText,
    tokens: &[Token],
    most: u64,
) -> Result<(), FormatFault>
    ensures { Puts most out.old (layout_behind [] (words tokens.now)) out.new result }
{
    let mut before = nothing_before();
    for (i, token) in tokens.iter().enumerate() {
        if is_beyond(out, most) {
            return Err(FormatFault::TooLong);
        }
        let rest = tokens.split_at(i + 1).1;
        put_written(alloc, out, before, &token.word, begins_with_else_word(rest))?;
        before = before.behind(&token.word);
    }
    Ok(())
}

/// The canonical text of the tokens that a script spells, however long.
pub fn layout(alloc: Global, tokens: &Tokens) -> Result<ByteText, NoMemory>
    ensures { IfOk result (λ text. text ≡ layout_of tokens.now) }
{
    let mut out = ByteText::new(alloc);
    match put_tokens(alloc, &mut out, tokens.as_slice(), u64::MAX) {
        Ok(()) => Ok(out),
        Err(_) => Err(NoMemory),
    }
}
