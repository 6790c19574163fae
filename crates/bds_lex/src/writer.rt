//! From raw tokens to tokens, one by one.

ghost use Rattle.std.specs.Prelude.{◌≡◌, ◌≤◌, ◌+◌, [], ◌∷◌, List, OnOk, IfOk};
ghost use Rattle.std.specs.List.{sum_by};
ghost use Rattle.bds_tree.specs.declared.lexing.RawToken.{RawToken};
ghost use Rattle.bds_lex.specs.Sizes.{token_size};
ghost use Rattle.bds_lex.specs.PartSizes.{raw_token_size, writer_size};
ghost use Rattle.bds_lex.specs.Semicolons.{at_begin, with_semicolons};
ghost use Rattle.bds_lex.specs.Writing.{PutsRawTokens, tokens_with};

use crate::semicolons::{State, at_begin, is_else, put_end, put_token};
use bds_tree::Tokens;
use bds_tree::lexing::RawToken;
use bds_value::{Listed, NoMemory};
use std::alloc::Global;
use std::mem;

/// Makes tokens of raw tokens, one by one.
#[derive(Drop)]
pub struct Writer {
    pub tokens: Tokens,
    pub state: State,
    /// The last raw token, which waits until the one behind it is known.
    pub waiting: Option<RawToken>,
}

/// A writer at the begin of a text.
pub fn begin(alloc: Global) -> Writer
    ensures value { (others : List RawToken) → tokens_with result others ≡ with_semicolons at_begin others }
    ensures fits { writer_size result ≡ 0 }
{
    Writer {
        tokens: Listed::new(alloc),
        state: at_begin(alloc),
        waiting: None,
    }
}

/// Puts the next raw token.
#[tactic(auto, unfolding(crate::specs::Semicolons::with_semicolons))]
pub fn put(writer: &mut Writer, next: RawToken) -> Result<(), NoMemory>
    ensures value { OnOk result (PutsRawTokens writer.old writer.new (next ∷ [])) }
    ensures fits { OnOk result (writer_size writer.new ≤ writer_size writer.old + raw_token_size next) }
{
    let before_else = is_else(&next.word);
    match mem::replace(&mut writer.waiting, Some(next)) {
        None => Ok(()),
        Some(raw) => put_token(&mut writer.tokens, &mut writer.state, raw, before_else),
    }
}

/// Gives the tokens, with what stands at the end of the text.
#[tactic(auto, unfolding(crate::specs::Semicolons::with_semicolons))]
pub fn finish(writer: Writer) -> Result<Tokens, NoMemory>
    ensures value { IfOk result (λ ts. ts ≡ tokens_with writer []) }
    ensures fits { IfOk result (λ ts. sum_by token_size ts ≤ writer_size writer) }
{
    let Writer {
        mut tokens,
        mut state,
        waiting,
    } = writer;
    if let Some(raw) = waiting {
        put_token(&mut tokens, &mut state, raw, false)?;
    }
    put_end(&mut tokens, &state)?;
    Ok(tokens)
}
