//! The line-end rule, from one token to the next.

ghost use Rattle.std.specs.Prelude.{◌≡◌, ◌≤◌, ◌+◌, ◌++◌, [], ◌∷◌, true, OnOk, OnErr, IfOk, IfErr};
ghost use Rattle.std.specs.List.{sum_by};
ghost use Rattle.bds_lex.specs.Sizes.{word_size, token_size};
ghost use Rattle.bds_lex.specs.PartSizes.{raw_token_size};
ghost use Rattle.bds_tree.specs.lexing.LineEnds.{is_else, is_semicolon, is_open_brace};
ghost use Rattle.bds_lex.specs.Semicolons.{in_block, in_head, in_value, is_ender, is_round, begins_block, begins_head, last_of, is_close_brace, with_its_kind, opened_by, closes_one, changed, change_of, innermost, without_innermost_if, brackets_behind, is_plain, state_with, own_kind, at_begin, may_end_statement, ends_statement_before, semicolon_if, state_put, is_dropped, tokens_for, state_behind};

use crate::answers::Answers;
use crate::brackets::{Bracket, Brackets, closes_one, in_block, in_head, in_value};
use bds_tree::lexing::RawToken;
use bds_tree::{Token, Tokens, Word};
use bds_value::NoMemory;
use std::alloc::Global;

/// What the last token says of the next one.
#[derive(Clone, Copy, PartialEq, Eq)]
pub enum Last {
    /// A `)` that isn't a head parenthesis.
    Round,
    HeadRound,
    /// Another token that may end a statement.
    Ender,
    /// A `{` behind it is a block brace.
    BeforeBlock,
    /// A `(` directly behind it is a head parenthesis.
    BeforeHead,
    /// `task`, which is both.
    Task,
    Other,
}

/// What is known of the tokens before a token.
#[derive(Drop)]
pub struct State {
    pub brackets: Brackets,
    /// For each open bracket, and outside all of them: whether the next `:` is a case colon.
    pub answers: Answers,
    pub last: Last,
    /// The line of the last token.
    pub line: u32,
}

fn is_ender(last: Last) -> bool
    ensures { result ≡ is_ender last }
{
    matches!(last, Last::Round | Last::Ender)
}

fn is_round(last: Last) -> bool
    ensures { result ≡ is_round last }
{
    matches!(last, Last::Round | Last::HeadRound)
}

fn begins_block(last: Last) -> bool
    ensures { result ≡ begins_block last }
{
    matches!(
        last,
        Last::Round | Last::HeadRound | Last::BeforeBlock | Last::Task
    )
}

fn begins_head(last: Last) -> bool
    ensures { result ≡ begins_head last }
{
    matches!(last, Last::BeforeHead | Last::Task)
}

/// What a token is as the last one, where `inner` is the innermost bracket before it.
fn last_of(inner: Option<Bracket>, word: &Word) -> Last
    ensures { result ≡ last_of inner word.now }
{
    match word {
        Word::CloseRound => {
            if in_head(inner) {
                Last::HeadRound
            } else {
                Last::Round
            }
        }
        Word::Name(_)
        | Word::Number(_)
        | Word::Text(_)
        | Word::Sys(_)
        | Word::CloseSquare
        | Word::CloseValue
        | Word::True
        | Word::False
        | Word::Break
        | Word::Continue
        | Word::Return
        | Word::Wait
        | Word::Checkpoint
        | Word::Println
        | Word::Increment
        | Word::Decrement => Last::Ender,
        Word::Semicolon
        | Word::OpenBlock
        | Word::CloseBlock
        | Word::CaseColon
        | Word::Else
        | Word::Par => Last::BeforeBlock,
        Word::If | Word::While | Word::For | Word::Switch | Word::Dep => Last::BeforeHead,
        Word::Task => Last::Task,
        _ => Last::Other,
    }
}

pub fn is_else(word: &Word) -> bool
    ensures { result ≡ is_else word.now }
{
    matches!(word, Word::Else)
}

fn is_semicolon(word: &Word) -> bool
    ensures { result ≡ is_semicolon word.now }
{
    matches!(word, Word::Semicolon)
}

fn is_open_brace(word: &Word) -> bool
    ensures { result ≡ is_open_brace word.now }
{
    matches!(word, Word::OpenValue)
}

fn is_close_brace(word: &Word) -> bool
    ensures { result ≡ is_close_brace word.now }
{
    matches!(word, Word::CloseValue)
}

/// The word of a raw token with the kind of its brace or colon.
fn with_its_kind(inner: Option<Bracket>, before: Last, case_colon: bool, word: Word) -> Word
    ensures value { result ≡ with_its_kind inner before case_colon word }
    ensures fits { word_size result ≡ word_size word }
{
    match word {
        Word::OpenValue => {
            if begins_block(before) {
                Word::OpenBlock
            } else {
                Word::OpenValue
            }
        }
        Word::CloseValue => {
            if in_value(inner) {
                Word::CloseValue
            } else {
                Word::CloseBlock
            }
        }
        Word::Colon => {
            if case_colon {
                Word::CaseColon
            } else {
                Word::Colon
            }
        }
        other => other,
    }
}

/// The bracket that a word opens behind the last token.
fn opened_by(before: Last, word: &Word) -> Option<Bracket>
    ensures { result ≡ opened_by before word.now }
{
    match word {
        Word::OpenRound => Some(if begins_head(before) {
            Bracket::Head
        } else {
            Bracket::Round
        }),
        Word::OpenSquare => Some(Bracket::Square),
        Word::OpenBlock => Some(Bracket::Block),
        Word::OpenValue => Some(Bracket::Value),
        _ => None,
    }
}

fn close_if(brackets: &mut Brackets, closed: bool)
    ensures { brackets.new ≡ without_innermost_if closed brackets.old }
{
    if closed {
        brackets.close();
    }
}

/// Opens or closes the bracket of a word.
#[tactic(auto, using(crate::proofs::PlainWords::closed_one))]
fn step_brackets(
    brackets: &mut Brackets,
    before: Last,
    word: &Word,
    closed: bool,
) -> Result<(), NoMemory>
    requires { closed ≡ closes_one (innermost brackets.old) word.now }
    ensures { OnOk result (brackets.new ≡ brackets_behind brackets.old before word.now) }
{
    match opened_by(before, word) {
        Some(bracket) => brackets.open(bracket)?,
        None => close_if(brackets, closed),
    }
    Ok(())
}

/// Opens an answer, or gives another one.
fn change(answers: &mut Answers, word: &Word) -> Result<(), NoMemory>
    ensures { OnOk result (answers.new ≡ changed (change_of word.now) answers.old) }
{
    match word {
        Word::Case | Word::Default => answers.set(true),
        Word::Question | Word::Colon | Word::CaseColon | Word::Semicolon | Word::CloseBlock =>
            answers.set(false),
        Word::OpenRound | Word::OpenSquare | Word::OpenBlock | Word::OpenValue => answers.open()?,
        _ => {}
    }
    Ok(())
}

/// What is known at the begin of a text.
#[tactic(auto, unfolding(crate::specs::Semicolons::at_begin))]
pub fn at_begin(alloc: Global) -> State
    ensures { result ≡ at_begin }
{
    State {
        brackets: Brackets::new(alloc),
        answers: Answers::new(alloc),
        last: Last::BeforeBlock,
        line: 1,
    }
}

fn may_end_statement(state: &State) -> bool
    ensures { result ≡ may_end_statement state.now }
{
    is_ender(state.last) && in_block(state.brackets.innermost())
}

/// Whether a `;` is put between what stands before a token and the token.
fn ends_statement_before(state: &State, next: &RawToken) -> bool
    ensures { result ≡ ends_statement_before state.now next.now }
{
    if !may_end_statement(state) {
        return false;
    }
    if !(next.new_line || is_close_brace(&next.word)) {
        return false;
    }
    if is_else(&next.word) {
        return false;
    }
    !(is_round(state.last) && is_open_brace(&next.word))
}

fn put_semicolon(out: &mut Tokens, line: u32) -> Result<(), NoMemory>
    ensures ok { OnOk result (out.new ≡ out.old ++ semicolon_if true line) }
    ensures fits { OnOk result (sum_by token_size out.new ≡ sum_by token_size out.old) }
{
    out.push(Token {
        line,
        word: Word::Semicolon,
    })?;
    Ok(())
}

fn is_dropped(word: &Word, before_else: bool) -> bool
    ensures { result ≡ is_dropped word.now before_else }
{
    is_semicolon(word) && before_else
}

/// A word that is no bracket, and that tells nothing of a `:` behind it: most are.
fn is_plain(word: &Word) -> bool
    ensures { result ≡ is_plain word.now }
{
    !matches!(
        word,
        Word::Case
            | Word::Default
            | Word::OpenRound
            | Word::CloseRound
            | Word::OpenSquare
            | Word::CloseSquare
            | Word::OpenBlock
            | Word::OpenValue
            | Word::CloseBlock
            | Word::CloseValue
            | Word::Semicolon
            | Word::Colon
            | Word::CaseColon
            | Word::Question
    )
}

/// Puts a `;`, if so: then the next `:` is no case colon.
fn end_statement_if(out: &mut Tokens, state: &mut State, put: bool) -> Result<(), NoMemory>
    ensures ok { OnOk result (out.new ≡ out.old ++ semicolon_if put state.old.line) }
    ensures state { OnOk result (state.new ≡ state_put put state.old) }
    ensures fits { OnOk result (sum_by token_size out.new ≡ sum_by token_size out.old) }
{
    if put {
        put_semicolon(out, state.line)?;
        state.answers.set(false);
        state.last = Last::BeforeBlock;
    }
    Ok(())
}

/// Adds a plain word, which leaves the brackets and the answers.
fn put_plain(out: &mut Tokens, state: &mut State, line: u32, word: Word) -> Result<(), NoMemory>
    requires { is_plain word ≡ true }
    ensures ok { OnOk result (out.new ≡ out.old ++ record { line = line; word = word } ∷ []) }
    ensures state { OnOk result (state.new ≡ state_with state.old line word) }
    ensures fits { OnOk result (sum_by token_size out.new ≡ sum_by token_size out.old + word_size word) }
{
    state.last = last_of(None, &word);
    state.line = line;
    out.push(Token { line, word })?;
    Ok(())
}

/// Adds a word with the kind of its brace or colon.
fn put_word(out: &mut Tokens, state: &mut State, line: u32, word: Word) -> Result<(), NoMemory>
    ensures ok { OnOk result (out.new ≡ out.old ++ record { line = line; word = own_kind state.old word } ∷ []) }
    ensures state { OnOk result (state.new ≡ state_with state.old line (own_kind state.old word)) }
    ensures fits { OnOk result (sum_by token_size out.new ≡ sum_by token_size out.old + word_size word) }
{
    let inner = state.brackets.innermost();
    let before = state.last;
    let word = with_its_kind(inner, before, state.answers.is_case_colon(), word);
    state.last = last_of(inner, &word);
    state.line = line;
    let closed = closes_one(inner, &word);
    state.answers.close_if(closed);
    change(&mut state.answers, &word)?;
    step_brackets(&mut state.brackets, before, &word, closed)?;
    out.push(Token { line, word })?;
    Ok(())
}

/// Adds a raw token as a token, with the automatic `;` before it, where `before_else` says that
/// `else` follows.
#[tactic(auto, unfolding(crate::specs::Semicolons::tokens_for, crate::specs::Semicolons::state_behind))]
pub fn put_token(
    out: &mut Tokens,
    state: &mut State,
    next: RawToken,
    before_else: bool,
) -> Result<(), NoMemory>
    ensures ok { OnOk result (out.new ≡ out.old ++ tokens_for state.old next before_else) }
    ensures state { OnOk result (state.new ≡ state_behind state.old next before_else) }
    ensures fits { OnOk result (sum_by token_size out.new ≤ sum_by token_size out.old + raw_token_size next) }
{
    let put = ends_statement_before(state, &next);
    end_statement_if(out, state, put)?;
    let RawToken {
        new_line: _,
        line,
        word,
    } = next;
    if is_plain(&word) {
        return put_plain(out, state, line, word);
    }
    if is_dropped(&word, before_else) {
        return Ok(());
    }
    put_word(out, state, line, word)
}

/// Adds the automatic `;` at the end of the text.
pub fn put_end(out: &mut Tokens, state: &State) -> Result<(), NoMemory>
    ensures ok { OnOk result (out.new ≡ out.old ++ semicolon_if (may_end_statement state.now) state.now.line) }
    ensures fits { OnOk result (sum_by token_size out.new ≡ sum_by token_size out.old) }
{
    if may_end_statement(state) {
        put_semicolon(out, state.line)?;
    }
    Ok(())
}
