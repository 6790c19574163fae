//! Lines, and what stands on the right side of them.

ghost use Rattle.std.specs.Prelude.{◌≡◌, ◌<◌, ◌≤◌, IfOk, length, option_map};
ghost use Rattle.bds_value.specs.declared.TheConstants.{MAX_NESTING};
ghost use Rattle.bds_tree.specs.StmtView.{line_of, right_of, act_of};
ghost use Rattle.bds_parse_expr.specs.Gives.{Gives};
ghost use Rattle.bds_parse_stmt_parts.specs.Heads.{head_of};
ghost use Rattle.bds_parse_stmt_parts.specs.Reading.{block, line_by, line_by_kind, line_by_head, right_by, maybe_right, start_right, act_by, act_by_word, par_by};

use crate::plain::{
    MaybeLine, OneLine, dep, goal, par_call, right_value, task, with_maybe, with_one,
};
use crate::stmts::block;
use bds_parse_expr::{END, ParseFault};
use bds_parse_stmt_parts::{
    Head, LineKind, Sign, behind, build, head_at, is_act, line_kind, nothing_ahead, sign_ahead,
};
use bds_tree::{Act, Line, RightSide, Token, Word, copy_pieces};
use std::alloc::Global;

/// A line without its end.
#[cycle(statements)]
pub fn line<'a>(
    alloc: Global,
    tokens: &'a [Token],
    most: u32,
) -> Result<(Line, &'a [Token]), ParseFault>
    requires { most ≤ MAX_NESTING }
    ensures gives { Gives (λ x. (line_of x.0, x.1.now)) result (line_by most (block most) tokens.now) }
    ensures shorter { IfOk result (λ x. length x.1.now < length tokens.now) }
{
    let [t, rest @ ..] = tokens else {
        return Err(ParseFault::Syntax(END));
    };
    line_of_kind(alloc, line_kind(&t.word), tokens, rest, most)
}

/// A line of a kind, by its tokens and by those behind the first.
#[cycle(statements)]
fn line_of_kind<'a>(
    alloc: Global,
    kind: LineKind,
    tokens: &'a [Token],
    rest: &'a [Token],
    most: u32,
) -> Result<(Line, &'a [Token]), ParseFault>
    requires bounded { most ≤ MAX_NESTING }
    requires fewer { length rest.now < length tokens.now }
    ensures gives { Gives (λ x. (line_of x.0, x.1.now)) result (line_by_kind most (block most) kind tokens.now rest.now) }
    ensures shorter { IfOk result (λ x. length x.1.now < length tokens.now) }
{
    match kind {
        LineKind::Print => with_one(alloc, OneLine::Print, rest, most),
        LineKind::Println => with_maybe(alloc, MaybeLine::Println, rest, most),
        LineKind::Error => with_one(alloc, OneLine::Error, rest, most),
        LineKind::Exit => with_one(alloc, OneLine::Exit, rest, most),
        LineKind::Break => Ok((build::break_line(), rest)),
        LineKind::Continue => Ok((build::continue_line(), rest)),
        LineKind::Return => {
            let (right, rest) = maybe_right(alloc, rest, most)?;
            Ok((build::return_line(right), rest))
        }
        LineKind::Wait => with_maybe(alloc, MaybeLine::Wait, rest, most),
        LineKind::Checkpoint => with_maybe(alloc, MaybeLine::Checkpoint, rest, most),
        LineKind::Act => {
            let (act, rest) = act(alloc, tokens, most)?;
            Ok((build::alone(act), rest))
        }
        LineKind::Head => {
            let (head, rest) = head_at(alloc, tokens, most)?;
            line_by_head(alloc, head, rest, most)
        }
    }
}

#[cycle(statements)]
fn line_by_head<'a>(
    alloc: Global,
    head: Head,
    tokens: &'a [Token],
    most: u32,
) -> Result<(Line, &'a [Token]), ParseFault>
    requires { most ≤ MAX_NESTING }
    ensures gives { Gives (λ x. (line_of x.0, x.1.now)) result (line_by_head (right_by most (block most)) (head_of head) tokens.now) }
    ensures shorter { IfOk result (λ x. length x.1.now ≤ length tokens.now) }
{
    match head {
        Head::Declare(ty, name) => {
            let (value, rest) = start_right(alloc, tokens, most)?;
            Ok((build::declare(ty, name, value), rest))
        }
        Head::Infer(name) => {
            let (value, rest) = right(alloc, tokens, most)?;
            Ok((build::infer(name, value), rest))
        }
        Head::Assign(place) => {
            let (value, rest) = right(alloc, tokens, most)?;
            Ok((build::assign(place, value), rest))
        }
        Head::Update(place, op) => {
            let (value, rest) = right(alloc, tokens, most)?;
            Ok((build::update(place, op, value), rest))
        }
        Head::Step(step) => Ok((build::step(step), tokens)),
        Head::Call(call) => Ok((build::call(call), tokens)),
    }
}

/// `= value`, or nothing.
#[cycle(statements)]
fn start_right<'a>(
    alloc: Global,
    tokens: &'a [Token],
    most: u32,
) -> Result<(Option<RightSide>, &'a [Token]), ParseFault>
    requires { most ≤ MAX_NESTING }
    ensures gives { Gives (λ x. (option_map right_of x.0, x.1.now)) result (start_right (right_by most (block most)) tokens.now) }
    ensures shorter { IfOk result (λ x. length x.1.now ≤ length tokens.now) }
{
    if !sign_ahead(Sign::Assign, tokens) {
        return Ok((None, tokens));
    }
    let rest = behind(Sign::Assign, tokens)?;
    let (found, rest) = right(alloc, rest, most)?;
    Ok((Some(found), rest))
}

#[cycle(statements)]
fn maybe_right<'a>(
    alloc: Global,
    tokens: &'a [Token],
    most: u32,
) -> Result<(Option<RightSide>, &'a [Token]), ParseFault>
    requires { most ≤ MAX_NESTING }
    ensures gives { Gives (λ x. (option_map right_of x.0, x.1.now)) result (maybe_right (right_by most (block most)) tokens.now) }
    ensures shorter { IfOk result (λ x. length x.1.now ≤ length tokens.now) }
{
    if nothing_ahead(tokens) {
        return Ok((None, tokens));
    }
    let (found, rest) = right(alloc, tokens, most)?;
    Ok((Some(found), rest))
}

/// The right side of a declaration, an assignment, an update or a `return`.
#[cycle(statements)]
fn right<'a>(
    alloc: Global,
    tokens: &'a [Token],
    most: u32,
) -> Result<(RightSide, &'a [Token]), ParseFault>
    requires { most ≤ MAX_NESTING }
    ensures gives { Gives (λ x. (right_of x.0, x.1.now)) result (right_by most (block most) tokens.now) }
    ensures shorter { IfOk result (λ x. length x.1.now < length tokens.now) }
{
    if let [t, ..] = tokens
        && is_act(&t.word)
    {
        let (act, rest) = act(alloc, tokens, most)?;
        return Ok((build::right_act(act), rest));
    }
    right_value(alloc, tokens, most)
}

#[cycle(statements)]
fn act<'a>(alloc: Global, tokens: &'a [Token], most: u32) -> Result<(Act, &'a [Token]), ParseFault>
    requires { most ≤ MAX_NESTING }
    ensures gives { Gives (λ x. (act_of x.0, x.1.now)) result (act_by most (block most) tokens.now) }
    ensures shorter { IfOk result (λ x. length x.1.now < length tokens.now) }
{
    let [t, rest @ ..] = tokens else {
        return Err(ParseFault::Syntax(END));
    };
    act_of_word(alloc, &t.word, t.line, rest, most)
}

/// An act that begins with a word, behind it.
#[cycle(statements)]
fn act_of_word<'a>(
    alloc: Global,
    word: &Word,
    line: u32,
    rest: &'a [Token],
    most: u32,
) -> Result<(Act, &'a [Token]), ParseFault>
    requires { most ≤ MAX_NESTING }
    ensures gives { Gives (λ x. (act_of x.0, x.1.now)) result (act_by_word most (block most) line word.now rest.now) }
    ensures shorter { IfOk result (λ x. length x.1.now ≤ length rest.now) }
{
    match word {
        Word::Sys(pieces) => Ok((build::sys(line, copy_pieces(alloc, pieces)?), rest)),
        Word::Task => task(alloc, line, rest, most),
        Word::Dep => dep(alloc, line, rest, most),
        Word::Goal => goal(alloc, line, rest, most),
        Word::Par => par(alloc, line, rest, most),
        _ => Err(ParseFault::Syntax(line)),
    }
}

/// A `par`, behind its first token.
#[cycle(statements)]
fn par<'a>(
    alloc: Global,
    line: u32,
    tokens: &'a [Token],
    most: u32,
) -> Result<(Act, &'a [Token]), ParseFault>
    requires { most ≤ MAX_NESTING }
    ensures gives { Gives (λ x. (act_of x.0, x.1.now)) result (par_by most (block most) line tokens.now) }
    ensures shorter { IfOk result (λ x. length x.1.now < length tokens.now) }
{
    if sign_ahead(Sign::OpenBlock, tokens) {
        let (block, rest) = block(alloc, tokens, most)?;
        return Ok((build::par_block(line, block), rest));
    }
    par_call(alloc, line, tokens, most)
}
