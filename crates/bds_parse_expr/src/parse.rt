//! Precedence climbing, forward over the tokens.

ghost use Rattle.std.specs.Prelude.{◌≡◌, ◌≤◌, ◌<◌, ◌+◌, IfOk, length, max};
ghost use Rattle.bds_value.specs.declared.TheConstants.{MAX_NESTING};
ghost use Rattle.bds_tree.specs.Shape.{height};
ghost use Rattle.bds_tree.specs.View.{tree_of, trees_of, pairs_of};
ghost use Rattle.bds_parse_expr.specs.Gives.{Gives};
ghost use Rattle.bds_parse_expr.specs.Reading.{expression, front, join, climb, members, pair, pairs, named, closes, method_of, plain, prefixes};

use crate::build;
use crate::fault::{END, ParseFault};
use crate::signs::{behind_arrow, behind_close, behind_colon, behind_open, line_ahead, name_at};
use crate::tall::{Tall, TallExprs, TallPairs};
use crate::words::{Close, Next, is_close, is_comma, is_open_round, next_of, strength};
use bds_tree::{Expr, PrefixOp, Token, Word, follow, level_of};
use bds_value::{ByteText, Listed};
use std::alloc::Global;

/// An expression of at least a level and lower than `most`, as long as signs of at least that level continue it.
#[cycle(parser)]
#[tactic(auto, unfolding(crate::specs::Reading::expression))]
pub fn expression<'a>(
    alloc: Global,
    tokens: &'a [Token],
    most: u32,
    least: u8,
) -> Result<(Tall, &'a [Token]), ParseFault>
    requires { most ≤ MAX_NESTING + 1 }
    ensures gives { Gives (λ x. (tree_of x.0.expr, x.1.now)) result (expression most least tokens.now) }
    ensures low { IfOk result (λ x. x.0.height < most) }
    ensures shorter { IfOk result (λ x. length x.1.now < length tokens.now) }
{
    if most == 0 {
        return Err(ParseFault::Syntax(line_ahead(tokens)));
    }
    let (first, rest) = front(alloc, tokens, most - 1)?;
    climb(alloc, first, rest, most - 1, least)
}

#[cycle(parser)]
fn climb<'a>(
    alloc: Global,
    first: Tall,
    tokens: &'a [Token],
    most: u32,
    least: u8,
) -> Result<(Tall, &'a [Token]), ParseFault>
    requires bounded { most ≤ MAX_NESTING }
    requires low { first.height ≤ most }
    ensures gives { Gives (λ x. (tree_of x.0.expr, x.1.now)) result (climb most (expression most) (length tokens.now) least (tree_of first.expr) tokens.now) }
    ensures low { IfOk result (λ x. x.0.height ≤ most) }
    ensures shorter { IfOk result (λ x. length x.1.now ≤ length tokens.now) }
{
    let mut tall = first;
    let mut rest = tokens;
    while let [t, after @ ..] = rest {
        let next = next_of(&t.word);
        if strength(next) < least {
            break;
        }
        if follow(&tall.expr) < strength(next) {
            return Err(ParseFault::Syntax(t.line));
        }
        let (longer, left) = join(alloc, tall, next, after, most)?;
        tall = longer;
        rest = left;
    }
    Ok((tall, rest))
}

#[cycle(parser)]
fn join<'a>(
    alloc: Global,
    left: Tall,
    next: Next,
    tokens: &'a [Token],
    most: u32,
) -> Result<(Tall, &'a [Token]), ParseFault>
    requires bounded { most ≤ MAX_NESTING }
    requires low { left.height ≤ most }
    ensures gives { Gives (λ x. (tree_of x.0.expr, x.1.now)) result (join most (expression most) (tree_of left.expr) next tokens.now) }
    ensures low { IfOk result (λ x. x.0.height ≤ most) }
    ensures shorter { IfOk result (λ x. length x.1.now ≤ length tokens.now) }
{
    match next {
        Next::Joins(op) => {
            let (right, rest) = expression(alloc, tokens, most, level_of(op) + 1)?;
            let tall = build::binary(alloc, left, op, right)?;
            build::fitting(tall, rest, most)
        }
        Next::Chooses => {
            let (yes, rest) = expression(alloc, tokens, most, 2)?;
            let rest = behind_colon(rest)?;
            let (no, rest) = expression(alloc, rest, most, 2)?;
            let tall = build::choice(alloc, left, yes, no)?;
            build::fitting(tall, rest, most)
        }
        Next::Depends => {
            let (inputs, rest) = expression(alloc, tokens, most, 2)?;
            let tall = build::dependency(alloc, left, inputs)?;
            build::fitting(tall, rest, most)
        }
        Next::Indexes => {
            let (index, rest) = expression(alloc, tokens, most, 1)?;
            let rest = behind_close(Close::Square, rest)?;
            let tall = build::item(alloc, left, index)?;
            build::fitting(tall, rest, most)
        }
        Next::Keys => {
            let (place, rest) = expression(alloc, tokens, most, 1)?;
            let rest = behind_close(Close::Value, rest)?;
            let tall = build::key(alloc, left, place)?;
            build::fitting(tall, rest, most)
        }
        Next::Asks => {
            let (name, rest) = name_at(tokens)?;
            let rest = behind_open(rest)?;
            let (arguments, rest) = members(alloc, Close::Round, rest, most)?;
            let tall = build::method(alloc, left, name, arguments)?;
            build::fitting(tall, rest, most)
        }
        Next::Calls | Next::Stops => Err(ParseFault::Syntax(left.expr.at.line)),
    }
}

#[cycle(parser)]
fn front<'a>(
    alloc: Global,
    tokens: &'a [Token],
    most: u32,
) -> Result<(Tall, &'a [Token]), ParseFault>
    requires { most ≤ MAX_NESTING }
    ensures gives { Gives (λ x. (tree_of x.0.expr, x.1.now)) result (front (expression most) tokens.now) }
    ensures low { IfOk result (λ x. x.0.height ≤ most) }
    ensures shorter { IfOk result (λ x. length x.1.now < length tokens.now) }
{
    let [t, rest @ ..] = tokens else {
        return Err(ParseFault::Syntax(END));
    };
    match &t.word {
        Word::Number(value) => Ok((build::number(t.line, *value), rest)),
        Word::Text(pieces) => Ok((build::text(alloc, t.line, pieces)?, rest)),
        Word::True => Ok((build::truth(t.line, true), rest)),
        Word::False => Ok((build::truth(t.line, false), rest)),
        Word::Name(name) => named(alloc, t.line, name, rest, most),
        Word::OpenRound => {
            let (inner, rest) = expression(alloc, rest, most, 1)?;
            let rest = behind_close(Close::Round, rest)?;
            Ok((build::group(alloc, t.line, inner)?, rest))
        }
        Word::OpenSquare => {
            let (items, rest) = members(alloc, Close::Square, rest, most)?;
            Ok((build::list(t.line, items), rest))
        }
        Word::OpenValue => {
            let (pairs, rest) = pairs(alloc, rest, most)?;
            Ok((build::map(t.line, pairs), rest))
        }
        Word::Minus => prefixed(alloc, t.line, PrefixOp::Neg, rest, most),
        Word::Not => prefixed(alloc, t.line, PrefixOp::Not, rest, most),
        _ => Err(ParseFault::Syntax(t.line)),
    }
}

#[cycle(parser)]
fn prefixed<'a>(
    alloc: Global,
    line: u32,
    op: PrefixOp,
    tokens: &'a [Token],
    most: u32,
) -> Result<(Tall, &'a [Token]), ParseFault>
    requires { most ≤ MAX_NESTING }
    ensures gives { Gives (λ x. (tree_of x.0.expr, x.1.now)) result (plain (expression most) line (prefixes op) tokens.now) }
    ensures low { IfOk result (λ x. x.0.height ≤ most) }
    ensures shorter { IfOk result (λ x. length x.1.now < length tokens.now) }
{
    let (inner, rest) = expression(alloc, tokens, most, 9)?;
    Ok((build::prefix(alloc, line, op, inner)?, rest))
}

#[cycle(parser)]
fn named<'a>(
    alloc: Global,
    line: u32,
    name: &ByteText,
    tokens: &'a [Token],
    most: u32,
) -> Result<(Tall, &'a [Token]), ParseFault>
    requires { most ≤ MAX_NESTING }
    ensures gives { Gives (λ x. (tree_of x.0.expr, x.1.now)) result (named (expression most) line name.now tokens.now) }
    ensures low { IfOk result (λ x. x.0.height ≤ most) }
    ensures shorter { IfOk result (λ x. length x.1.now ≤ length tokens.now) }
{
    if let [t, rest @ ..] = tokens
        && is_open_round(&t.word)
    {
        let (arguments, rest) = members(alloc, Close::Round, rest, most)?;
        return Ok((build::call(alloc, line, name, arguments)?, rest));
    }
    Ok((build::name(alloc, line, name)?, tokens))
}

/// Expressions with commas between, up to the sign that closes them; each is lower than `most`.
#[cycle(parser)]
pub fn members<'a>(
    alloc: Global,
    close: Close,
    tokens: &'a [Token],
    most: u32,
) -> Result<(TallExprs, &'a [Token]), ParseFault>
    requires { most ≤ MAX_NESTING }
    ensures gives { Gives (λ x. (trees_of x.0.items, x.1.now)) result (members (closes close) (expression most) tokens.now) }
    ensures low { IfOk result (λ x. x.0.height ≤ most) }
    ensures shorter { IfOk result (λ x. length x.1.now < length tokens.now) }
{
    let mut items = Listed::new(alloc);
    let [head, others @ ..] = tokens else {
        return Err(ParseFault::Syntax(END));
    };
    if is_close(close, &head.word) {
        return Ok((TallExprs { items, height: 0 }, others));
    }
    let (first, mut rest) = expression(alloc, tokens, most, 1)?;
    let mut height = first.height + 1;
    items.push(first.expr)?;
    while let [t, after @ ..] = rest {
        if is_close(close, &t.word) {
            return Ok((TallExprs { items, height }, after));
        }
        if !is_comma(&t.word) {
            return Err(ParseFault::Syntax(t.line));
        }
        let (next, left) = expression(alloc, after, most, 1)?;
        height = height.max(next.height + 1);
        items.push(next.expr)?;
        rest = left;
    }
    Err(ParseFault::Syntax(END))
}

/// A key and its value, with the height of a form that holds them.
#[cycle(parser)]
fn pair<'a>(
    alloc: Global,
    tokens: &'a [Token],
    most: u32,
) -> Result<(Expr, Expr, u32, &'a [Token]), ParseFault>
    requires { most ≤ MAX_NESTING }
    ensures gives { Gives (λ x. ((tree_of x.0, tree_of x.1), x.3.now)) result (pair (expression most) tokens.now) }
    ensures height { IfOk result (λ x. x.2 ≡ max (height (tree_of x.0) + 1) (height (tree_of x.1) + 1)) }
    ensures low { IfOk result (λ x. x.2 ≤ most) }
    ensures shorter { IfOk result (λ x. length x.3.now < length tokens.now) }
{
    let (key, rest) = expression(alloc, tokens, most, 1)?;
    let rest = behind_arrow(rest)?;
    let (value, rest) = expression(alloc, rest, most, 1)?;
    let height = key.height.max(value.height) + 1;
    Ok((key.expr, value.expr, height, rest))
}

#[cycle(parser)]
fn pairs<'a>(
    alloc: Global,
    tokens: &'a [Token],
    most: u32,
) -> Result<(TallPairs, &'a [Token]), ParseFault>
    requires { most ≤ MAX_NESTING }
    ensures gives { Gives (λ x. (pairs_of x.0.items, x.1.now)) result (pairs (expression most) tokens.now) }
    ensures low { IfOk result (λ x. x.0.height ≤ most) }
    ensures shorter { IfOk result (λ x. length x.1.now < length tokens.now) }
{
    let mut items = Listed::new(alloc);
    let [head, others @ ..] = tokens else {
        return Err(ParseFault::Syntax(END));
    };
    if is_close(Close::Value, &head.word) {
        return Ok((TallPairs { items, height: 0 }, others));
    }
    let (key, value, first_height, mut rest) = pair(alloc, tokens, most)?;
    let mut height = first_height;
    items.push((key, value))?;
    while let [t, after @ ..] = rest {
        if is_close(Close::Value, &t.word) {
            return Ok((TallPairs { items, height }, after));
        }
        if !is_comma(&t.word) {
            return Err(ParseFault::Syntax(t.line));
        }
        let (key, value, next_height, left) = pair(alloc, after, most)?;
        height = height.max(next_height);
        items.push((key, value))?;
        rest = left;
    }
    Err(ParseFault::Syntax(END))
}
