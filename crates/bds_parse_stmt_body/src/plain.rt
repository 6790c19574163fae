//! What of lines and acts holds no statement, and the end of a line: read apart from the functions that call each other.

ghost use Rattle.std.specs.Prelude.{◌≡◌, ◌<◌, ◌≤◌, IfOk, length, option_map};
ghost use Rattle.bds_value.specs.declared.TheConstants.{MAX_NESTING};
ghost use Rattle.bds_tree.specs.View.{tree_of};
ghost use Rattle.bds_tree.specs.StmtView.{line_of, right_of, act_of, stmt_of};
ghost use Rattle.bds_parse_expr.specs.Gives.{Gives};
ghost use Rattle.bds_parse_stmt_parts.specs.Reading.{task};
ghost use Rattle.bds_parse_stmt_body.specs.Lines.{one_line, maybe_line, one_form, maybe_form, value_form, dep_form, goal_form, call_form, with_end};

use crate::braces::line_ends_in_brace;
use bds_parse_expr::{Close, ParseFault, expression, members, name_at};
use bds_parse_stmt_parts::{Sign, behind, body, build, line_end, maybe_expr, settings, sign_ahead};
use bds_tree::{Act, Expr, Line, RightSide, Stmt, Token};
use bds_value::copy_text;
use std::alloc::Global;

/// A line of a word and an expression.
#[derive(Clone, Copy, PartialEq, Eq)]
pub enum OneLine {
    Print,
    Error,
    Exit,
}

/// A line of a word and an expression that may be left out.
#[derive(Clone, Copy, PartialEq, Eq)]
pub enum MaybeLine {
    Println,
    Wait,
    Checkpoint,
}

fn one_line(kind: OneLine, value: Expr) -> Line
    ensures { line_of result ≡ one_line kind (tree_of value) }
{
    match kind {
        OneLine::Print => build::print(value),
        OneLine::Error => build::error(value),
        OneLine::Exit => build::exit(value),
    }
}

/// A line with its expression, behind its first token.
pub fn with_one<'a>(
    alloc: Global,
    kind: OneLine,
    tokens: &'a [Token],
    most: u32,
) -> Result<(Line, &'a [Token]), ParseFault>
    requires { most ≤ MAX_NESTING }
    ensures gives { Gives (λ x. (line_of x.0, x.1.now)) result (one_form most tokens.now kind) }
    ensures shorter { IfOk result (λ x. length x.1.now ≤ length tokens.now) }
{
    let (value, rest) = expression(alloc, tokens, most, 1)?;
    Ok((one_line(kind, value.expr), rest))
}

fn maybe_line(kind: MaybeLine, value: Option<Expr>) -> Line
    ensures { line_of result ≡ maybe_line kind (option_map tree_of value) }
{
    match kind {
        MaybeLine::Println => build::println(value),
        MaybeLine::Wait => build::wait(value),
        MaybeLine::Checkpoint => build::checkpoint(value),
    }
}

/// A line with its expression, or without one, behind its first token.
pub fn with_maybe<'a>(
    alloc: Global,
    kind: MaybeLine,
    tokens: &'a [Token],
    most: u32,
) -> Result<(Line, &'a [Token]), ParseFault>
    requires { most ≤ MAX_NESTING }
    ensures gives { Gives (λ x. (line_of x.0, x.1.now)) result (maybe_form most tokens.now kind) }
    ensures shorter { IfOk result (λ x. length x.1.now ≤ length tokens.now) }
{
    let (value, rest) = maybe_expr(alloc, tokens, most)?;
    Ok((maybe_line(kind, value), rest))
}

/// An expression on the right side of a line.
pub fn right_value<'a>(
    alloc: Global,
    tokens: &'a [Token],
    most: u32,
) -> Result<(RightSide, &'a [Token]), ParseFault>
    requires { most ≤ MAX_NESTING }
    ensures gives { Gives (λ x. (right_of x.0, x.1.now)) result (value_form most tokens.now) }
    ensures shorter { IfOk result (λ x. length x.1.now < length tokens.now) }
{
    let (value, rest) = expression(alloc, tokens, most, 1)?;
    Ok((build::right_expr(value.expr), rest))
}

/// A task, behind its first token.
pub fn task<'a>(
    alloc: Global,
    line: u32,
    tokens: &'a [Token],
    most: u32,
) -> Result<(Act, &'a [Token]), ParseFault>
    requires { most ≤ MAX_NESTING }
    ensures gives { Gives (λ x. (act_of x.0, x.1.now)) result (task most line tokens.now) }
    ensures shorter { IfOk result (λ x. length x.1.now < length tokens.now) }
{
    if sign_ahead(Sign::OpenRound, tokens) {
        let (options, rest) = settings(alloc, tokens, most)?;
        let (body, rest) = body(alloc, rest)?;
        return Ok((build::task(line, Some(options), body), rest));
    }
    let (body, rest) = body(alloc, tokens)?;
    Ok((build::task(line, None, body), rest))
}

/// A rule, behind its first token.
pub fn dep<'a>(
    alloc: Global,
    line: u32,
    tokens: &'a [Token],
    most: u32,
) -> Result<(Act, &'a [Token]), ParseFault>
    requires { most ≤ MAX_NESTING }
    ensures gives { Gives (λ x. (act_of x.0, x.1.now)) result (dep_form most line tokens.now) }
    ensures shorter { IfOk result (λ x. length x.1.now < length tokens.now) }
{
    let (options, rest) = settings(alloc, tokens, most)?;
    let (body, rest) = body(alloc, rest)?;
    Ok((build::dep(line, options, body), rest))
}

/// A goal, behind its first token.
pub fn goal<'a>(
    alloc: Global,
    line: u32,
    tokens: &'a [Token],
    most: u32,
) -> Result<(Act, &'a [Token]), ParseFault>
    requires { most ≤ MAX_NESTING }
    ensures gives { Gives (λ x. (act_of x.0, x.1.now)) result (goal_form most line tokens.now) }
    ensures shorter { IfOk result (λ x. length x.1.now < length tokens.now) }
{
    let (files, rest) = expression(alloc, tokens, most, 1)?;
    Ok((build::goal(line, files.expr), rest))
}

/// A call that a thread of its own makes, behind the first token.
pub fn par_call<'a>(
    alloc: Global,
    line: u32,
    tokens: &'a [Token],
    most: u32,
) -> Result<(Act, &'a [Token]), ParseFault>
    requires { most ≤ MAX_NESTING }
    ensures gives { Gives (λ x. (act_of x.0, x.1.now)) result (call_form most line tokens.now) }
    ensures shorter { IfOk result (λ x. length x.1.now < length tokens.now) }
{
    let (name, rest) = name_at(tokens)?;
    let rest = behind(Sign::OpenRound, rest)?;
    let (arguments, rest) = members(alloc, Close::Round, rest, most)?;
    let name = copy_text(alloc, name)?;
    Ok((build::par_call(line, name, arguments.items), rest))
}

/// A line as a statement, with its end behind it.
pub fn with_end<'a>(
    number: u32,
    line: Line,
    tokens: &'a [Token],
) -> Result<(Stmt, &'a [Token]), ParseFault>
    ensures gives { Gives (λ x. (stmt_of x.0, x.1.now)) result (with_end number (line_of line) tokens.now) }
    ensures shorter { IfOk result (λ x. length x.1.now ≤ length tokens.now) }
{
    match line_end(line_ends_in_brace(&line), tokens) {
        Ok(rest) => Ok((build::line(number, line), rest)),
        Err(fault) => {
            drop(line);
            Err(fault)
        }
    }
}
