//! Expressions and parts of the head of a `for` that may be missing.

ghost use Rattle.std.specs.Prelude.{◌≡◌, ◌<◌, ◌≤◌, IfOk, length, option_map};
ghost use Rattle.bds_value.specs.declared.TheConstants.{MAX_NESTING};
ghost use Rattle.bds_tree.specs.View.{tree_of};
ghost use Rattle.bds_tree.specs.StmtView.{small_of, small_form_of};
ghost use Rattle.bds_parse_expr.specs.Gives.{Gives};
ghost use Rattle.bds_parse_stmt_parts.specs.Heads.{head_of};
ghost use Rattle.bds_parse_stmt_parts.specs.Reading.{maybe_expr, start_expr, small_by_head, maybe_small};

use crate::build::here;
use crate::heads::{Head, head_at};
use crate::signs::{behind, nothing_ahead, sign_ahead};
use crate::words::Sign;
use bds_parse_expr::{ParseFault, expression, line_ahead};
use bds_tree::{Expr, Small, SmallForm, Token};
use bds_value::Boxed;
use std::alloc::Global;

pub fn maybe_expr<'a>(
    alloc: Global,
    tokens: &'a [Token],
    most: u32,
) -> Result<(Option<Expr>, &'a [Token]), ParseFault>
    requires { most ≤ MAX_NESTING }
    ensures gives { Gives (λ x. (option_map tree_of x.0, x.1.now)) result (maybe_expr most tokens.now) }
    ensures shorter { IfOk result (λ x. length x.1.now ≤ length tokens.now) }
{
    if nothing_ahead(tokens) {
        return Ok((None, tokens));
    }
    let (found, rest) = expression(alloc, tokens, most, 1)?;
    Ok((Some(found.expr), rest))
}

/// `= value`, or nothing.
fn start_expr<'a>(
    alloc: Global,
    tokens: &'a [Token],
    most: u32,
) -> Result<(Option<Expr>, &'a [Token]), ParseFault>
    requires { most ≤ MAX_NESTING }
    ensures gives { Gives (λ x. (option_map tree_of x.0, x.1.now)) result (start_expr most tokens.now) }
    ensures shorter { IfOk result (λ x. length x.1.now ≤ length tokens.now) }
{
    if !sign_ahead(Sign::Assign, tokens) {
        return Ok((None, tokens));
    }
    let rest = behind(Sign::Assign, tokens)?;
    let (found, rest) = expression(alloc, rest, most, 1)?;
    Ok((Some(found.expr), rest))
}

fn small_by_head<'a>(
    alloc: Global,
    head: Head,
    tokens: &'a [Token],
    most: u32,
) -> Result<(SmallForm, &'a [Token]), ParseFault>
    requires { most ≤ MAX_NESTING }
    ensures gives { Gives (λ x. (small_form_of x.0, x.1.now)) result (small_by_head most (head_of head) tokens.now) }
    ensures shorter { IfOk result (λ x. length x.1.now ≤ length tokens.now) }
{
    match head {
        Head::Declare(ty, name) => {
            let (value, rest) = start_expr(alloc, tokens, most)?;
            Ok((SmallForm::Declare(ty, name, value), rest))
        }
        Head::Infer(name) => {
            let (value, rest) = expression(alloc, tokens, most, 1)?;
            Ok((SmallForm::Infer(name, value.expr), rest))
        }
        Head::Assign(place) => {
            let (value, rest) = expression(alloc, tokens, most, 1)?;
            Ok((SmallForm::Assign(place, value.expr), rest))
        }
        Head::Update(place, op) => {
            let (value, rest) = expression(alloc, tokens, most, 1)?;
            Ok((SmallForm::Update(place, op, value.expr), rest))
        }
        Head::Step(step) => Ok((SmallForm::Step(step), tokens)),
        Head::Call(call) => Ok((SmallForm::Call(call), tokens)),
    }
}

/// A part of the head of a `for`, where it isn't missing.
pub fn maybe_small<'a>(
    alloc: Global,
    tokens: &'a [Token],
    most: u32,
) -> Result<(Option<Boxed<Small>>, &'a [Token]), ParseFault>
    requires { most ≤ MAX_NESTING }
    ensures gives { Gives (λ x. (option_map small_of x.0, x.1.now)) result (maybe_small most tokens.now) }
    ensures shorter { IfOk result (λ x. length x.1.now ≤ length tokens.now) }
{
    if nothing_ahead(tokens) {
        return Ok((None, tokens));
    }
    let at = here(line_ahead(tokens));
    let (head, rest) = head_at(alloc, tokens, most)?;
    let (form, rest) = small_by_head(alloc, head, rest, most)?;
    Ok((Some(Boxed::of(alloc, Small { at, form })?), rest))
}
