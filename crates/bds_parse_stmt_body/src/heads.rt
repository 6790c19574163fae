//! What stands before a statement within an `if`, a loop or a case.

ghost use Rattle.std.specs.Prelude.{◌≡◌, ◌<◌, ◌≤◌, IfOk, length, option_map};
ghost use Rattle.bds_value.specs.declared.TheConstants.{MAX_NESTING};
ghost use Rattle.bds_tree.specs.View.{tree_of};
ghost use Rattle.bds_tree.specs.StmtView.{small_of, stmt_of};
ghost use Rattle.bds_parse_expr.specs.Gives.{Gives};
ghost use Rattle.bds_parse_stmt_parts.specs.Reading.{test, label, each_front, for_parts};
ghost use Rattle.bds_parse_stmt_body.specs.Heads.{ended, behind_else, later_parts, last_part};

use crate::braces::is_empty;
use bds_parse_expr::{ParseFault, expression, line_ahead, name_at};
use bds_parse_stmt_parts::{Sign, behind, maybe_expr, maybe_small, sign_ahead, type_at};
use bds_tree::{Expr, Small, Stmt, Token};
use bds_value::{Boxed, ByteText, Ty, copy_text};
use std::alloc::Global;

/// An expression with a sign behind it.
pub fn ended<'a>(
    alloc: Global,
    sign: Sign,
    tokens: &'a [Token],
    most: u32,
) -> Result<(Expr, &'a [Token]), ParseFault>
    requires { most ≤ MAX_NESTING }
    ensures gives { Gives (λ x. (tree_of x.0, x.1.now)) result (ended sign most tokens.now) }
    ensures shorter { IfOk result (λ x. length x.1.now < length tokens.now) }
{
    let (found, rest) = expression(alloc, tokens, most, 1)?;
    match behind(sign, rest) {
        Ok(rest) => Ok((found.expr, rest)),
        Err(fault) => {
            drop(found);
            Err(fault)
        }
    }
}

/// The condition of an `if` or a `while`, or the value of a `switch`, in its parentheses.
pub fn test<'a>(
    alloc: Global,
    tokens: &'a [Token],
    most: u32,
) -> Result<(Expr, &'a [Token]), ParseFault>
    requires { most ≤ MAX_NESTING }
    ensures gives { Gives (λ x. (tree_of x.0, x.1.now)) result (test most tokens.now) }
    ensures shorter { IfOk result (λ x. length x.1.now < length tokens.now) }
{
    let rest = behind(Sign::OpenRound, tokens)?;
    ended(alloc, Sign::CloseRound, rest, most)
}

/// The label of a case with the colon behind it: `case label :`, or `default :`.
pub fn label<'a>(
    alloc: Global,
    tokens: &'a [Token],
    most: u32,
) -> Result<(Option<Expr>, &'a [Token]), ParseFault>
    requires { most ≤ MAX_NESTING }
    ensures gives { Gives (λ x. (option_map tree_of x.0, x.1.now)) result (label most tokens.now) }
    ensures shorter { IfOk result (λ x. length x.1.now < length tokens.now) }
{
    if sign_ahead(Sign::Default, tokens) {
        let rest = behind(Sign::Default, tokens)?;
        let rest = behind(Sign::CaseColon, rest)?;
        return Ok((None, rest));
    }
    let rest = behind(Sign::Case, tokens)?;
    let (label, rest) = ended(alloc, Sign::CaseColon, rest, most)?;
    Ok((Some(label), rest))
}

/// What stands behind an `else`, which comes behind no empty statement.
pub fn behind_else<'a>(yes: &Stmt, tokens: &'a [Token]) -> Result<&'a [Token], ParseFault>
    ensures gives { Gives (λ x. x.now) result (behind_else (stmt_of yes.now) tokens.now) }
    ensures shorter { IfOk result (λ x. length x.now < length tokens.now) }
{
    if is_empty(yes) {
        return Err(ParseFault::Syntax(line_ahead(tokens)));
    }
    behind(Sign::Else, tokens)
}

/// `type name :`
pub fn each_front<'a>(
    alloc: Global,
    tokens: &'a [Token],
    most: u32,
) -> Result<(Ty, ByteText, &'a [Token]), ParseFault>
    ensures gives { Gives (λ x. ((x.0, x.1), x.2.now)) result (each_front most tokens.now) }
    ensures shorter { IfOk result (λ x. length x.2.now < length tokens.now) }
{
    let (ty, rest) = type_at(alloc, tokens, most)?;
    let (name, rest) = name_at(rest)?;
    let rest = behind(Sign::Colon, rest)?;
    Ok((ty, copy_text(alloc, name)?, rest))
}

/// What stands in the head of a `for` that has two `;`.
#[derive(Drop)]
pub struct ForParts {
    pub first: Option<Boxed<Small>>,
    pub condition: Option<Expr>,
    pub next: Option<Boxed<Small>>,
}

/// The head of a `for` that has two `;`, behind its `(`.
pub fn for_parts<'a>(
    alloc: Global,
    tokens: &'a [Token],
    most: u32,
) -> Result<(ForParts, &'a [Token]), ParseFault>
    requires { most ≤ MAX_NESTING }
    ensures gives { Gives (λ x. ((option_map small_of x.0.first, option_map tree_of x.0.condition, option_map small_of x.0.next), x.1.now)) result (for_parts most tokens.now) }
    ensures shorter { IfOk result (λ x. length x.1.now < length tokens.now) }
{
    let (first, rest) = maybe_small(alloc, tokens, most)?;
    match behind(Sign::Semicolon, rest) {
        Ok(rest) => later_parts(alloc, first, rest, most),
        Err(fault) => {
            drop(first);
            Err(fault)
        }
    }
}

/// The parts behind the first `;`.
fn later_parts<'a>(
    alloc: Global,
    first: Option<Boxed<Small>>,
    tokens: &'a [Token],
    most: u32,
) -> Result<(ForParts, &'a [Token]), ParseFault>
    requires { most ≤ MAX_NESTING }
    ensures gives { Gives (λ x. ((option_map small_of x.0.first, option_map tree_of x.0.condition, option_map small_of x.0.next), x.1.now)) result (later_parts most (option_map small_of first) tokens.now) }
    ensures shorter { IfOk result (λ x. length x.1.now < length tokens.now) }
{
    match maybe_expr(alloc, tokens, most) {
        Ok((condition, rest)) => match behind(Sign::Semicolon, rest) {
            Ok(rest) => last_part(alloc, first, condition, rest, most),
            Err(fault) => {
                drop(first);
                drop(condition);
                Err(fault)
            }
        },
        Err(fault) => {
            drop(first);
            Err(fault)
        }
    }
}

/// The part behind the second `;`.
fn last_part<'a>(
    alloc: Global,
    first: Option<Boxed<Small>>,
    condition: Option<Expr>,
    tokens: &'a [Token],
    most: u32,
) -> Result<(ForParts, &'a [Token]), ParseFault>
    requires { most ≤ MAX_NESTING }
    ensures gives { Gives (λ x. ((option_map small_of x.0.first, option_map tree_of x.0.condition, option_map small_of x.0.next), x.1.now)) result (last_part most (option_map small_of first) (option_map tree_of condition) tokens.now) }
    ensures shorter { IfOk result (λ x. length x.1.now < length tokens.now) }
{
    match maybe_small(alloc, tokens, most) {
        Ok((next, rest)) => match behind(Sign::CloseRound, rest) {
            Ok(rest) => {
                let parts = ForParts {
                    first,
                    condition,
                    next,
                };
                Ok((parts, rest))
            }
            Err(fault) => {
                drop(first);
                drop(condition);
                drop(next);
                Err(fault)
            }
        },
        Err(fault) => {
            drop(first);
            drop(condition);
            Err(fault)
        }
    }
}
