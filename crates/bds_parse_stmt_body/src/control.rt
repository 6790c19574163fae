//! `if` and loops, behind their first token.

ghost use Rattle.std.specs.Prelude.{◌≡◌, ◌<◌, ◌≤◌, IfOk, length};
ghost use Rattle.bds_value.specs.declared.TheConstants.{MAX_NESTING};
ghost use Rattle.bds_tree.specs.View.{tree_of};
ghost use Rattle.bds_tree.specs.StmtView.{stmt_of};
ghost use Rattle.bds_parse_expr.specs.Gives.{Gives};
ghost use Rattle.bds_parse_stmt_parts.specs.Reading.{statement, if_form, else_part, while_form, for_form, each_rest, for_rest};

use crate::heads::{ForParts, behind_else, each_front, ended, for_parts, test};
use crate::stmts::boxed_statement;
use bds_parse_expr::ParseFault;
use bds_parse_stmt_parts::{Sign, behind, build, sign_ahead};
use bds_tree::{Expr, Stmt, Token};
use bds_value::{Boxed, ByteText, Ty};
use std::alloc::Global;

#[cycle(statements)]
pub fn if_else<'a>(
    alloc: Global,
    line: u32,
    tokens: &'a [Token],
    most: u32,
) -> Result<(Stmt, &'a [Token]), ParseFault>
    requires { most ≤ MAX_NESTING }
    ensures gives { Gives (λ x. (stmt_of x.0, x.1.now)) result (if_form most (statement most) line tokens.now) }
    ensures shorter { IfOk result (λ x. length x.1.now < length tokens.now) }
{
    let (condition, rest) = test(alloc, tokens, most)?;
    match boxed_statement(alloc, rest, most) {
        Ok((yes, rest)) => else_part(alloc, line, condition, yes, rest, most),
        Err(fault) => {
            drop(condition);
            Err(fault)
        }
    }
}

/// The rest of an `if`, behind its then part.
#[cycle(statements)]
fn else_part<'a>(
    alloc: Global,
    line: u32,
    condition: Expr,
    yes: Boxed<Stmt>,
    tokens: &'a [Token],
    most: u32,
) -> Result<(Stmt, &'a [Token]), ParseFault>
    requires { most ≤ MAX_NESTING }
    ensures gives { Gives (λ x. (stmt_of x.0, x.1.now)) result (else_part (statement most) line (tree_of condition) (stmt_of yes) tokens.now) }
    ensures shorter { IfOk result (λ x. length x.1.now ≤ length tokens.now) }
{
    if !sign_ahead(Sign::Else, tokens) {
        return Ok((build::if_else(line, condition, yes, None), tokens));
    }
    match behind_else(yes.get(), tokens) {
        Ok(rest) => match boxed_statement(alloc, rest, most) {
            Ok((no, rest)) => Ok((build::if_else(line, condition, yes, Some(no)), rest)),
            Err(fault) => {
                drop(condition);
                drop(yes);
                Err(fault)
            }
        },
        Err(fault) => {
            drop(condition);
            drop(yes);
            Err(fault)
        }
    }
}

#[cycle(statements)]
pub fn while_loop<'a>(
    alloc: Global,
    line: u32,
    tokens: &'a [Token],
    most: u32,
) -> Result<(Stmt, &'a [Token]), ParseFault>
    requires { most ≤ MAX_NESTING }
    ensures gives { Gives (λ x. (stmt_of x.0, x.1.now)) result (while_form most (statement most) line tokens.now) }
    ensures shorter { IfOk result (λ x. length x.1.now < length tokens.now) }
{
    let (condition, rest) = test(alloc, tokens, most)?;
    match boxed_statement(alloc, rest, most) {
        Ok((body, rest)) => Ok((build::while_loop(line, condition, body), rest)),
        Err(fault) => {
            drop(condition);
            Err(fault)
        }
    }
}

/// A `for` of either form.
#[cycle(statements)]
pub fn for_loop<'a>(
    alloc: Global,
    line: u32,
    tokens: &'a [Token],
    most: u32,
) -> Result<(Stmt, &'a [Token]), ParseFault>
    requires { most ≤ MAX_NESTING }
    ensures gives { Gives (λ x. (stmt_of x.0, x.1.now)) result (for_form most (statement most) line tokens.now) }
    ensures shorter { IfOk result (λ x. length x.1.now < length tokens.now) }
{
    let rest = behind(Sign::OpenRound, tokens)?;
    match each_front(alloc, rest, most) {
        Ok((ty, name, rest)) => each_rest(alloc, line, ty, name, rest, most),
        Err(ParseFault::NoMemory) => Err(ParseFault::NoMemory),
        Err(ParseFault::Syntax(_)) => for_rest(alloc, line, rest, most),
    }
}

#[cycle(statements)]
fn each_rest<'a>(
    alloc: Global,
    line: u32,
    ty: Ty,
    name: ByteText,
    tokens: &'a [Token],
    most: u32,
) -> Result<(Stmt, &'a [Token]), ParseFault>
    requires { most ≤ MAX_NESTING }
    ensures gives { Gives (λ x. (stmt_of x.0, x.1.now)) result (each_rest most (statement most) line ty name tokens.now) }
    ensures shorter { IfOk result (λ x. length x.1.now < length tokens.now) }
{
    match ended(alloc, Sign::CloseRound, tokens, most) {
        Ok((list, rest)) => match boxed_statement(alloc, rest, most) {
            Ok((body, rest)) => Ok((build::each_loop(line, ty, name, list, body), rest)),
            Err(fault) => {
                drop(ty);
                drop(name);
                drop(list);
                Err(fault)
            }
        },
        Err(fault) => {
            drop(ty);
            drop(name);
            Err(fault)
        }
    }
}

#[cycle(statements)]
fn for_rest<'a>(
    alloc: Global,
    line: u32,
    tokens: &'a [Token],
    most: u32,
) -> Result<(Stmt, &'a [Token]), ParseFault>
    requires { most ≤ MAX_NESTING }
    ensures gives { Gives (λ x. (stmt_of x.0, x.1.now)) result (for_rest most (statement most) line tokens.now) }
    ensures shorter { IfOk result (λ x. length x.1.now < length tokens.now) }
{
    let (parts, rest) = for_parts(alloc, tokens, most)?;
    match boxed_statement(alloc, rest, most) {
        Ok((body, rest)) => {
            let ForParts {
                first,
                condition,
                next,
            } = parts;
            Ok((build::for_loop(line, first, condition, next, body), rest))
        }
        Err(fault) => {
            drop(parts);
            Err(fault)
        }
    }
}
