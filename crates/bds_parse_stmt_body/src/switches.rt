//! A `switch` and its cases.

ghost use Rattle.std.specs.Prelude.{◌≡◌, ◌<◌, ◌≤◌, IfOk, IfSome, [], length, map, option_map};
ghost use Rattle.bds_value.specs.declared.TheConstants.{MAX_NESTING};
ghost use Rattle.bds_tree.specs.StmtView.{stmt_of, case_of};
ghost use Rattle.bds_parse_expr.specs.Gives.{Gives};
ghost use Rattle.bds_parse_stmt_parts.specs.Reading.{many_onto, statement, switch_form, cases_by, next_case, case_by};

use crate::heads::{label, test};
use crate::stmts::stmts;
use bds_parse_expr::{ParseFault, line_ahead};
use bds_parse_stmt_parts::{Sign, behind, build, sign_ahead};
use bds_tree::{Case, Cases, Stmt, Token};
use bds_value::Listed;
use std::alloc::Global;

/// A `switch`, behind its first token.
#[cycle(statements)]
pub fn switch<'a>(
    alloc: Global,
    line: u32,
    tokens: &'a [Token],
    most: u32,
) -> Result<(Stmt, &'a [Token]), ParseFault>
    requires { most ≤ MAX_NESTING }
    ensures gives { Gives (λ x. (stmt_of x.0, x.1.now)) result (switch_form most (statement most) line tokens.now) }
    ensures shorter { IfOk result (λ x. length x.1.now < length tokens.now) }
{
    let (value, rest) = test(alloc, tokens, most)?;
    match braced_cases(alloc, rest, most) {
        Ok((cases, rest)) => Ok((build::switch(line, value, cases), rest)),
        Err(fault) => {
            drop(value);
            Err(fault)
        }
    }
}

/// The cases in their braces.
#[cycle(statements)]
fn braced_cases<'a>(
    alloc: Global,
    tokens: &'a [Token],
    most: u32,
) -> Result<(Cases, &'a [Token]), ParseFault>
    requires { most ≤ MAX_NESTING }
    ensures gives { Gives (λ x. (map case_of x.0, x.1.now)) result (cases_by most (statement most) tokens.now) }
    ensures shorter { IfOk result (λ x. length x.1.now < length tokens.now) }
{
    let rest = behind(Sign::OpenBlock, tokens)?;
    let (found, rest) = cases(alloc, rest, most)?;
    match behind(Sign::CloseBlock, rest) {
        Ok(rest) => Ok((found, rest)),
        Err(fault) => {
            drop(found);
            Err(fault)
        }
    }
}

#[cycle(statements)]
fn cases<'a>(
    alloc: Global,
    tokens: &'a [Token],
    most: u32,
) -> Result<(Cases, &'a [Token]), ParseFault>
    requires { most ≤ MAX_NESTING }
    ensures gives { Gives (λ x. (map case_of x.0, x.1.now)) result (many_onto (next_case most (statement most)) [] tokens.now) }
    ensures shorter { IfOk result (λ x. length x.1.now ≤ length tokens.now) }
{
    let mut items = Listed::new(alloc);
    let mut rest = tokens;
    while let Some((item, left)) = next_case(alloc, rest, most)? {
        items.push(item)?;
        rest = left;
    }
    Ok((items, rest))
}

/// The next case, unless the `switch` ends.
#[cycle(statements)]
fn next_case<'a>(
    alloc: Global,
    tokens: &'a [Token],
    most: u32,
) -> Result<Option<(Case, &'a [Token])>, ParseFault>
    requires { most ≤ MAX_NESTING }
    ensures gives { Gives (option_map (λ x. (case_of x.0, x.1.now))) result (next_case most (statement most) tokens.now) }
    ensures shorter { IfOk result (λ o. IfSome o (λ x. length x.1.now < length tokens.now)) }
{
    if sign_ahead(Sign::CloseBlock, tokens) {
        return Ok(None);
    }
    match case(alloc, tokens, most) {
        Ok(found) => Ok(Some(found)),
        Err(fault) => Err(fault),
    }
}

#[cycle(statements)]
fn case<'a>(
    alloc: Global,
    tokens: &'a [Token],
    most: u32,
) -> Result<(Case, &'a [Token]), ParseFault>
    requires { most ≤ MAX_NESTING }
    ensures gives { Gives (λ x. (case_of x.0, x.1.now)) result (case_by most (statement most) tokens.now) }
    ensures shorter { IfOk result (λ x. length x.1.now < length tokens.now) }
{
    let (label, rest) = label(alloc, tokens, most)?;
    match stmts(alloc, rest, most) {
        Ok((stmts, rest)) => Ok((build::case(line_ahead(tokens), label, stmts), rest)),
        Err(fault) => {
            drop(label);
            Err(fault)
        }
    }
}
