//! Statements and blocks, forward over the tokens.

ghost use Rattle.std.specs.Prelude.{◌≡◌, ◌<◌, ◌≤◌, IfOk, IfSome, [], length, map, option_map, ◌+◌};
ghost use Rattle.bds_value.specs.declared.TheConstants.{MAX_NESTING};
ghost use Rattle.bds_tree.specs.StmtView.{stmt_of, block_of};
ghost use Rattle.bds_parse_expr.specs.Gives.{Gives};
ghost use Rattle.bds_parse_stmt_parts.specs.Reading.{many_onto, next_stmt, statement, block, block_by, statement_by, statement_by_kind};

use crate::control::{for_loop, if_else, while_loop};
use crate::lines::line;
use crate::plain::with_end;
use crate::switches::switch;
use bds_parse_expr::{END, ParseFault, line_ahead};
use bds_parse_stmt_parts::{Sign, StmtKind, behind, build, end_ahead, stmt_kind};
use bds_tree::{Block, Stmt, Stmts, Token};
use bds_value::{Boxed, Listed};
use std::alloc::Global;

/// A statement that nests less than `most`.
#[cycle(statements)]
pub fn statement<'a>(
    alloc: Global,
    tokens: &'a [Token],
    most: u32,
) -> Result<(Stmt, &'a [Token]), ParseFault>
    requires { most ≤ MAX_NESTING + 1 }
    ensures gives { Gives (λ x. (stmt_of x.0, x.1.now)) result (statement most tokens.now) }
    ensures shorter { IfOk result (λ x. length x.1.now < length tokens.now) }
{
    if most == 0 {
        return Err(ParseFault::Syntax(line_ahead(tokens)));
    }
    statement_below(alloc, tokens, most - 1)
}

/// A statement that nests less than `most`, in a box.
#[cycle(statements)]
pub fn boxed_statement<'a>(
    alloc: Global,
    tokens: &'a [Token],
    most: u32,
) -> Result<(Boxed<Stmt>, &'a [Token]), ParseFault>
    requires { most ≤ MAX_NESTING }
    ensures gives { Gives (λ x. (stmt_of x.0, x.1.now)) result (statement most tokens.now) }
    ensures shorter { IfOk result (λ x. length x.1.now < length tokens.now) }
{
    match statement(alloc, tokens, most) {
        Ok((found, rest)) => match Boxed::of(alloc, found) {
            Ok(found) => Ok((found, rest)),
            Err(_) => Err(ParseFault::NoMemory),
        },
        Err(fault) => Err(fault),
    }
}

/// A statement whose parts nest less than `most`.
#[cycle(statements)]
fn statement_below<'a>(
    alloc: Global,
    tokens: &'a [Token],
    most: u32,
) -> Result<(Stmt, &'a [Token]), ParseFault>
    requires { most ≤ MAX_NESTING }
    ensures gives { Gives (λ x. (stmt_of x.0, x.1.now)) result (statement_by most (block most) (statement most) tokens.now) }
    ensures shorter { IfOk result (λ x. length x.1.now < length tokens.now) }
{
    let [t, rest @ ..] = tokens else {
        return Err(ParseFault::Syntax(END));
    };
    statement_of_kind(alloc, stmt_kind(&t.word), t.line, tokens, rest, most)
}

/// A statement of a kind, by its tokens and by those behind the first.
#[cycle(statements)]
fn statement_of_kind<'a>(
    alloc: Global,
    kind: StmtKind,
    number: u32,
    tokens: &'a [Token],
    rest: &'a [Token],
    most: u32,
) -> Result<(Stmt, &'a [Token]), ParseFault>
    requires bounded { most ≤ MAX_NESTING }
    requires fewer { length rest.now < length tokens.now }
    ensures gives { Gives (λ x. (stmt_of x.0, x.1.now)) result (statement_by_kind most (block most) (statement most) number kind tokens.now rest.now) }
    ensures shorter { IfOk result (λ x. length x.1.now < length tokens.now) }
{
    match kind {
        StmtKind::Block => {
            let (block, rest) = block(alloc, tokens, most)?;
            Ok((build::inner_block(number, block), rest))
        }
        StmtKind::Empty => Ok((build::empty(number), rest)),
        StmtKind::If => if_else(alloc, number, rest, most),
        StmtKind::While => while_loop(alloc, number, rest, most),
        StmtKind::For => for_loop(alloc, number, rest, most),
        StmtKind::Switch => switch(alloc, number, rest, most),
        StmtKind::Line => {
            let (line, rest) = line(alloc, tokens, most)?;
            with_end(number, line, rest)
        }
    }
}

/// The next statement of a block or of a case, unless they end.
#[cycle(statements)]
fn next_stmt<'a>(
    alloc: Global,
    tokens: &'a [Token],
    most: u32,
) -> Result<Option<(Stmt, &'a [Token])>, ParseFault>
    requires { most ≤ MAX_NESTING }
    ensures gives { Gives (option_map (λ x. (stmt_of x.0, x.1.now))) result (next_stmt (statement most) tokens.now) }
    ensures shorter { IfOk result (λ o. IfSome o (λ x. length x.1.now < length tokens.now)) }
{
    if end_ahead(tokens) {
        return Ok(None);
    }
    match statement(alloc, tokens, most) {
        Ok(found) => Ok(Some(found)),
        Err(fault) => Err(fault),
    }
}

/// The statements of a block or of a case.
#[cycle(statements)]
pub fn stmts<'a>(
    alloc: Global,
    tokens: &'a [Token],
    most: u32,
) -> Result<(Stmts, &'a [Token]), ParseFault>
    requires { most ≤ MAX_NESTING }
    ensures gives { Gives (λ x. (map stmt_of x.0, x.1.now)) result (many_onto (next_stmt (statement most)) [] tokens.now) }
    ensures shorter { IfOk result (λ x. length x.1.now ≤ length tokens.now) }
{
    let mut items = Listed::new(alloc);
    let mut rest = tokens;
    while let Some((item, left)) = next_stmt(alloc, rest, most)? {
        items.push(item)?;
        rest = left;
    }
    Ok((items, rest))
}

/// A block that nests less than `most`.
#[cycle(statements)]
pub fn block<'a>(
    alloc: Global,
    tokens: &'a [Token],
    most: u32,
) -> Result<(Block, &'a [Token]), ParseFault>
    requires { most ≤ MAX_NESTING + 1 }
    ensures gives { Gives (λ x. (block_of x.0, x.1.now)) result (block most tokens.now) }
    ensures shorter { IfOk result (λ x. length x.1.now < length tokens.now) }
{
    if most == 0 {
        return Err(ParseFault::Syntax(line_ahead(tokens)));
    }
    block_below(alloc, tokens, most - 1)
}

/// A block whose statements nest less than `most`.
#[cycle(statements)]
fn block_below<'a>(
    alloc: Global,
    tokens: &'a [Token],
    most: u32,
) -> Result<(Block, &'a [Token]), ParseFault>
    requires { most ≤ MAX_NESTING }
    ensures gives { Gives (λ x. (block_of x.0, x.1.now)) result (block_by (statement most) tokens.now) }
    ensures shorter { IfOk result (λ x. length x.1.now < length tokens.now) }
{
    let rest = behind(Sign::OpenBlock, tokens)?;
    let (stmts, rest) = stmts(alloc, rest, most)?;
    let rest = behind(Sign::CloseBlock, rest)?;
    Ok((build::block(line_ahead(tokens), stmts), rest))
}
