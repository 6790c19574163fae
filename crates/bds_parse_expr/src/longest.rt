//! The longest expression from a place.

ghost use Rattle.std.specs.Prelude.{◌≡◌, ◌≤◌, IfOk, length, List, drop};
ghost use Rattle.bds_tree.specs.declared.token.Token.{Token};
ghost use Rattle.bds_tree.specs.Tree.{Tree};
ghost use Rattle.bds_tree.specs.View.{tree_of};
ghost use Rattle.bds_parse_expr.specs.Longest.{Longest, Returns, HasLine};

use crate::fault::ParseFault;
use crate::lines::line_in;
use crate::parse::expression;
use bds_tree::{Expr, Tokens};
use bds_value::MAX_NESTING;
use std::alloc::Global;

/// The longest expression from a place, and the place behind it; a fault may stand on no line.
fn read(alloc: Global, tokens: &Tokens, at: u64) -> Result<(Expr, u64), ParseFault>
    ensures found { IfOk result (λ x. Longest (tree_of x.0) (drop at tokens.now) (drop x.1 tokens.now)) }
    ensures place { IfOk result (λ x. x.1 ≤ length tokens.now) }
    ensures only { (t : Tree) (rest : List Token) → Longest t (drop at tokens.now) rest → Returns t rest tokens.now result }
{
    let all = tokens.as_slice();
    let from = (at as usize).min(all.len());
    let (tall, rest) = expression(alloc, &all[from..], MAX_NESTING + 1, 1)?;
    Ok((tall.expr, (all.len() - rest.len()) as u64))
}

/// The longest expression from a place, and the place behind it.
pub fn expr(alloc: Global, tokens: &Tokens, at: u64) -> Result<(Expr, u64), ParseFault>
    // What is returned is legal and spelled so, and nothing continues it.
    ensures found { IfOk result (λ x. Longest (tree_of x.0) (drop at tokens.now) (drop x.1 tokens.now)) }
    ensures place { IfOk result (λ x. x.1 ≤ length tokens.now) }
    // Nothing else is, and where there is nothing, that is said.
    ensures only { (t : Tree) (rest : List Token) → Longest t (drop at tokens.now) rest → Returns t rest tokens.now result }
    // The line of a fault is that of a token, or 1 where there is none.
    ensures line { HasLine tokens.now result }
{
    match read(alloc, tokens, at) {
        Ok(found) => Ok(found),
        Err(ParseFault::Syntax(line)) => Err(ParseFault::Syntax(line_in(tokens.as_slice(), line))),
        Err(ParseFault::NoMemory) => Err(ParseFault::NoMemory),
    }
}

/// No two legal trees are spelled from one place with nothing behind them that continues them.
pub fn at_most_one()
    ensures { (s t : Tree) (ts a b : List Token) → Longest s ts a → Longest t ts b → (s ≡ t) × (a ≡ b) }
{}
