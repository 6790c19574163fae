//! How tightly expressions bind, and what may stand behind them.

ghost use Rattle.std.specs.Prelude.{◌≡◌};
ghost use Rattle.bds_tree.specs.Shape.{level_of, level, follow};
ghost use Rattle.bds_tree.specs.View.{tree_of};

use crate::expr::{BinaryOp, Expr, Form};

/// How tightly an operator binds: from 3 for `||` to 8 for `*`.
pub fn level_of(op: BinaryOp) -> u8
    ensures { result ≡ level_of op }
{
    match op {
        BinaryOp::Or => 3,
        BinaryOp::And => 4,
        BinaryOp::Equal | BinaryOp::NotEqual => 5,
        BinaryOp::Less | BinaryOp::AtMost | BinaryOp::Greater | BinaryOp::AtLeast => 6,
        BinaryOp::Add | BinaryOp::Sub => 7,
        BinaryOp::Mul | BinaryOp::Div | BinaryOp::Rem => 8,
    }
}

/// How tightly the outermost form of an expression binds, from 1 to 10.
pub fn level(expr: &Expr) -> u8
    ensures { result ≡ level (tree_of expr.now) }
{
    match &expr.form {
        Form::Prefix(_, _) => 9,
        Form::Binary(_, op, _) => level_of(*op),
        Form::Choice(_, _, _) => 2,
        Form::Dependency(_, _) => 1,
        _ => 10,
    }
}

/// How tightly a sign may bind that stands behind an expression without belonging into it, at most.
pub fn follow(expr: &Expr) -> u8
    ensures { result ≡ follow (tree_of expr.now) }
{
    match &expr.form {
        Form::Prefix(_, _) => 8,
        Form::Binary(_, op, _) => level_of(*op),
        Form::Choice(_, _, _) => 1,
        Form::Dependency(_, _) => 0,
        _ => 10,
    }
}
