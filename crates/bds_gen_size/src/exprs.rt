//! The size of an expression: a sum over its nodes.
ghost use Rattle.std.specs.Prelude.{◌≡◌, ◌+◌};
ghost use Rattle.bds_value.specs.Methods.{signature_of};
ghost use Rattle.bds_tree.specs.Tree.{type_of};
ghost use Rattle.bds_tree.specs.View.{tree_of, trees_of, pairs_of};
ghost use Rattle.bds_check_rules.specs.Typing.{count as tree_count};
ghost use Rattle.bds_check_size.specs.ExprSize as sizes;
ghost use Rattle.bds_gen_expr.specs.Scope.{types_in};
ghost use Rattle.bds_gen_size.specs.Capped.{capped};

use crate::pieces::pieces_size;
use bds_check_size::{Sum, sum_of};
use bds_gen_expr::Scope;
use bds_tree::{BinaryOp, Expr, Form};
use bds_value::{ByteText, Method, Ty, same_ty, signature};

/// What an operator takes besides its operands.
fn binary_size(left: &Expr, op: BinaryOp, right: &Expr) -> u64
    ensures { result ≡ sizes.binary_size op left.now.ty right.now.ty }
{
    match op {
        BinaryOp::And => 3,
        BinaryOp::Or => 3,
        BinaryOp::Add => match sum_of(&left.ty, &right.ty) {
            Sum::Texts => 3,
            Sum::Numbers => 1,
            Sum::ItemAdded => 1,
            Sum::ListsJoined => 1,
        },
        BinaryOp::Equal => 1,
        BinaryOp::NotEqual => 1,
        BinaryOp::Less => 1,
        BinaryOp::AtMost => 1,
        BinaryOp::Greater => 1,
        BinaryOp::AtLeast => 1,
        BinaryOp::Sub => 1,
        BinaryOp::Mul => 1,
        BinaryOp::Div => 1,
        BinaryOp::Rem => 1,
    }
}

/// The method of a receiver.
pub fn method_of(receiver: &Expr, name: &ByteText, arguments: &[Expr]) -> Option<Method>
    ensures { result ≡ signature_of (type_of (tree_of receiver.now)) name.now (tree_count (trees_of arguments.now)) }
{
    signature(&receiver.ty, name, arguments.len() as u64)
}

/// What a method takes besides its operands.
fn method_size(method: Option<Method>) -> u64
    ensures { result ≡ sizes.method_size method }
{
    match method {
        Some(Method::File(call)) => if call == 1 { 2 } else { 1 },
        Some(Method::Plain(_)) => 1,
        Some(Method::Change(_)) => 1,
        None => 1,
    }
}

/// A file as a list of one.
fn listing_size(ty: &Ty) -> u64
    ensures { result ≡ sizes.listing_size ty.now }
{
    if same_ty(ty, &Ty::Text) { 1 } else { 0 }
}

/// How many instructions an expression has; past 64 bits the greatest number of these.
#[cycle(sizes)]
pub fn expr_size(scope: &Scope, expr: &Expr) -> u64
    ensures { result ≡ capped (sizes.expr_size (types_in scope.now) (tree_of expr.now)) }
{
    match &expr.form {
        Form::Number(_) => 1,
        Form::Text(pieces) => pieces_size(scope, pieces.as_slice()),
        Form::Bool(_) => 1,
        Form::Name(_) => 1,
        Form::Call(_, arguments) => all_size(scope, arguments.as_slice()).saturating_add(1),
        Form::Group(inner) => expr_size(scope, inner.get()),
        Form::List(items) => all_size(scope, items.as_slice()).saturating_add(1),
        Form::Map(pairs) => pairs_size(scope, pairs.as_slice()).saturating_add(1),
        Form::Item(list, index) => two_size(scope, list.get(), index.get()).saturating_add(1),
        Form::Key(map, key) => two_size(scope, map.get(), key.get()).saturating_add(1),
        Form::Method(receiver, name, arguments) => {
            method_call_size(scope, receiver.get(), name, arguments.as_slice())
        }
        Form::Prefix(_, inner) => expr_size(scope, inner.get()).saturating_add(1),
        Form::Binary(left, op, right) => {
            let operator = binary_size(left.get(), *op, right.get());
            two_size(scope, left.get(), right.get()).saturating_add(operator)
        }
        Form::Choice(condition, yes, no) => {
            choice_size(scope, condition.get(), yes.get(), no.get())
        }
        Form::Dependency(outs, ins) => {
            let outs = files_size(scope, outs.get());
            let ins = files_size(scope, ins.get());
            outs.saturating_add(ins).saturating_add(1)
        }
    }
}

/// Expressions behind each other.
#[cycle(sizes)]
pub fn all_size(scope: &Scope, exprs: &[Expr]) -> u64
    ensures { result ≡ capped (sizes.trees_size (types_in scope.now) (trees_of exprs.now)) }
{
    let mut sum: u64 = 0;
    for expr in exprs {
        sum = sum.saturating_add(expr_size(scope, expr));
    }
    sum
}

/// Keys and values behind each other.
#[cycle(sizes)]
fn pairs_size(scope: &Scope, pairs: &[(Expr, Expr)]) -> u64
    ensures { result ≡ capped (sizes.pairs_size (types_in scope.now) (pairs_of pairs.now)) }
{
    let mut sum: u64 = 0;
    for pair in pairs {
        sum = sum.saturating_add(two_size(scope, &pair.0, &pair.1));
    }
    sum
}

#[cycle(sizes)]
fn two_size(scope: &Scope, first: &Expr, second: &Expr) -> u64
    ensures { result ≡ capped (sizes.expr_size (types_in scope.now) (tree_of first.now) + sizes.expr_size (types_in scope.now) (tree_of second.now)) }
{
    expr_size(scope, first).saturating_add(expr_size(scope, second))
}

#[cycle(sizes)]
fn method_call_size(scope: &Scope, receiver: &Expr, name: &ByteText, arguments: &[Expr]) -> u64
    ensures { result ≡ capped (sizes.expr_size (types_in scope.now) (tree_of receiver.now) + sizes.trees_size (types_in scope.now) (trees_of arguments.now) + sizes.method_size (signature_of (type_of (tree_of receiver.now)) name.now (tree_count (trees_of arguments.now)))) }
{
    let method = method_size(method_of(receiver, name, arguments));
    let receiver = expr_size(scope, receiver);
    receiver
        .saturating_add(all_size(scope, arguments))
        .saturating_add(method)
}

#[cycle(sizes)]
fn choice_size(scope: &Scope, condition: &Expr, yes: &Expr, no: &Expr) -> u64
    ensures { result ≡ capped (sizes.expr_size (types_in scope.now) (tree_of condition.now) + 1 + sizes.expr_size (types_in scope.now) (tree_of yes.now) + 1 + sizes.expr_size (types_in scope.now) (tree_of no.now)) }
{
    two_size(scope, yes, no)
        .saturating_add(expr_size(scope, condition))
        .saturating_add(2)
}

/// A file, or a list of files, as a list.
#[cycle(sizes)]
pub fn files_size(scope: &Scope, expr: &Expr) -> u64
    ensures { result ≡ capped (sizes.files_size (types_in scope.now) (tree_of expr.now)) }
{
    expr_size(scope, expr).saturating_add(listing_size(&expr.ty))
}
