//! The code of operators between expressions, of which some evaluate only what they need.
ghost use Rattle.std.specs.Prelude.{◌≡◌, ◌++◌, ◌∷◌, [], OnOk};
ghost use Rattle.bds_value.specs.declared.value.Ty.TheVariants as types;
ghost use Rattle.bds_tree.specs.Tree.{type_of, binary, choice};
ghost use Rattle.bds_tree.specs.View.{tree_of};
ghost use Rattle.bds_tree.specs.declared.expr.BinaryOp.TheVariants as op;
ghost use Rattle.bds_gen_expr.specs.ExprCode.{operator, sum_between, sum_behind, left_ty};
ghost use Rattle.bds_gen_expr.specs.Gen.{gen_form};
ghost use Rattle.bds_gen_expr.specs.Grown.{Grown};
ghost use Rattle.bds_gen_expr.specs.Marks.{written};

use crate::exprs::{write_expr, write_two};
use crate::scope::Scope;
use crate::writing::{act, begin_other, end_at, forget, push_ty};
use bds_check_size::{Sum, sum_of};
use bds_code::{Function, Instr, Shape};
use bds_tree::{BinaryOp, Expr};
use bds_value::{At, NoMemory, Ty};
use std::alloc::Global;

fn operator(op: BinaryOp) -> Instr
    ensures { result ≡ operator op }
{
    match op {
        BinaryOp::Equal => Instr::Equal,
        BinaryOp::NotEqual => Instr::NotEqual,
        BinaryOp::Less => Instr::Less,
        BinaryOp::AtMost => Instr::LessEqual,
        BinaryOp::Greater => Instr::Greater,
        BinaryOp::AtLeast => Instr::GreaterEqual,
        BinaryOp::Sub => Instr::Sub,
        BinaryOp::Mul => Instr::Mul,
        BinaryOp::Div => Instr::Div,
        BinaryOp::Rem => Instr::Rem,
        BinaryOp::Add | BinaryOp::And | BinaryOp::Or => Instr::Add,
    }
}

/// An operator between two expressions.
#[cycle(code)]
#[tactic(auto, using(crate::proofs::Operands::writing_rules))]
pub fn write_binary(
    alloc: Global,
    scope: &Scope,
    at: At,
    left: &Expr,
    op: BinaryOp,
    right: &Expr,
    shape: &mut Shape,
    function: &mut Function,
) -> Result<(), NoMemory>
    ensures code { OnOk result (function.new ≡ gen_form (binary (tree_of left.now) op (tree_of right.now)) at types.Void scope.now shape.old function.old) }
    ensures shape { OnOk result (shape.new ≡ shape.old) }
    ensures kept { Grown function.old function.new }
{
    match op {
        BinaryOp::And => write_and(alloc, scope, at, left, right, shape, function),
        BinaryOp::Or => write_or(alloc, scope, at, left, right, shape, function),
        BinaryOp::Add => write_sum(alloc, scope, at, left, right, shape, function),
        BinaryOp::Equal
        | BinaryOp::NotEqual
        | BinaryOp::Less
        | BinaryOp::AtMost
        | BinaryOp::Greater
        | BinaryOp::AtLeast
        | BinaryOp::Sub
        | BinaryOp::Mul
        | BinaryOp::Div
        | BinaryOp::Rem => {
            write_two(alloc, scope, left, right, shape, function)?;
            act(function, at, operator(op))
        }
    }
}

/// Both; the second where the first is true.
#[cycle(code)]
#[tactic(auto, using(crate::proofs::Operands::writing_rules))]
fn write_and(
    alloc: Global,
    scope: &Scope,
    at: At,
    left: &Expr,
    right: &Expr,
    shape: &mut Shape,
    function: &mut Function,
) -> Result<(), NoMemory>
    ensures code { OnOk result (function.new ≡ gen_form (binary (tree_of left.now) op.And (tree_of right.now)) at types.Void scope.now shape.old function.old) }
    ensures shape { OnOk result (shape.new ≡ shape.old) }
    ensures kept { Grown function.old function.new }
{
    write_expr(alloc, scope, left, shape, function)?;
    let test = function.code.len();
    act(function, at, Instr::JumpUnless(0))?;
    write_expr(alloc, scope, right, shape, function)?;
    let jump = function.code.len();
    begin_other(alloc, function, at, test, shape)?;
    act(function, at, Instr::PushBool(false))?;
    end_at(alloc, function, jump, shape, &Ty::Bool)?;
    Ok(())
}

/// One of both; the second where the first is false.
#[cycle(code)]
#[tactic(auto, using(crate::proofs::Operands::writing_rules))]
fn write_or(
    alloc: Global,
    scope: &Scope,
    at: At,
    left: &Expr,
    right: &Expr,
    shape: &mut Shape,
    function: &mut Function,
) -> Result<(), NoMemory>
    ensures code { OnOk result (function.new ≡ gen_form (binary (tree_of left.now) op.Or (tree_of right.now)) at types.Void scope.now shape.old function.old) }
    ensures shape { OnOk result (shape.new ≡ shape.old) }
    ensures kept { Grown function.old function.new }
{
    write_expr(alloc, scope, left, shape, function)?;
    let test = function.code.len();
    act(function, at, Instr::JumpUnless(0))?;
    act(function, at, Instr::PushBool(true))?;
    let jump = function.code.len();
    begin_other(alloc, function, at, test, shape)?;
    write_expr(alloc, scope, right, shape, function)?;
    end_at(alloc, function, jump, shape, &Ty::Bool)?;
    Ok(())
}

/// A sum, by the types of its operands.
#[cycle(code)]
#[tactic(auto, using(crate::proofs::Operands::writing_rules))]
fn write_sum(
    alloc: Global,
    scope: &Scope,
    at: At,
    left: &Expr,
    right: &Expr,
    shape: &mut Shape,
    function: &mut Function,
) -> Result<(), NoMemory>
    ensures code { OnOk result (function.new ≡ gen_form (binary (tree_of left.now) op.Add (tree_of right.now)) at types.Void scope.now shape.old function.old) }
    ensures shape { OnOk result (shape.new ≡ shape.old) }
    ensures kept { Grown function.old function.new }
{
    let sum = sum_of(&left.ty, &right.ty);
    let before = shape.len();
    write_expr(alloc, scope, left, shape, function)?;
    write_between(function, at, sum)?;
    push_left(alloc, shape, sum, &left.ty)?;
    write_expr(alloc, scope, right, shape, function)?;
    forget(shape, before);
    write_behind(function, at, sum)
}

/// One of two values of the type of `whole`, by a condition.
#[cycle(code)]
#[tactic(auto, using(crate::proofs::Operands::writing_rules))]
pub fn write_choice(
    alloc: Global,
    scope: &Scope,
    whole: &Expr,
    condition: &Expr,
    yes: &Expr,
    no: &Expr,
    shape: &mut Shape,
    function: &mut Function,
) -> Result<(), NoMemory>
    ensures code { OnOk result (function.new ≡ gen_form (choice (tree_of condition.now) (tree_of yes.now) (tree_of no.now)) whole.now.at whole.now.ty scope.now shape.old function.old) }
    ensures shape { OnOk result (shape.new ≡ shape.old) }
    ensures kept { Grown function.old function.new }
{
    let at = whole.at;
    write_expr(alloc, scope, condition, shape, function)?;
    let test = function.code.len();
    act(function, at, Instr::JumpUnless(0))?;
    write_expr(alloc, scope, yes, shape, function)?;
    let jump = function.code.len();
    begin_other(alloc, function, at, test, shape)?;
    write_expr(alloc, scope, no, shape, function)?;
    end_at(alloc, function, jump, shape, &whole.ty)?;
    Ok(())
}

/// What stands between the operands of a sum.
fn write_between(function: &mut Function, at: At, sum: Sum) -> Result<(), NoMemory>
    ensures code { OnOk result (function.new ≡ written function.old (sum_between at sum)) }
    ensures kept { Grown function.old function.new }
{
    match sum {
        Sum::Texts => act(function, at, Instr::Show),
        Sum::Numbers | Sum::ItemAdded | Sum::ListsJoined => Ok(()),
    }
}

/// What stands behind the operands of a sum.
#[tactic(auto, using(crate::proofs::Growing::grown_on))]
fn write_behind(function: &mut Function, at: At, sum: Sum) -> Result<(), NoMemory>
    ensures code { OnOk result (function.new ≡ written function.old (sum_behind at sum)) }
    ensures kept { Grown function.old function.new }
{
    match sum {
        Sum::Numbers => act(function, at, Instr::Add),
        Sum::ItemAdded => act(function, at, Instr::ListAdd),
        Sum::ListsJoined => act(function, at, Instr::ListCat),
        Sum::Texts => {
            act(function, at, Instr::Show)?;
            act(function, at, Instr::Concat)
        }
    }
}

/// The left operand of a sum, as it stands below the right one.
fn push_left(alloc: Global, shape: &mut Shape, sum: Sum, ty: &Ty) -> Result<(), NoMemory>
    ensures { OnOk result (shape.new ≡ shape.old ++ left_ty sum ty.now ∷ []) }
{
    match sum {
        Sum::Texts => shape.push(alloc, Ty::Text),
        Sum::Numbers | Sum::ItemAdded | Sum::ListsJoined => push_ty(alloc, shape, ty),
    }
}
