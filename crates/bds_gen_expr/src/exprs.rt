//! The code of an expression: its operands, and behind them what takes them.
ghost use Rattle.std.specs.Prelude.{◌≡◌, ◌++◌, ◌∷◌, [], OnOk, IfOk};
ghost use Rattle.bds_value.specs.declared.value.Ty.TheVariants as types;
ghost use Rattle.bds_value.specs.Methods.{signature_of};
ghost use Rattle.bds_value.specs.Types.{list_item, map_item};
ghost use Rattle.bds_check_names.specs.Types.{or_void};
ghost use Rattle.bds_code.specs.declared.instr.Instr.TheVariants.{MakeList, MakeMap};
ghost use Rattle.bds_tree.specs.Tree.{type_of, method, dependency};
ghost use Rattle.bds_tree.specs.View.{tree_of, trees_of, pairs_of};
ghost use Rattle.bds_check_rules.specs.Typing.{count as tree_count};
ghost use Rattle.bds_gen_expr.specs.ExprCode.{sign_of, listing, pair_count};
ghost use Rattle.bds_gen_expr.specs.Gen.{act, gen, gen_form, gen_all, gen_pairs};
ghost use Rattle.bds_gen_expr.specs.Grown.{Grown};
ghost use Rattle.bds_gen_expr.specs.Marks.{written};

use crate::methods::{write_call, write_listing};
use crate::operators::{write_binary, write_choice};
use crate::pieces::write_pieces;
use crate::scope::{Scope, function_number, load};
use crate::writing::{act, counted, forget, push_ty};
use bds_check_names::{list_part, map_part};
use bds_code::{Function, Instr, Shape};
use bds_tree::{Expr, Form, PrefixOp};
use bds_value::{At, ByteText, Method, NoMemory, Shared, Ty, signature};
use std::alloc::Global;

fn sign_of(op: PrefixOp) -> Instr
    ensures { result ≡ sign_of op }
{
    match op {
        PrefixOp::Neg => Instr::Neg,
        PrefixOp::Not => Instr::Not,
    }
}

/// The code of an expression behind what the function has. The operands in `shape` stand below it, and are left as
/// they were; a refused call may leave more there.
#[cycle(code)]
#[tactic(auto, using(crate::proofs::Operands::writing_rules))]
pub fn write_expr(
    alloc: Global,
    scope: &Scope,
    expr: &Expr,
    shape: &mut Shape,
    function: &mut Function,
) -> Result<(), NoMemory>
    ensures code { OnOk result (function.new ≡ gen (tree_of expr.now) scope.now shape.old function.old) }
    ensures shape { OnOk result (shape.new ≡ shape.old) }
    ensures kept { Grown function.old function.new }
{
    let at = expr.at;
    match &expr.form {
        Form::Number(value) => act(function, at, Instr::PushInt(*value)),
        Form::Text(pieces) => write_pieces(alloc, function, at, scope, pieces.as_slice()),
        Form::Bool(value) => act(function, at, Instr::PushBool(*value)),
        Form::Name(name) => act(function, at, load(scope, name)),
        Form::Call(name, arguments) => {
            write_all(alloc, scope, arguments.as_slice(), shape, function)?;
            act(function, at, Instr::Call(function_number(scope, name)))
        }
        Form::Group(inner) => write_expr(alloc, scope, inner.get(), shape, function),
        Form::List(items) => {
            write_all(alloc, scope, items.as_slice(), shape, function)?;
            make_list(alloc, function, at, &expr.ty, items.as_slice())
        }
        Form::Map(pairs) => {
            write_pairs(alloc, scope, pairs.as_slice(), shape, function)?;
            make_map(alloc, function, at, &expr.ty, pairs.as_slice())
        }
        Form::Item(list, index) => {
            write_two(alloc, scope, list.get(), index.get(), shape, function)?;
            act(function, at, Instr::Item)
        }
        Form::Key(map, key) => {
            write_two(alloc, scope, map.get(), key.get(), shape, function)?;
            act(function, at, Instr::Key)
        }
        Form::Method(receiver, name, arguments) => {
            write_method(
                alloc,
                scope,
                at,
                receiver.get(),
                name,
                arguments.as_slice(),
                shape,
                function,
            )
        }
        Form::Prefix(op, inner) => {
            write_expr(alloc, scope, inner.get(), shape, function)?;
            act(function, at, sign_of(*op))
        }
        Form::Binary(left, op, right) => {
            write_binary(
                alloc,
                scope,
                at,
                left.get(),
                *op,
                right.get(),
                shape,
                function,
            )
        }
        Form::Choice(condition, yes, no) => {
            write_choice(
                alloc,
                scope,
                expr,
                condition.get(),
                yes.get(),
                no.get(),
                shape,
                function,
            )
        }
        Form::Dependency(outs, ins) => {
            write_dependency(alloc, scope, at, outs.get(), ins.get(), shape, function)
        }
    }
}

/// Operands behind each other.
#[cycle(code)]
#[tactic(auto, using(crate::proofs::Operands::writing_rules))]
pub fn write_all(
    alloc: Global,
    scope: &Scope,
    exprs: &[Expr],
    shape: &mut Shape,
    function: &mut Function,
) -> Result<(), NoMemory>
    ensures code { OnOk result (function.new ≡ gen_all (trees_of exprs.now) scope.now shape.old function.old) }
    ensures shape { OnOk result (shape.new ≡ shape.old) }
    ensures kept { Grown function.old function.new }
{
    let before = shape.len();
    for expr in exprs {
        write_expr(alloc, scope, expr, shape, function)?;
        push_ty(alloc, shape, &expr.ty)?;
    }
    forget(shape, before);
    Ok(())
}

/// Keys and values behind each other.
#[cycle(code)]
#[tactic(auto, using(crate::proofs::Operands::writing_rules))]
fn write_pairs(
    alloc: Global,
    scope: &Scope,
    pairs: &[(Expr, Expr)],
    shape: &mut Shape,
    function: &mut Function,
) -> Result<(), NoMemory>
    ensures code { OnOk result (function.new ≡ gen_pairs (pairs_of pairs.now) scope.now shape.old function.old) }
    ensures shape { OnOk result (shape.new ≡ shape.old) }
    ensures kept { Grown function.old function.new }
{
    let before = shape.len();
    for pair in pairs {
        write_expr(alloc, scope, &pair.0, shape, function)?;
        push_ty(alloc, shape, &Ty::Text)?;
        write_expr(alloc, scope, &pair.1, shape, function)?;
        push_ty(alloc, shape, &pair.1.ty)?;
    }
    forget(shape, before);
    Ok(())
}

/// Two operands, the second behind the first.
#[cycle(code)]
#[tactic(auto, using(crate::proofs::Operands::writing_rules))]
pub fn write_two(
    alloc: Global,
    scope: &Scope,
    first: &Expr,
    second: &Expr,
    shape: &mut Shape,
    function: &mut Function,
) -> Result<(), NoMemory>
    ensures code { OnOk result (function.new ≡ gen (tree_of second.now) scope.now (shape.old ++ type_of (tree_of first.now) ∷ []) (gen (tree_of first.now) scope.now shape.old function.old)) }
    ensures shape { OnOk result (shape.new ≡ shape.old) }
    ensures kept { Grown function.old function.new }
{
    let before = shape.len();
    write_expr(alloc, scope, first, shape, function)?;
    push_ty(alloc, shape, &first.ty)?;
    write_expr(alloc, scope, second, shape, function)?;
    forget(shape, before);
    Ok(())
}

/// A method of a receiver.
#[cycle(code)]
#[tactic(auto, using(crate::proofs::Operands::writing_rules))]
fn write_method(
    alloc: Global,
    scope: &Scope,
    at: At,
    receiver: &Expr,
    name: &ByteText,
    arguments: &[Expr],
    shape: &mut Shape,
    function: &mut Function,
) -> Result<(), NoMemory>
    ensures code { OnOk result (function.new ≡ gen_form (method (tree_of receiver.now) name.now (trees_of arguments.now)) at types.Void scope.now shape.old function.old) }
    ensures shape { OnOk result (shape.new ≡ shape.old) }
    ensures kept { Grown function.old function.new }
{
    let before = shape.len();
    write_expr(alloc, scope, receiver, shape, function)?;
    push_ty(alloc, shape, &receiver.ty)?;
    write_all(alloc, scope, arguments, shape, function)?;
    forget(shape, before);
    write_call(function, at, method_of(receiver, name, arguments))
}

/// A file, or a list of files, as a list.
#[cycle(code)]
#[tactic(auto, using(crate::proofs::Operands::writing_rules))]
pub fn write_files(
    alloc: Global,
    scope: &Scope,
    at: At,
    expr: &Expr,
    shape: &mut Shape,
    function: &mut Function,
) -> Result<(), NoMemory>
    ensures code { OnOk result (function.new ≡ written (gen (tree_of expr.now) scope.now shape.old function.old) (listing at (type_of (tree_of expr.now)))) }
    ensures shape { OnOk result (shape.new ≡ shape.old) }
    ensures kept { Grown function.old function.new }
{
    write_expr(alloc, scope, expr, shape, function)?;
    write_listing(function, at, &expr.ty)
}

/// Whether outputs are out of date.
#[cycle(code)]
#[tactic(auto, using(crate::proofs::Operands::writing_rules))]
fn write_dependency(
    alloc: Global,
    scope: &Scope,
    at: At,
    outs: &Expr,
    ins: &Expr,
    shape: &mut Shape,
    function: &mut Function,
) -> Result<(), NoMemory>
    ensures code { OnOk result (function.new ≡ gen_form (dependency (tree_of outs.now) (tree_of ins.now)) at types.Void scope.now shape.old function.old) }
    ensures shape { OnOk result (shape.new ≡ shape.old) }
    ensures kept { Grown function.old function.new }
{
    let before = shape.len();
    write_files(alloc, scope, at, outs, shape, function)?;
    push_files(alloc, shape)?;
    write_files(alloc, scope, at, ins, shape, function)?;
    forget(shape, before);
    act(function, at, Instr::OutOfDate)
}

/// A list of files is one more operand.
fn push_files(alloc: Global, shape: &mut Shape) -> Result<(), NoMemory>
    ensures { OnOk result (shape.new ≡ shape.old ++ types.List types.Text ∷ []) }
{
    shape.push(alloc, Ty::List(Shared::of(alloc, Ty::Text)?))
}

fn count_of(exprs: &[Expr]) -> Result<u32, NoMemory>
    ensures { IfOk result (λ n. n ≡ tree_count (trees_of exprs.now)) }
{
    let count = counted(exprs.len())?;
    Ok(count)
}

fn count_of_pairs(pairs: &[(Expr, Expr)]) -> Result<u32, NoMemory>
    ensures { IfOk result (λ n. n ≡ pair_count (pairs_of pairs.now)) }
{
    let count = counted(pairs.len())?;
    Ok(count)
}

/// A list of these operands, of this type.
fn make_list(
    alloc: Global,
    function: &mut Function,
    at: At,
    ty: &Ty,
    items: &[Expr],
) -> Result<(), NoMemory>
    ensures code { OnOk result (function.new ≡ act function.old at (MakeList (or_void (list_item ty.now)) (tree_count (trees_of items.now)))) }
    ensures kept { Grown function.old function.new }
{
    let count = count_of(items)?;
    let item = list_part(alloc, ty)?;
    act(function, at, Instr::MakeList(item, count))
}

/// A map of these pairs of operands, of this type.
fn make_map(
    alloc: Global,
    function: &mut Function,
    at: At,
    ty: &Ty,
    pairs: &[(Expr, Expr)],
) -> Result<(), NoMemory>
    ensures code { OnOk result (function.new ≡ act function.old at (MakeMap (or_void (map_item ty.now)) (pair_count (pairs_of pairs.now)))) }
    ensures kept { Grown function.old function.new }
{
    let count = count_of_pairs(pairs)?;
    let value = map_part(alloc, ty)?;
    act(function, at, Instr::MakeMap(value, count))
}

/// The method of a receiver.
fn method_of(receiver: &Expr, name: &ByteText, arguments: &[Expr]) -> Option<Method>
    ensures { result ≡ signature_of (type_of (tree_of receiver.now)) name.now (tree_count (trees_of arguments.now)) }
{
    signature(&receiver.ty, name, arguments.len() as u64)
}
