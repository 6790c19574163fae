//! The type of an expression whose parts have theirs.
ghost use Rattle.std.specs.Prelude.{◌≡◌, IfOk, map};
ghost use Rattle.bds_tree.specs.Tree.{type_of};
ghost use Rattle.bds_tree.specs.View.{tree_of, form_tree_of, trees_of, pairs_of};
ghost use Rattle.bds_check_names.specs.Rows as rows;
ghost use Rattle.bds_check_rules.specs.Typing as typing;

use bds_check_names::{
    Asked, Names, common_ty, list_item, list_of, list_part, map_item, map_of, map_part, row_of,
    sum_ty, type_named,
};
use bds_tree::{BinaryOp, Expr, Form, PrefixOp};
use bds_value::{ByteText, NoMemory, Ty, copy_ty};
use std::alloc::Global;

/// The item type of the list that is asked for.
pub fn asked_list_item(alloc: Global, asked: &Asked) -> Result<Option<Ty>, NoMemory>
    ensures { IfOk result (λ item. item ≡ typing.asked_list_item asked.now) }
{
    match asked {
        Asked::This(ty) => list_item(alloc, ty),
        Asked::Whole => Ok(None),
        Asked::Value => Ok(None),
    }
}

/// The value type of the map that is asked for.
pub fn asked_map_item(alloc: Global, asked: &Asked) -> Result<Option<Ty>, NoMemory>
    ensures { IfOk result (λ item. item ≡ typing.asked_map_item asked.now) }
{
    match asked {
        Asked::This(ty) => map_item(alloc, ty),
        Asked::Whole => Ok(None),
        Asked::Value => Ok(None),
    }
}

fn first_type(alloc: Global, items: &[Expr]) -> Result<Ty, NoMemory>
    ensures { IfOk result (λ ty. ty ≡ typing.first_type (trees_of items.now)) }
{
    match items {
        [] => Ok(Ty::Void),
        [first, ..] => copy_ty(alloc, &first.ty),
    }
}

fn first_value_type(alloc: Global, pairs: &[(Expr, Expr)]) -> Result<Ty, NoMemory>
    ensures { IfOk result (λ ty. ty ≡ typing.first_value_type (pairs_of pairs.now)) }
{
    match pairs {
        [] => Ok(Ty::Void),
        [first, ..] => copy_ty(alloc, &first.1.ty),
    }
}

/// The type of the items of a list literal.
pub fn list_literal_item(alloc: Global, asked: &Asked, items: &[Expr]) -> Result<Ty, NoMemory>
    ensures { IfOk result (λ ty. ty ≡ typing.item_type (typing.asked_list_item asked.now) (typing.first_type (trees_of items.now))) }
{
    match asked_list_item(alloc, asked)? {
        Some(item) => Ok(item),
        None => first_type(alloc, items),
    }
}

/// The type of the values of a map literal.
pub fn map_literal_item(
    alloc: Global,
    asked: &Asked,
    pairs: &[(Expr, Expr)],
) -> Result<Ty, NoMemory>
    ensures { IfOk result (λ ty. ty ≡ typing.item_type (typing.asked_map_item asked.now) (typing.first_value_type (pairs_of pairs.now))) }
{
    match asked_map_item(alloc, asked)? {
        Some(item) => Ok(item),
        None => first_value_type(alloc, pairs),
    }
}

fn prefix_type(op: PrefixOp) -> Ty
    ensures { result ≡ typing.prefix_type op }
{
    match op {
        PrefixOp::Neg => Ty::Int,
        PrefixOp::Not => Ty::Bool,
    }
}

fn binary_type(alloc: Global, op: BinaryOp, a: &Ty, b: &Ty) -> Result<Ty, NoMemory>
    ensures { IfOk result (λ ty. ty ≡ typing.binary_type op a.now b.now) }
{
    match op {
        BinaryOp::Add => sum_ty(alloc, a, b),
        BinaryOp::Sub | BinaryOp::Mul | BinaryOp::Div | BinaryOp::Rem => Ok(Ty::Int),
        _ => Ok(Ty::Bool),
    }
}

/// What a method gives by its name and arguments behind a receiver.
fn method_type(
    alloc: Global,
    receiver: &Expr,
    name: &ByteText,
    arguments: &[Expr],
) -> Result<Ty, NoMemory>
    ensures { IfOk result (λ ty. ty ≡ typing.given_by (rows.row_of (type_of (tree_of receiver.now)) name.now (typing.count (trees_of arguments.now)))) }
{
    match row_of(alloc, &receiver.ty, name, arguments.len())? {
        Some(row) => Ok(row.gives),
        None => Ok(Ty::Void),
    }
}

/// The type of an expression whose parts have their types.
pub fn type_of_form(
    alloc: Global,
    names: &Names,
    asked: &Asked,
    form: &Form,
) -> Result<Ty, NoMemory>
    ensures { IfOk result (λ ty. ty ≡ typing.type_at names.now asked.now (form_tree_of form.now)) }
{
    match form {
        Form::Number(_) => Ok(Ty::Int),
        Form::Text(_) => Ok(Ty::Text),
        Form::Bool(_) => Ok(Ty::Bool),
        Form::Name(name) => type_named(alloc, names, name),
        Form::Call(name, _) => match names.functions.named(name) {
            Some(head) => copy_ty(alloc, &head.result),
            None => Ok(Ty::Void),
        },
        Form::Group(expr) => copy_ty(alloc, &expr.get().ty),
        Form::List(items) => list_of(alloc, list_literal_item(alloc, asked, items.as_slice())?),
        Form::Map(pairs) => map_of(alloc, map_literal_item(alloc, asked, pairs.as_slice())?),
        Form::Item(list, _) => list_part(alloc, &list.get().ty),
        Form::Key(map, _) => map_part(alloc, &map.get().ty),
        Form::Method(receiver, name, arguments) => {
            method_type(alloc, receiver.get(), name, arguments.as_slice())
        }
        Form::Prefix(op, _) => Ok(prefix_type(*op)),
        Form::Binary(a, op, b) => binary_type(alloc, *op, &a.get().ty, &b.get().ty),
        Form::Choice(_, a, b) => common_ty(alloc, &a.get().ty, &b.get().ty),
        Form::Dependency(_, _) => Ok(Ty::Bool),
    }
}
