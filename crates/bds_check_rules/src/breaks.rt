//! The rules that an expression breaks.
ghost use Rattle.std.specs.Prelude.{◌≡◌, IfOk, Some, None};
ghost use Rattle.bds_tree.specs.Tree.{type_of};
ghost use Rattle.bds_tree.specs.View.{tree_of, form_tree_of, trees_of, pairs_of};
ghost use Rattle.bds_check_names.specs.Rows.{row_of};
ghost use Rattle.bds_check_rules.specs.Typing as typing;
ghost use Rattle.bds_value.specs.declared.value.Ty.TheVariants as Ty;
ghost use Rattle.bds_value.specs.Types.{list_item, map_item, is_plain, is_ordered};
ghost use Rattle.bds_check_rules.specs.declared.rules.Rule.TheVariants as Rule;
ghost use Rattle.bds_check_rules.specs.Breaks as breaks;
ghost use Rattle.bds_check_rules.specs.Pieces.{when};
ghost use Rattle.bds_check_names.specs.Scopes.{function_named};

use crate::pieces::text_rule;
use crate::rules::Rule;
use crate::typing::{list_literal_item, map_literal_item};
use bds_check_names::{
    Asked, Head, Names, Row, differ, is_known, is_list, is_map, is_missing, is_value, lacks_files,
    row_of, sum_ty,
};
use bds_tree::{BinaryOp, Expr, Form, PrefixOp};
use bds_value::{ByteText, MAX_NESTING, NoMemory, Ty, is_ordered, is_plain, nests_deeper};
use std::alloc::Global;

fn is_open_list(asked: &Asked) -> bool
    ensures { result ≡ breaks.is_open_under asked.now (typing.asked_list_item asked.now) }
{
    match asked {
        Asked::This(Ty::List(_)) => false,
        Asked::This(ty) => is_known(ty),
        Asked::Whole => true,
        Asked::Value => true,
    }
}

fn is_open_map(asked: &Asked) -> bool
    ensures { result ≡ breaks.is_open_under asked.now (typing.asked_map_item asked.now) }
{
    match asked {
        Asked::This(Ty::Map(_)) => false,
        Asked::This(ty) => is_known(ty),
        Asked::Whole => true,
        Asked::Value => true,
    }
}

fn any_differs(ty: &Ty, items: &[Expr]) -> bool
    ensures { result ≡ breaks.any_differs ty.now (trees_of items.now) }
{
    for item in items {
        if differ(ty, &item.ty) {
            return true;
        }
    }
    false
}

fn any_pair_differs(ty: &Ty, pairs: &[(Expr, Expr)]) -> bool
    ensures { result ≡ breaks.any_pair_differs ty.now (pairs_of pairs.now) }
{
    for pair in pairs {
        if differ(&Ty::Text, &pair.0.ty) || differ(ty, &pair.1.ty) {
            return true;
        }
    }
    false
}

fn any_argument_differs(types: &[Ty], arguments: &[Expr]) -> bool
    ensures { result ≡ breaks.any_argument_differs types.now (trees_of arguments.now) }
{
    for (i, ty) in types.iter().enumerate() {
        if i >= arguments.len() {
            return false;
        }
        if differ(ty, &arguments[i].ty) {
            return true;
        }
    }
    false
}

/// A variable, or a part of a place.
fn is_place(expr: &Expr) -> bool
    ensures { result ≡ breaks.is_place (tree_of expr.now) }
{
    match &expr.form {
        Form::Name(_) => true,
        Form::Item(list, _) => is_place(list.get()),
        Form::Key(map, _) => is_place(map.get()),
        _ => false,
    }
}

fn wrong_if(is_wrong: bool) -> Option<Rule>
    ensures { result ≡ when is_wrong Rule.WrongType None }
{
    if is_wrong {
        Some(Rule::WrongType)
    } else {
        None
    }
}

fn open_if(is_open: bool) -> Option<Rule>
    ensures { result ≡ when is_open Rule.OpenLiteral None }
{
    if is_open {
        Some(Rule::OpenLiteral)
    } else {
        None
    }
}

fn name_rule(names: &Names, name: &ByteText) -> Option<Rule>
    ensures { result ≡ breaks.name_rule names.now name.now }
{
    if is_missing(names, name) {
        Some(Rule::UnknownName)
    } else {
        None
    }
}

#[tactic(auto, using(crate::proofs::Literals::list_rule_some))]
fn list_rule(alloc: Global, asked: &Asked, items: &[Expr]) -> Result<Option<Rule>, NoMemory>
    ensures { IfOk result (λ rule. rule ≡ breaks.list_rule asked.now (trees_of items.now)) }
{
    match items {
        [] => Ok(open_if(is_open_list(asked))),
        [_, ..] => {
            let item = list_literal_item(alloc, asked, items)?;
            Ok(wrong_if(any_differs(&item, items)))
        }
    }
}

#[tactic(auto, using(crate::proofs::Literals::map_rule_some))]
fn map_rule(alloc: Global, asked: &Asked, pairs: &[(Expr, Expr)]) -> Result<Option<Rule>, NoMemory>
    ensures { IfOk result (λ rule. rule ≡ breaks.map_rule asked.now (pairs_of pairs.now)) }
{
    match pairs {
        [] => Ok(open_if(is_open_map(asked))),
        [_, ..] => {
            let item = map_literal_item(alloc, asked, pairs)?;
            Ok(wrong_if(any_pair_differs(&item, pairs)))
        }
    }
}

/// Of arguments behind the name of a function that is there; `is_void_wrong` where its result is
/// needed.
#[tactic(auto, using(crate::proofs::Counting::count_trees))]
fn head_rule(is_void_wrong: bool, head: &Head, arguments: &[Expr]) -> Option<Rule>
    ensures { result ≡ breaks.call_rule is_void_wrong (Some head.now) (trees_of arguments.now) }
{
    if any_argument_differs(head.parameters.as_slice(), arguments) {
        Some(Rule::WrongType)
    } else if head.parameters.len() != arguments.len() {
        Some(Rule::WrongCount)
    } else if is_void_wrong && !is_known(&head.result) {
        Some(Rule::VoidValue)
    } else {
        None
    }
}

/// The least rule that arguments behind a name break.
pub fn call_rule(
    names: &Names,
    is_void_wrong: bool,
    name: &ByteText,
    arguments: &[Expr],
) -> Option<Rule>
    ensures { result ≡ breaks.call_rule is_void_wrong (function_named name.now names.now.functions) (trees_of arguments.now) }
{
    match names.functions.named(name) {
        Some(head) => head_rule(is_void_wrong, head, arguments),
        None => Some(Rule::UnknownFunction),
    }
}

fn method_rule(
    asked: &Asked,
    receiver: &Expr,
    row: &Option<Row>,
    arguments: &[Expr],
) -> Option<Rule>
    ensures { result ≡ breaks.method_rule asked.now (tree_of receiver.now) row.now (trees_of arguments.now) }
{
    match row {
        None => if is_known(&receiver.ty) {
            Some(Rule::UnknownMethod)
        } else {
            None
        },
        Some(row) => row_rule(asked, receiver, row, arguments),
    }
}

fn row_rule(asked: &Asked, receiver: &Expr, row: &Row, arguments: &[Expr]) -> Option<Rule>
    ensures { result ≡ breaks.method_rule asked.now (tree_of receiver.now) (Some row.now) (trees_of arguments.now) }
{
    if any_argument_differs(row.takes.as_slice(), arguments) {
        Some(Rule::WrongType)
    } else if is_value(asked) && !row.changes && !is_known(&row.gives) {
        Some(Rule::VoidValue)
    } else if row.changes && !is_place(receiver) {
        Some(Rule::NotPlace)
    } else if row.changes && is_value(asked) {
        Some(Rule::MutatorValue)
    } else {
        None
    }
}

/// Of a method's name and arguments behind a receiver.
fn method_call_rule(
    alloc: Global,
    asked: &Asked,
    receiver: &Expr,
    name: &ByteText,
    arguments: &[Expr],
) -> Result<Option<Rule>, NoMemory>
    ensures { IfOk result (λ rule. rule ≡ breaks.method_rule asked.now (tree_of receiver.now) (row_of (type_of (tree_of receiver.now)) name.now (typing.count (trees_of arguments.now))) (trees_of arguments.now)) }
{
    let row = row_of(alloc, &receiver.ty, name, arguments.len())?;
    Ok(method_rule(asked, receiver, &row, arguments))
}

/// Of an index behind something.
fn item_rule(list: &Ty, index: &Ty) -> Option<Rule>
    ensures { result ≡ breaks.part_rule Ty.Int list.now (list_item list.now) index.now }
{
    if differ(&Ty::Int, index) {
        Some(Rule::WrongType)
    } else if is_known(list) && !is_list(list) {
        Some(Rule::BadItem)
    } else {
        None
    }
}

/// Of a key behind something.
fn key_rule(map: &Ty, key: &Ty) -> Option<Rule>
    ensures { result ≡ breaks.part_rule Ty.Text map.now (map_item map.now) key.now }
{
    if differ(&Ty::Text, key) {
        Some(Rule::WrongType)
    } else if is_known(map) && !is_map(map) {
        Some(Rule::BadItem)
    } else {
        None
    }
}

fn prefix_rule(op: PrefixOp, ty: &Ty) -> Option<Rule>
    ensures { result ≡ breaks.prefix_rule op ty.now }
{
    match op {
        PrefixOp::Neg => wrong_if(differ(&Ty::Int, ty)),
        PrefixOp::Not => wrong_if(differ(&Ty::Bool, ty)),
    }
}

/// Both have this type.
fn both_rule(ty: &Ty, a: &Ty, b: &Ty) -> Option<Rule>
    ensures { result ≡ breaks.both_rule ty.now a.now b.now }
{
    wrong_if(differ(ty, a) || differ(ty, b))
}

fn sum_rule(alloc: Global, a: &Ty, b: &Ty) -> Result<Option<Rule>, NoMemory>
    ensures { IfOk result (λ rule. rule ≡ breaks.sum_rule a.now b.now) }
{
    let sum = sum_ty(alloc, a, b)?;
    Ok(wrong_if(is_known(a) && is_known(b) && !is_known(&sum)))
}

/// Both have one type that `==` compares.
fn equal_rule(a: &Ty, b: &Ty) -> Option<Rule>
    ensures { result ≡ breaks.compared_rule is_plain a.now b.now }
{
    wrong_if(is_known(a) && !is_plain(a) || (is_known(b) && !is_plain(b) || differ(a, b)))
}

/// Both have one type that `<` compares.
fn order_rule(a: &Ty, b: &Ty) -> Option<Rule>
    ensures { result ≡ breaks.compared_rule is_ordered a.now b.now }
{
    wrong_if(is_known(a) && !is_ordered(a) || (is_known(b) && !is_ordered(b) || differ(a, b)))
}

fn binary_rule(alloc: Global, op: BinaryOp, a: &Ty, b: &Ty) -> Result<Option<Rule>, NoMemory>
    ensures { IfOk result (λ rule. rule ≡ breaks.binary_rule op a.now b.now) }
{
    match op {
        BinaryOp::Or | BinaryOp::And => Ok(both_rule(&Ty::Bool, a, b)),
        BinaryOp::Equal | BinaryOp::NotEqual => Ok(equal_rule(a, b)),
        BinaryOp::Less | BinaryOp::AtMost | BinaryOp::Greater | BinaryOp::AtLeast => {
            Ok(order_rule(a, b))
        }
        BinaryOp::Add => sum_rule(alloc, a, b),
        BinaryOp::Sub | BinaryOp::Mul | BinaryOp::Div | BinaryOp::Rem => {
            Ok(both_rule(&Ty::Int, a, b))
        }
    }
}

fn choice_rule(condition: &Ty, a: &Ty, b: &Ty) -> Option<Rule>
    ensures { result ≡ breaks.choice_rule condition.now a.now b.now }
{
    wrong_if(differ(&Ty::Bool, condition) || differ(a, b))
}

/// It isn't a file or a list of files.
pub fn files_rule(ty: &Ty) -> Option<Rule>
    ensures { result ≡ breaks.files_rule ty.now }
{
    wrong_if(lacks_files(ty))
}

fn dependency_rule(a: &Ty, b: &Ty) -> Option<Rule>
    ensures { result ≡ breaks.dependency_rule a.now b.now }
{
    wrong_if(lacks_files(a) || lacks_files(b))
}

/// The least rule but `DeepType` that an expression breaks whose parts have their types.
pub fn rule_of_form(
    alloc: Global,
    names: &Names,
    asked: &Asked,
    form: &Form,
) -> Result<Option<Rule>, NoMemory>
    ensures { IfOk result (λ rule. rule ≡ breaks.rule_at names.now asked.now (form_tree_of form.now)) }
{
    match form {
        Form::Number(_) => Ok(None),
        Form::Text(pieces) => Ok(text_rule(names, pieces.as_slice())),
        Form::Bool(_) => Ok(None),
        Form::Name(name) => Ok(name_rule(names, name)),
        Form::Call(name, arguments) => {
            Ok(call_rule(names, is_value(asked), name, arguments.as_slice()))
        }
        Form::Group(_) => Ok(None),
        Form::List(items) => list_rule(alloc, asked, items.as_slice()),
        Form::Map(pairs) => map_rule(alloc, asked, pairs.as_slice()),
        Form::Item(list, index) => Ok(item_rule(&list.get().ty, &index.get().ty)),
        Form::Key(map, key) => Ok(key_rule(&map.get().ty, &key.get().ty)),
        Form::Method(receiver, name, arguments) => {
            method_call_rule(alloc, asked, receiver.get(), name, arguments.as_slice())
        }
        Form::Prefix(op, a) => Ok(prefix_rule(*op, &a.get().ty)),
        Form::Binary(a, op, b) => binary_rule(alloc, *op, &a.get().ty, &b.get().ty),
        Form::Choice(condition, a, b) => {
            Ok(choice_rule(&condition.get().ty, &a.get().ty, &b.get().ty))
        }
        Form::Dependency(a, b) => Ok(dependency_rule(&a.get().ty, &b.get().ty)),
    }
}

/// And `DeepType` where it breaks no other.
pub fn or_deep(rule: Option<Rule>, ty: &Ty) -> Option<Rule>
    ensures { result ≡ breaks.or_deep rule ty.now }
{
    match rule {
        Some(rule) => Some(rule),
        None => if nests_deeper(ty, MAX_NESTING) {
            Some(Rule::DeepType)
        } else {
            None
        },
    }
}
