//! The terms of expressions.
ghost use Rattle.std.specs.Prelude.{◌≡◌, ◌++◌, ◌∷◌, [], true, false, IfOk, map};
ghost use Rattle.bds_tree.specs.Tree as tree;
ghost use Rattle.bds_tree.specs.View.{tree_of, trees_of, pairs_of};
ghost use Rattle.bds_meaning.specs.OpeningExpressions as expressions;
ghost use Rattle.bds_meaning.specs.OpeningTexts as texts;
ghost use Rattle.bds_meaning.specs.Term as meaning;
ghost use Rattle.bds_source_terms.specs.Manners.{made_by};
ghost use Rattle.bds_source_exprs.specs.Operands.{terms_in, pair_in, pairs_in};
ghost use Rattle.bds_source_terms.specs.View.{term_of};
ghost use Rattle.bds_source_terms.specs.declared.operators.Manner.TheVariants as manner;
ghost use Rattle.bds_value.specs.declared.value.Value.TheVariants as value;

use crate::texts::{text_term, variable};
use bds_check_names::Names;
use bds_source_terms::{
    Action, Computation, Manner, Term, Terms, both, call, choose_of, computed, does, either, files,
    let_go, list_made, manner_of, map_made, method, method_of, operands, prefixed, shown, two,
    two_boxes,
};
use bds_tree::{BinaryOp, Expr, Form};
use bds_value::{At, Boxed, Listed, NoMemory, Value};
use std::alloc::Global;

/// The term of an expression under the names in force.
#[cycle(terms)]
#[tactic(auto, using(crate::proofs::OperandLists::operand_rules))]
pub fn expr_term(alloc: Global, names: &Names, expr: &Expr) -> Result<Term, NoMemory>
    ensures { IfOk result (λ t. term_of t ≡ expressions.term_of names.now (tree_of expr.now)) }
{
    let at = expr.at;
    match &expr.form {
        Form::Number(number) => Ok(Term::Constant(Value::Int(*number))),
        Form::Text(pieces) => text_term(alloc, names, at, pieces.as_slice()),
        Form::Bool(truth) => Ok(Term::Constant(Value::Bool(*truth))),
        Form::Name(name) => variable(alloc, names, name),
        Form::Call(name, arguments) => {
            match expr_terms(alloc, names, arguments.as_slice()) {
                Ok(operands) => call(alloc, name, at, operands),
                Err(fault) => Err(fault),
            }
        }
        Form::Group(inner) => expr_term(alloc, names, inner.get()),
        Form::List(items) => {
            match expr_terms(alloc, names, items.as_slice()) {
                Ok(operands) => list_made(alloc, &expr.ty, at, operands),
                Err(fault) => Err(fault),
            }
        }
        Form::Map(pairs) => {
            match pair_operands(alloc, names, pairs.as_slice()) {
                Ok(operands) => map_made(alloc, &expr.ty, at, operands),
                Err(fault) => Err(fault),
            }
        }
        Form::Item(list, index) => {
            match two_of(alloc, names, list.get(), index.get()) {
                Ok(operands) => computed(alloc, Computation::ItemTaken, at, operands),
                Err(fault) => Err(fault),
            }
        }
        Form::Key(map, key) => {
            match two_of(alloc, names, map.get(), key.get()) {
                Ok(operands) => computed(alloc, Computation::KeyTaken, at, operands),
                Err(fault) => Err(fault),
            }
        }
        Form::Method(receiver, name, arguments) => {
            match called_of(alloc, names, receiver.get(), arguments.as_slice()) {
                Ok(operands) => {
                    let named = method_of(receiver.get(), name, arguments.as_slice());
                    method(alloc, named, at, operands)
                }
                Err(fault) => Err(fault),
            }
        }
        Form::Prefix(op, inner) => {
            match expr_term(alloc, names, inner.get()) {
                Ok(inner) => prefixed(alloc, *op, at, inner),
                Err(fault) => Err(fault),
            }
        }
        Form::Binary(left, op, right) => {
            binary_of(alloc, names, at, left.get(), *op, right.get())
        }
        Form::Choice(condition, yes, no) => {
            choice_of(alloc, names, condition.get(), yes.get(), no.get())
        }
        Form::Dependency(outputs, inputs) => {
            match two_files(alloc, names, at, outputs.get(), inputs.get()) {
                Ok(operands) => does(alloc, Action::Compared, at, operands),
                Err(fault) => Err(fault),
            }
        }
    }
}

#[cycle(terms)]
fn two_of(alloc: Global, names: &Names, first: &Expr, second: &Expr) -> Result<Term, NoMemory>
    ensures { IfOk result (λ t. term_of t ≡ texts.two (expressions.term_of names.now (tree_of first.now)) (expressions.term_of names.now (tree_of second.now))) }
{
    match expr_term(alloc, names, first) {
        Ok(first) => {
            match expr_term(alloc, names, second) {
                Ok(second) => two(alloc, first, second),
                Err(fault) => {
                    let_go(first);
                    Err(fault)
                }
            }
        }
        Err(fault) => Err(fault),
    }
}

/// The text of the value of an expression, behind others.
#[cycle(terms)]
fn put_shown(
    alloc: Global,
    names: &Names,
    at: At,
    expr: &Expr,
    terms: &mut Terms,
) -> Result<(), NoMemory>
    ensures { IfOk result (λ _. map term_of terms.new ≡ map term_of terms.old ++ expressions.shown at (expressions.term_of names.now (tree_of expr.now)) ∷ []) }
{
    match expr_term(alloc, names, expr) {
        Ok(term) => match shown(alloc, at, term) {
            Ok(text) => terms.push(text),
            Err(fault) => Err(fault),
        },
        Err(fault) => Err(fault),
    }
}

#[cycle(terms)]
fn put_both_shown(
    alloc: Global,
    names: &Names,
    at: At,
    left: &Expr,
    right: &Expr,
    terms: &mut Terms,
) -> Result<(), NoMemory>
    ensures { IfOk result (λ _. map term_of terms.new ≡ map term_of terms.old ++ expressions.shown at (expressions.term_of names.now (tree_of left.now)) ∷ expressions.shown at (expressions.term_of names.now (tree_of right.now)) ∷ []) }
{
    put_shown(alloc, names, at, left, terms)?;
    put_shown(alloc, names, at, right, terms)
}

/// The texts of the values of two expressions, joined.
#[cycle(terms)]
fn joined_of(
    alloc: Global,
    names: &Names,
    at: At,
    left: &Expr,
    right: &Expr,
) -> Result<Term, NoMemory>
    ensures { IfOk result (λ t. term_of t ≡ made_by manner.Joined at (expressions.term_of names.now (tree_of left.now)) (expressions.term_of names.now (tree_of right.now))) }
{
    let mut texts = Listed::new(alloc);
    match put_both_shown(alloc, names, at, left, right, &mut texts) {
        Ok(()) => Ok(Term::Joined(at, texts)),
        Err(fault) => Err(fault),
    }
}

/// One operand, and another that is taken only where it decides.
#[cycle(terms)]
fn either_of(alloc: Global, names: &Names, left: &Expr, right: &Expr) -> Result<Term, NoMemory>
    ensures { IfOk result (λ t. term_of t ≡ meaning.Choose (expressions.term_of names.now (tree_of left.now)) (meaning.Constant (value.Bool true)) (expressions.term_of names.now (tree_of right.now))) }
{
    match expr_term(alloc, names, left) {
        Ok(left) => match expr_term(alloc, names, right) {
            Ok(right) => either(alloc, left, right),
            Err(fault) => {
                let_go(left);
                Err(fault)
            }
        },
        Err(fault) => Err(fault),
    }
}

#[cycle(terms)]
fn both_of(alloc: Global, names: &Names, left: &Expr, right: &Expr) -> Result<Term, NoMemory>
    ensures { IfOk result (λ t. term_of t ≡ meaning.Choose (expressions.term_of names.now (tree_of left.now)) (expressions.term_of names.now (tree_of right.now)) (meaning.Constant (value.Bool false))) }
{
    match expr_term(alloc, names, left) {
        Ok(left) => match expr_term(alloc, names, right) {
            Ok(right) => both(alloc, left, right),
            Err(fault) => {
                let_go(left);
                Err(fault)
            }
        },
        Err(fault) => Err(fault),
    }
}

/// What is made of two operands in this manner.
#[cycle(terms)]
fn made_of(
    alloc: Global,
    names: &Names,
    at: At,
    manner: Manner,
    left: &Expr,
    right: &Expr,
) -> Result<Term, NoMemory>
    ensures { IfOk result (λ t. term_of t ≡ made_by manner at (expressions.term_of names.now (tree_of left.now)) (expressions.term_of names.now (tree_of right.now))) }
{
    match manner {
        Manner::Either => either_of(alloc, names, left, right),
        Manner::Both => both_of(alloc, names, left, right),
        Manner::Operated(op) => match two_of(alloc, names, left, right) {
            Ok(operands) => computed(alloc, Computation::Operated(op), at, operands),
            Err(fault) => Err(fault),
        },
        Manner::Joined => joined_of(alloc, names, at, left, right),
    }
}

#[cycle(terms)]
#[tactic(auto, using(crate::proofs::OperandLists::operand_rules))]
fn binary_of(
    alloc: Global,
    names: &Names,
    at: At,
    left: &Expr,
    op: BinaryOp,
    right: &Expr,
) -> Result<Term, NoMemory>
    ensures { IfOk result (λ t. term_of t ≡ expressions.binary_term op (tree.type_of (tree_of left.now)) (tree.type_of (tree_of right.now)) at (expressions.term_of names.now (tree_of left.now)) (expressions.term_of names.now (tree_of right.now))) }
{
    let manner = manner_of(op, &left.ty, &right.ty);
    made_of(alloc, names, at, manner, left, right)
}

/// The terms of two expressions, in boxes.
#[cycle(terms)]
fn boxes_of(
    alloc: Global,
    names: &Names,
    first: &Expr,
    second: &Expr,
) -> Result<(Boxed<Term>, Boxed<Term>), NoMemory>
    ensures first { IfOk result (λ p. term_of p.0 ≡ expressions.term_of names.now (tree_of first.now)) }
    ensures second { IfOk result (λ p. term_of p.1 ≡ expressions.term_of names.now (tree_of second.now)) }
{
    match expr_term(alloc, names, first) {
        Ok(first) => match expr_term(alloc, names, second) {
            Ok(second) => two_boxes(alloc, first, second),
            Err(fault) => {
                let_go(first);
                Err(fault)
            }
        },
        Err(fault) => Err(fault),
    }
}

#[cycle(terms)]
fn choice_of(
    alloc: Global,
    names: &Names,
    condition: &Expr,
    yes: &Expr,
    no: &Expr,
) -> Result<Term, NoMemory>
    ensures { IfOk result (λ t. term_of t ≡ meaning.Choose (expressions.term_of names.now (tree_of condition.now)) (expressions.term_of names.now (tree_of yes.now)) (expressions.term_of names.now (tree_of no.now))) }
{
    match expr_term(alloc, names, condition) {
        Ok(condition) => match boxes_of(alloc, names, yes, no) {
            Ok((yes, no)) => choose_of(alloc, condition, yes, no),
            Err(fault) => {
                let_go(condition);
                Err(fault)
            }
        },
        Err(fault) => Err(fault),
    }
}

/// Files, of a file or a list of them, at the place that wants them.
#[cycle(terms)]
#[tactic(auto, using(crate::proofs::OperandLists::operand_rules))]
pub fn files_of(alloc: Global, names: &Names, at: At, expr: &Expr) -> Result<Term, NoMemory>
    ensures { IfOk result (λ t. term_of t ≡ expressions.files_term names.now at (tree_of expr.now)) }
{
    match expr_term(alloc, names, expr) {
        Ok(term) => files(alloc, &expr.ty, at, term),
        Err(fault) => Err(fault),
    }
}

/// The files of two expressions.
#[cycle(terms)]
fn two_files(
    alloc: Global,
    names: &Names,
    at: At,
    first: &Expr,
    second: &Expr,
) -> Result<Term, NoMemory>
    ensures { IfOk result (λ t. term_of t ≡ texts.two (expressions.files_term names.now at (tree_of first.now)) (expressions.files_term names.now at (tree_of second.now))) }
{
    match files_of(alloc, names, at, first) {
        Ok(first) => match files_of(alloc, names, at, second) {
            Ok(second) => two(alloc, first, second),
            Err(fault) => {
                let_go(first);
                Err(fault)
            }
        },
        Err(fault) => Err(fault),
    }
}

/// The term of an expression, behind others.
#[cycle(terms)]
fn put_term(alloc: Global, names: &Names, expr: &Expr, terms: &mut Terms) -> Result<(), NoMemory>
    ensures { IfOk result (λ _. map term_of terms.new ≡ map term_of terms.old ++ expressions.term_of names.now (tree_of expr.now) ∷ []) }
{
    match expr_term(alloc, names, expr) {
        Ok(term) => terms.push(term),
        Err(fault) => Err(fault),
    }
}

/// The terms of expressions, behind others.
#[cycle(terms)]
fn put_terms(
    alloc: Global,
    names: &Names,
    exprs: &[Expr],
    terms: &mut Terms,
) -> Result<(), NoMemory>
    ensures { IfOk result (λ _. map term_of terms.new ≡ map term_of terms.old ++ terms_in names.now exprs.now) }
{
    for expr in exprs {
        put_term(alloc, names, expr, terms)?;
    }
    Ok(())
}

/// The terms of a receiver and of arguments.
#[cycle(terms)]
fn put_called(
    alloc: Global,
    names: &Names,
    receiver: &Expr,
    arguments: &[Expr],
    terms: &mut Terms,
) -> Result<(), NoMemory>
    ensures { IfOk result (λ _. map term_of terms.new ≡ map term_of terms.old ++ expressions.term_of names.now (tree_of receiver.now) ∷ terms_in names.now arguments.now) }
{
    put_term(alloc, names, receiver, terms)?;
    put_terms(alloc, names, arguments, terms)
}

/// The terms of keys and values by turns, behind others.
#[cycle(terms)]
fn put_pairs(
    alloc: Global,
    names: &Names,
    pairs: &[(Expr, Expr)],
    terms: &mut Terms,
) -> Result<(), NoMemory>
    ensures { IfOk result (λ _. map term_of terms.new ≡ map term_of terms.old ++ pairs_in names.now pairs.now) }
{
    for pair in pairs {
        put_pair(alloc, names, &pair.0, &pair.1, terms)?;
    }
    Ok(())
}

#[cycle(terms)]
fn put_pair(
    alloc: Global,
    names: &Names,
    key: &Expr,
    value: &Expr,
    terms: &mut Terms,
) -> Result<(), NoMemory>
    ensures { IfOk result (λ _. map term_of terms.new ≡ map term_of terms.old ++ pair_in names.now key.now value.now) }
{
    put_term(alloc, names, key, terms)?;
    put_term(alloc, names, value, terms)
}

/// Operands, in their order.
#[cycle(terms)]
#[tactic(auto, using(crate::proofs::OperandLists::operand_rules))]
pub fn expr_terms(alloc: Global, names: &Names, exprs: &[Expr]) -> Result<Term, NoMemory>
    ensures { IfOk result (λ t. term_of t ≡ expressions.terms_of names.now (trees_of exprs.now)) }
{
    let mut terms = Listed::new(alloc);
    match put_terms(alloc, names, exprs, &mut terms) {
        Ok(()) => operands(alloc, terms),
        Err(fault) => Err(fault),
    }
}

/// A receiver, and arguments behind it.
#[cycle(terms)]
#[tactic(auto, using(crate::proofs::OperandLists::operand_rules))]
fn called_of(
    alloc: Global,
    names: &Names,
    receiver: &Expr,
    arguments: &[Expr],
) -> Result<Term, NoMemory>
    ensures { IfOk result (λ t. term_of t ≡ meaning.More (expressions.term_of names.now (tree_of receiver.now)) (expressions.terms_of names.now (trees_of arguments.now))) }
{
    let mut terms = Listed::new(alloc);
    match put_called(alloc, names, receiver, arguments, &mut terms) {
        Ok(()) => operands(alloc, terms),
        Err(fault) => Err(fault),
    }
}

/// Keys and values by turns.
#[cycle(terms)]
#[tactic(auto, using(crate::proofs::OperandLists::operand_rules))]
fn pair_operands(alloc: Global, names: &Names, pairs: &[(Expr, Expr)]) -> Result<Term, NoMemory>
    ensures { IfOk result (λ t. term_of t ≡ expressions.pairs_terms names.now (pairs_of pairs.now)) }
{
    let mut terms = Listed::new(alloc);
    match put_pairs(alloc, names, pairs, &mut terms) {
        Ok(()) => operands(alloc, terms),
        Err(fault) => Err(fault),
    }
}
