//! The terms of calls that stand alone, of which methods may change their receiver.
ghost use Rattle.std.specs.Prelude.{◌≡◌, ◌++◌, ◌∷◌, IfOk, List, ℕ, [], map};
ghost use Rattle.bds_tree.specs.View.{tree_of, trees_of};
ghost use Rattle.bds_meaning.specs.OpeningExpressions as expressions;
ghost use Rattle.bds_meaning.specs.OpeningPlaces as places;
ghost use Rattle.bds_meaning.specs.Term as meaning;
ghost use Rattle.bds_source_places.specs.Parts.{changed_part};
ghost use Rattle.bds_source_terms.specs.View.{term_of, into_of, more_of};
ghost use Rattle.bds_value.specs.declared.value.At.{At as Spot};

use crate::updates::{Part, update};
use bds_check_names::Names;
use bds_source_exprs::{expr_term, expr_terms, scope_of};
use bds_source_terms::{Change, Term, Terms, Way, Ways, let_go, method_of};
use bds_tree::{Expr, Form};
use bds_value::{At, ByteText, Listed, Method, NoMemory, copy_text};
use std::alloc::Global;

/// The variable of a place that is written as an expression.
fn root_of(alloc: Global, expr: &Expr) -> Result<ByteText, NoMemory>
    ensures { IfOk result (λ x. x ≡ places.root_of (tree_of expr.now)) }
{
    match &expr.form {
        Form::Name(name) => copy_text(alloc, name),
        Form::Item(list, _) => root_of(alloc, list.get()),
        Form::Key(map, _) => root_of(alloc, map.get()),
        Form::Number(_)
        | Form::Text(_)
        | Form::Bool(_)
        | Form::Call(_, _)
        | Form::Group(_)
        | Form::List(_)
        | Form::Map(_)
        | Form::Method(_, _, _)
        | Form::Prefix(_, _)
        | Form::Binary(_, _, _)
        | Form::Choice(_, _, _)
        | Form::Dependency(_, _) => Ok(Listed::new(alloc)),
    }
}

fn put_way(ways: &mut Ways, way: Way) -> Result<(), NoMemory>
    ensures { IfOk result (λ _. (rest : List meaning.Into) → map into_of ways.new ++ rest ≡ map into_of ways.old ++ into_of way ∷ rest) }
{
    ways.push(way)
}

/// The steps to the part, behind others.
fn put_ways(expr: &Expr, ways: &mut Ways) -> Result<(), NoMemory>
    ensures { IfOk result (λ _. (rest : List meaning.Into) → map into_of ways.new ++ rest ≡ map into_of ways.old ++ places.intos_of (tree_of expr.now) rest) }
{
    match &expr.form {
        Form::Item(list, _) => match put_ways(list.get(), ways) {
            Ok(()) => put_way(ways, Way::ByIndex),
            Err(fault) => Err(fault),
        },
        Form::Key(map, _) => match put_ways(map.get(), ways) {
            Ok(()) => put_way(ways, Way::ByKey),
            Err(fault) => Err(fault),
        },
        Form::Name(_)
        | Form::Number(_)
        | Form::Text(_)
        | Form::Bool(_)
        | Form::Call(_, _)
        | Form::Group(_)
        | Form::List(_)
        | Form::Map(_)
        | Form::Method(_, _, _)
        | Form::Prefix(_, _)
        | Form::Binary(_, _, _)
        | Form::Choice(_, _, _)
        | Form::Dependency(_, _) => Ok(()),
    }
}

fn put_step(alloc: Global, names: &Names, expr: &Expr, terms: &mut Terms) -> Result<(), NoMemory>
    ensures { IfOk result (λ _. (rest : meaning.Term) → more_of (map term_of terms.new) rest ≡ more_of (map term_of terms.old) (meaning.More (expressions.term_of names.now (tree_of expr.now)) rest)) }
{
    match expr_term(alloc, names, expr) {
        Ok(term) => terms.push(term),
        Err(fault) => Err(fault),
    }
}

/// The terms of the steps, behind others.
fn put_steps(alloc: Global, names: &Names, expr: &Expr, terms: &mut Terms) -> Result<(), NoMemory>
    ensures { IfOk result (λ _. (rest : meaning.Term) → more_of (map term_of terms.new) rest ≡ more_of (map term_of terms.old) (places.steps_of names.now (tree_of expr.now) rest)) }
{
    match &expr.form {
        Form::Item(list, index) => match put_steps(alloc, names, list.get(), terms) {
            Ok(()) => put_step(alloc, names, index.get(), terms),
            Err(fault) => Err(fault),
        },
        Form::Key(map, key) => match put_steps(alloc, names, map.get(), terms) {
            Ok(()) => put_step(alloc, names, key.get(), terms),
            Err(fault) => Err(fault),
        },
        Form::Name(_)
        | Form::Number(_)
        | Form::Text(_)
        | Form::Bool(_)
        | Form::Call(_, _)
        | Form::Group(_)
        | Form::List(_)
        | Form::Map(_)
        | Form::Method(_, _, _)
        | Form::Prefix(_, _)
        | Form::Binary(_, _, _)
        | Form::Choice(_, _, _)
        | Form::Dependency(_, _) => Ok(()),
    }
}

fn ways_of(alloc: Global, expr: &Expr) -> Result<Ways, NoMemory>
    ensures { IfOk result (λ ways. map into_of ways ≡ places.intos_of (tree_of expr.now) []) }
{
    let mut ways = Listed::new(alloc);
    match put_ways(expr, &mut ways) {
        Ok(()) => Ok(ways),
        Err(fault) => Err(fault),
    }
}

/// The terms of the steps.
fn steps_of(alloc: Global, names: &Names, expr: &Expr) -> Result<Terms, NoMemory>
    ensures { IfOk result (λ steps. (rest : meaning.Term) → more_of (map term_of steps) rest ≡ places.steps_of names.now (tree_of expr.now) rest) }
{
    let mut steps = Listed::new(alloc);
    match put_steps(alloc, names, expr, &mut steps) {
        Ok(()) => Ok(steps),
        Err(fault) => Err(fault),
    }
}

/// The part that an expression names.
fn part_of(alloc: Global, names: &Names, place: &Expr) -> Result<Part, NoMemory>
    ensures { IfOk result (λ p. (at : Spot) → (number : ℕ) → (rest : meaning.Term) → changed_part p at (meaning.Mutated number) rest ≡ places.mutated names.now at (tree_of place.now) number rest) }
{
    match root_of(alloc, place) {
        Ok(name) => match ways_of(alloc, place) {
            Ok(ways) => {
                let scope = scope_of(names, &name);
                match steps_of(alloc, names, place) {
                    Ok(steps) => Ok(Part {
                        scope,
                        name,
                        ways,
                        steps,
                    }),
                    Err(fault) => Err(fault),
                }
            }
            Err(fault) => Err(fault),
        },
        Err(fault) => Err(fault),
    }
}

/// A method by its number changes the part.
fn mutated(
    alloc: Global,
    names: &Names,
    at: At,
    place: &Expr,
    number: u8,
    arguments: &[Expr],
) -> Result<Term, NoMemory>
    ensures { IfOk result (λ t. term_of t ≡ places.mutated names.now at (tree_of place.now) number (expressions.terms_of names.now (trees_of arguments.now))) }
{
    match expr_terms(alloc, names, arguments) {
        Ok(arguments) => match part_of(alloc, names, place) {
            Ok(part) => update(alloc, at, part, Change::Mutated(number), arguments),
            Err(fault) => {
                let_go(arguments);
                Err(fault)
            }
        },
        Err(fault) => Err(fault),
    }
}

/// A call that stands alone; a change has the place of its statement. It fails where memory runs out.
pub fn call_term(alloc: Global, names: &Names, at: At, expr: &Expr) -> Result<Term, NoMemory>
    ensures { IfOk result (λ t. term_of t ≡ places.call_term names.now at (tree_of expr.now)) }
{
    match &expr.form {
        Form::Method(receiver, name, arguments) => {
            match method_of(receiver.get(), name, arguments.as_slice()) {
                Some(Method::Change(number)) => {
                    mutated(
                        alloc,
                        names,
                        at,
                        receiver.get(),
                        number,
                        arguments.as_slice(),
                    )
                }
                Some(Method::Plain(_)) | Some(Method::File(_)) | None => {
                    expr_term(alloc, names, expr)
                }
            }
        }
        Form::Name(_)
        | Form::Item(_, _)
        | Form::Key(_, _)
        | Form::Number(_)
        | Form::Text(_)
        | Form::Bool(_)
        | Form::Call(_, _)
        | Form::Group(_)
        | Form::List(_)
        | Form::Map(_)
        | Form::Prefix(_, _)
        | Form::Binary(_, _, _)
        | Form::Choice(_, _, _)
        | Form::Dependency(_, _) => expr_term(alloc, names, expr),
    }
}
