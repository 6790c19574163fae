//! The terms of blocks, loops and sequences, made of the terms of their parts.
ghost use Rattle.std.specs.Prelude.{◌≡◌, ◌∷◌, [], IfOk, map};
ghost use Rattle.std.specs.Option.{option_map};
ghost use Rattle.bds_tree.specs.View.{tree_of};
ghost use Rattle.bds_meaning.specs.OpeningStatements as statements;
ghost use Rattle.bds_meaning.specs.Term as meaning;
ghost use Rattle.bds_source_terms.specs.View.{term_of, then_of, branch_of, cases_of};

use bds_check_names::Names;
use bds_source_exprs::expr_term;
use bds_source_terms::{Branches, Term, Terms, let_go, two_boxes};
use bds_tree::Expr;
use bds_value::{At, Boxed, ByteText, Listed, NoMemory, Value};
use std::alloc::Global;

/// The condition of a `for`; one that is missing is true. Only want of memory refuses it.
pub fn test_term(alloc: Global, names: &Names, expr: &Option<Expr>) -> Result<Term, NoMemory>
    ensures { IfOk result (λ t. term_of t ≡ statements.test_term names.now (option_map tree_of expr.now)) }
{
    match expr {
        None => Ok(Term::Constant(Value::Bool(true))),
        Some(expr) => expr_term(alloc, names, expr),
    }
}

/// The label of a case; `default` has none. Only want of memory refuses it.
pub fn label_term(
    alloc: Global,
    names: &Names,
    label: &Option<Expr>,
) -> Result<Option<Term>, NoMemory>
    ensures { IfOk result (λ t. option_map term_of t ≡ statements.some_term names.now (option_map tree_of label.now)) }
{
    match label {
        None => Ok(None),
        Some(label) => match expr_term(alloc, names, label) {
            Ok(label) => Ok(Some(label)),
            Err(fault) => Err(fault),
        },
    }
}

/// A `switch`, of its value and its cases. Only want of memory refuses it.
pub fn switched(alloc: Global, value: Term, branches: Branches) -> Result<Term, NoMemory>
    ensures { IfOk result (λ t. term_of t ≡ meaning.Switch (term_of value) (cases_of (map branch_of branches))) }
{
    match Boxed::of(alloc, value) {
        Ok(value) => Ok(Term::Switch(value, branches)),
        Err(fault) => Err(fault),
    }
}

/// A block. Only want of memory refuses it.
pub fn block(alloc: Global, inner: Term) -> Result<Term, NoMemory>
    ensures { IfOk result (λ t. term_of t ≡ meaning.Block (term_of inner)) }
{
    match Boxed::of(alloc, inner) {
        Ok(inner) => Ok(Term::Block(inner)),
        Err(fault) => Err(fault),
    }
}

/// A loop, of its test and of the others in boxes. Only want of memory refuses it.
pub fn looped_in(
    alloc: Global,
    test: Term,
    body: Boxed<Term>,
    last: Boxed<Term>,
) -> Result<Term, NoMemory>
    ensures { IfOk result (λ t. term_of t ≡ meaning.While (term_of test) (term_of body) (term_of last)) }
{
    match Boxed::of(alloc, test) {
        Ok(test) => Ok(Term::While(test, body, last)),
        Err(fault) => Err(fault),
    }
}

/// A loop. Only want of memory refuses it.
pub fn looped(alloc: Global, test: Term, body: Term, last: Term) -> Result<Term, NoMemory>
    ensures { IfOk result (λ t. term_of t ≡ meaning.While (term_of test) (term_of body) (term_of last)) }
{
    match two_boxes(alloc, body, last) {
        Ok((body, last)) => looped_in(alloc, test, body, last),
        Err(fault) => {
            let_go(test);
            Err(fault)
        }
    }
}

/// A loop over a list. Only want of memory refuses it.
pub fn each(alloc: Global, name: ByteText, items: Term, body: Term) -> Result<Term, NoMemory>
    ensures { IfOk result (λ t. term_of t ≡ meaning.Each name (term_of items) (term_of body)) }
{
    match two_boxes(alloc, items, body) {
        Ok((items, body)) => Ok(Term::Each(name, items, body)),
        Err(fault) => Err(fault),
    }
}

/// Statements, and nothing behind them. Only want of memory refuses it.
pub fn sequence(alloc: Global, terms: Terms) -> Result<Term, NoMemory>
    ensures { IfOk result (λ t. term_of t ≡ then_of (map term_of terms) meaning.Nothing) }
{
    match Boxed::of(alloc, Term::Nothing) {
        Ok(nothing) => Ok(Term::Then(terms, nothing)),
        Err(fault) => Err(fault),
    }
}

/// One statement.
fn alone(alloc: Global, term: Term) -> Result<Terms, NoMemory>
    ensures { IfOk result (λ terms. terms ≡ term ∷ []) }
{
    let mut terms = Listed::new(alloc);
    terms.push(term)?;
    Ok(terms)
}

/// One statement behind another. Only want of memory refuses it.
pub fn followed(alloc: Global, first: Term, rest: Term) -> Result<Term, NoMemory>
    ensures { IfOk result (λ t. term_of t ≡ meaning.Then (term_of first) (term_of rest)) }
{
    match Boxed::of(alloc, rest) {
        Ok(rest) => match alone(alloc, first) {
            Ok(terms) => Ok(Term::Then(terms, rest)),
            Err(fault) => Err(fault),
        },
        Err(fault) => {
            let_go(first);
            Err(fault)
        }
    }
}

/// A block of a thread of its own. Only want of memory refuses it.
pub fn spawn_block(alloc: Global, at: At, inner: Term) -> Result<Term, NoMemory>
    ensures { IfOk result (λ t. term_of t ≡ meaning.SpawnBlock at (term_of inner)) }
{
    match Boxed::of(alloc, inner) {
        Ok(inner) => Ok(Term::SpawnBlock(at, inner)),
        Err(fault) => Err(fault),
    }
}

/// A `for`: its first part, and its turns. Only want of memory refuses it.
pub fn for_of(alloc: Global, start: Term, turns: Term) -> Result<Term, NoMemory>
    ensures { IfOk result (λ t. term_of t ≡ meaning.Block (meaning.Then (term_of start) (term_of turns))) }
{
    match followed(alloc, start, turns) {
        Ok(whole) => block(alloc, whole),
        Err(fault) => Err(fault),
    }
}
