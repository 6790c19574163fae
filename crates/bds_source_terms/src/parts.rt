//! Operands, and texts of parts.
ghost use Rattle.std.specs.Prelude.{◌≡◌, ◌∷◌, [], IfOk, map};
ghost use Rattle.bds_meaning.specs.OpeningTexts as texts;
ghost use Rattle.bds_meaning.specs.Term as meaning;
ghost use Rattle.bds_source_terms.specs.View.{term_of, more_of, computation_of, action_of};

use crate::term::{Action, Computation, Term, Terms};
use bds_value::{At, Boxed, Listed, NoMemory};
use std::alloc::Global;

/// Lets a term go. Where a function lets one go by itself, the build writes what each of its forms needs into that function.
pub fn let_go(_term: Term) {}

/// Two terms in their order.
fn pair(alloc: Global, first: Term, second: Term) -> Result<Terms, NoMemory>
    ensures { IfOk result (λ terms. terms ≡ first ∷ second ∷ []) }
{
    let mut terms = Listed::new(alloc);
    match terms.push(first) {
        Ok(()) => match terms.push(second) {
            Ok(()) => Ok(terms),
            Err(fault) => Err(fault),
        },
        Err(fault) => {
            let_go(second);
            Err(fault)
        }
    }
}

/// Operands, and nothing behind them.
pub fn operands(alloc: Global, terms: Terms) -> Result<Term, NoMemory>
    ensures { IfOk result (λ t. term_of t ≡ more_of (map term_of terms) meaning.Nothing) }
{
    match Boxed::of(alloc, Term::Nothing) {
        Ok(nothing) => Ok(Term::More(terms, nothing)),
        Err(fault) => Err(fault),
    }
}

/// One operand.
pub fn one(alloc: Global, term: Term) -> Result<Term, NoMemory>
    ensures { IfOk result (λ t. term_of t ≡ texts.one (term_of term)) }
{
    let mut terms = Listed::new(alloc);
    terms.push(term)?;
    operands(alloc, terms)
}

/// Two operands.
pub fn two(alloc: Global, first: Term, second: Term) -> Result<Term, NoMemory>
    ensures { IfOk result (λ t. term_of t ≡ texts.two (term_of first) (term_of second)) }
{
    match pair(alloc, first, second) {
        Ok(terms) => operands(alloc, terms),
        Err(fault) => Err(fault),
    }
}

/// What operands are made into.
pub fn computed(alloc: Global, what: Computation, at: At, operands: Term) -> Result<Term, NoMemory>
    ensures { IfOk result (λ t. term_of t ≡ meaning.Compute (computation_of what) at (term_of operands)) }
{
    match Boxed::of(alloc, operands) {
        Ok(operands) => Ok(Term::Compute(what, at, operands)),
        Err(fault) => Err(fault),
    }
}

/// What is asked for with operands.
pub fn does(alloc: Global, what: Action, at: At, operands: Term) -> Result<Term, NoMemory>
    ensures { IfOk result (λ t. term_of t ≡ meaning.Does (action_of what) at (term_of operands)) }
{
    match Boxed::of(alloc, operands) {
        Ok(operands) => Ok(Term::Does(what, at, operands)),
        Err(fault) => Err(fault),
    }
}

/// What is asked for with one value.
pub fn asked(alloc: Global, what: Action, at: At, value: Term) -> Result<Term, NoMemory>
    ensures { IfOk result (λ t. term_of t ≡ meaning.Does (action_of what) at (texts.one (term_of value))) }
{
    match one(alloc, value) {
        Ok(operands) => does(alloc, what, at, operands),
        Err(fault) => Err(fault),
    }
}

/// One text behind another.
pub fn joined(alloc: Global, at: At, first: Term, second: Term) -> Result<Term, NoMemory>
    ensures { IfOk result (λ t. term_of t ≡ texts.joined at (term_of first) (term_of second)) }
{
    match pair(alloc, first, second) {
        Ok(terms) => Ok(Term::Joined(at, terms)),
        Err(fault) => Err(fault),
    }
}

/// Boxes of two terms.
pub fn two_boxes(
    alloc: Global,
    first: Term,
    second: Term,
) -> Result<(Boxed<Term>, Boxed<Term>), NoMemory>
    ensures first { IfOk result (λ p. p.0 ≡ first) }
    ensures second { IfOk result (λ p. p.1 ≡ second) }
{
    match Boxed::of(alloc, first) {
        Ok(first) => match Boxed::of(alloc, second) {
            Ok(second) => Ok((first, second)),
            Err(fault) => Err(fault),
        },
        Err(fault) => {
            let_go(second);
            Err(fault)
        }
    }
}

/// An item of a list.
pub fn item_taken(alloc: Global, at: At, list: Term, index: Term) -> Result<Term, NoMemory>
    ensures { IfOk result (λ t. term_of t ≡ meaning.Compute meaning.ItemTaken at (texts.two (term_of list) (term_of index))) }
{
    match two(alloc, list, index) {
        Ok(operands) => computed(alloc, Computation::ItemTaken, at, operands),
        Err(fault) => Err(fault),
    }
}

/// The value of a key in a map.
pub fn key_taken(alloc: Global, at: At, map: Term, key: Term) -> Result<Term, NoMemory>
    ensures { IfOk result (λ t. term_of t ≡ meaning.Compute meaning.KeyTaken at (texts.two (term_of map) (term_of key))) }
{
    match two(alloc, map, key) {
        Ok(operands) => computed(alloc, Computation::KeyTaken, at, operands),
        Err(fault) => Err(fault),
    }
}
