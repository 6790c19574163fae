//! Changes of a part of a variable.
ghost use Rattle.std.specs.Prelude.{◌≡◌, IfOk, map};
ghost use Rattle.bds_source_places.specs.Parts.{changed_part};
ghost use Rattle.bds_source_terms.specs.View.{term_of, more_of, change_of};

use bds_source_terms::{Change, Scope, Term, Terms, Ways};
use bds_value::{At, Boxed, ByteText, NoMemory};
use std::alloc::Global;

/// A part of a variable: the steps to it, and the terms of those steps.
#[derive(Drop)]
pub struct Part {
    pub scope: Scope,
    pub name: ByteText,
    pub ways: Ways,
    pub steps: Terms,
}

/// Terms before others.
fn more(alloc: Global, terms: Terms, rest: Term) -> Result<Term, NoMemory>
    ensures { IfOk result (λ t. term_of t ≡ more_of (map term_of terms) (term_of rest)) }
{
    match Boxed::of(alloc, rest) {
        Ok(rest) => Ok(Term::More(terms, rest)),
        Err(fault) => Err(fault),
    }
}

/// The terms of steps and arguments, in a box.
fn boxed(alloc: Global, steps: Terms, arguments: Term) -> Result<Boxed<Term>, NoMemory>
    ensures { IfOk result (λ t. term_of t ≡ more_of (map term_of steps) (term_of arguments)) }
{
    match more(alloc, steps, arguments) {
        Ok(parts) => Boxed::of(alloc, parts),
        Err(fault) => Err(fault),
    }
}

/// A change of a part, with its arguments. It fails where memory runs out.
pub fn update(
    alloc: Global,
    at: At,
    part: Part,
    change: Change,
    arguments: Term,
) -> Result<Term, NoMemory>
    ensures { IfOk result (λ t. term_of t ≡ changed_part part at (change_of change) (term_of arguments)) }
{
    let Part {
        scope,
        name,
        ways,
        steps,
    } = part;
    match boxed(alloc, steps, arguments) {
        Ok(parts) => Ok(Term::Update(at, scope, name, ways, change, parts)),
        Err(fault) => Err(fault),
    }
}
