//! The terms of changes of variables and of their parts.
ghost use Rattle.std.specs.Prelude.{◌≡◌, ◌++◌, ◌∷◌, [], IfOk, map};
ghost use Rattle.bds_tree.specs.StmtView.{place_of, step_of, suffix_of};
ghost use Rattle.bds_tree.specs.View.{tree_of};
ghost use Rattle.bds_meaning.specs.OpeningPlaces as places;
ghost use Rattle.bds_meaning.specs.OpeningTexts as texts;
ghost use Rattle.bds_meaning.specs.Term as meaning;
ghost use Rattle.bds_source_terms.specs.View as view;
ghost use Rattle.bds_source_places.specs.Parts.{changed_part};
ghost use Rattle.bds_source_terms.specs.View.{term_of, into_of};
ghost use Rattle.bds_value.specs.declared.value.At.{At as Spot};

use crate::updates::{Part, update};
use bds_check_names::Names;
use bds_source_exprs::{expr_term, scope_of};
use bds_source_terms::{Change, Term, Terms, Way, Ways, let_go, one};
use bds_tree::{Place, Step, StepOp, Suffix, UpdateOp};
use bds_value::{At, Listed, NoMemory, Op, Value, copy_text};
use std::alloc::Global;

fn way_of(suffix: &Suffix) -> Way
    ensures { into_of result ≡ places.into_of (suffix_of suffix.now) }
{
    match suffix {
        Suffix::Item(_) => Way::ByIndex,
        Suffix::Key(_) => Way::ByKey,
    }
}

fn suffix_term(alloc: Global, names: &Names, suffix: &Suffix) -> Result<Term, NoMemory>
    ensures { IfOk result (λ t. term_of t ≡ places.suffix_term names.now (suffix_of suffix.now)) }
{
    match suffix {
        Suffix::Item(index) => expr_term(alloc, names, index),
        Suffix::Key(key) => expr_term(alloc, names, key),
    }
}

/// The steps to a part.
fn ways_of(alloc: Global, suffixes: &[Suffix]) -> Result<Ways, NoMemory>
    ensures { IfOk result (λ ways. map into_of ways ≡ map places.into_of (map suffix_of suffixes.now)) }
{
    let mut ways = Listed::new(alloc);
    for suffix in suffixes {
        ways.push(way_of(suffix))?;
    }
    Ok(ways)
}

fn put_step(
    alloc: Global,
    names: &Names,
    suffix: &Suffix,
    terms: &mut Terms,
) -> Result<(), NoMemory>
    ensures { IfOk result (λ _. map term_of terms.new ≡ map term_of terms.old ++ places.suffix_term names.now (suffix_of suffix.now) ∷ []) }
{
    match suffix_term(alloc, names, suffix) {
        Ok(term) => terms.push(term),
        Err(fault) => Err(fault),
    }
}

/// The terms of the steps to a part, behind others.
fn put_steps(
    alloc: Global,
    names: &Names,
    suffixes: &[Suffix],
    terms: &mut Terms,
) -> Result<(), NoMemory>
    ensures { IfOk result (λ _. map term_of terms.new ≡ map term_of terms.old ++ map (places.suffix_term names.now) (map suffix_of suffixes.now)) }
{
    for suffix in suffixes {
        put_step(alloc, names, suffix, terms)?;
    }
    Ok(())
}

/// The terms of the steps to a part.
fn steps_of(alloc: Global, names: &Names, suffixes: &[Suffix]) -> Result<Terms, NoMemory>
    ensures { IfOk result (λ steps. map term_of steps ≡ map (places.suffix_term names.now) (map suffix_of suffixes.now)) }
{
    let mut steps = Listed::new(alloc);
    match put_steps(alloc, names, suffixes, &mut steps) {
        Ok(()) => Ok(steps),
        Err(fault) => Err(fault),
    }
}

/// The part that a place names.
fn part_of(alloc: Global, names: &Names, place: &Place) -> Result<Part, NoMemory>
    ensures { IfOk result (λ p. (at : Spot) → (c : meaning.Change) → (rest : meaning.Term) → changed_part p at c rest ≡ places.place_term names.now at (place_of place.now) c rest) }
{
    let scope = scope_of(names, &place.name);
    match copy_text(alloc, &place.name) {
        Ok(name) => match ways_of(alloc, place.suffixes.as_slice()) {
            Ok(ways) => match steps_of(alloc, names, place.suffixes.as_slice()) {
                Ok(steps) => Ok(Part {
                    scope,
                    name,
                    ways,
                    steps,
                }),
                Err(fault) => Err(fault),
            },
            Err(fault) => Err(fault),
        },
        Err(fault) => Err(fault),
    }
}

/// A change of a part, with its arguments.
fn place_term(
    alloc: Global,
    names: &Names,
    at: At,
    place: &Place,
    change: Change,
    arguments: Term,
) -> Result<Term, NoMemory>
    ensures { IfOk result (λ t. term_of t ≡ places.place_term names.now at (place_of place.now) (view.change_of change) (term_of arguments)) }
{
    match part_of(alloc, names, place) {
        Ok(part) => update(alloc, at, part, change, arguments),
        Err(fault) => {
            let_go(arguments);
            Err(fault)
        }
    }
}

/// A change of a part, with one value. It fails where memory runs out.
pub fn changed(
    alloc: Global,
    names: &Names,
    at: At,
    place: &Place,
    change: Change,
    value: Term,
) -> Result<Term, NoMemory>
    ensures { IfOk result (λ t. term_of t ≡ places.place_term names.now at (place_of place.now) (view.change_of change) (texts.one (term_of value))) }
{
    match one(alloc, value) {
        Ok(arguments) => place_term(alloc, names, at, place, change, arguments),
        Err(fault) => Err(fault),
    }
}

/// How an operator with `=` changes a place.
pub fn change_of(op: UpdateOp) -> Change
    ensures { view.change_of result ≡ places.change_of op }
{
    match op {
        UpdateOp::Add => Change::Increased,
        UpdateOp::Sub => Change::Reckoned(Op::Sub),
        UpdateOp::Mul => Change::Reckoned(Op::Mul),
        UpdateOp::Div => Change::Reckoned(Op::Div),
        UpdateOp::Rem => Change::Reckoned(Op::Rem),
    }
}

fn change_by_one(op: StepOp) -> Change
    ensures { view.change_of result ≡ places.change_by_one op }
{
    match op {
        StepOp::Increment => Change::Increased,
        StepOp::Decrement => Change::Reckoned(Op::Sub),
    }
}

/// `++` and `--`. It fails where memory runs out.
pub fn step_term(alloc: Global, names: &Names, at: At, step: &Step) -> Result<Term, NoMemory>
    ensures { IfOk result (λ t. term_of t ≡ places.step_term names.now at (step_of step.now)) }
{
    let amount = Term::Constant(Value::Int(1));
    match step {
        Step::After(place, op) => changed(alloc, names, at, place, change_by_one(*op), amount),
        Step::Before(op, place) => changed(alloc, names, at, place, change_by_one(*op), amount),
    }
}
