//! The terms of the parts of the head of a `for`.
ghost use Rattle.std.specs.Prelude.{◌≡◌, IfOk};
ghost use Rattle.std.specs.Option.{option_map};
ghost use Rattle.bds_tree.specs.StmtView.{small_of, small_form_of};
ghost use Rattle.bds_tree.specs.View.{tree_of};
ghost use Rattle.bds_meaning.specs.OpeningStatements as statements;
ghost use Rattle.bds_source_lines.specs.Opened.{opened_last};
ghost use Rattle.bds_source_terms.specs.View.{term_of};

use bds_check_names::Names;
use bds_source_exprs::expr_term;
use bds_source_parts::{block, declared_here, default_term};
use bds_source_places::{call_term, change_of, changed, step_term};
use bds_source_terms::{Change, Term};
use bds_tree::{Expr, Small, SmallForm};
use bds_value::{At, Boxed, NoMemory, Ty, copy_text};
use std::alloc::Global;

fn small_value(alloc: Global, names: &Names, ty: &Ty, expr: &Option<Expr>) -> Result<Term, NoMemory>
    ensures { IfOk result (λ t. term_of t ≡ statements.small_value names.now ty.now (option_map tree_of expr.now)) }
{
    match expr {
        None => default_term(alloc, ty),
        Some(expr) => expr_term(alloc, names, expr),
    }
}

/// A part of a head, where variables are locals.
fn small_form_term(alloc: Global, names: &Names, at: At, form: &SmallForm) -> Result<Term, NoMemory>
    ensures { IfOk result (λ t. term_of t ≡ statements.small_form_term names.now at (small_form_of form.now)) }
{
    match form {
        SmallForm::Declare(ty, name, value) => match copy_text(alloc, name) {
            Ok(name) => match small_value(alloc, names, ty, value) {
                Ok(value) => declared_here(alloc, name, value),
                Err(fault) => Err(fault),
            },
            Err(fault) => Err(fault),
        },
        SmallForm::Infer(name, value) => match copy_text(alloc, name) {
            Ok(name) => match expr_term(alloc, names, value) {
                Ok(value) => declared_here(alloc, name, value),
                Err(fault) => Err(fault),
            },
            Err(fault) => Err(fault),
        },
        SmallForm::Assign(place, value) => {
            match expr_term(alloc, names, value) {
                Ok(value) => changed(alloc, names, at, place, Change::Replaced, value),
                Err(fault) => Err(fault),
            }
        }
        SmallForm::Update(place, op, value) => {
            match expr_term(alloc, names, value) {
                Ok(value) => changed(alloc, names, at, place, change_of(*op), value),
                Err(fault) => Err(fault),
            }
        }
        SmallForm::Step(step) => step_term(alloc, names, at, step),
        SmallForm::Call(call) => call_term(alloc, names, at, call),
    }
}

/// A part of a head that may be missing. Only want of memory refuses it.
pub fn small_term(
    alloc: Global,
    names: &Names,
    small: &Option<Boxed<Small>>,
) -> Result<Term, NoMemory>
    ensures { IfOk result (λ t. term_of t ≡ statements.small_term names.now (option_map small_of small.now)) }
{
    match small {
        None => Ok(Term::Nothing),
        Some(small) => small_form_term(alloc, names, small.get().at, &small.get().form),
    }
}

/// The last part of a head, as a block of its own. Only want of memory refuses it.
pub fn last_term(
    alloc: Global,
    names: &Names,
    small: &Option<Boxed<Small>>,
) -> Result<Term, NoMemory>
    ensures { IfOk result (λ t. term_of t ≡ opened_last names.now (option_map small_of small.now)) }
{
    match small_term(alloc, names, small) {
        Ok(term) => block(alloc, term),
        Err(fault) => Err(fault),
    }
}
