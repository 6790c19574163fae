//! The terms of what lines ask of the outside.
ghost use Rattle.std.specs.Prelude.{◌≡◌, IfOk, Some, codes};
ghost use Rattle.std.specs.Option.{option_map};
ghost use Rattle.bds_tree.specs.View.{tree_of};
ghost use Rattle.bds_meaning.specs.OpeningExpressions as expressions;
ghost use Rattle.bds_meaning.specs.OpeningStatements as statements;
ghost use Rattle.bds_meaning.specs.OpeningTexts as texts;
ghost use Rattle.bds_meaning.specs.Term as meaning;
ghost use Rattle.bds_source_terms.specs.View.{term_of};

use bds_check_names::Names;
use bds_source_exprs::{expr_term, files_of, line_end};
use bds_source_terms::{Action, Term, asked, does, shown};
use bds_tree::Expr;
use bds_value::{At, Listed, NoMemory};
use std::alloc::Global;

/// The text of an expression's value.
fn shown_term(alloc: Global, names: &Names, at: At, expr: &Expr) -> Result<Term, NoMemory>
    ensures { IfOk result (λ t. term_of t ≡ expressions.shown at (expressions.term_of names.now (tree_of expr.now))) }
{
    match expr_term(alloc, names, expr) {
        Ok(value) => shown(alloc, at, value),
        Err(fault) => Err(fault),
    }
}

/// A text, and a line end behind it.
fn ended(alloc: Global, at: At, text: Term) -> Result<Term, NoMemory>
    ensures { IfOk result (λ t. term_of t ≡ texts.joined at (term_of text) (texts.plain (codes "\n"))) }
{
    let mut parts = Listed::new(alloc);
    parts.push(text)?;
    parts.push(line_end(alloc)?)?;
    Ok(Term::Joined(at, parts))
}

/// `print`. Only want of memory refuses it.
pub fn print_term(alloc: Global, names: &Names, at: At, expr: &Expr) -> Result<Term, NoMemory>
    ensures { IfOk result (λ t. term_of t ≡ meaning.Does meaning.Printed at (texts.one (expressions.shown at (expressions.term_of names.now (tree_of expr.now))))) }
{
    match shown_term(alloc, names, at, expr) {
        Ok(text) => asked(alloc, Action::Printed, at, text),
        Err(fault) => Err(fault),
    }
}

/// An expression's text and a line end are printed.
fn line_printed(alloc: Global, names: &Names, at: At, expr: &Expr) -> Result<Term, NoMemory>
    ensures { IfOk result (λ t. term_of t ≡ statements.line_printed at (Some (expressions.term_of names.now (tree_of expr.now)))) }
{
    match shown_term(alloc, names, at, expr) {
        Ok(text) => match ended(alloc, at, text) {
            Ok(line) => asked(alloc, Action::Printed, at, line),
            Err(fault) => Err(fault),
        },
        Err(fault) => Err(fault),
    }
}

/// `println`. Only want of memory refuses it.
pub fn println_term(
    alloc: Global,
    names: &Names,
    at: At,
    expr: &Option<Expr>,
) -> Result<Term, NoMemory>
    ensures { IfOk result (λ t. term_of t ≡ statements.line_printed at (statements.some_term names.now (option_map tree_of expr.now))) }
{
    match expr {
        None => match line_end(alloc) {
            Ok(end) => asked(alloc, Action::Printed, at, end),
            Err(fault) => Err(fault),
        },
        Some(expr) => line_printed(alloc, names, at, expr),
    }
}

/// `wait`, for all tasks or for those of some ids. Only want of memory refuses it.
pub fn wait_term(
    alloc: Global,
    names: &Names,
    at: At,
    expr: &Option<Expr>,
) -> Result<Term, NoMemory>
    ensures { IfOk result (λ t. term_of t ≡ statements.wait_term names.now at (option_map tree_of expr.now)) }
{
    match expr {
        None => does(alloc, Action::AllAwaited, at, Term::Nothing),
        Some(expr) => match files_of(alloc, names, at, expr) {
            Ok(ids) => asked(alloc, Action::IdsAwaited, at, ids),
            Err(fault) => Err(fault),
        },
    }
}

/// `checkpoint`, with a path or without one. Only want of memory refuses it.
pub fn checkpoint_term(
    alloc: Global,
    names: &Names,
    at: At,
    expr: &Option<Expr>,
) -> Result<Term, NoMemory>
    ensures { IfOk result (λ t. term_of t ≡ statements.checkpoint_term names.now at (option_map tree_of expr.now)) }
{
    match expr {
        None => does(alloc, Action::SavedHere, at, Term::Nothing),
        Some(expr) => match expr_term(alloc, names, expr) {
            Ok(path) => asked(alloc, Action::Saved, at, path),
            Err(fault) => Err(fault),
        },
    }
}
