//! The terms of lines that end something.
ghost use Rattle.std.specs.Prelude.{◌≡◌, IfOk};
ghost use Rattle.bds_tree.specs.View.{tree_of};
ghost use Rattle.bds_meaning.specs.OpeningExpressions as expressions;
ghost use Rattle.bds_meaning.specs.Term as meaning;
ghost use Rattle.bds_source_terms.specs.View.{term_of};

use bds_check_names::Names;
use bds_source_exprs::expr_term;
use bds_source_terms::Term;
use bds_tree::Expr;
use bds_value::{At, Boxed, NoMemory};
use std::alloc::Global;

/// `error`. Only want of memory refuses it.
pub fn error_term(alloc: Global, names: &Names, at: At, expr: &Expr) -> Result<Term, NoMemory>
    ensures { IfOk result (λ t. term_of t ≡ meaning.Error at (expressions.term_of names.now (tree_of expr.now))) }
{
    match expr_term(alloc, names, expr) {
        Ok(message) => match Boxed::of(alloc, message) {
            Ok(message) => Ok(Term::Error(at, message)),
            Err(fault) => Err(fault),
        },
        Err(fault) => Err(fault),
    }
}

/// `exit`. Only want of memory refuses it.
pub fn exit_term(alloc: Global, names: &Names, expr: &Expr) -> Result<Term, NoMemory>
    ensures { IfOk result (λ t. term_of t ≡ meaning.Exit (expressions.term_of names.now (tree_of expr.now))) }
{
    match expr_term(alloc, names, expr) {
        Ok(status) => match Boxed::of(alloc, status) {
            Ok(status) => Ok(Term::Exit(status)),
            Err(fault) => Err(fault),
        },
        Err(fault) => Err(fault),
    }
}

/// `return`, with its value. Only want of memory refuses it.
pub fn returned(alloc: Global, value: Term) -> Result<Term, NoMemory>
    ensures { IfOk result (λ t. term_of t ≡ meaning.Return (term_of value)) }
{
    match Boxed::of(alloc, value) {
        Ok(value) => Ok(Term::Return(value)),
        Err(fault) => Err(fault),
    }
}
