//! The terms of statements; the names in force are left as they were.
ghost use Rattle.std.specs.Prelude.{◌≡◌, IfOk};
ghost use Rattle.bds_tree.specs.StmtTree as tree;
ghost use Rattle.bds_tree.specs.StmtView.{block_of, stmt_of, stmt_form_of};
ghost use Rattle.bds_tree.specs.View.{tree_of};
ghost use Rattle.bds_check_typing.specs.GivenValues.{set_by};
ghost use Rattle.bds_source.specs.Opened.{opened, opened_form, opened_part, opened_within, opened_if, opened_while};
ghost use Rattle.bds_source_terms.specs.View.{term_of};

use crate::blocks::block_term;
use crate::loops::{each_term, for_term};
use crate::rights::line_term;
use crate::switches::switch_term;
use bds_check_names::{Names, Site, inner};
use bds_check_typing::Given;
use bds_source_exprs::expr_term;
use bds_source_parts::{block, looped};
use bds_source_terms::{Term, choose, choose_of, let_go, two_boxes};
use bds_tree::{Block, Expr, Stmt, StmtForm};
use bds_value::{At, Boxed, NoMemory};
use std::alloc::Global;

/// The term of a statement; the names in force are left as they were.
#[cycle(stmts)]
pub fn stmt_term(
    alloc: Global,
    settings: &[Given],
    names: &mut Names,
    site: &Site,
    stmt: &Stmt,
) -> Result<Term, NoMemory>
    ensures term { IfOk result (λ t. term_of t ≡ opened (set_by settings.now) names.old site.now (stmt_of stmt.now)) }
    ensures same { names.new ≡ names.old }
{
    form_term(alloc, settings, names, site, stmt.at, &stmt.form)
}

#[cycle(stmts)]
fn form_term(
    alloc: Global,
    settings: &[Given],
    names: &mut Names,
    site: &Site,
    at: At,
    form: &StmtForm,
) -> Result<Term, NoMemory>
    ensures term { IfOk result (λ t. term_of t ≡ opened_form (set_by settings.now) names.old site.now at (stmt_form_of form.now)) }
    ensures same { names.new ≡ names.old }
{
    match form {
        StmtForm::Block(inner) => within(alloc, settings, names, site, inner),
        StmtForm::Empty => Ok(Term::Nothing),
        StmtForm::Line(line) => line_term(alloc, settings, names, site, at, line),
        StmtForm::If(condition, way, other) => match other {
            None => if_term(alloc, settings, names, site, condition, way.get()),
            Some(other) => if_else_term(
                alloc,
                settings,
                names,
                site,
                condition,
                way.get(),
                other.get(),
            ),
        },
        StmtForm::While(condition, body) => {
            while_term(alloc, settings, names, site, condition, body.get())
        }
        StmtForm::For(first, condition, last, body) => {
            for_term(
                alloc,
                settings,
                names,
                site,
                first,
                condition,
                last,
                body.get(),
            )
        }
        StmtForm::Each(ty, name, items, body) => {
            each_term(alloc, settings, names, site, ty, name, items, body.get())
        }
        StmtForm::Switch(value, cases) => {
            switch_term(alloc, settings, names, site, value, cases.as_slice())
        }
    }
}

/// A block within.
#[cycle(stmts)]
fn within(
    alloc: Global,
    settings: &[Given],
    names: &mut Names,
    site: &Site,
    inner_block: &Block,
) -> Result<Term, NoMemory>
    ensures term { IfOk result (λ t. term_of t ≡ opened_within (set_by settings.now) names.old site.now (block_of inner_block.now)) }
    ensures same { names.new ≡ names.old }
{
    match inner(alloc, names, site) {
        Ok(site) => {
            match block_term(alloc, settings, names, &site, inner_block) {
                Ok(term) => block(alloc, term),
                Err(fault) => Err(fault),
            }
        }
        Err(fault) => Err(fault),
    }
}

/// A statement as a block of its own.
#[cycle(stmts)]
pub fn part_term(
    alloc: Global,
    settings: &[Given],
    names: &mut Names,
    site: &Site,
    stmt: &Stmt,
) -> Result<Term, NoMemory>
    ensures term { IfOk result (λ t. term_of t ≡ opened_part (set_by settings.now) names.old site.now (stmt_of stmt.now)) }
    ensures same { names.new ≡ names.old }
{
    match inner(alloc, names, site) {
        Ok(site) => {
            match stmt_term(alloc, settings, names, &site, stmt) {
                Ok(term) => block(alloc, term),
                Err(fault) => Err(fault),
            }
        }
        Err(fault) => Err(fault),
    }
}

#[cycle(stmts)]
fn if_term(
    alloc: Global,
    settings: &[Given],
    names: &mut Names,
    site: &Site,
    condition: &Expr,
    way: &Stmt,
) -> Result<Term, NoMemory>
    ensures term { IfOk result (λ t. term_of t ≡ opened_if (set_by settings.now) names.old site.now (tree_of condition.now) (stmt_of way.now) tree.no_stmt) }
    ensures same { names.new ≡ names.old }
{
    match expr_term(alloc, names, condition) {
        Ok(condition) => {
            match part_term(alloc, settings, names, site, way) {
                Ok(way) => choose(alloc, condition, way, Term::Nothing),
                Err(fault) => {
                    let_go(condition);
                    Err(fault)
                }
            }
        }
        Err(fault) => Err(fault),
    }
}

/// Two statements, each as a block of its own, in boxes.
#[cycle(stmts)]
fn two_parts(
    alloc: Global,
    settings: &[Given],
    names: &mut Names,
    site: &Site,
    way: &Stmt,
    other: &Stmt,
) -> Result<(Boxed<Term>, Boxed<Term>), NoMemory>
    ensures way { IfOk result (λ p. term_of p.0 ≡ opened_part (set_by settings.now) names.old site.now (stmt_of way.now)) }
    ensures other { IfOk result (λ p. term_of p.1 ≡ opened_part (set_by settings.now) names.old site.now (stmt_of other.now)) }
    ensures same { names.new ≡ names.old }
{
    match part_term(alloc, settings, names, site, way) {
        Ok(way) => match part_term(alloc, settings, names, site, other) {
            Ok(other) => two_boxes(alloc, way, other),
            Err(fault) => {
                let_go(way);
                Err(fault)
            }
        },
        Err(fault) => Err(fault),
    }
}

#[cycle(stmts)]
fn if_else_term(
    alloc: Global,
    settings: &[Given],
    names: &mut Names,
    site: &Site,
    condition: &Expr,
    way: &Stmt,
    other: &Stmt,
) -> Result<Term, NoMemory>
    ensures term { IfOk result (λ t. term_of t ≡ opened_if (set_by settings.now) names.old site.now (tree_of condition.now) (stmt_of way.now) (tree.a_stmt (stmt_of other.now))) }
    ensures same { names.new ≡ names.old }
{
    match expr_term(alloc, names, condition) {
        Ok(condition) => match two_parts(alloc, settings, names, site, way, other) {
            Ok((way, other)) => choose_of(alloc, condition, way, other),
            Err(fault) => {
                let_go(condition);
                Err(fault)
            }
        },
        Err(fault) => Err(fault),
    }
}

#[cycle(stmts)]
fn while_term(
    alloc: Global,
    settings: &[Given],
    names: &mut Names,
    site: &Site,
    condition: &Expr,
    body: &Stmt,
) -> Result<Term, NoMemory>
    ensures term { IfOk result (λ t. term_of t ≡ opened_while (set_by settings.now) names.old site.now (tree_of condition.now) (stmt_of body.now)) }
    ensures same { names.new ≡ names.old }
{
    match expr_term(alloc, names, condition) {
        Ok(condition) => {
            match part_term(alloc, settings, names, site, body) {
                Ok(body) => looped(alloc, condition, body, Term::Nothing),
                Err(fault) => {
                    let_go(condition);
                    Err(fault)
                }
            }
        }
        Err(fault) => Err(fault),
    }
}
