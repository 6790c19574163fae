//! The terms of a `switch` and of its cases.
ghost use Rattle.std.specs.Prelude.{◌≡◌, ◌++◌, ◌∷◌, [], IfOk, map};
ghost use Rattle.bds_tree.specs.StmtView.{case_of, cases_of, stmts_of};
ghost use Rattle.bds_tree.specs.View.{tree_of};
ghost use Rattle.bds_check_names.specs.Scopes as scopes;
ghost use Rattle.bds_check_typing.specs.GivenValues.{set_by};
ghost use Rattle.bds_meaning.specs.Term as meaning;
ghost use Rattle.bds_source.specs.Opened.{opened_case, opened_cases, opened_sequence, opened_switch};
ghost use Rattle.bds_source_terms.specs.View.{term_of, branch_of};

use crate::blocks::sequence_term;
use bds_check_names::{Names, Site, inner};
use bds_check_typing::Given;
use bds_source_exprs::expr_term;
use bds_source_parts::{block, label_term, switched};
use bds_source_terms::{Branches, Term, let_go};
use bds_tree::{Case, Expr, Stmt};
use bds_value::{Listed, NoMemory};
use std::alloc::Global;

/// The statements of a case, as a block of their own.
#[cycle(stmts)]
fn case_body(
    alloc: Global,
    settings: &[Given],
    names: &mut Names,
    site: &Site,
    stmts: &[Stmt],
) -> Result<Term, NoMemory>
    ensures term { IfOk result (λ t. term_of t ≡ meaning.Block (opened_sequence (set_by settings.now) names.old (scopes.inner names.old site.now) (stmts_of stmts.now))) }
    ensures same { names.new ≡ names.old }
{
    match inner(alloc, names, site) {
        Ok(site) => {
            match sequence_term(alloc, settings, names, &site, stmts) {
                Ok(term) => block(alloc, term),
                Err(fault) => Err(fault),
            }
        }
        Err(fault) => Err(fault),
    }
}

/// A case behind others.
#[cycle(stmts)]
fn put_case(
    alloc: Global,
    settings: &[Given],
    names: &mut Names,
    site: &Site,
    case: &Case,
    branches: &mut Branches,
) -> Result<(), NoMemory>
    ensures branches { IfOk result (λ _. map branch_of branches.new ≡ map branch_of branches.old ++ opened_case (set_by settings.now) names.old site.now (case_of case.now) ∷ []) }
    ensures same { names.new ≡ names.old }
{
    match case_body(alloc, settings, names, site, case.stmts.as_slice()) {
        Ok(body) => match label_term(alloc, names, &case.label) {
            Ok(label) => branches.push((label, body)),
            Err(fault) => {
                let_go(body);
                Err(fault)
            }
        },
        Err(fault) => Err(fault),
    }
}

/// Each case in its order.
#[cycle(stmts)]
fn put_cases(
    alloc: Global,
    settings: &[Given],
    names: &mut Names,
    site: &Site,
    cases: &[Case],
    branches: &mut Branches,
) -> Result<(), NoMemory>
    ensures branches { IfOk result (λ _. map branch_of branches.new ≡ map branch_of branches.old ++ opened_cases (set_by settings.now) names.old site.now (cases_of cases.now)) }
    ensures same { names.new ≡ names.old }
{
    for case in cases {
        put_case(alloc, settings, names, site, case, branches)?;
    }
    Ok(())
}

#[cycle(stmts)]
fn branches_of(
    alloc: Global,
    settings: &[Given],
    names: &mut Names,
    site: &Site,
    cases: &[Case],
) -> Result<Branches, NoMemory>
    ensures branches { IfOk result (λ branches. map branch_of branches ≡ opened_cases (set_by settings.now) names.old site.now (cases_of cases.now)) }
    ensures same { names.new ≡ names.old }
{
    let mut branches = Listed::new(alloc);
    match put_cases(alloc, settings, names, site, cases, &mut branches) {
        Ok(()) => Ok(branches),
        Err(fault) => Err(fault),
    }
}

#[cycle(stmts)]
pub fn switch_term(
    alloc: Global,
    settings: &[Given],
    names: &mut Names,
    site: &Site,
    value: &Expr,
    cases: &[Case],
) -> Result<Term, NoMemory>
    ensures term { IfOk result (λ t. term_of t ≡ opened_switch (set_by settings.now) names.old site.now (tree_of value.now) (cases_of cases.now)) }
    ensures same { names.new ≡ names.old }
{
    match expr_term(alloc, names, value) {
        Ok(value) => match branches_of(alloc, settings, names, site, cases) {
            Ok(branches) => switched(alloc, value, branches),
            Err(fault) => {
                let_go(value);
                Err(fault)
            }
        },
        Err(fault) => Err(fault),
    }
}
