//! The terms of `for` loops, and of loops over the items of a list.
ghost use Rattle.std.specs.Prelude.{◌≡◌, IfOk};
ghost use Rattle.std.specs.Option.{option_map};
ghost use Rattle.bds_tree.specs.StmtView.{small_of, stmt_of};
ghost use Rattle.bds_tree.specs.View.{tree_of};
ghost use Rattle.bds_check_names.specs.Scopes.{Extends, with_local};
ghost use Rattle.bds_check_typing.specs.GivenValues.{set_by};
ghost use Rattle.bds_source.specs.Opened.{names_within, last_part, opened_part, opened_turns, opened_for, opened_each};
ghost use Rattle.bds_source_terms.specs.View.{term_of};

use crate::statements::part_term;
use bds_check_names::{Names, Site, push_local};
use bds_check_typing::Given;
use bds_source_exprs::expr_term;
use bds_source_lines::{go_behind_first, last_term, leave_block, small_term};
use bds_source_parts::{each, for_of, looped_in, test_term};
use bds_source_terms::{Term, let_go, two_boxes};
use bds_tree::{Expr, Small, Stmt};
use bds_value::{Boxed, ByteText, NoMemory, Ty, copy_text};
use std::alloc::Global;

/// The body of a `for` and its last part, each as a block of its own, in boxes.
#[cycle(stmts)]
fn turn_parts(
    alloc: Global,
    settings: &[Given],
    names: &mut Names,
    site: &Site,
    last: &Option<Boxed<Small>>,
    body: &Stmt,
) -> Result<(Boxed<Term>, Boxed<Term>), NoMemory>
    ensures body { IfOk result (λ p. term_of p.0 ≡ opened_part (set_by settings.now) names.old site.now (stmt_of body.now)) }
    ensures last { IfOk result (λ p. term_of p.1 ≡ last_part names.old (option_map small_of last.now)) }
    ensures same { names.new ≡ names.old }
{
    match part_term(alloc, settings, names, site, body) {
        Ok(body) => match last_term(alloc, names, last) {
            Ok(last) => two_boxes(alloc, body, last),
            Err(fault) => {
                let_go(body);
                Err(fault)
            }
        },
        Err(fault) => Err(fault),
    }
}

/// The turns of a `for`, under the names behind its first part.
#[cycle(stmts)]
fn turns_term(
    alloc: Global,
    settings: &[Given],
    names: &mut Names,
    site: &Site,
    condition: &Option<Expr>,
    last: &Option<Boxed<Small>>,
    body: &Stmt,
) -> Result<Term, NoMemory>
    ensures term { IfOk result (λ t. term_of t ≡ opened_turns (set_by settings.now) names.old site.now (option_map tree_of condition.now) (option_map small_of last.now) (stmt_of body.now)) }
    ensures same { names.new ≡ names.old }
{
    match test_term(alloc, names, condition) {
        Ok(test) => match turn_parts(alloc, settings, names, site, last, body) {
            Ok((body, last)) => looped_in(alloc, test, body, last),
            Err(fault) => {
                let_go(test);
                Err(fault)
            }
        },
        Err(fault) => Err(fault),
    }
}

/// The turns of a `for`; the names that its first part declares are left in force.
#[cycle(stmts)]
fn turns_behind(
    alloc: Global,
    settings: &[Given],
    names: &mut Names,
    site: &Site,
    first: &Option<Boxed<Small>>,
    condition: &Option<Expr>,
    last: &Option<Boxed<Small>>,
    body: &Stmt,
) -> Result<Term, NoMemory>
    ensures term { IfOk result (λ t. term_of t ≡ opened_turns (set_by settings.now) (names_within names.old site.now (option_map small_of first.now)) site.now (option_map tree_of condition.now) (option_map small_of last.now) (stmt_of body.now)) }
    ensures extends { Extends names.old names.new }
{
    match go_behind_first(alloc, names, site, first) {
        Ok(()) => turns_term(alloc, settings, names, site, condition, last, body),
        Err(fault) => Err(fault),
    }
}

/// The turns of a `for`, behind which the names of its first part aren't in force.
#[cycle(stmts)]
fn turns_within(
    alloc: Global,
    settings: &[Given],
    names: &mut Names,
    site: &Site,
    first: &Option<Boxed<Small>>,
    condition: &Option<Expr>,
    last: &Option<Boxed<Small>>,
    body: &Stmt,
) -> Result<Term, NoMemory>
    ensures term { IfOk result (λ t. term_of t ≡ opened_turns (set_by settings.now) (names_within names.old site.now (option_map small_of first.now)) site.now (option_map tree_of condition.now) (option_map small_of last.now) (stmt_of body.now)) }
    ensures same { names.new ≡ names.old }
{
    let before = names.locals.len();
    let turns = turns_behind(alloc, settings, names, site, first, condition, last, body);
    leave_block(names, before);
    turns
}

#[cycle(stmts)]
pub fn for_term(
    alloc: Global,
    settings: &[Given],
    names: &mut Names,
    site: &Site,
    first: &Option<Boxed<Small>>,
    condition: &Option<Expr>,
    last: &Option<Boxed<Small>>,
    body: &Stmt,
) -> Result<Term, NoMemory>
    ensures term { IfOk result (λ t. term_of t ≡ opened_for (set_by settings.now) names.old site.now (option_map small_of first.now) (option_map tree_of condition.now) (option_map small_of last.now) (stmt_of body.now)) }
    ensures same { names.new ≡ names.old }
{
    match small_term(alloc, names, first) {
        Ok(start) => {
            match turns_within(alloc, settings, names, site, first, condition, last, body) {
                Ok(turns) => for_of(alloc, start, turns),
                Err(fault) => {
                    let_go(start);
                    Err(fault)
                }
            }
        }
        Err(fault) => Err(fault),
    }
}

/// The body of a list loop, whose variable is left in force.
#[cycle(stmts)]
fn body_behind(
    alloc: Global,
    settings: &[Given],
    names: &mut Names,
    site: &Site,
    ty: &Ty,
    name: &ByteText,
    body: &Stmt,
) -> Result<Term, NoMemory>
    ensures term { IfOk result (λ t. term_of t ≡ opened_part (set_by settings.now) (with_local names.old name.now ty.now) site.now (stmt_of body.now)) }
    ensures extends { Extends names.old names.new }
{
    match push_local(alloc, names, name, ty) {
        Ok(()) => part_term(alloc, settings, names, site, body),
        Err(fault) => Err(fault),
    }
}

/// The body of a list loop, behind which its variable isn't in force.
#[cycle(stmts)]
fn body_within(
    alloc: Global,
    settings: &[Given],
    names: &mut Names,
    site: &Site,
    ty: &Ty,
    name: &ByteText,
    body: &Stmt,
) -> Result<Term, NoMemory>
    ensures term { IfOk result (λ t. term_of t ≡ opened_part (set_by settings.now) (with_local names.old name.now ty.now) site.now (stmt_of body.now)) }
    ensures same { names.new ≡ names.old }
{
    let before = names.locals.len();
    let term = body_behind(alloc, settings, names, site, ty, name, body);
    leave_block(names, before);
    term
}

#[cycle(stmts)]
pub fn each_term(
    alloc: Global,
    settings: &[Given],
    names: &mut Names,
    site: &Site,
    ty: &Ty,
    name: &ByteText,
    items: &Expr,
    body: &Stmt,
) -> Result<Term, NoMemory>
    ensures term { IfOk result (λ t. term_of t ≡ opened_each (set_by settings.now) names.old site.now ty.now name.now (tree_of items.now) (stmt_of body.now)) }
    ensures same { names.new ≡ names.old }
{
    match copy_text(alloc, name) {
        Ok(x) => match expr_term(alloc, names, items) {
            Ok(items) => match body_within(alloc, settings, names, site, ty, name, body) {
                Ok(body) => each(alloc, x, items, body),
                Err(fault) => {
                    let_go(items);
                    Err(fault)
                }
            },
            Err(fault) => Err(fault),
        },
        Err(fault) => Err(fault),
    }
}
