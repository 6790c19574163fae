//! The terms of blocks.
ghost use Rattle.std.specs.Prelude.{◌≡◌, ◌++◌, ◌∷◌, [], IfOk, false, map};
ghost use Rattle.bds_tree.specs.StmtView.{block_of, stmt_of, stmts_of};
ghost use Rattle.bds_check_names.specs.Scopes.{Extends};
ghost use Rattle.bds_check_typing.specs.GivenValues.{set_by};
ghost use Rattle.bds_meaning.specs.OpeningStatements.{behind};
ghost use Rattle.bds_source.specs.Opened.{opened, opened_block, opened_sequence, opened_stmts};
ghost use Rattle.bds_source_terms.specs.View.{term_of};

use crate::statements::stmt_term;
use bds_check_names::{Names, Site};
use bds_check_typing::Given;
use bds_source_lines::{go_behind, leave_block};
use bds_source_parts::sequence;
use bds_source_terms::{Term, Terms};
use bds_tree::{Block, Stmt};
use bds_value::{Listed, NoMemory};
use std::alloc::Global;

/// A statement behind others; its names are in force behind it.
#[cycle(stmts)]
fn put_stmt(
    alloc: Global,
    settings: &[Given],
    names: &mut Names,
    site: &Site,
    stmt: &Stmt,
    terms: &mut Terms,
) -> Result<(), NoMemory>
    requires { site.now.at_top ≡ false }
    ensures term { IfOk result (λ _. map term_of terms.new ≡ map term_of terms.old ++ opened (set_by settings.now) names.old site.now (stmt_of stmt.now) ∷ []) }
    ensures names { IfOk result (λ _. names.new ≡ behind names.old site.now (stmt_of stmt.now)) }
    ensures extends { Extends names.old names.new }
{
    match stmt_term(alloc, settings, names, site, stmt) {
        Ok(term) => match terms.push(term) {
            Ok(()) => go_behind(alloc, names, site, stmt),
            Err(fault) => Err(fault),
        },
        Err(fault) => Err(fault),
    }
}

/// Each statement under the names that those before it put in force.
#[cycle(stmts)]
fn put_stmts(
    alloc: Global,
    settings: &[Given],
    names: &mut Names,
    site: &Site,
    stmts: &[Stmt],
    terms: &mut Terms,
) -> Result<(), NoMemory>
    requires { site.now.at_top ≡ false }
    ensures terms { IfOk result (λ _. map term_of terms.new ≡ map term_of terms.old ++ opened_stmts (set_by settings.now) names.old site.now (stmts_of stmts.now)) }
    ensures extends { Extends names.old names.new }
{
    for stmt in stmts {
        put_stmt(alloc, settings, names, site, stmt, terms)?;
    }
    Ok(())
}

/// Statements one behind another, behind which their locals aren't in force.
#[cycle(stmts)]
pub fn sequence_term(
    alloc: Global,
    settings: &[Given],
    names: &mut Names,
    site: &Site,
    stmts: &[Stmt],
) -> Result<Term, NoMemory>
    requires { site.now.at_top ≡ false }
    ensures term { IfOk result (λ t. term_of t ≡ opened_sequence (set_by settings.now) names.old site.now (stmts_of stmts.now)) }
    ensures same { names.new ≡ names.old }
{
    let before = names.locals.len();
    let mut terms = Listed::new(alloc);
    let put = put_stmts(alloc, settings, names, site, stmts, &mut terms);
    leave_block(names, before);
    match put {
        Ok(()) => sequence(alloc, terms),
        Err(fault) => Err(fault),
    }
}

/// The statements of a block.
#[cycle(stmts)]
pub fn block_term(
    alloc: Global,
    settings: &[Given],
    names: &mut Names,
    site: &Site,
    block: &Block,
) -> Result<Term, NoMemory>
    requires { site.now.at_top ≡ false }
    ensures term { IfOk result (λ t. term_of t ≡ opened_block (set_by settings.now) names.old site.now (block_of block.now)) }
    ensures same { names.new ≡ names.old }
{
    sequence_term(alloc, settings, names, site, block.stmts.as_slice())
}
