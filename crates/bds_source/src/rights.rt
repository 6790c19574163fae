//! The terms of lines, and of what stands on their right.
ghost use Rattle.std.specs.Prelude.{◌≡◌, IfOk};
ghost use Rattle.bds_tree.specs.StmtView.{act_of, block_of, line_of, place_of, right_of};
ghost use Rattle.bds_check_typing.specs.GivenValues.{set_by};
ghost use Rattle.bds_meaning.specs.OpeningPlaces.{place_term};
ghost use Rattle.bds_meaning.specs.OpeningTexts.{one};
ghost use Rattle.bds_meaning.specs.Term.{Return};
ghost use Rattle.bds_source.specs.Opened.{opened_line, opened_right, opened_act, opened_par, opened_declared};
ghost use Rattle.bds_source_terms.specs.View as view;
ghost use Rattle.bds_source_terms.specs.View.{term_of};

use crate::blocks::block_term;
use bds_check_names::{Names, Site, apart};
use bds_check_typing::Given;
use bds_source_acts::plain_act;
use bds_source_exprs::expr_term;
use bds_source_lines::plain_line;
use bds_source_parts::{block, declare, declare_set, default_line, returned, set_at, spawn_block};
use bds_source_places::{change_of, changed};
use bds_source_terms::{Change, Term};
use bds_tree::{Act, ActForm, Block, Line, Place, RightSide};
use bds_value::{At, ByteText, NoMemory, copy_text};
use std::alloc::Global;

/// The term of a line.
#[cycle(stmts)]
pub fn line_term(
    alloc: Global,
    settings: &[Given],
    names: &mut Names,
    site: &Site,
    at: At,
    line: &Line,
) -> Result<Term, NoMemory>
    ensures term { IfOk result (λ t. term_of t ≡ opened_line (set_by settings.now) names.old site.now at (line_of line.now)) }
    ensures same { names.new ≡ names.old }
{
    match line {
        Line::Declare(ty, name, right) => match right {
            None => default_line(alloc, settings, site, ty, name),
            Some(right) => declared(alloc, settings, names, site, name, right),
        },
        Line::Infer(name, right) => declared(alloc, settings, names, site, name, right),
        Line::Assign(place, right) => {
            taken(alloc, settings, names, at, place, Change::Replaced, right)
        }
        Line::Update(place, op, right) => {
            taken(alloc, settings, names, at, place, change_of(*op), right)
        }
        Line::Return(right) => match right {
            None => plain_line(alloc, names, at, line),
            Some(right) => returned_right(alloc, settings, names, right),
        },
        Line::Alone(act) => act_term(alloc, settings, names, act),
        Line::Break
        | Line::Continue
        | Line::Step(_)
        | Line::Call(_)
        | Line::Print(_)
        | Line::Println(_)
        | Line::Error(_)
        | Line::Exit(_)
        | Line::Wait(_)
        | Line::Checkpoint(_) => plain_line(alloc, names, at, line),
    }
}

/// A declaration with a right side. A value that was set stands in its place.
#[cycle(stmts)]
fn declared(
    alloc: Global,
    settings: &[Given],
    names: &mut Names,
    site: &Site,
    name: &ByteText,
    right: &RightSide,
) -> Result<Term, NoMemory>
    ensures term { IfOk result (λ t. term_of t ≡ opened_declared (set_by settings.now) names.old site.now name.now (right_of right.now)) }
    ensures same { names.new ≡ names.old }
{
    match set_at(settings, site, name) {
        Some(value) => declare_set(alloc, site, name, value),
        None => match copy_text(alloc, name) {
            Ok(name) => match right_term(alloc, settings, names, right) {
                Ok(value) => declare(alloc, site, name, value),
                Err(fault) => Err(fault),
            },
            Err(fault) => Err(fault),
        },
    }
}

/// A place changes by what stands on the right.
#[cycle(stmts)]
fn taken(
    alloc: Global,
    settings: &[Given],
    names: &mut Names,
    at: At,
    place: &Place,
    change: Change,
    right: &RightSide,
) -> Result<Term, NoMemory>
    ensures term { IfOk result (λ t. term_of t ≡ place_term names.old at (place_of place.now) (view.change_of change) (one (opened_right (set_by settings.now) names.old (right_of right.now)))) }
    ensures same { names.new ≡ names.old }
{
    match right_term(alloc, settings, names, right) {
        Ok(value) => changed(alloc, names, at, place, change, value),
        Err(fault) => Err(fault),
    }
}

#[cycle(stmts)]
fn returned_right(
    alloc: Global,
    settings: &[Given],
    names: &mut Names,
    right: &RightSide,
) -> Result<Term, NoMemory>
    ensures term { IfOk result (λ t. term_of t ≡ Return (opened_right (set_by settings.now) names.old (right_of right.now))) }
    ensures same { names.new ≡ names.old }
{
    match right_term(alloc, settings, names, right) {
        Ok(value) => returned(alloc, value),
        Err(fault) => Err(fault),
    }
}

#[cycle(stmts)]
fn right_term(
    alloc: Global,
    settings: &[Given],
    names: &mut Names,
    right: &RightSide,
) -> Result<Term, NoMemory>
    ensures term { IfOk result (λ t. term_of t ≡ opened_right (set_by settings.now) names.old (right_of right.now)) }
    ensures same { names.new ≡ names.old }
{
    match right {
        RightSide::Expr(expr) => expr_term(alloc, names, expr),
        RightSide::Act(act) => act_term(alloc, settings, names, act),
    }
}

#[cycle(stmts)]
fn act_term(
    alloc: Global,
    settings: &[Given],
    names: &mut Names,
    act: &Act,
) -> Result<Term, NoMemory>
    ensures term { IfOk result (λ t. term_of t ≡ opened_act (set_by settings.now) names.old (act_of act.now)) }
    ensures same { names.new ≡ names.old }
{
    match &act.form {
        ActForm::ParBlock(block) => par_term(alloc, settings, names, act.at, block),
        ActForm::Sys(_)
        | ActForm::Task(_, _)
        | ActForm::Dep(_, _)
        | ActForm::Goal(_)
        | ActForm::ParCall(_, _) => plain_act(alloc, names, act.at, &act.form),
    }
}

/// A block of a thread of its own.
#[cycle(stmts)]
fn par_term(
    alloc: Global,
    settings: &[Given],
    names: &mut Names,
    at: At,
    inner_block: &Block,
) -> Result<Term, NoMemory>
    ensures term { IfOk result (λ t. term_of t ≡ opened_par (set_by settings.now) names.old at (block_of inner_block.now)) }
    ensures same { names.new ≡ names.old }
{
    let site = apart(names);
    match block_term(alloc, settings, names, &site, inner_block) {
        Ok(term) => match block(alloc, term) {
            Ok(term) => spawn_block(alloc, at, term),
            Err(fault) => Err(fault),
        },
        Err(fault) => Err(fault),
    }
}
