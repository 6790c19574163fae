//! Which scripts are legal.

ghost use Rattle.std.specs.Prelude.{◌≡◌, map};
ghost use Rattle.std.specs.Bool.{Decides};
ghost use Rattle.std.specs.Option.{option_map};
ghost use Rattle.bds_tree.specs.StmtTree.{to_maybe_stmt, to_maybe_right};
ghost use Rattle.bds_tree.specs.StmtShape.{is_closed, is_closed_else, is_empty_stmt, IsLegal};
ghost use Rattle.bds_spell.specs.Fits.{below};
ghost use Rattle.bds_spell.specs.StmtFits.{stmt_fits, stmt_form_fits, cases_fit, case_fits, else_fits, line_fits, right_fits, maybe_right_fits, act_fits, act_form_fits, block_fits, stmts_fit, function_fits, include_fits, part_fits, parts_fit, script_fits};
ghost use Rattle.bds_tree.specs.StmtView.{stmt_of, stmt_form_of, line_of, right_of, act_of, act_form_of, block_of, case_of, stmts_of, cases_of, function_of, part_of, script_of};

use crate::fit_expr::{all_fit, fits_below, is_call, is_first, maybe_fits};
use crate::fit_parts::{
    are_plain, body_fits, has_no_files, maybe_settings_fit, parameters_fit, place_fits,
    result_fits, settings_fit, small_fits, step_fits, type_fits_below,
};
use bds_tree::{
    Act, ActForm, Block, Case, Function, Include, Line, Part, RightSide, Script, Stmt, StmtForm,
};
use bds_value::{Boxed, MAX_NESTING};

/// Whether no `if` without an `else` stands at the right edge.
#[cycle(edges)]
fn is_closed(stmt: &Stmt) -> bool
    ensures { result ≡ is_closed (stmt_of stmt.now) }
{
    match &stmt.form {
        StmtForm::Block(_) | StmtForm::Empty | StmtForm::Line(_) => true,
        StmtForm::If(_, _, no) => is_closed_else(no),
        StmtForm::While(_, body) => is_closed(body.get()),
        StmtForm::For(_, _, _, body) => is_closed(body.get()),
        StmtForm::Each(_, _, _, body) => is_closed(body.get()),
        StmtForm::Switch(_, _) => true,
    }
}

#[cycle(edges)]
fn is_closed_else(no: &Option<Boxed<Stmt>>) -> bool
    ensures { result ≡ is_closed_else (to_maybe_stmt (option_map stmt_of no.now)) }
{
    match no {
        Some(no) => is_closed(no.get()),
        None => false,
    }
}

fn is_empty_stmt(stmt: &Stmt) -> bool
    ensures { result ≡ is_empty_stmt (stmt_of stmt.now) }
{
    matches!(&stmt.form, StmtForm::Empty)
}

/// Whether the statement is shaped and nests at most so deep.
#[cycle(fits)]
fn stmt_fits(stmt: &Stmt, most: u8) -> bool
    ensures { result ≡ stmt_fits (stmt_of stmt.now) most }
{
    is_first(stmt.at) && stmt_form_fits(&stmt.form, most)
}

/// The same of a statement one below.
#[cycle(fits)]
fn stmt_fits_below(stmt: &Stmt, most: u8) -> bool
    ensures { result ≡ below (stmt_fits (stmt_of stmt.now)) most }
{
    0 < most && stmt_fits(stmt, most - 1)
}

#[cycle(fits)]
fn stmt_form_fits(form: &StmtForm, most: u8) -> bool
    ensures { result ≡ stmt_form_fits (stmt_form_of form.now) most }
{
    match form {
        StmtForm::Block(block) => block_fits_below(block, most),
        StmtForm::Empty => true,
        StmtForm::Line(line) => line_fits(line, most),
        StmtForm::If(condition, yes, no) => {
            fits_below(condition, most)
                && stmt_fits_below(yes.get(), most)
                && else_fits(no, yes.get(), most)
        }
        StmtForm::While(condition, body) => {
            fits_below(condition, most) && stmt_fits_below(body.get(), most)
        }
        StmtForm::For(first, condition, next, body) => {
            small_fits(first, most)
                && maybe_fits(condition, most)
                && small_fits(next, most)
                && stmt_fits_below(body.get(), most)
        }
        StmtForm::Each(ty, _, list, body) => {
            type_fits_below(ty, most) && fits_below(list, most) && stmt_fits_below(body.get(), most)
        }
        StmtForm::Switch(value, cases) => {
            fits_below(value, most) && cases_fit(cases.as_slice(), most)
        }
    }
}

#[cycle(fits)]
fn cases_fit(cases: &[Case], most: u8) -> bool
    ensures { result ≡ cases_fit (cases_of cases.now) most }
{
    for case in cases {
        if !case_fits(case, most) {
            return false;
        }
    }
    true
}

#[cycle(fits)]
fn case_fits(case: &Case, most: u8) -> bool
    ensures { result ≡ case_fits (case_of case.now) most }
{
    is_first(case.at) && maybe_fits(&case.label, most) && stmts_fit(case.stmts.as_slice(), most)
}

/// Whether the `else` part, if there is one, may stand behind the then part.
#[cycle(fits)]
fn else_fits(no: &Option<Boxed<Stmt>>, yes: &Stmt, most: u8) -> bool
    ensures { result ≡ else_fits (to_maybe_stmt (option_map stmt_of no.now)) (stmt_of yes.now) most }
{
    match no {
        Some(no) => is_closed(yes) && !is_empty_stmt(yes) && stmt_fits_below(no.get(), most),
        None => true,
    }
}

#[cycle(fits)]
fn line_fits(line: &Line, most: u8) -> bool
    ensures { result ≡ line_fits (line_of line.now) most }
{
    match line {
        Line::Declare(ty, _, right) => type_fits_below(ty, most) && maybe_right_fits(right, most),
        Line::Infer(_, right) => right_fits(right, most),
        Line::Assign(place, right) => place_fits(place, most) && right_fits(right, most),
        Line::Update(place, _, right) => place_fits(place, most) && right_fits(right, most),
        Line::Step(step) => step_fits(step, most),
        Line::Call(call) => is_call(call) && fits_below(call, most),
        Line::Print(value) | Line::Error(value) | Line::Exit(value) => fits_below(value, most),
        Line::Println(value) | Line::Wait(value) | Line::Checkpoint(value) => {
            maybe_fits(value, most)
        }
        Line::Break | Line::Continue => true,
        Line::Return(right) => maybe_right_fits(right, most),
        Line::Alone(act) => act_fits(act, most),
    }
}

#[cycle(fits)]
fn right_fits(right: &RightSide, most: u8) -> bool
    ensures { result ≡ right_fits (right_of right.now) most }
{
    match right {
        RightSide::Expr(value) => fits_below(value, most),
        RightSide::Act(act) => act_fits(act, most),
    }
}

#[cycle(fits)]
fn maybe_right_fits(right: &Option<RightSide>, most: u8) -> bool
    ensures { result ≡ maybe_right_fits (to_maybe_right (option_map right_of right.now)) most }
{
    match right {
        Some(right) => right_fits(right, most),
        None => true,
    }
}

#[cycle(fits)]
fn act_fits(act: &Act, most: u8) -> bool
    ensures { result ≡ act_fits (act_of act.now) most }
{
    is_first(act.at) && act_form_fits(&act.form, most)
}

#[cycle(fits)]
fn act_form_fits(form: &ActForm, most: u8) -> bool
    ensures { result ≡ act_form_fits (act_form_of form.now) most }
{
    match form {
        ActForm::Sys(_) => true,
        ActForm::Task(settings, body) => maybe_settings_fit(settings, most) && body_fits(body),
        ActForm::Dep(settings, body) => {
            settings_fit(settings.as_slice(), most) && body_fits(body)
        }
        ActForm::Goal(target) => fits_below(target, most),
        ActForm::ParCall(_, arguments) => all_fit(arguments.as_slice(), most),
        ActForm::ParBlock(block) => block_fits_below(block, most),
    }
}

#[cycle(fits)]
fn block_fits(block: &Block, most: u8) -> bool
    ensures { result ≡ block_fits (block_of block.now) most }
{
    is_first(block.at) && stmts_fit(block.stmts.as_slice(), most)
}

#[cycle(fits)]
fn block_fits_below(block: &Block, most: u8) -> bool
    ensures { result ≡ below (block_fits (block_of block.now)) most }
{
    0 < most && block_fits(block, most - 1)
}

#[cycle(fits)]
fn stmts_fit(stmts: &[Stmt], most: u8) -> bool
    ensures { result ≡ stmts_fit (stmts_of stmts.now) most }
{
    for stmt in stmts {
        if !stmt_fits_below(stmt, most) {
            return false;
        }
    }
    true
}

fn function_fits(function: &Function, most: u8) -> bool
    ensures { result ≡ function_fits (function_of function.now) most }
{
    is_first(function.at)
        && result_fits(&function.result, most)
        && parameters_fit(function.parameters.as_slice(), most)
        && block_fits(&function.body, most)
}

fn include_fits(include: &Include) -> bool
    ensures { result ≡ include_fits include.now }
{
    is_first(include.at) && are_plain(include.path.as_slice())
}

fn part_fits(part: &Part, most: u8) -> bool
    ensures { result ≡ part_fits (part_of part.now) most }
{
    match part {
        Part::Function(function) => function_fits(function, most),
        Part::Include(include) => include_fits(include),
        Part::Stmt(stmt) => stmt_fits(stmt, most),
    }
}

fn parts_fit(parts: &[Part], most: u8) -> bool
    ensures { result ≡ parts_fit (map part_of parts.now) most }
{
    for part in parts {
        if !part_fits(part, most) {
            return false;
        }
    }
    true
}

fn script_fits(script: &Script) -> bool
    ensures { result ≡ script_fits (script_of script.now) }
{
    is_first(script.at)
        && has_no_files(&script.files)
        && parts_fit(script.parts.as_slice(), MAX_NESTING as u8)
}

/// Whether a script may be written as it is: shaped by the rules, and nested at most 200 deep.
pub fn legal(script: &Script) -> bool
    ensures { Decides result (IsLegal (script_of script.now)) }
{
    script_fits(script)
}
