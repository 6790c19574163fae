//! The number of a file at each node of a statement.
ghost use Rattle.std.specs.Prelude.{◌≡◌};
ghost use Rattle.std.specs.Option.{option_map};
ghost use Rattle.bds_tree.specs.StmtTree.{to_maybe_stmt, to_maybe_right};
ghost use Rattle.bds_tree.specs.StmtView.{stmt_of, stmt_form_of, line_of, right_of, act_of, act_form_of, block_of, case_of, cases_of, stmts_of};
ghost use Rattle.bds_check_typing.specs.Numbered.{in_file, kept_ty};
ghost use Rattle.bds_check_typing.specs.Remade.{remade_else, remade_maybe_right};
ghost use Rattle.bds_front_numbers.specs.InFile.{stmt_in, stmt_form_in, line_in, right_in, act_in, act_form_in, block_in, case_in, cases_in, stmts_in};

use crate::exprs::{number_at, number_expr, number_exprs, number_some};
use crate::places::{
    number_body, number_options, number_place, number_settings, number_small, number_step,
};
use bds_tree::{Act, ActForm, Block, Case, Cases, Line, RightSide, Stmt, StmtForm, Stmts};
use bds_value::Boxed;

/// Numbers each node of a statement.
#[cycle(stmts)]
pub fn number_stmt(file: u32, stmt: &mut Stmt)
    ensures { stmt_of stmt.new ≡ stmt_in file (stmt_of stmt.old) }
{
    number_at(file, &mut stmt.at);
    number_stmt_form(file, &mut stmt.form);
}

#[cycle(stmts)]
fn number_stmt_form(file: u32, form: &mut StmtForm)
    ensures { stmt_form_of form.new ≡ stmt_form_in file (stmt_form_of form.old) }
{
    match form {
        StmtForm::Block(block) => number_block(file, block),
        StmtForm::Empty => {}
        StmtForm::Line(line) => number_line(file, line),
        StmtForm::If(condition, then_part, else_part) => {
            number_expr(file, condition);
            number_boxed(file, then_part);
            number_else(file, else_part);
        }
        StmtForm::While(condition, body) => {
            number_expr(file, condition);
            number_boxed(file, body);
        }
        StmtForm::For(first, condition, last, body) => {
            number_small(file, first);
            number_some(file, condition);
            number_small(file, last);
            number_boxed(file, body);
        }
        StmtForm::Each(_, _, list, body) => {
            number_expr(file, list);
            number_boxed(file, body);
        }
        StmtForm::Switch(value, cases) => {
            number_expr(file, value);
            number_cases(file, cases);
        }
    }
}

#[cycle(stmts)]
fn number_cases(file: u32, cases: &mut Cases)
    ensures { cases_of cases.new ≡ cases_in file (cases_of cases.old) }
{
    for i in 0..cases.len() {
        number_case(file, cases.at_mut(i));
    }
}

#[cycle(stmts)]
fn number_case(file: u32, case: &mut Case)
    ensures { case_of case.new ≡ case_in file (case_of case.old) }
{
    number_at(file, &mut case.at);
    number_some(file, &mut case.label);
    number_stmts(file, &mut case.stmts);
}

#[cycle(stmts)]
fn number_boxed(file: u32, stmt: &mut Boxed<Stmt>)
    ensures { stmt_of stmt.new ≡ stmt_in file (stmt_of stmt.old) }
{
    number_stmt(file, stmt.get_mut());
}

#[cycle(stmts)]
fn number_else(file: u32, else_part: &mut Option<Boxed<Stmt>>)
    ensures { to_maybe_stmt (option_map stmt_of else_part.new) ≡ remade_else (in_file file) kept_ty (to_maybe_stmt (option_map stmt_of else_part.old)) }
{
    match else_part {
        None => {}
        Some(stmt) => number_boxed(file, stmt),
    }
}

#[cycle(stmts)]
fn number_line(file: u32, line: &mut Line)
    ensures { line_of line.new ≡ line_in file (line_of line.old) }
{
    match line {
        Line::Declare(_, _, value) => number_maybe_right(file, value),
        Line::Infer(_, value) => number_right(file, value),
        Line::Assign(place, value) => {
            number_place(file, place);
            number_right(file, value);
        }
        Line::Update(place, _, value) => {
            number_place(file, place);
            number_right(file, value);
        }
        Line::Step(step) => number_step(file, step),
        Line::Call(call) => number_expr(file, call),
        Line::Print(value) => number_expr(file, value),
        Line::Println(value) => number_some(file, value),
        Line::Error(message) => number_expr(file, message),
        Line::Exit(status) => number_expr(file, status),
        Line::Break | Line::Continue => {}
        Line::Return(value) => number_maybe_right(file, value),
        Line::Wait(ids) => number_some(file, ids),
        Line::Checkpoint(path) => number_some(file, path),
        Line::Alone(act) => number_act(file, act),
    }
}

#[cycle(stmts)]
fn number_right(file: u32, right: &mut RightSide)
    ensures { right_of right.new ≡ right_in file (right_of right.old) }
{
    match right {
        RightSide::Expr(value) => number_expr(file, value),
        RightSide::Act(act) => number_act(file, act),
    }
}

#[cycle(stmts)]
fn number_maybe_right(file: u32, right: &mut Option<RightSide>)
    ensures { to_maybe_right (option_map right_of right.new) ≡ remade_maybe_right (in_file file) kept_ty (to_maybe_right (option_map right_of right.old)) }
{
    match right {
        None => {}
        Some(right) => number_right(file, right),
    }
}

#[cycle(stmts)]
fn number_act(file: u32, act: &mut Act)
    ensures { act_of act.new ≡ act_in file (act_of act.old) }
{
    number_at(file, &mut act.at);
    number_act_form(file, &mut act.form);
}

#[cycle(stmts)]
fn number_act_form(file: u32, form: &mut ActForm)
    ensures { act_form_of form.new ≡ act_form_in file (act_form_of form.old) }
{
    match form {
        ActForm::Sys(_) => {}
        ActForm::Task(settings, body) => {
            number_options(file, settings);
            number_body(file, body);
        }
        ActForm::Dep(settings, body) => {
            number_settings(file, settings);
            number_body(file, body);
        }
        ActForm::Goal(files) => number_expr(file, files),
        ActForm::ParCall(_, arguments) => number_exprs(file, arguments),
        ActForm::ParBlock(block) => number_block(file, block),
    }
}

/// Numbers each node of a block.
#[cycle(stmts)]
pub fn number_block(file: u32, block: &mut Block)
    ensures { block_of block.new ≡ block_in file (block_of block.old) }
{
    number_at(file, &mut block.at);
    number_stmts(file, &mut block.stmts);
}

#[cycle(stmts)]
fn number_stmts(file: u32, stmts: &mut Stmts)
    ensures { stmts_of stmts.new ≡ stmts_in file (stmts_of stmts.old) }
{
    for i in 0..stmts.len() {
        number_stmt(file, stmts.at_mut(i));
    }
}
