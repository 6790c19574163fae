//! The tokens that statements and scripts spell.

ghost use Rattle.std.specs.Prelude.{◌≡◌, ◌++◌, ◌∷◌, [], OnOk, IfOk, ◌||◌, true, map};
ghost use Rattle.std.specs.Option.{option_map};
ghost use Rattle.bds_tree.specs.View.{tree_of};
ghost use Rattle.bds_tree.specs.StmtTree.{to_maybe_stmt, to_maybe_right};
ghost use Rattle.bds_tree.specs.StmtView.{stmt_of, stmt_form_of, line_of, right_of, act_of, block_of, case_of, stmts_of, cases_of, function_of, part_of, script_of};
ghost use Rattle.bds_tree.specs.StmtSpelling.{body_ends_in_brace, act_ends_in_brace, right_ends_in_brace, maybe_ends_in_brace, line_ends_in_brace, has_else, spell_script};
ghost use Rattle.bds_tree.specs.Words.{words, words_of};
ghost use Rattle.bds_spell.specs.StmtWords.{stmt_words, cases_words, case_words, else_words, line_words, right_words, maybe_right_words, start_right_words, act_words, block_words, stmts_words, line_end_words, function_words, include_words, part_words, parts_words};

use crate::spell_expr::{put, put_expr, put_name, put_text};
use crate::spell_heads::{
    put_assigned, put_dep, put_each, put_for, put_head, put_inferred, put_label, put_maybe_valued,
    put_par_call, put_sys_act, put_task, put_typed, put_updated, put_valued,
};
use crate::spell_parts::{put_parameters, put_step, put_type};
use bds_tree::{
    Act, ActForm, Block, Body, Case, Function, Include, Line, Part, RightSide, Script, Stmt,
    StmtForm, Tokens, Word,
};
use bds_value::{Boxed, Listed, NoMemory};
use std::alloc::Global;

fn body_ends_in_brace(body: &Body) -> bool
    ensures { result ≡ body_ends_in_brace body.now }
{
    matches!(body, Body::Block(_))
}

fn act_ends_in_brace(act: &Act) -> bool
    ensures { result ≡ act_ends_in_brace (act_of act.now) }
{
    match &act.form {
        ActForm::Task(_, body) | ActForm::Dep(_, body) => body_ends_in_brace(body),
        ActForm::ParBlock(_) => true,
        _ => false,
    }
}

fn right_ends_in_brace(right: &RightSide) -> bool
    ensures { result ≡ right_ends_in_brace (right_of right.now) }
{
    match right {
        RightSide::Act(act) => act_ends_in_brace(act),
        RightSide::Expr(_) => false,
    }
}

fn maybe_ends_in_brace(right: &Option<RightSide>) -> bool
    ensures { result ≡ maybe_ends_in_brace (to_maybe_right (option_map right_of right.now)) }
{
    match right {
        Some(right) => right_ends_in_brace(right),
        None => false,
    }
}

/// Whether the last token of a line is a block `}`.
pub fn line_ends_in_brace(line: &Line) -> bool
    ensures { result ≡ line_ends_in_brace (line_of line.now) }
{
    match line {
        Line::Declare(_, _, right) => maybe_ends_in_brace(right),
        Line::Infer(_, right) => right_ends_in_brace(right),
        Line::Assign(_, right) => right_ends_in_brace(right),
        Line::Update(_, _, right) => right_ends_in_brace(right),
        Line::Return(right) => maybe_ends_in_brace(right),
        Line::Alone(act) => act_ends_in_brace(act),
        _ => false,
    }
}

fn has_else(no: &Option<Boxed<Stmt>>) -> bool
    ensures { result ≡ has_else (to_maybe_stmt (option_map stmt_of no.now)) }
{
    match no {
        Some(_) => true,
        None => false,
    }
}

fn put_line_end(line: &Line, out: &mut Tokens, at: u32, before_else: bool) -> Result<(), NoMemory>
    ensures { OnOk result (words out.new ≡ words out.old ++ line_end_words before_else (line_of line.now)) }
{
    if before_else || line_ends_in_brace(line) {
        Ok(())
    } else {
        put(out, at, Word::Semicolon)
    }
}

/// Puts the tokens of a statement at the end; `before_else` says whether an `else` comes next.
#[cycle(statements)]
pub fn put_stmt(
    stmt: &Stmt,
    alloc: Global,
    out: &mut Tokens,
    before_else: bool,
) -> Result<(), NoMemory>
    ensures { OnOk result (words out.new ≡ words out.old ++ stmt_words (stmt_of stmt.now) before_else) }
{
    let line = stmt.at.line;
    match &stmt.form {
        StmtForm::Block(block) => put_block(block, alloc, out),
        StmtForm::Empty => put(out, line, Word::Semicolon),
        StmtForm::Line(inner) => {
            put_line(inner, alloc, out, line)?;
            put_line_end(inner, out, line, before_else)
        }
        StmtForm::If(condition, yes, no) => {
            put_head(condition, alloc, out, line, Word::If)?;
            put_stmt(yes.get(), alloc, out, has_else(no) || before_else)?;
            put_else(no, alloc, out, line, before_else)
        }
        StmtForm::While(condition, body) => {
            put_head(condition, alloc, out, line, Word::While)?;
            put_stmt(body.get(), alloc, out, before_else)
        }
        StmtForm::For(first, condition, next, body) => {
            put_for(first, condition, next, alloc, out, line)?;
            put_stmt(body.get(), alloc, out, before_else)
        }
        StmtForm::Each(ty, name, list, body) => {
            put_each(ty, name, list, alloc, out, line)?;
            put_stmt(body.get(), alloc, out, before_else)
        }
        StmtForm::Switch(value, cases) => {
            put_head(value, alloc, out, line, Word::Switch)?;
            put(out, line, Word::OpenBlock)?;
            put_cases(cases.as_slice(), alloc, out)?;
            put(out, line, Word::CloseBlock)
        }
    }
}

#[cycle(statements)]
fn put_cases(cases: &[Case], alloc: Global, out: &mut Tokens) -> Result<(), NoMemory>
    ensures { OnOk result (words out.new ≡ words out.old ++ cases_words (cases_of cases.now)) }
{
    for case in cases {
        put_case(case, alloc, out)?;
    }
    Ok(())
}

#[cycle(statements)]
fn put_case(case: &Case, alloc: Global, out: &mut Tokens) -> Result<(), NoMemory>
    ensures { OnOk result (words out.new ≡ words out.old ++ case_words (case_of case.now)) }
{
    put_label(&case.label, alloc, out, case.at.line)?;
    put(out, case.at.line, Word::CaseColon)?;
    put_stmts(case.stmts.as_slice(), alloc, out)
}

#[cycle(statements)]
fn put_else(
    no: &Option<Boxed<Stmt>>,
    alloc: Global,
    out: &mut Tokens,
    line: u32,
    before_else: bool,
) -> Result<(), NoMemory>
    ensures { OnOk result (words out.new ≡ words out.old ++ else_words (to_maybe_stmt (option_map stmt_of no.now)) before_else) }
{
    match no {
        Some(no) => {
            put(out, line, Word::Else)?;
            put_stmt(no.get(), alloc, out, before_else)
        }
        None => Ok(()),
    }
}

#[cycle(statements)]
fn put_line(inner: &Line, alloc: Global, out: &mut Tokens, line: u32) -> Result<(), NoMemory>
    ensures { OnOk result (words out.new ≡ words out.old ++ line_words (line_of inner.now)) }
{
    match inner {
        Line::Declare(ty, name, start) => {
            put_typed(ty, name, alloc, out, line)?;
            put_start_right(start, alloc, out, line)
        }
        Line::Infer(name, right) => {
            put_inferred(name, alloc, out, line)?;
            put_right(right, alloc, out)
        }
        Line::Assign(place, right) => {
            put_assigned(place, alloc, out, line)?;
            put_right(right, alloc, out)
        }
        Line::Update(place, op, right) => {
            put_updated(place, *op, alloc, out, line)?;
            put_right(right, alloc, out)
        }
        Line::Step(step) => put_step(step, alloc, out),
        Line::Call(call) => put_expr(call, alloc, out),
        Line::Print(value) => put_valued(value, alloc, out, line, Word::Print),
        Line::Println(value) => put_maybe_valued(value, alloc, out, line, Word::Println),
        Line::Error(message) => put_valued(message, alloc, out, line, Word::Error),
        Line::Exit(code) => put_valued(code, alloc, out, line, Word::Exit),
        Line::Break => put(out, line, Word::Break),
        Line::Continue => put(out, line, Word::Continue),
        Line::Return(right) => {
            put(out, line, Word::Return)?;
            put_maybe_right(right, alloc, out)
        }
        Line::Wait(ids) => put_maybe_valued(ids, alloc, out, line, Word::Wait),
        Line::Checkpoint(path) => put_maybe_valued(path, alloc, out, line, Word::Checkpoint),
        Line::Alone(act) => put_act(act, alloc, out),
    }
}

#[cycle(statements)]
fn put_right(right: &RightSide, alloc: Global, out: &mut Tokens) -> Result<(), NoMemory>
    ensures { OnOk result (words out.new ≡ words out.old ++ right_words (right_of right.now)) }
{
    match right {
        RightSide::Expr(value) => put_expr(value, alloc, out),
        RightSide::Act(act) => put_act(act, alloc, out),
    }
}

#[cycle(statements)]
fn put_maybe_right(
    right: &Option<RightSide>,
    alloc: Global,
    out: &mut Tokens,
) -> Result<(), NoMemory>
    ensures { OnOk result (words out.new ≡ words out.old ++ maybe_right_words (to_maybe_right (option_map right_of right.now))) }
{
    match right {
        Some(right) => put_right(right, alloc, out),
        None => Ok(()),
    }
}

#[cycle(statements)]
fn put_start_right(
    right: &Option<RightSide>,
    alloc: Global,
    out: &mut Tokens,
    line: u32,
) -> Result<(), NoMemory>
    ensures { OnOk result (words out.new ≡ words out.old ++ start_right_words (to_maybe_right (option_map right_of right.now))) }
{
    match right {
        Some(right) => {
            put(out, line, Word::Assign)?;
            put_right(right, alloc, out)
        }
        None => Ok(()),
    }
}

#[cycle(statements)]
fn put_act(act: &Act, alloc: Global, out: &mut Tokens) -> Result<(), NoMemory>
    ensures { OnOk result (words out.new ≡ words out.old ++ act_words (act_of act.now)) }
{
    let line = act.at.line;
    match &act.form {
        ActForm::Sys(pieces) => put_sys_act(pieces, alloc, out, line),
        ActForm::Task(settings, body) => put_task(settings, body, alloc, out, line),
        ActForm::Dep(settings, body) => put_dep(settings, body, alloc, out, line),
        ActForm::Goal(target) => put_valued(target, alloc, out, line, Word::Goal),
        ActForm::ParCall(name, arguments) => put_par_call(name, arguments, alloc, out, line),
        ActForm::ParBlock(block) => {
            put(out, line, Word::Par)?;
            put_block(block, alloc, out)
        }
    }
}

#[cycle(statements)]
fn put_block(block: &Block, alloc: Global, out: &mut Tokens) -> Result<(), NoMemory>
    ensures { OnOk result (words out.new ≡ words out.old ++ block_words (block_of block.now)) }
{
    put(out, block.at.line, Word::OpenBlock)?;
    put_stmts(block.stmts.as_slice(), alloc, out)?;
    put(out, block.at.line, Word::CloseBlock)
}

#[cycle(statements)]
fn put_stmts(stmts: &[Stmt], alloc: Global, out: &mut Tokens) -> Result<(), NoMemory>
    ensures { OnOk result (words out.new ≡ words out.old ++ stmts_words (stmts_of stmts.now)) }
{
    for stmt in stmts {
        put_stmt(stmt, alloc, out, false)?;
    }
    Ok(())
}

fn put_function(function: &Function, alloc: Global, out: &mut Tokens) -> Result<(), NoMemory>
    ensures { OnOk result (words out.new ≡ words out.old ++ function_words (function_of function.now)) }
{
    let line = function.at.line;
    put_type(&function.result, out, line)?;
    put_name(alloc, out, line, &function.name)?;
    put(out, line, Word::OpenRound)?;
    put_parameters(function.parameters.as_slice(), alloc, out, line)?;
    put_block(&function.body, alloc, out)
}

fn put_include(include: &Include, alloc: Global, out: &mut Tokens) -> Result<(), NoMemory>
    ensures { OnOk result (words out.new ≡ words out.old ++ include_words include.now) }
{
    let line = include.at.line;
    put(out, line, Word::Include)?;
    put_text(alloc, out, line, &include.path)?;
    put(out, line, Word::Semicolon)
}

fn put_part(part: &Part, alloc: Global, out: &mut Tokens) -> Result<(), NoMemory>
    ensures { OnOk result (words out.new ≡ words out.old ++ part_words (part_of part.now)) }
{
    match part {
        Part::Function(function) => put_function(function, alloc, out),
        Part::Include(include) => put_include(include, alloc, out),
        Part::Stmt(stmt) => put_stmt(stmt, alloc, out, false),
    }
}

fn put_parts(parts: &[Part], alloc: Global, out: &mut Tokens) -> Result<(), NoMemory>
    ensures { OnOk result (words out.new ≡ words out.old ++ parts_words (map part_of parts.now)) }
{
    for part in parts {
        put_part(part, alloc, out)?;
    }
    Ok(())
}

/// The tokens that a script spells. Their words are the script's spelling. Each stands on the line on which the form begins that it
/// is a part of, so a form that was written on several lines comes back on one; no clause speaks of these lines.
pub fn spell(alloc: Global, script: &Script) -> Result<Tokens, NoMemory>
    ensures { IfOk result (λ tokens. words tokens ≡ words_of (spell_script (script_of script.now))) }
{
    let mut tokens = Listed::new(alloc);
    put_parts(script.parts.as_slice(), alloc, &mut tokens)?;
    Ok(tokens)
}
