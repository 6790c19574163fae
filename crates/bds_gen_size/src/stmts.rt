//! The sizes of statements, with the functions of the `par` blocks in them. The names in force are left as they were.
ghost use Rattle.std.specs.Prelude.{◌≡◌, ◌+◌, OnOk, IfOk, map};
ghost use Rattle.std.specs.Option.{option_map};
ghost use Rattle.bds_tree.specs.StmtTree.{for, switch};
ghost use Rattle.bds_tree.specs.StmtView.{stmt_of, stmts_of, block_of, line_of, right_of, act_of, small_of, suffix_of, case_of, cases_of};
ghost use Rattle.bds_tree.specs.View.{tree_of};
ghost use Rattle.bds_check_names.specs.Slots.{visible};
ghost use Rattle.bds_check_size.specs.Known.{with_known};
ghost use Rattle.bds_check_size.specs.StmtSize as sizes;
ghost use Rattle.bds_check_size.specs.ParSize as pars;
ghost use Rattle.bds_gen_expr.specs.Numbers.{visible_locals};
ghost use Rattle.bds_gen_expr.specs.Scope.{known, types_in};
ghost use Rattle.bds_gen_size.specs.Capped.{capped, whole_stmt, whole_stmts, whole_block, whole_line, whole_right, whole_act, whole_cases};

use crate::exprs::{all_size, expr_size, files_size};
use crate::names::{declare_small, declare_stmt, push_local, visible};
use crate::pieces::pieces_size;
use crate::places::{call_size, small_size, step_size, suffixes_size};
use crate::tasks::{rule_size, task_size};
use bds_gen_expr::{Locals, Scope};
use bds_tree::{Act, ActForm, Block, Case, Expr, Line, Place, RightSide, Small, Stmt, StmtForm};
use bds_value::{Boxed, ByteText, NoMemory, Ty};
use std::alloc::Global;
use std::mem;

/// How many instructions a statement has; past 64 bits the greatest number of these.
#[cycle(statements)]
pub fn stmt_size(alloc: Global, scope: &mut Scope, stmt: &Stmt) -> Result<u64, NoMemory>
    ensures size { IfOk result (λ n. n ≡ capped (whole_stmt (stmt_of stmt.now) (known scope.old))) }
    ensures names { OnOk result (scope.new ≡ scope.old) }
{
    match &stmt.form {
        StmtForm::Block(block) => block_size(alloc, scope, block),
        StmtForm::Empty => Ok(0),
        StmtForm::Line(line) => line_size(alloc, scope, line),
        StmtForm::If(condition, yes, None) => {
            let test = expr_size(scope, condition).saturating_add(1);
            let yes = stmt_size(alloc, scope, yes.get())?;
            Ok(test.saturating_add(yes))
        }
        StmtForm::If(condition, yes, Some(no)) => {
            let test = expr_size(scope, condition).saturating_add(2);
            let yes = stmt_size(alloc, scope, yes.get())?;
            let no = stmt_size(alloc, scope, no.get())?;
            Ok(test.saturating_add(yes).saturating_add(no))
        }
        StmtForm::While(condition, inner) => {
            let test = expr_size(scope, condition).saturating_add(3);
            let inner = stmt_size(alloc, scope, inner.get())?;
            Ok(test.saturating_add(inner))
        }
        StmtForm::For(first, condition, step, inner) => {
            for_size(alloc, scope, inner.get(), first, condition, step)
        }
        StmtForm::Each(ty, name, list, inner) => {
            let list = expr_size(scope, list).saturating_add(16);
            let inner = each_size(alloc, scope, inner.get(), name, ty)?;
            Ok(list.saturating_add(inner))
        }
        StmtForm::Switch(value, cases) => switch_size(alloc, scope, cases.as_slice(), value),
    }
}

fn condition_size(scope: &Scope, condition: &Option<Expr>) -> u64
    ensures { result ≡ capped (sizes.condition_size (types_in scope.now) (option_map tree_of condition.now)) }
{
    match condition {
        None => 1,
        Some(condition) => expr_size(scope, condition),
    }
}

/// A `for` with a head of three parts.
#[cycle(statements)]
#[tactic(auto, using(crate::proofs::Behind::names_rules))]
fn for_size(
    alloc: Global,
    scope: &mut Scope,
    inner: &Stmt,
    first: &Option<Boxed<Small>>,
    condition: &Option<Expr>,
    step: &Option<Boxed<Small>>,
) -> Result<u64, NoMemory>
    ensures size { IfOk result (λ n. n ≡ capped (sizes.form_stmt_size (for (option_map small_of first.now) (option_map tree_of condition.now) (option_map small_of step.now) (stmt_of inner.now)) (known scope.old) + pars.form_pars_size (for (option_map small_of first.now) (option_map tree_of condition.now) (option_map small_of step.now) (stmt_of inner.now)) (known scope.old))) }
    ensures names { OnOk result (scope.new ≡ scope.old) }
{
    let before = scope.locals.len();
    let first_part = small_size(scope, first);
    declare_small(alloc, scope, first)?;
    let test = condition_size(scope, condition);
    let body = stmt_size(alloc, scope, inner)?;
    let last_part = small_size(scope, step);
    scope.locals.truncate(before);
    Ok(for_sum(first_part, test, body, last_part))
}

/// The parts of a `for`, with its tick, its test and the jump back.
fn for_sum(first: u64, test: u64, body: u64, last: u64) -> u64
    ensures { result ≡ capped (first + test + body + last + 3) }
{
    first
        .saturating_add(test)
        .saturating_add(body)
        .saturating_add(last)
        .saturating_add(3)
}

/// The body of a list loop.
#[cycle(statements)]
#[tactic(auto, using(crate::proofs::Behind::names_rules))]
fn each_size(
    alloc: Global,
    scope: &mut Scope,
    inner: &Stmt,
    name: &ByteText,
    ty: &Ty,
) -> Result<u64, NoMemory>
    ensures size { IfOk result (λ n. n ≡ capped (whole_stmt (stmt_of inner.now) (with_known (known scope.old) name.now ty.now))) }
    ensures names { OnOk result (scope.new ≡ scope.old) }
{
    let before = scope.locals.len();
    push_local(alloc, scope, name, ty)?;
    let size = stmt_size(alloc, scope, inner)?;
    scope.locals.truncate(before);
    Ok(size)
}

/// The test of a label; `default` has none.
fn label_size(scope: &Scope, case: &Case) -> u64
    ensures { result ≡ capped (sizes.label_size (types_in scope.now) (case_of case.now)) }
{
    match &case.label {
        None => 0,
        Some(label) => expr_size(scope, label).saturating_add(4),
    }
}

fn labels_size(scope: &Scope, cases: &[Case]) -> u64
    ensures { result ≡ capped (sizes.labels_size (types_in scope.now) (cases_of cases.now)) }
{
    let mut sum: u64 = 0;
    for case in cases {
        let size = label_size(scope, case);
        sum = sum.saturating_add(size);
    }
    sum
}

/// A `switch`: its value, its labels, and the statements of its cases.
#[cycle(statements)]
fn switch_size(
    alloc: Global,
    scope: &mut Scope,
    cases: &[Case],
    value: &Expr,
) -> Result<u64, NoMemory>
    ensures size { IfOk result (λ n. n ≡ capped (sizes.form_stmt_size (switch (tree_of value.now) (cases_of cases.now)) (known scope.old) + pars.form_pars_size (switch (tree_of value.now) (cases_of cases.now)) (known scope.old))) }
    ensures names { OnOk result (scope.new ≡ scope.old) }
{
    let value = expr_size(scope, value).saturating_add(2);
    let labels = labels_size(scope, cases);
    let inside = cases_size(alloc, scope, cases)?;
    Ok(value.saturating_add(labels).saturating_add(inside))
}

/// The statements of all cases.
#[cycle(statements)]
fn cases_size(alloc: Global, scope: &mut Scope, cases: &[Case]) -> Result<u64, NoMemory>
    ensures size { IfOk result (λ n. n ≡ capped (whole_cases (cases_of cases.now) (known scope.old))) }
    ensures names { OnOk result (scope.new ≡ scope.old) }
{
    let mut sum: u64 = 0;
    for case in cases {
        let size = stmts_size(alloc, scope, case.stmts.as_slice())?;
        sum = sum.saturating_add(size);
    }
    Ok(sum)
}

/// The statements of a block.
#[cycle(statements)]
pub fn block_size(alloc: Global, scope: &mut Scope, block: &Block) -> Result<u64, NoMemory>
    ensures size { IfOk result (λ n. n ≡ capped (whole_block (block_of block.now) (known scope.old))) }
    ensures names { OnOk result (scope.new ≡ scope.old) }
{
    stmts_size(alloc, scope, block.stmts.as_slice())
}

/// Statements behind each other.
#[cycle(statements)]
#[tactic(auto, using(crate::proofs::Behind::names_rules))]
fn stmts_size(alloc: Global, scope: &mut Scope, stmts: &[Stmt]) -> Result<u64, NoMemory>
    ensures size { IfOk result (λ n. n ≡ capped (whole_stmts (stmts_of stmts.now) (known scope.old))) }
    ensures names { OnOk result (scope.new ≡ scope.old) }
{
    let before = scope.locals.len();
    let mut sum: u64 = 0;
    for stmt in stmts {
        let size = stmt_size(alloc, scope, stmt)?;
        sum = sum.saturating_add(size);
        declare_stmt(alloc, scope, stmt)?;
    }
    scope.locals.truncate(before);
    Ok(sum)
}

/// A line.
#[cycle(statements)]
pub fn line_size(alloc: Global, scope: &mut Scope, line: &Line) -> Result<u64, NoMemory>
    ensures size { IfOk result (λ n. n ≡ capped (whole_line (line_of line.now) (known scope.old))) }
    ensures names { OnOk result (scope.new ≡ scope.old) }
{
    match line {
        Line::Declare(_, _, None) => Ok(2),
        Line::Declare(_, _, Some(right)) => taken_size(alloc, scope, right),
        Line::Infer(_, right) => taken_size(alloc, scope, right),
        Line::Assign(place, right) => taking_size(alloc, scope, right, place),
        Line::Update(place, _, right) => taking_size(alloc, scope, right, place),
        Line::Step(step) => Ok(step_size(scope, step)),
        Line::Call(call) => Ok(call_size(scope, call)),
        Line::Print(value) => Ok(expr_size(scope, value).saturating_add(2)),
        Line::Println(None) => Ok(2),
        Line::Println(Some(value)) => Ok(expr_size(scope, value).saturating_add(4)),
        Line::Error(message) => Ok(expr_size(scope, message).saturating_add(1)),
        Line::Exit(status) => Ok(expr_size(scope, status).saturating_add(1)),
        Line::Break => Ok(1),
        Line::Continue => Ok(1),
        Line::Return(None) => Ok(1),
        Line::Return(Some(right)) => taken_size(alloc, scope, right),
        Line::Wait(None) => Ok(1),
        Line::Wait(Some(files)) => Ok(files_size(scope, files).saturating_add(1)),
        Line::Checkpoint(None) => Ok(1),
        Line::Checkpoint(Some(path)) => Ok(expr_size(scope, path).saturating_add(1)),
        Line::Alone(act) => alone_size(alloc, scope, act),
    }
}

/// What is on the right, and one more that takes it.
#[cycle(statements)]
fn taken_size(alloc: Global, scope: &mut Scope, right: &RightSide) -> Result<u64, NoMemory>
    ensures size { IfOk result (λ n. n ≡ capped (whole_right (right_of right.now) (known scope.old) + 1)) }
    ensures names { OnOk result (scope.new ≡ scope.old) }
{
    let size = right_size(alloc, scope, right)?;
    Ok(size.saturating_add(1))
}

/// A place that takes what is on the right.
#[cycle(statements)]
fn taking_size(
    alloc: Global,
    scope: &mut Scope,
    right: &RightSide,
    place: &Place,
) -> Result<u64, NoMemory>
    ensures size { IfOk result (λ n. n ≡ capped (sizes.suffixes_size (types_in scope.old) (map suffix_of place.now.suffixes) + whole_right (right_of right.now) (known scope.old) + 1)) }
    ensures names { OnOk result (scope.new ≡ scope.old) }
{
    let steps = suffixes_size(scope, place.suffixes.as_slice()).saturating_add(1);
    let right = right_size(alloc, scope, right)?;
    Ok(steps.saturating_add(right))
}

#[cycle(statements)]
fn right_size(alloc: Global, scope: &mut Scope, right: &RightSide) -> Result<u64, NoMemory>
    ensures size { IfOk result (λ n. n ≡ capped (whole_right (right_of right.now) (known scope.old))) }
    ensures names { OnOk result (scope.new ≡ scope.old) }
{
    match right {
        RightSide::Expr(expr) => Ok(expr_size(scope, expr)),
        RightSide::Act(act) => act_size(alloc, scope, act),
    }
}

/// An act that stands alone: only `dep` leaves nothing to drop.
#[cycle(statements)]
fn alone_size(alloc: Global, scope: &mut Scope, act: &Act) -> Result<u64, NoMemory>
    ensures size { IfOk result (λ n. n ≡ capped (whole_act (act_of act.now) (known scope.old) + sizes.dropped_act_size (act_of act.now))) }
    ensures names { OnOk result (scope.new ≡ scope.old) }
{
    let dropped = dropped_size(act);
    let size = act_size(alloc, scope, act)?;
    Ok(size.saturating_add(dropped))
}

fn dropped_size(act: &Act) -> u64
    ensures { result ≡ sizes.dropped_act_size (act_of act.now) }
{
    match &act.form {
        ActForm::Dep(_, _) => 0,
        ActForm::Sys(_) => 1,
        ActForm::Task(_, _) => 1,
        ActForm::Goal(_) => 1,
        ActForm::ParCall(_, _) => 1,
        ActForm::ParBlock(_) => 1,
    }
}

/// An act.
#[cycle(statements)]
fn act_size(alloc: Global, scope: &mut Scope, act: &Act) -> Result<u64, NoMemory>
    ensures size { IfOk result (λ n. n ≡ capped (whole_act (act_of act.now) (known scope.old))) }
    ensures names { OnOk result (scope.new ≡ scope.old) }
{
    match &act.form {
        ActForm::Sys(pieces) => Ok(pieces_size(scope, pieces.as_slice()).saturating_add(1)),
        ActForm::Task(None, body) => Ok(task_size(scope, &[], body)),
        ActForm::Task(Some(settings), body) => Ok(task_size(scope, settings.as_slice(), body)),
        ActForm::Dep(settings, body) => Ok(rule_size(scope, settings.as_slice(), body)),
        ActForm::Goal(files) => Ok(files_size(scope, files).saturating_add(1)),
        ActForm::ParCall(_, arguments) => {
            Ok(all_size(scope, arguments.as_slice()).saturating_add(1))
        }
        ActForm::ParBlock(block) => par_size(alloc, scope, block),
    }
}

/// A `par` block: what pushes the locals that it sees, and its function.
#[cycle(statements)]
#[tactic(auto, using(crate::proofs::Behind::names_rules))]
fn par_size(alloc: Global, scope: &mut Scope, block: &Block) -> Result<u64, NoMemory>
    ensures size { IfOk result (λ n. n ≡ capped (visible (known scope.old).locals + 1 + (pars.block_pars_size (block_of block.now) (pars.in_par (known scope.old)) + (sizes.block_size (block_of block.now) (pars.in_par (known scope.old)) + 1)))) }
    ensures names { OnOk result (scope.new ≡ scope.old) }
{
    let seen = visible(alloc, &scope.locals)?;
    let count = seen.len() as u64;
    let inside = inside_size(alloc, scope, block, seen)?;
    Ok(count.saturating_add(1).saturating_add(inside))
}

/// The function of a `par` block that sees these locals.
#[cycle(statements)]
#[tactic(auto, using(crate::proofs::Behind::names_rules))]
fn inside_size(
    alloc: Global,
    scope: &mut Scope,
    block: &Block,
    seen: Locals,
) -> Result<u64, NoMemory>
    requires { seen ≡ visible_locals scope.old.locals }
    ensures size { IfOk result (λ n. n ≡ capped (pars.block_pars_size (block_of block.now) (pars.in_par (known scope.old)) + (sizes.block_size (block_of block.now) (pars.in_par (known scope.old)) + 1))) }
    ensures names { OnOk result (scope.new ≡ scope.old) }
{
    let outer = mem::replace(&mut scope.locals, seen);
    let inside = block_size(alloc, scope, block)?;
    scope.locals = outer;
    Ok(inside.saturating_add(1))
}

/// The functions of `par` blocks in an act.
pub fn act_pars_size(alloc: Global, scope: &mut Scope, act: &Act) -> Result<u64, NoMemory>
    ensures size { IfOk result (λ n. n ≡ capped (pars.act_pars_size (act_of act.now) (known scope.old))) }
    ensures names { OnOk result (scope.new ≡ scope.old) }
{
    match &act.form {
        ActForm::ParBlock(block) => {
            let seen = visible(alloc, &scope.locals)?;
            inside_size(alloc, scope, block, seen)
        }
        ActForm::Sys(_) => Ok(0),
        ActForm::Task(_, _) => Ok(0),
        ActForm::Dep(_, _) => Ok(0),
        ActForm::Goal(_) => Ok(0),
        ActForm::ParCall(_, _) => Ok(0),
    }
}

/// The functions of `par` blocks on the right of a line.
pub fn right_pars_size(alloc: Global, scope: &mut Scope, right: &RightSide) -> Result<u64, NoMemory>
    ensures size { IfOk result (λ n. n ≡ capped (pars.right_pars_size (right_of right.now) (known scope.old))) }
    ensures names { OnOk result (scope.new ≡ scope.old) }
{
    match right {
        RightSide::Expr(_) => Ok(0),
        RightSide::Act(act) => act_pars_size(alloc, scope, act),
    }
}
