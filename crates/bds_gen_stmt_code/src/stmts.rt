//! Statements: what stands within is written between what begins and what ends it.
ghost use Rattle.std.specs.Prelude.{◌≡◌, [], Some, OnOk, length};
ghost use Rattle.std.specs.Option.{option_map};
ghost use Rattle.bds_tree.specs.StmtTree as tree;
ghost use Rattle.bds_tree.specs.StmtView.{small_of, place_of, stmt_of, stmt_form_of, line_of, right_of, act_of, act_form_of, block_of, stmts_of, case_of, cases_of};
ghost use Rattle.bds_tree.specs.View.{tree_of};
ghost use Rattle.bds_gen_stmt.specs.FunctionCode.{at_of_block};
ghost use Rattle.bds_gen_stmt.specs.PlaceCode.{kinds_of};
ghost use Rattle.bds_gen_stmt_code.specs.Bodies.{opened, around_of, closed};
ghost use Rattle.bds_gen_stmt_code.specs.GenParts.{steps_above};
ghost use Rattle.bds_gen_stmt_code.specs.GenStmts.{stepped_to, taken, gen_stmt, gen_stmt_form, gen_inner, gen_within, gen_line, gen_right, gen_act, gen_block, gen_stmts, gen_cases, gen_case};

use crate::blocks::{close, enter, in_force, leave, open};
use crate::body::Unfinished;
use crate::control::{
    begin_each, begin_else, begin_for, begin_if, begin_while, end_each, end_else, end_for, end_if,
    end_while,
};
use crate::places::change_number;
use crate::rights::{
    begin_taking, declare_with, drop_act, end_taking, write_plain, write_plain_act, write_return,
};
use crate::switches::{begin_case, begin_switch, end_switch, jump_of};
use bds_check_rules::right_type;
use bds_code::Shape;
use bds_gen_expr::write_expr;
use bds_tree::{Act, ActForm, Block, Case, Expr, Line, Place, RightSide, Small, Stmt, StmtForm};
use bds_value::change_numbers::ASSIGN;
use bds_value::{At, Boxed, ByteText, NoMemory, Ty};
use std::alloc::Global;

/// A statement.
#[cycle(stmts)]
pub fn write_stmt(alloc: Global, unit: &mut Unfinished, stmt: &Stmt) -> Result<(), NoMemory>
    ensures { OnOk result (unit.new ≡ gen_stmt (stmt_of stmt.now) unit.old) }
{
    write_form(alloc, unit, stmt.at, &stmt.form)
}

#[cycle(stmts)]
fn write_form(alloc: Global, unit: &mut Unfinished, at: At, form: &StmtForm) -> Result<(), NoMemory>
    ensures { OnOk result (unit.new ≡ gen_stmt_form (stmt_form_of form.now) at unit.old) }
{
    match form {
        StmtForm::Block(block) => write_within(alloc, unit, block),
        StmtForm::Empty => Ok(()),
        StmtForm::Line(line) => write_line(alloc, unit, at, line),
        StmtForm::If(condition, way, None) => write_if(alloc, unit, at, condition, way.get()),
        StmtForm::If(condition, way, Some(other)) => {
            write_if_else(alloc, unit, at, condition, way.get(), other.get())
        }
        StmtForm::While(condition, inner) => write_while(alloc, unit, at, condition, inner.get()),
        StmtForm::For(first, condition, step, inner) => {
            write_for(alloc, unit, at, first, condition, step, inner.get())
        }
        StmtForm::Each(ty, name, list, inner) => {
            write_each(alloc, unit, at, ty, name, list, inner.get())
        }
        StmtForm::Switch(value, cases) => { write_switch(alloc, unit, at, value, cases.as_slice()) }
    }
}

/// A statement within another: what is declared there isn't in force behind it, and no global.
#[cycle(stmts)]
fn write_inner(alloc: Global, unit: &mut Unfinished, stmt: &Stmt) -> Result<(), NoMemory>
    ensures { OnOk result (unit.new ≡ gen_inner (stmt_of stmt.now) unit.old) }
{
    let before = enter(&mut unit.body);
    write_stmt(alloc, unit, stmt)?;
    leave(&mut unit.body, before);
    Ok(())
}

#[cycle(stmts)]
fn write_within(alloc: Global, unit: &mut Unfinished, block: &Block) -> Result<(), NoMemory>
    ensures { OnOk result (unit.new ≡ gen_within (block_of block.now) unit.old) }
{
    let before = enter(&mut unit.body);
    write_block(alloc, unit, block)?;
    leave(&mut unit.body, before);
    Ok(())
}

/// The statements of a block.
#[cycle(stmts)]
pub fn write_block(alloc: Global, unit: &mut Unfinished, block: &Block) -> Result<(), NoMemory>
    ensures { OnOk result (unit.new ≡ gen_block (block_of block.now) unit.old) }
{
    write_stmts(alloc, unit, block.stmts.as_slice())
}

#[cycle(stmts)]
fn write_stmts(alloc: Global, unit: &mut Unfinished, stmts: &[Stmt]) -> Result<(), NoMemory>
    ensures { OnOk result (unit.new ≡ gen_stmts (stmts_of stmts.now) unit.old) }
{
    for stmt in stmts {
        write_stmt(alloc, unit, stmt)?;
    }
    Ok(())
}

#[cycle(stmts)]
fn write_if(
    alloc: Global,
    unit: &mut Unfinished,
    at: At,
    condition: &Expr,
    way: &Stmt,
) -> Result<(), NoMemory>
    ensures { OnOk result (unit.new ≡ gen_stmt_form (tree.when (tree_of condition.now) (stmt_of way.now) tree.no_stmt) at unit.old) }
{
    let test = begin_if(alloc, unit, at, condition)?;
    write_inner(alloc, unit, way)?;
    end_if(alloc, unit, test)
}

#[cycle(stmts)]
fn write_if_else(
    alloc: Global,
    unit: &mut Unfinished,
    at: At,
    condition: &Expr,
    way: &Stmt,
    other: &Stmt,
) -> Result<(), NoMemory>
    ensures { OnOk result (unit.new ≡ gen_stmt_form (tree.when (tree_of condition.now) (stmt_of way.now) (tree.a_stmt (stmt_of other.now))) at unit.old) }
{
    let test = begin_if(alloc, unit, at, condition)?;
    write_inner(alloc, unit, way)?;
    let jump = begin_else(alloc, unit, at, test)?;
    write_inner(alloc, unit, other)?;
    end_else(alloc, unit, jump)
}

#[cycle(stmts)]
fn write_while(
    alloc: Global,
    unit: &mut Unfinished,
    at: At,
    condition: &Expr,
    inner: &Stmt,
) -> Result<(), NoMemory>
    ensures { OnOk result (unit.new ≡ gen_stmt_form (tree.while (tree_of condition.now) (stmt_of inner.now)) at unit.old) }
{
    let opened = begin_while(alloc, unit, at, condition)?;
    write_inner(alloc, unit, inner)?;
    end_while(alloc, unit, at, opened)
}

#[cycle(stmts)]
fn write_for(
    alloc: Global,
    unit: &mut Unfinished,
    at: At,
    first: &Option<Boxed<Small>>,
    condition: &Option<Expr>,
    step: &Option<Boxed<Small>>,
    inner: &Stmt,
) -> Result<(), NoMemory>
    ensures { OnOk result (unit.new ≡ gen_stmt_form (tree.for (option_map small_of first.now) (option_map tree_of condition.now) (option_map small_of step.now) (stmt_of inner.now)) at unit.old) }
{
    let before = in_force(&unit.body);
    let opened = begin_for(alloc, unit, at, first, condition)?;
    write_inner(alloc, unit, inner)?;
    end_for(alloc, unit, at, step, before, opened)
}

#[cycle(stmts)]
fn write_each(
    alloc: Global,
    unit: &mut Unfinished,
    at: At,
    ty: &Ty,
    name: &ByteText,
    items: &Expr,
    inner: &Stmt,
) -> Result<(), NoMemory>
    ensures { OnOk result (unit.new ≡ gen_stmt_form (tree.each ty.now name.now (tree_of items.now) (stmt_of inner.now)) at unit.old) }
{
    let before = in_force(&unit.body);
    let opened = begin_each(alloc, unit, at, ty, name, items)?;
    write_inner(alloc, unit, inner)?;
    end_each(alloc, unit, at, before, opened)
}

#[cycle(stmts)]
fn write_switch(
    alloc: Global,
    unit: &mut Unfinished,
    at: At,
    value: &Expr,
    cases: &[Case],
) -> Result<(), NoMemory>
    ensures { OnOk result (unit.new ≡ gen_stmt_form (tree.switch (tree_of value.now) (cases_of cases.now)) at unit.old) }
{
    let opened = begin_switch(alloc, unit, at, value, cases)?;
    write_cases(alloc, unit, cases, opened.jumps.as_slice(), opened.other)?;
    end_switch(alloc, unit, cases, opened)
}

/// The cases of a `switch`, each with the place of the jump to it.
#[cycle(stmts)]
fn write_cases(
    alloc: Global,
    unit: &mut Unfinished,
    cases: &[Case],
    jumps: &[u32],
    other: u32,
) -> Result<(), NoMemory>
    requires { length jumps.now ≡ length cases.now }
    ensures { OnOk result (unit.new ≡ gen_cases (cases_of cases.now) jumps.now (Some other) unit.old) }
{
    let mut open = Some(other);
    for i in 0..cases.len() {
        let case = &cases[i];
        let jump = jump_of(&case.label, jumps[i], &mut open);
        write_case(alloc, unit, case, jump)?;
    }
    Ok(())
}

#[cycle(stmts)]
fn write_case(
    alloc: Global,
    unit: &mut Unfinished,
    case: &Case,
    jump: Option<u32>,
) -> Result<(), NoMemory>
    ensures { OnOk result (unit.new ≡ gen_case (case_of case.now) jump unit.old) }
{
    begin_case(alloc, unit, jump)?;
    let before = enter(&mut unit.body);
    write_stmts(alloc, unit, case.stmts.as_slice())?;
    leave(&mut unit.body, before);
    Ok(())
}

/// What stands on the right, behind operands of these types.
#[cycle(stmts)]
fn write_right(
    alloc: Global,
    unit: &mut Unfinished,
    right: &RightSide,
    shape: &mut Shape,
) -> Result<(), NoMemory>
    ensures { OnOk result (unit.new ≡ gen_right (right_of right.now) shape.old unit.old) }
{
    match right {
        RightSide::Expr(expr) => {
            let body = &mut unit.body;
            write_expr(alloc, &body.scope, expr, shape, &mut body.function)
        }
        RightSide::Act(act) => write_act(alloc, unit, act, shape),
    }
}

/// A place that takes what is on the right.
#[cycle(stmts)]
fn write_taking(
    alloc: Global,
    unit: &mut Unfinished,
    at: At,
    place: &Place,
    what: u8,
    right: &RightSide,
) -> Result<(), NoMemory>
    ensures { OnOk result (unit.new ≡ taken (place_of place.now) what at (gen_right (right_of right.now) (steps_above (kinds_of (place_of place.now)) []) (stepped_to (place_of place.now) unit.old))) }
{
    let mut shape = Shape::new(alloc);
    let kinds = begin_taking(alloc, unit, place, &mut shape)?;
    write_right(alloc, unit, right, &mut shape)?;
    end_taking(unit, at, place, kinds, what)
}

#[cycle(stmts)]
fn write_declared(
    alloc: Global,
    unit: &mut Unfinished,
    at: At,
    name: &ByteText,
    ty: &Ty,
    right: &RightSide,
) -> Result<(), NoMemory>
    ensures { OnOk result (unit.new ≡ gen_line (tree.declare ty.now name.now (tree.a_right (right_of right.now))) at unit.old) }
{
    write_right(alloc, unit, right, &mut Shape::new(alloc))?;
    declare_with(alloc, unit, at, name, ty)
}

#[cycle(stmts)]
fn write_inferred(
    alloc: Global,
    unit: &mut Unfinished,
    at: At,
    name: &ByteText,
    right: &RightSide,
) -> Result<(), NoMemory>
    ensures { OnOk result (unit.new ≡ gen_line (tree.infer name.now (right_of right.now)) at unit.old) }
{
    write_right(alloc, unit, right, &mut Shape::new(alloc))?;
    let ty = right_type(alloc, right)?;
    declare_with(alloc, unit, at, name, &ty)
}

#[cycle(stmts)]
fn write_returned(
    alloc: Global,
    unit: &mut Unfinished,
    at: At,
    right: &RightSide,
) -> Result<(), NoMemory>
    ensures { OnOk result (unit.new ≡ gen_line (tree.return (tree.a_right (right_of right.now))) at unit.old) }
{
    write_right(alloc, unit, right, &mut Shape::new(alloc))?;
    write_return(alloc, unit, at)
}

/// An act that stands alone.
#[cycle(stmts)]
fn write_alone(alloc: Global, unit: &mut Unfinished, at: At, act: &Act) -> Result<(), NoMemory>
    ensures { OnOk result (unit.new ≡ gen_line (tree.act_line (act_of act.now)) at unit.old) }
{
    write_act(alloc, unit, act, &mut Shape::new(alloc))?;
    drop_act(unit, at, act)
}

#[cycle(stmts)]
fn write_line(alloc: Global, unit: &mut Unfinished, at: At, line: &Line) -> Result<(), NoMemory>
    ensures { OnOk result (unit.new ≡ gen_line (line_of line.now) at unit.old) }
{
    match line {
        Line::Declare(ty, name, Some(right)) => write_declared(alloc, unit, at, name, ty, right),
        Line::Infer(name, right) => write_inferred(alloc, unit, at, name, right),
        Line::Assign(place, right) => write_taking(alloc, unit, at, place, ASSIGN, right),
        Line::Update(place, op, right) => {
            write_taking(alloc, unit, at, place, change_number(*op), right)
        }
        Line::Return(Some(right)) => write_returned(alloc, unit, at, right),
        Line::Alone(act) => write_alone(alloc, unit, at, act),
        Line::Declare(_, _, None)
        | Line::Break
        | Line::Continue
        | Line::Return(None)
        | Line::Step(_)
        | Line::Call(_)
        | Line::Print(_)
        | Line::Println(_)
        | Line::Error(_)
        | Line::Exit(_)
        | Line::Wait(_)
        | Line::Checkpoint(_) => write_plain(alloc, unit, at, line),
    }
}

#[cycle(stmts)]
fn write_act(
    alloc: Global,
    unit: &mut Unfinished,
    act: &Act,
    shape: &mut Shape,
) -> Result<(), NoMemory>
    ensures { OnOk result (unit.new ≡ gen_act (act_of act.now) shape.old unit.old) }
{
    match &act.form {
        ActForm::ParBlock(block) => write_par_block(alloc, unit, act.at, block),
        ActForm::Sys(_)
        | ActForm::Task(_, _)
        | ActForm::Dep(_, _)
        | ActForm::Goal(_)
        | ActForm::ParCall(_, _) => write_plain_act(alloc, unit, act.at, &act.form, shape),
    }
}

/// A `par` block: a function of its own, whose parameters are the locals in force.
#[cycle(stmts)]
fn write_par_block(
    alloc: Global,
    unit: &mut Unfinished,
    at: At,
    block: &Block,
) -> Result<(), NoMemory>
    ensures { OnOk result (unit.new ≡ closed (around_of unit.old) at (at_of_block (block_of block.now)) (gen_block (block_of block.now) (opened unit.old))) }
{
    let outer = open(alloc, unit)?;
    write_block(alloc, unit, block)?;
    close(unit, at, block.at, outer)
}
