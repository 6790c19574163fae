//! Nodes of parts that are read already.

ghost use Rattle.std.specs.Prelude.{◌≡◌, option_map};
ghost use Rattle.bds_tree.specs.StmtTree;
ghost use Rattle.bds_tree.specs.StmtTree.{to_maybe_stmt, to_maybe_right, to_stmts};
ghost use Rattle.bds_tree.specs.View.{tree_of, trees_of};
ghost use Rattle.bds_tree.specs.StmtView.{stmt_of, stmt_form_of, line_of, right_of, act_of, act_form_of, block_of, case_of, stmts_of, cases_of, place_of, step_of, small_of, settings_of};
ghost use Rattle.bds_parse_stmt_parts.specs.Reading.{here};

use bds_tree::{
    Act, ActForm, Block, Body, Case, Cases, Expr, Exprs, Line, Options, Pieces, Place, RightSide,
    Small, Step, Stmt, StmtForm, Stmts, UpdateOp,
};
use bds_value::{At, Boxed, ByteText, Ty};

/// A place in the text, of a node as it is read.
pub fn here(line: u32) -> At
    ensures { result ≡ here line }
{
    At { file: 0, line }
}

fn stmt(line: u32, form: StmtForm) -> Stmt
    ensures { stmt_of result ≡ StmtTree.stmt (here line) (stmt_form_of form) }
{
    let at = here(line);
    Stmt { at, form }
}

pub fn inner_block(line: u32, block: Block) -> Stmt
    ensures { stmt_of result ≡ StmtTree.stmt (here line) (StmtTree.inner_block (block_of block)) }
{
    stmt(line, StmtForm::Block(block))
}

pub fn empty(line: u32) -> Stmt
    ensures { stmt_of result ≡ StmtTree.stmt (here line) StmtTree.empty }
{
    stmt(line, StmtForm::Empty)
}

pub fn line(line: u32, inner: Line) -> Stmt
    ensures { stmt_of result ≡ StmtTree.stmt (here line) (StmtTree.line (line_of inner)) }
{
    stmt(line, StmtForm::Line(inner))
}

pub fn if_else(line: u32, condition: Expr, yes: Boxed<Stmt>, no: Option<Boxed<Stmt>>) -> Stmt
    ensures { stmt_of result ≡ StmtTree.stmt (here line) (StmtTree.when (tree_of condition) (stmt_of yes) (to_maybe_stmt (option_map stmt_of no))) }
{
    stmt(line, StmtForm::If(condition, yes, no))
}

pub fn while_loop(line: u32, condition: Expr, body: Boxed<Stmt>) -> Stmt
    ensures { stmt_of result ≡ StmtTree.stmt (here line) (StmtTree.while (tree_of condition) (stmt_of body)) }
{
    stmt(line, StmtForm::While(condition, body))
}

pub fn for_loop(
    line: u32,
    first: Option<Boxed<Small>>,
    condition: Option<Expr>,
    next: Option<Boxed<Small>>,
    body: Boxed<Stmt>,
) -> Stmt
    ensures { stmt_of result ≡ StmtTree.stmt (here line) (StmtTree.for (option_map small_of first) (option_map tree_of condition) (option_map small_of next) (stmt_of body)) }
{
    stmt(line, StmtForm::For(first, condition, next, body))
}

pub fn each_loop(line: u32, ty: Ty, name: ByteText, list: Expr, body: Boxed<Stmt>) -> Stmt
    ensures { stmt_of result ≡ StmtTree.stmt (here line) (StmtTree.each ty name (tree_of list) (stmt_of body)) }
{
    stmt(line, StmtForm::Each(ty, name, list, body))
}

pub fn switch(line: u32, value: Expr, cases: Cases) -> Stmt
    ensures { stmt_of result ≡ StmtTree.stmt (here line) (StmtTree.switch (tree_of value) (cases_of cases)) }
{
    stmt(line, StmtForm::Switch(value, cases))
}

pub fn case(line: u32, label: Option<Expr>, stmts: Stmts) -> Case
    ensures { case_of result ≡ StmtTree.a_case (here line) (option_map tree_of label) (stmts_of stmts) }
{
    let at = here(line);
    Case { at, label, stmts }
}

pub fn block(line: u32, stmts: Stmts) -> Block
    ensures { block_of result ≡ StmtTree.block (here line) (stmts_of stmts) }
{
    let at = here(line);
    Block { at, stmts }
}

fn act(line: u32, form: ActForm) -> Act
    ensures { act_of result ≡ StmtTree.act (here line) (act_form_of form) }
{
    let at = here(line);
    Act { at, form }
}

pub fn sys(line: u32, text: Pieces) -> Act
    ensures { act_of result ≡ StmtTree.act (here line) (StmtTree.sys text) }
{
    act(line, ActForm::Sys(text))
}

pub fn task(line: u32, options: Option<Options>, body: Body) -> Act
    ensures { act_of result ≡ StmtTree.act (here line) (StmtTree.task (option_map settings_of options) body) }
{
    act(line, ActForm::Task(options, body))
}

pub fn dep(line: u32, options: Options, body: Body) -> Act
    ensures { act_of result ≡ StmtTree.act (here line) (StmtTree.dep (settings_of options) body) }
{
    act(line, ActForm::Dep(options, body))
}

pub fn goal(line: u32, files: Expr) -> Act
    ensures { act_of result ≡ StmtTree.act (here line) (StmtTree.goal (tree_of files)) }
{
    act(line, ActForm::Goal(files))
}

pub fn par_call(line: u32, name: ByteText, arguments: Exprs) -> Act
    ensures { act_of result ≡ StmtTree.act (here line) (StmtTree.par_call name (trees_of arguments)) }
{
    act(line, ActForm::ParCall(name, arguments))
}

pub fn par_block(line: u32, block: Block) -> Act
    ensures { act_of result ≡ StmtTree.act (here line) (StmtTree.par_block (block_of block)) }
{
    act(line, ActForm::ParBlock(block))
}

pub fn right_expr(value: Expr) -> RightSide
    ensures { right_of result ≡ StmtTree.right_expr (tree_of value) }
{
    RightSide::Expr(value)
}

pub fn right_act(act: Act) -> RightSide
    ensures { right_of result ≡ StmtTree.right_act (act_of act) }
{
    RightSide::Act(act)
}

pub fn declare(ty: Ty, name: ByteText, right: Option<RightSide>) -> Line
    ensures { line_of result ≡ StmtTree.declare ty name (to_maybe_right (option_map right_of right)) }
{
    Line::Declare(ty, name, right)
}

pub fn infer(name: ByteText, right: RightSide) -> Line
    ensures { line_of result ≡ StmtTree.infer name (right_of right) }
{
    Line::Infer(name, right)
}

pub fn assign(place: Place, right: RightSide) -> Line
    ensures { line_of result ≡ StmtTree.assign (place_of place) (right_of right) }
{
    Line::Assign(place, right)
}

pub fn update(place: Place, op: UpdateOp, right: RightSide) -> Line
    ensures { line_of result ≡ StmtTree.update (place_of place) op (right_of right) }
{
    Line::Update(place, op, right)
}

pub fn step(step: Step) -> Line
    ensures { line_of result ≡ StmtTree.step (step_of step) }
{
    Line::Step(step)
}

pub fn call(call: Expr) -> Line
    ensures { line_of result ≡ StmtTree.call_line (tree_of call) }
{
    Line::Call(call)
}

pub fn print(value: Expr) -> Line
    ensures { line_of result ≡ StmtTree.print (tree_of value) }
{
    Line::Print(value)
}

pub fn println(value: Option<Expr>) -> Line
    ensures { line_of result ≡ StmtTree.println (option_map tree_of value) }
{
    Line::Println(value)
}

pub fn error(value: Expr) -> Line
    ensures { line_of result ≡ StmtTree.error (tree_of value) }
{
    Line::Error(value)
}

pub fn exit(status: Expr) -> Line
    ensures { line_of result ≡ StmtTree.exit (tree_of status) }
{
    Line::Exit(status)
}

pub fn break_line() -> Line
    ensures { line_of result ≡ StmtTree.break }
{
    Line::Break
}

pub fn continue_line() -> Line
    ensures { line_of result ≡ StmtTree.continue }
{
    Line::Continue
}

pub fn return_line(right: Option<RightSide>) -> Line
    ensures { line_of result ≡ StmtTree.return (to_maybe_right (option_map right_of right)) }
{
    Line::Return(right)
}

pub fn wait(ids: Option<Expr>) -> Line
    ensures { line_of result ≡ StmtTree.wait (option_map tree_of ids) }
{
    Line::Wait(ids)
}

pub fn checkpoint(path: Option<Expr>) -> Line
    ensures { line_of result ≡ StmtTree.checkpoint (option_map tree_of path) }
{
    Line::Checkpoint(path)
}

pub fn alone(act: Act) -> Line
    ensures { line_of result ≡ StmtTree.act_line (act_of act) }
{
    Line::Alone(act)
}
