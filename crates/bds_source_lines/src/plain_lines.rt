//! The terms of lines without a right side.
ghost use Rattle.std.specs.Prelude.{◌≡◌, IfOk, true};
ghost use Rattle.bds_tree.specs.StmtView.{line_of};
ghost use Rattle.bds_source_lines.specs.Opened.{is_plain, plain_line};
ghost use Rattle.bds_source_terms.specs.View.{term_of};

use bds_check_names::Names;
use bds_source_parts::{
    checkpoint_term, error_term, exit_term, print_term, println_term, returned, wait_term,
};
use bds_source_places::{call_term, step_term};
use bds_source_terms::Term;
use bds_tree::Line;
use bds_value::{At, NoMemory};
use std::alloc::Global;

/// A line that has no right side and is no act. Only want of memory refuses it.
pub fn plain_line(alloc: Global, names: &Names, at: At, line: &Line) -> Result<Term, NoMemory>
    requires { is_plain (line_of line.now) ≡ true }
    ensures term { IfOk result (λ t. term_of t ≡ plain_line names.now at (line_of line.now)) }
    ensures plain { is_plain (line_of line.now) ≡ true }
{
    match line {
        Line::Break => Ok(Term::Break),
        Line::Continue => Ok(Term::Continue),
        Line::Return(None) => returned(alloc, Term::Nothing),
        Line::Step(step) => step_term(alloc, names, at, step),
        Line::Call(call) => call_term(alloc, names, at, call),
        Line::Print(expr) => print_term(alloc, names, at, expr),
        Line::Println(expr) => println_term(alloc, names, at, expr),
        Line::Error(expr) => error_term(alloc, names, at, expr),
        Line::Exit(expr) => exit_term(alloc, names, expr),
        Line::Wait(expr) => wait_term(alloc, names, at, expr),
        Line::Checkpoint(expr) => checkpoint_term(alloc, names, at, expr),
        Line::Declare(_, _, _)
        | Line::Infer(_, _)
        | Line::Assign(_, _)
        | Line::Update(_, _, _)
        | Line::Return(Some(_))
        | Line::Alone(_) => unreachable!(),
    }
}
