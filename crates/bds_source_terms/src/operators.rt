//! Operators, methods and files: which each is, is found by the types of its operands.
ghost use Rattle.std.specs.Prelude.{◌≡◌, IfOk, true, false};
ghost use Rattle.bds_value.specs.declared.value.At.{At as Place};
ghost use Rattle.bds_value.specs.declared.value.Value.TheVariants as value;
ghost use Rattle.bds_meaning.specs.OpeningExpressions as expressions;
ghost use Rattle.bds_meaning.specs.Term as meaning;
ghost use Rattle.bds_source_terms.specs.Manners.{made_by, file_call};
ghost use Rattle.bds_source_terms.specs.View.{term_of};

use crate::parts::{computed, does, let_go, one, two_boxes};
use crate::term::{Action, Computation, Question, Term};
use bds_tree::BinaryOp;
use bds_value::method_numbers::LINES;
use bds_value::{At, Boxed, Method, NoMemory, Op, Ty, Value, list_item, same_ty};
use std::alloc::Global;

/// One of two terms in boxes, by a condition.
pub fn choose_of(
    alloc: Global,
    condition: Term,
    yes: Boxed<Term>,
    no: Boxed<Term>,
) -> Result<Term, NoMemory>
    ensures { IfOk result (λ t. term_of t ≡ meaning.Choose (term_of condition) (term_of yes) (term_of no)) }
{
    match Boxed::of(alloc, condition) {
        Ok(condition) => Ok(Term::Choose(condition, yes, no)),
        Err(fault) => Err(fault),
    }
}

/// One of two terms, by a condition.
pub fn choose(alloc: Global, condition: Term, yes: Term, no: Term) -> Result<Term, NoMemory>
    ensures { IfOk result (λ t. term_of t ≡ meaning.Choose (term_of condition) (term_of yes) (term_of no)) }
{
    match two_boxes(alloc, yes, no) {
        Ok((yes, no)) => choose_of(alloc, condition, yes, no),
        Err(fault) => Err(fault),
    }
}

/// The text of a value.
pub fn shown(alloc: Global, at: At, term: Term) -> Result<Term, NoMemory>
    ensures { IfOk result (λ t. term_of t ≡ expressions.shown at (term_of term)) }
{
    match one(alloc, term) {
        Ok(part) => computed(alloc, Computation::Shown, at, part),
        Err(fault) => Err(fault),
    }
}

/// How an operator makes a value of its operands.
#[derive(Clone, Copy)]
pub enum Manner {
    /// `||`
    Either,
    /// `&&`
    Both,
    Operated(Op),
    /// The texts of both are joined.
    Joined,
}

/// A sum, by the types of its operands; lists are tried first.
fn sum_manner(left: &Ty, right: &Ty) -> Manner
    ensures { (at : Place) → (a b : meaning.Term) → expressions.sum_term left.now right.now at a b ≡ made_by result at a b }
{
    match list_item(left) {
        Some(item) if same_ty(item, right) => Manner::Operated(Op::ListAdd),
        Some(_) if same_ty(left, right) => Manner::Operated(Op::ListCat),
        _ => match (left, right) {
            (Ty::Int, Ty::Int) => Manner::Operated(Op::Add),
            _ => Manner::Joined,
        },
    }
}

/// What an operator does with operands of these types.
pub fn manner_of(op: BinaryOp, left: &Ty, right: &Ty) -> Manner
    ensures { (at : Place) → (a b : meaning.Term) → expressions.binary_term op left.now right.now at a b ≡ made_by result at a b }
{
    match op {
        BinaryOp::Or => Manner::Either,
        BinaryOp::And => Manner::Both,
        BinaryOp::Equal => Manner::Operated(Op::Equal),
        BinaryOp::NotEqual => Manner::Operated(Op::NotEqual),
        BinaryOp::Less => Manner::Operated(Op::Less),
        BinaryOp::AtMost => Manner::Operated(Op::LessEqual),
        BinaryOp::Greater => Manner::Operated(Op::Greater),
        BinaryOp::AtLeast => Manner::Operated(Op::GreaterEqual),
        BinaryOp::Add => sum_manner(left, right),
        BinaryOp::Sub => Manner::Operated(Op::Sub),
        BinaryOp::Mul => Manner::Operated(Op::Mul),
        BinaryOp::Div => Manner::Operated(Op::Div),
        BinaryOp::Rem => Manner::Operated(Op::Rem),
    }
}

/// `||`, which takes its right operand only where it decides.
pub fn either(alloc: Global, left: Term, right: Term) -> Result<Term, NoMemory>
    ensures { IfOk result (λ t. term_of t ≡ meaning.Choose (term_of left) (meaning.Constant (value.Bool true)) (term_of right)) }
{
    choose(alloc, left, Term::Constant(Value::Bool(true)), right)
}

/// `&&`, which takes its right operand only where it decides.
pub fn both(alloc: Global, left: Term, right: Term) -> Result<Term, NoMemory>
    ensures { IfOk result (λ t. term_of t ≡ meaning.Choose (term_of left) (term_of right) (meaning.Constant (value.Bool false))) }
{
    choose(alloc, left, right, Term::Constant(Value::Bool(false)))
}

/// A file as a list of one; a list of files is one.
pub fn files(alloc: Global, ty: &Ty, at: At, term: Term) -> Result<Term, NoMemory>
    ensures { IfOk result (λ t. term_of t ≡ expressions.files_if ty.now at (term_of term)) }
{
    match ty {
        Ty::Text => {
            match one(alloc, term) {
                Ok(file) => computed(alloc, Computation::ListMade(Ty::Text), at, file),
                Err(fault) => Err(fault),
            }
        }
        Ty::Bool | Ty::Int | Ty::List(_) | Ty::Map(_) | Ty::Void => Ok(term),
    }
}

fn nothing(operands: Term) -> Term
    ensures { term_of result ≡ meaning.Nothing }
{
    let_go(operands);
    Term::Nothing
}

/// The lines of a file.
fn lines(alloc: Global, at: At, operands: Term) -> Result<Term, NoMemory>
    ensures { IfOk result (λ t. term_of t ≡ file_call at (term_of operands) 1) }
{
    match does(alloc, Action::FileRead, at, operands) {
        Ok(read) => {
            match one(alloc, read) {
                Ok(text) => computed(alloc, Computation::MethodCalled(LINES), at, text),
                Err(fault) => Err(fault),
            }
        }
        Err(fault) => Err(fault),
    }
}

/// A call on a file, by its place in the table of methods.
fn file_call(alloc: Global, call: u8, at: At, operands: Term) -> Result<Term, NoMemory>
    ensures { IfOk result (λ t. term_of t ≡ file_call at (term_of operands) call) }
{
    match call {
        0 => does(alloc, Action::FileRead, at, operands),
        1 => lines(alloc, at, operands),
        2 => does(alloc, Action::FileWritten, at, operands),
        3 => does(alloc, Action::FileRemoved, at, operands),
        4 => does(alloc, Action::FileStamped(Question::IsThere), at, operands),
        5 => does(alloc, Action::FileStamped(Question::IsEmpty), at, operands),
        6 => does(alloc, Action::FileStamped(Question::SizeOf), at, operands),
        _ => Ok(nothing(operands)),
    }
}

/// A method of the receiver that stands before its arguments.
pub fn method(
    alloc: Global,
    method: Option<Method>,
    at: At,
    operands: Term,
) -> Result<Term, NoMemory>
    ensures { IfOk result (λ t. term_of t ≡ expressions.method_term method at (term_of operands)) }
{
    match method {
        Some(Method::Plain(number)) => {
            computed(alloc, Computation::MethodCalled(number), at, operands)
        }
        Some(Method::File(call)) => file_call(alloc, call, at, operands),
        Some(Method::Change(_)) | None => Ok(nothing(operands)),
    }
}
