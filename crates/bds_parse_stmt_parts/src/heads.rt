//! How lines begin, and parts of the head of a `for`: up to the sign that a value stands behind.

ghost use Rattle.std.specs.Prelude.{◌≡◌, ◌<◌, ◌≤◌, IfOk, length};
ghost use Rattle.bds_value.specs.declared.TheConstants.{MAX_NESTING};
ghost use Rattle.bds_tree.specs.Tree.{Tree};
ghost use Rattle.bds_tree.specs.View.{tree_of};
ghost use Rattle.bds_tree.specs.StmtShape.{is_call};
ghost use Rattle.bds_parse_expr.specs.Gives.{Gives};
ghost use Rattle.bds_parse_stmt_parts.specs.Heads.{head_of};
ghost use Rattle.bds_parse_stmt_parts.specs.Reading.{placed, called, named, declared, head};

use crate::places::place;
use crate::types::type_at;
use crate::words::{HeadKind, PlaceSign, head_kind, place_sign};
use bds_parse_expr::{END, ParseFault, expression, name_at};
use bds_tree::{Expr, Form, Place, Step, Token, UpdateOp};
use bds_value::{ByteText, Ty, copy_text};
use std::alloc::Global;

/// How a line begins.
#[derive(Drop)]
pub enum Head {
    /// `type name`
    Declare(Ty, ByteText),
    /// `name :=`
    Infer(ByteText),
    /// `place =`
    Assign(Place),
    /// `place +=`
    Update(Place, UpdateOp),
    /// A step, whole.
    Step(Step),
    /// A call, whole.
    Call(Expr),
}

fn is_call(expr: &Expr) -> bool
    ensures { result ≡ is_call (tree_of expr.now) }
{
    matches!(&expr.form, Form::Call(_, _) | Form::Method(_, _, _))
}

/// A place with the sign behind it, where both are there.
fn placed<'a>(
    alloc: Global,
    tokens: &'a [Token],
    most: u32,
) -> Result<(Head, &'a [Token]), ParseFault>
    requires { most ≤ MAX_NESTING }
    ensures gives { Gives (λ x. (head_of x.0, x.1.now)) result (placed most tokens.now) }
    ensures shorter { IfOk result (λ x. length x.1.now < length tokens.now) }
{
    let (place, rest) = place(alloc, tokens, most)?;
    let [t, rest @ ..] = rest else {
        return Err(ParseFault::Syntax(END));
    };
    match place_sign(&t.word) {
        PlaceSign::Infer => {
            if place.suffixes.len() != 0 {
                return Err(ParseFault::Syntax(t.line));
            }
            Ok((Head::Infer(place.name), rest))
        }
        PlaceSign::Assign => Ok((Head::Assign(place), rest)),
        PlaceSign::Update(op) => Ok((Head::Update(place, op), rest)),
        PlaceSign::Step(op) => Ok((Head::Step(Step::After(place, op)), rest)),
        PlaceSign::Other => Err(ParseFault::Syntax(t.line)),
    }
}

fn called<'a>(
    alloc: Global,
    tokens: &'a [Token],
    most: u32,
) -> Result<(Head, &'a [Token]), ParseFault>
    requires { most ≤ MAX_NESTING }
    ensures gives { Gives (λ x. (head_of x.0, x.1.now)) result (called most tokens.now) }
    ensures shorter { IfOk result (λ x. length x.1.now < length tokens.now) }
{
    let (call, rest) = expression(alloc, tokens, most, 1)?;
    if !is_call(&call.expr) {
        return Err(ParseFault::Syntax(call.expr.at.line));
    }
    Ok((Head::Call(call.expr), rest))
}

/// What begins with a name: a place, or where no sign stands behind it, a call.
fn named<'a>(
    alloc: Global,
    tokens: &'a [Token],
    most: u32,
) -> Result<(Head, &'a [Token]), ParseFault>
    requires { most ≤ MAX_NESTING }
    ensures gives { Gives (λ x. (head_of x.0, x.1.now)) result (named most tokens.now) }
    ensures shorter { IfOk result (λ x. length x.1.now < length tokens.now) }
{
    match placed(alloc, tokens, most) {
        Ok(found) => Ok(found),
        Err(ParseFault::NoMemory) => Err(ParseFault::NoMemory),
        Err(ParseFault::Syntax(_)) => called(alloc, tokens, most),
    }
}

fn declared<'a>(
    alloc: Global,
    tokens: &'a [Token],
    most: u32,
) -> Result<(Head, &'a [Token]), ParseFault>
    ensures gives { Gives (λ x. (head_of x.0, x.1.now)) result (declared most tokens.now) }
    ensures shorter { IfOk result (λ x. length x.1.now < length tokens.now) }
{
    let (ty, rest) = type_at(alloc, tokens, most)?;
    let (name, rest) = name_at(rest)?;
    let name = copy_text(alloc, name)?;
    Ok((Head::Declare(ty, name), rest))
}

pub fn head_at<'a>(
    alloc: Global,
    tokens: &'a [Token],
    most: u32,
) -> Result<(Head, &'a [Token]), ParseFault>
    requires { most ≤ MAX_NESTING }
    ensures gives { Gives (λ x. (head_of x.0, x.1.now)) result (head most tokens.now) }
    ensures shorter { IfOk result (λ x. length x.1.now < length tokens.now) }
{
    let [t, rest @ ..] = tokens else {
        return Err(ParseFault::Syntax(END));
    };
    match head_kind(&t.word) {
        HeadKind::Type => declared(alloc, tokens, most),
        HeadKind::Step(op) => {
            let (place, rest) = place(alloc, rest, most)?;
            Ok((Head::Step(Step::Before(op, place)), rest))
        }
        HeadKind::Name => named(alloc, tokens, most),
        HeadKind::Other => called(alloc, tokens, most),
    }
}
