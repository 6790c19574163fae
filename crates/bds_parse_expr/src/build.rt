//! Expressions of parts that are read already.

ghost use Rattle.std.specs.Prelude.{◌≡◌, ◌≤◌, ◌<◌, IfOk};
ghost use Rattle.bds_value.specs.declared.TheConstants.{MAX_NESTING};
ghost use Rattle.bds_tree.specs.Tree.{line_of, number, text, truth, name, call, list, mapping, group, item, key, method, prefix, binary, choice, dependency};
ghost use Rattle.bds_tree.specs.View.{tree_of, form_tree_of, trees_of, pairs_of};
ghost use Rattle.bds_parse_expr.specs.Reading.{fresh, low};
ghost use Rattle.bds_parse_expr.specs.Gives.{Gives};

use crate::fault::ParseFault;
use crate::tall::{Tall, TallExprs, TallPairs};
use bds_tree::{BinaryOp, Expr, Form, Pieces, PrefixOp, Token, copy_pieces};
use bds_value::{At, Boxed, ByteText, NoMemory, Ty, copy_text};
use std::alloc::Global;

fn fresh(line: u32, form: Form) -> Expr
    ensures { tree_of result ≡ fresh line (form_tree_of form) }
{
    let at = At { file: 0, line };
    Expr {
        at,
        ty: Ty::Void,
        form,
    }
}

pub fn number(line: u32, value: i64) -> Tall
    ensures { tree_of result.expr ≡ fresh line (number value) }
{
    let expr = fresh(line, Form::Number(value));
    Tall { expr, height: 0 }
}

pub fn truth(line: u32, value: bool) -> Tall
    ensures { tree_of result.expr ≡ fresh line (truth value) }
{
    let expr = fresh(line, Form::Bool(value));
    Tall { expr, height: 0 }
}

pub fn text(alloc: Global, line: u32, pieces: &Pieces) -> Result<Tall, NoMemory>
    ensures { IfOk result (λ x. tree_of x.expr ≡ fresh line (text pieces.now)) }
{
    let expr = fresh(line, Form::Text(copy_pieces(alloc, pieces)?));
    Ok(Tall { expr, height: 0 })
}

pub fn name(alloc: Global, line: u32, text: &ByteText) -> Result<Tall, NoMemory>
    ensures { IfOk result (λ x. tree_of x.expr ≡ fresh line (name text.now)) }
{
    let expr = fresh(line, Form::Name(copy_text(alloc, text)?));
    Ok(Tall { expr, height: 0 })
}

pub fn call(
    alloc: Global,
    line: u32,
    name: &ByteText,
    arguments: TallExprs,
) -> Result<Tall, NoMemory>
    ensures { IfOk result (λ x. tree_of x.expr ≡ fresh line (call name.now (trees_of arguments.items))) }
{
    let name = copy_text(alloc, name)?;
    let height = arguments.height;
    let expr = fresh(line, Form::Call(name, arguments.items));
    Ok(Tall { expr, height })
}

pub fn list(line: u32, items: TallExprs) -> Tall
    ensures { tree_of result.expr ≡ fresh line (list (trees_of items.items)) }
{
    let height = items.height;
    let expr = fresh(line, Form::List(items.items));
    Tall { expr, height }
}

pub fn map(line: u32, pairs: TallPairs) -> Tall
    ensures { tree_of result.expr ≡ fresh line (mapping (pairs_of pairs.items)) }
{
    let height = pairs.height;
    let expr = fresh(line, Form::Map(pairs.items));
    Tall { expr, height }
}

pub fn group(alloc: Global, line: u32, inner: Tall) -> Result<Tall, NoMemory>
    requires { inner.height ≤ MAX_NESTING }
    ensures { IfOk result (λ x. tree_of x.expr ≡ fresh line (group (tree_of inner.expr))) }
{
    let height = inner.height + 1;
    let expr = fresh(line, Form::Group(Boxed::of(alloc, inner.expr)?));
    Ok(Tall { expr, height })
}

pub fn prefix(alloc: Global, line: u32, op: PrefixOp, inner: Tall) -> Result<Tall, NoMemory>
    requires { inner.height ≤ MAX_NESTING }
    ensures { IfOk result (λ x. tree_of x.expr ≡ fresh line (prefix op (tree_of inner.expr))) }
{
    let height = inner.height + 1;
    let expr = fresh(line, Form::Prefix(op, Boxed::of(alloc, inner.expr)?));
    Ok(Tall { expr, height })
}

fn boxed_two(
    alloc: Global,
    first: Expr,
    second: Expr,
) -> Result<(Boxed<Expr>, Boxed<Expr>), NoMemory>
    ensures { IfOk result (λ x. (x.0 ≡ first) × (x.1 ≡ second)) }
{
    let first = Boxed::of(alloc, first)?;
    let second = Boxed::of(alloc, second)?;
    Ok((first, second))
}

/// `left op right`
pub fn binary(alloc: Global, left: Tall, op: BinaryOp, right: Tall) -> Result<Tall, NoMemory>
    requires left { left.height ≤ MAX_NESTING }
    requires right { right.height ≤ MAX_NESTING }
    ensures { IfOk result (λ x. tree_of x.expr ≡ fresh (line_of (tree_of left.expr)) (binary (tree_of left.expr) op (tree_of right.expr))) }
{
    let line = left.expr.at.line;
    let height = left.height.max(right.height) + 1;
    let (left, right) = boxed_two(alloc, left.expr, right.expr)?;
    let expr = fresh(line, Form::Binary(left, op, right));
    Ok(Tall { expr, height })
}

/// `condition ? yes : no`
pub fn choice(alloc: Global, condition: Tall, yes: Tall, no: Tall) -> Result<Tall, NoMemory>
    requires condition { condition.height ≤ MAX_NESTING }
    requires yes { yes.height ≤ MAX_NESTING }
    requires no { no.height ≤ MAX_NESTING }
    ensures { IfOk result (λ x. tree_of x.expr ≡ fresh (line_of (tree_of condition.expr)) (choice (tree_of condition.expr) (tree_of yes.expr) (tree_of no.expr))) }
{
    let line = condition.expr.at.line;
    let height = condition.height.max(yes.height.max(no.height)) + 1;
    let (yes, no) = boxed_two(alloc, yes.expr, no.expr)?;
    let condition = Boxed::of(alloc, condition.expr)?;
    let expr = fresh(line, Form::Choice(condition, yes, no));
    Ok(Tall { expr, height })
}

/// `outputs <- inputs`
pub fn dependency(alloc: Global, outputs: Tall, inputs: Tall) -> Result<Tall, NoMemory>
    requires outputs { outputs.height ≤ MAX_NESTING }
    requires inputs { inputs.height ≤ MAX_NESTING }
    ensures { IfOk result (λ x. tree_of x.expr ≡ fresh (line_of (tree_of outputs.expr)) (dependency (tree_of outputs.expr) (tree_of inputs.expr))) }
{
    let line = outputs.expr.at.line;
    let height = outputs.height.max(inputs.height) + 1;
    let (outputs, inputs) = boxed_two(alloc, outputs.expr, inputs.expr)?;
    let expr = fresh(line, Form::Dependency(outputs, inputs));
    Ok(Tall { expr, height })
}

/// `list[index]`
pub fn item(alloc: Global, list: Tall, index: Tall) -> Result<Tall, NoMemory>
    requires list { list.height ≤ MAX_NESTING }
    requires index { index.height ≤ MAX_NESTING }
    ensures { IfOk result (λ x. tree_of x.expr ≡ fresh (line_of (tree_of list.expr)) (item (tree_of list.expr) (tree_of index.expr))) }
{
    let line = list.expr.at.line;
    let height = list.height.max(index.height) + 1;
    let (list, index) = boxed_two(alloc, list.expr, index.expr)?;
    let expr = fresh(line, Form::Item(list, index));
    Ok(Tall { expr, height })
}

/// `map{place}`
pub fn key(alloc: Global, map: Tall, place: Tall) -> Result<Tall, NoMemory>
    requires map { map.height ≤ MAX_NESTING }
    requires place { place.height ≤ MAX_NESTING }
    ensures { IfOk result (λ x. tree_of x.expr ≡ fresh (line_of (tree_of map.expr)) (key (tree_of map.expr) (tree_of place.expr))) }
{
    let line = map.expr.at.line;
    let height = map.height.max(place.height) + 1;
    let (map, place) = boxed_two(alloc, map.expr, place.expr)?;
    let expr = fresh(line, Form::Key(map, place));
    Ok(Tall { expr, height })
}

fn boxed_named(
    alloc: Global,
    expr: Expr,
    name: &ByteText,
) -> Result<(Boxed<Expr>, ByteText), NoMemory>
    ensures { IfOk result (λ x. (x.0 ≡ expr) × (x.1 ≡ name.now)) }
{
    let expr = Boxed::of(alloc, expr)?;
    let name = copy_text(alloc, name)?;
    Ok((expr, name))
}

/// `receiver.name(arguments)`
pub fn method(
    alloc: Global,
    receiver: Tall,
    name: &ByteText,
    arguments: TallExprs,
) -> Result<Tall, NoMemory>
    requires { receiver.height ≤ MAX_NESTING }
    ensures { IfOk result (λ x. tree_of x.expr ≡ fresh (line_of (tree_of receiver.expr)) (method (tree_of receiver.expr) name.now (trees_of arguments.items))) }
{
    let line = receiver.expr.at.line;
    let height = (receiver.height + 1).max(arguments.height);
    let (receiver, name) = boxed_named(alloc, receiver.expr, name)?;
    let expr = fresh(line, Form::Method(receiver, name, arguments.items));
    Ok(Tall { expr, height })
}

/// The expression with what stands behind it, unless it is higher than `most`.
pub fn fitting(expr: Tall, rest: &[Token], most: u32) -> Result<(Tall, &[Token]), ParseFault>
    ensures gives { Gives (λ x. (tree_of x.0.expr, x.1.now)) result (low most (tree_of expr.expr) rest.now) }
    ensures kept { IfOk result (λ x. (x.0.height ≤ most) × (x.1.now ≡ rest.now)) }
{
    if expr.height > most {
        return Err(ParseFault::Syntax(expr.expr.at.line));
    }
    Ok((expr, rest))
}
