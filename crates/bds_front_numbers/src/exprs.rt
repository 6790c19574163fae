//! The number of a file at each node of an expression.
ghost use Rattle.std.specs.Prelude.{◌≡◌};
ghost use Rattle.std.specs.Option.{option_map};
ghost use Rattle.bds_tree.specs.View.{tree_of, form_tree_of, trees_of, pairs_of};
ghost use Rattle.bds_check_typing.specs.Numbered as numbered;
ghost use Rattle.bds_check_typing.specs.Remade.{option_with};
ghost use Rattle.bds_front_numbers.specs.InFile.{expr_in, form_in, exprs_in, pairs_in};

use bds_tree::{Expr, ExprPairs, Exprs, Form};
use bds_value::{At, Boxed};

/// Puts the number of a file into a place.
pub fn number_at(file: u32, at: &mut At)
    ensures { at.new ≡ numbered.in_file file at.old }
{
    at.file = file;
}

/// Numbers each node of an expression.
#[cycle(exprs)]
pub fn number_expr(file: u32, expr: &mut Expr)
    ensures { tree_of expr.new ≡ expr_in file (tree_of expr.old) }
{
    number_at(file, &mut expr.at);
    number_form(file, &mut expr.form);
}

#[cycle(exprs)]
fn number_form(file: u32, form: &mut Form)
    ensures { form_tree_of form.new ≡ form_in file (form_tree_of form.old) }
{
    match form {
        Form::Number(_) | Form::Text(_) | Form::Bool(_) | Form::Name(_) => {}
        Form::Call(_, arguments) => number_exprs(file, arguments),
        Form::Group(inner) => number_boxed(file, inner),
        Form::List(items) => number_exprs(file, items),
        Form::Map(pairs) => number_pairs(file, pairs),
        Form::Item(list, index) => {
            number_boxed(file, list);
            number_boxed(file, index);
        }
        Form::Key(map, key) => {
            number_boxed(file, map);
            number_boxed(file, key);
        }
        Form::Method(receiver, _, arguments) => {
            number_boxed(file, receiver);
            number_exprs(file, arguments);
        }
        Form::Prefix(_, inner) => number_boxed(file, inner),
        Form::Binary(left, _, right) => {
            number_boxed(file, left);
            number_boxed(file, right);
        }
        Form::Choice(condition, yes, no) => {
            number_boxed(file, condition);
            number_boxed(file, yes);
            number_boxed(file, no);
        }
        Form::Dependency(outputs, inputs) => {
            number_boxed(file, outputs);
            number_boxed(file, inputs);
        }
    }
}

#[cycle(exprs)]
fn number_boxed(file: u32, expr: &mut Boxed<Expr>)
    ensures { tree_of expr.new ≡ expr_in file (tree_of expr.old) }
{
    number_expr(file, expr.get_mut());
}

/// Numbers each node of expressions.
#[cycle(exprs)]
pub fn number_exprs(file: u32, exprs: &mut Exprs)
    ensures { trees_of exprs.new ≡ exprs_in file (trees_of exprs.old) }
{
    for i in 0..exprs.len() {
        number_expr(file, exprs.at_mut(i));
    }
}

#[cycle(exprs)]
fn number_pair(file: u32, pair: &mut (Expr, Expr))
    ensures key { tree_of pair.new.0 ≡ expr_in file (tree_of pair.old.0) }
    ensures value { tree_of pair.new.1 ≡ expr_in file (tree_of pair.old.1) }
{
    number_expr(file, &mut pair.0);
    number_expr(file, &mut pair.1);
}

#[cycle(exprs)]
fn number_pairs(file: u32, pairs: &mut ExprPairs)
    ensures { pairs_of pairs.new ≡ pairs_in file (pairs_of pairs.old) }
{
    for i in 0..pairs.len() {
        number_pair(file, pairs.at_mut(i));
    }
}

/// Numbers each node of an expression that may be missing.
pub fn number_some(file: u32, expr: &mut Option<Expr>)
    ensures { option_map tree_of expr.new ≡ option_with (expr_in file) (option_map tree_of expr.old) }
{
    match expr {
        None => {}
        Some(expr) => number_expr(file, expr),
    }
}
