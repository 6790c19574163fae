//! Whether expressions are legal.

ghost use Rattle.std.specs.Prelude.{◌≡◌};
ghost use Rattle.bds_tree.specs.StmtShape.{is_call};
ghost use Rattle.bds_spell.specs.Fits.{below, is_first, fits, form_fits, all_fit, pairs_fit};
ghost use Rattle.bds_spell.specs.StmtFits.{maybe_fits};
ghost use Rattle.bds_tree.specs.View.{tree_of, form_tree_of, trees_of, pairs_of};
ghost use Rattle.std.specs.Option.{option_map};

use bds_tree::{Expr, Form, follow, level, level_of};
use bds_value::{At, is_void};

/// Whether the node stands in file 0.
pub fn is_first(at: At) -> bool
    ensures { result ≡ is_first at }
{
    at.file == 0
}

#[cycle(fits)]
fn fits(expr: &Expr, most: u8) -> bool
    ensures { result ≡ fits (tree_of expr.now) most }
{
    is_first(expr.at) && is_void(&expr.ty) && form_fits(&expr.form, most)
}

/// The same of an expression one below.
#[cycle(fits)]
pub fn fits_below(expr: &Expr, most: u8) -> bool
    ensures { result ≡ below (fits (tree_of expr.now)) most }
{
    0 < most && fits(expr, most - 1)
}

#[cycle(fits)]
fn form_fits(form: &Form, most: u8) -> bool
    ensures { result ≡ form_fits (form_tree_of form.now) most }
{
    match form {
        Form::Number(_) | Form::Text(_) | Form::Bool(_) | Form::Name(_) => true,
        Form::Call(_, arguments) => all_fit(arguments.as_slice(), most),
        Form::Group(inner) => fits_below(inner.get(), most),
        Form::List(items) => all_fit(items.as_slice(), most),
        Form::Map(pairs) => pairs_fit(pairs.as_slice(), most),
        Form::Item(list, index) => {
            10 <= follow(list.get())
                && fits_below(list.get(), most)
                && fits_below(index.get(), most)
        }
        Form::Key(map, key) => {
            10 <= follow(map.get()) && fits_below(map.get(), most) && fits_below(key.get(), most)
        }
        Form::Method(receiver, _, arguments) => {
            10 <= follow(receiver.get())
                && fits_below(receiver.get(), most)
                && all_fit(arguments.as_slice(), most)
        }
        Form::Prefix(_, inner) => 9 <= level(inner.get()) && fits_below(inner.get(), most),
        Form::Binary(left, op, right) => {
            level_of(*op) <= follow(left.get())
                && level_of(*op) < level(right.get())
                && fits_below(left.get(), most)
                && fits_below(right.get(), most)
        }
        Form::Choice(condition, yes, no) => {
            2 <= follow(condition.get())
                && 2 <= level(yes.get())
                && 2 <= level(no.get())
                && fits_below(condition.get(), most)
                && fits_below(yes.get(), most)
                && fits_below(no.get(), most)
        }
        Form::Dependency(outputs, inputs) => {
            1 <= follow(outputs.get())
                && 2 <= level(inputs.get())
                && fits_below(outputs.get(), most)
                && fits_below(inputs.get(), most)
        }
    }
}

#[cycle(fits)]
pub fn all_fit(exprs: &[Expr], most: u8) -> bool
    ensures { result ≡ all_fit (trees_of exprs.now) most }
{
    for expr in exprs {
        if !fits_below(expr, most) {
            return false;
        }
    }
    true
}

#[cycle(fits)]
fn pairs_fit(pairs: &[(Expr, Expr)], most: u8) -> bool
    ensures { result ≡ pairs_fit (pairs_of pairs.now) most }
{
    for pair in pairs {
        if !(fits_below(&pair.0, most) && fits_below(&pair.1, most)) {
            return false;
        }
    }
    true
}

pub fn maybe_fits(expr: &Option<Expr>, most: u8) -> bool
    ensures { result ≡ maybe_fits (option_map tree_of expr.now) most }
{
    match expr {
        Some(expr) => fits_below(expr, most),
        None => true,
    }
}

/// Whether it is a call of a function or of a method.
pub fn is_call(expr: &Expr) -> bool
    ensures { result ≡ is_call (tree_of expr.now) }
{
    matches!(&expr.form, Form::Call(_, _) | Form::Method(_, _, _))
}
