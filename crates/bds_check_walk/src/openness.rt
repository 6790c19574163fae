//! Whether a literal lacks what tells its type.
ghost use Rattle.std.specs.Prelude.{◌≡◌};
ghost use Rattle.bds_tree.specs.View.{tree_of, form_tree_of, trees_of, pairs_of};
ghost use Rattle.bds_check_typing.specs.Walk as walk;

use bds_tree::{Expr, Form};

/// A literal that holds no item with a type of its own.
#[cycle(openness)]
pub fn is_open(expr: &Expr) -> bool
    ensures { result ≡ walk.is_open (tree_of expr.now) }
{
    is_open_form(&expr.form)
}

#[cycle(openness)]
#[tactic(auto, using(crate::proofs::WalkRules::walk_rules))]
fn is_open_form(form: &Form) -> bool
    ensures { result ≡ walk.is_open_form (form_tree_of form.now) }
{
    match form {
        Form::Group(expr) => is_open(expr.get()),
        Form::List(items) => are_open(items.as_slice()),
        Form::Map(pairs) => are_values_open(pairs.as_slice()),
        _ => false,
    }
}

#[cycle(openness)]
fn are_open(items: &[Expr]) -> bool
    ensures { result ≡ walk.are_open (trees_of items.now) }
{
    for item in items {
        if !is_open(item) {
            return false;
        }
    }
    true
}

#[cycle(openness)]
fn are_values_open(pairs: &[(Expr, Expr)]) -> bool
    ensures { result ≡ walk.are_values_open (pairs_of pairs.now) }
{
    for pair in pairs {
        if !is_open(&pair.1) {
            return false;
        }
    }
    true
}
