//! The sizes of places that are changed, of calls and of the parts of a `for`.
ghost use Rattle.std.specs.Prelude.{◌≡◌, ◌+◌, map};
ghost use Rattle.std.specs.Option.{option_map};
ghost use Rattle.bds_tree.specs.StmtView.{suffix_of, small_of, small_form_of, step_of};
ghost use Rattle.bds_tree.specs.View.{tree_of};
ghost use Rattle.bds_check_rules.specs.StmtBreaks.{stepped};
ghost use Rattle.bds_check_size.specs.ExprSize.{expr_size};
ghost use Rattle.bds_check_size.specs.StmtSize as sizes;
ghost use Rattle.bds_gen_expr.specs.Scope.{types_in};
ghost use Rattle.bds_gen_size.specs.Capped.{capped};

use crate::exprs::{all_size, expr_size, method_of};
use bds_check_names::is_known;
use bds_gen_expr::Scope;
use bds_tree::{Expr, Form, Place, Small, SmallForm, Step, Suffix};
use bds_value::{Boxed, Method};

fn suffix_size(scope: &Scope, suffix: &Suffix) -> u64
    ensures { result ≡ capped (sizes.suffix_size (types_in scope.now) (suffix_of suffix.now)) }
{
    match suffix {
        Suffix::Item(index) => expr_size(scope, index),
        Suffix::Key(key) => expr_size(scope, key),
    }
}

/// The steps of a place.
pub fn suffixes_size(scope: &Scope, suffixes: &[Suffix]) -> u64
    ensures { result ≡ capped (sizes.suffixes_size (types_in scope.now) (map suffix_of suffixes.now)) }
{
    let mut sum: u64 = 0;
    for suffix in suffixes {
        sum = sum.saturating_add(suffix_size(scope, suffix));
    }
    sum
}

/// The steps of a place that is a receiver.
fn steps_size(scope: &Scope, receiver: &Expr) -> u64
    ensures { result ≡ capped (sizes.steps_size (types_in scope.now) (tree_of receiver.now)) }
{
    match &receiver.form {
        Form::Item(list, index) => {
            steps_size(scope, list.get()).saturating_add(expr_size(scope, index.get()))
        }
        Form::Key(map, key) => {
            steps_size(scope, map.get()).saturating_add(expr_size(scope, key.get()))
        }
        Form::Number(_) => 0,
        Form::Text(_) => 0,
        Form::Bool(_) => 0,
        Form::Name(_) => 0,
        Form::Call(_, _) => 0,
        Form::Group(_) => 0,
        Form::List(_) => 0,
        Form::Map(_) => 0,
        Form::Method(_, _, _) => 0,
        Form::Prefix(_, _) => 0,
        Form::Binary(_, _, _) => 0,
        Form::Choice(_, _, _) => 0,
        Form::Dependency(_, _) => 0,
    }
}

/// A call whose result isn't used.
fn dropped_size(scope: &Scope, call: &Expr) -> u64
    ensures { result ≡ capped (sizes.dropped_size (types_in scope.now) (tree_of call.now)) }
{
    let size = expr_size(scope, call);
    if is_known(&call.ty) {
        size.saturating_add(1)
    } else {
        size
    }
}

/// A call that stands alone.
pub fn call_size(scope: &Scope, call: &Expr) -> u64
    ensures { result ≡ capped (sizes.call_size (types_in scope.now) (tree_of call.now)) }
{
    match &call.form {
        Form::Method(receiver, name, arguments) => {
            match method_of(receiver.get(), name, arguments.as_slice()) {
                Some(Method::Change(_)) => {
                    let steps = steps_size(scope, receiver.get());
                    steps
                        .saturating_add(all_size(scope, arguments.as_slice()))
                        .saturating_add(1)
                }
                Some(Method::Plain(_)) => dropped_size(scope, call),
                Some(Method::File(_)) => dropped_size(scope, call),
                None => dropped_size(scope, call),
            }
        }
        _ => dropped_size(scope, call),
    }
}

/// A place that a value on the right is put into.
fn change_size(scope: &Scope, place: &Place, value: &Expr) -> u64
    ensures { result ≡ capped (sizes.suffixes_size (types_in scope.now) (map suffix_of place.now.suffixes) + expr_size (types_in scope.now) (tree_of value.now) + 1) }
{
    let steps = suffixes_size(scope, place.suffixes.as_slice());
    steps
        .saturating_add(expr_size(scope, value))
        .saturating_add(1)
}

/// One more or one less.
pub fn step_size(scope: &Scope, step: &Step) -> u64
    ensures { result ≡ capped (sizes.suffixes_size (types_in scope.now) (stepped (step_of step.now)).suffixes + 2) }
{
    match step {
        Step::After(place, _) => {
            suffixes_size(scope, place.suffixes.as_slice()).saturating_add(2)
        }
        Step::Before(_, place) => {
            suffixes_size(scope, place.suffixes.as_slice()).saturating_add(2)
        }
    }
}

fn form_size(scope: &Scope, form: &SmallForm) -> u64
    ensures { result ≡ capped (sizes.small_form_size (types_in scope.now) (small_form_of form.now)) }
{
    match form {
        SmallForm::Declare(_, _, None) => 2,
        SmallForm::Declare(_, _, Some(value)) => expr_size(scope, value).saturating_add(1),
        SmallForm::Infer(_, value) => expr_size(scope, value).saturating_add(1),
        SmallForm::Assign(place, value) => change_size(scope, place, value),
        SmallForm::Update(place, _, value) => change_size(scope, place, value),
        SmallForm::Step(step) => step_size(scope, step),
        SmallForm::Call(call) => call_size(scope, call),
    }
}

/// A part of a `for`, where it is there.
pub fn small_size(scope: &Scope, small: &Option<Boxed<Small>>) -> u64
    ensures { result ≡ capped (sizes.maybe_small_size (types_in scope.now) (option_map small_of small.now)) }
{
    match small {
        None => 0,
        Some(small) => form_size(scope, &small.get().form),
    }
}
