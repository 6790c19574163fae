//! Calls that stand alone, of which some change their receiver.
ghost use Rattle.std.specs.Prelude.{◌≡◌, ◌++◌, [], OnOk};
ghost use Rattle.bds_tree.specs.View.{tree_of, trees_of};
ghost use Rattle.bds_tree.specs.Tree.{type_of};
ghost use Rattle.bds_value.specs.Methods.{signature_of};
ghost use Rattle.bds_check_rules.specs.Typing.{count as tree_count};
ghost use Rattle.bds_gen_expr.specs.Gen.{act, gen_all};
ghost use Rattle.bds_gen_stmt.specs.PlaceCode.{steps_of, variable_of};
ghost use Rattle.bds_gen_stmt_code.specs.GenParts.{update_of, steps_above, gen_steps, gen_dropped, gen_changed, gen_call};

use crate::places::{update_of, write_step};
use bds_check_names::is_known;
use bds_code::{Function, Instr, Kinds, Shape};
use bds_gen_expr::{Scope, act, write_all, write_expr};
use bds_tree::{Expr, Form};
use bds_value::{At, ByteText, Listed, Method, NoMemory, signature};
use std::alloc::Global;

/// The steps of a place that is a receiver.
#[tactic(auto, using(crate::proofs::Writing::above_end))]
fn write_receiver(
    alloc: Global,
    scope: &Scope,
    receiver: &Expr,
    shape: &mut Shape,
    kinds: &mut Kinds,
    function: &mut Function,
) -> Result<(), NoMemory>
    ensures code { OnOk result (function.new ≡ gen_steps (tree_of receiver.now) scope.now shape.old function.old) }
    ensures shape { OnOk result (shape.new ≡ steps_above (steps_of (tree_of receiver.now)) shape.old) }
    ensures kinds { OnOk result (kinds.new ≡ kinds.old ++ steps_of (tree_of receiver.now)) }
{
    match &receiver.form {
        Form::Item(list, index) => {
            write_receiver(alloc, scope, list.get(), shape, kinds, function)?;
            write_step(alloc, scope, index.get(), false, shape, kinds, function)
        }
        Form::Key(map, key) => {
            write_receiver(alloc, scope, map.get(), shape, kinds, function)?;
            write_step(alloc, scope, key.get(), true, shape, kinds, function)
        }
        Form::Number(_)
        | Form::Text(_)
        | Form::Bool(_)
        | Form::Name(_)
        | Form::Call(_, _)
        | Form::Group(_)
        | Form::List(_)
        | Form::Map(_)
        | Form::Method(_, _, _)
        | Form::Prefix(_, _)
        | Form::Binary(_, _, _)
        | Form::Choice(_, _, _)
        | Form::Dependency(_, _) => Ok(()),
    }
}

/// What changes the variable of a receiver.
fn update_in(alloc: Global, scope: &Scope, receiver: &Expr, kinds: Kinds, what: u8) -> Instr
    ensures { result ≡ update_of scope.now (variable_of (tree_of receiver.now)) kinds what }
{
    match &receiver.form {
        Form::Name(name) => update_of(scope, name, kinds, what),
        Form::Item(list, _) => update_in(alloc, scope, list.get(), kinds, what),
        Form::Key(map, _) => update_in(alloc, scope, map.get(), kinds, what),
        Form::Number(_)
        | Form::Text(_)
        | Form::Bool(_)
        | Form::Call(_, _)
        | Form::Group(_)
        | Form::List(_)
        | Form::Map(_)
        | Form::Method(_, _, _)
        | Form::Prefix(_, _)
        | Form::Binary(_, _, _)
        | Form::Choice(_, _, _)
        | Form::Dependency(_, _) => update_of(scope, &Listed::new(alloc), kinds, what),
    }
}

/// A method that changes its receiver.
fn write_mutator(
    alloc: Global,
    scope: &Scope,
    at: At,
    receiver: &Expr,
    what: u8,
    arguments: &[Expr],
    function: &mut Function,
) -> Result<(), NoMemory>
    ensures { OnOk result (function.new ≡ act (gen_all (trees_of arguments.now) scope.now (steps_above (steps_of (tree_of receiver.now)) []) (gen_steps (tree_of receiver.now) scope.now [] function.old)) at (update_of scope.now (variable_of (tree_of receiver.now)) (steps_of (tree_of receiver.now)) what)) }
{
    let mut shape = Shape::new(alloc);
    let mut kinds = Listed::new(alloc);
    write_receiver(alloc, scope, receiver, &mut shape, &mut kinds, function)?;
    write_all(alloc, scope, arguments, &mut shape, function)?;
    act(function, at, update_in(alloc, scope, receiver, kinds, what))
}

/// A call whose result isn't used.
#[tactic(auto, using(crate::proofs::Writing::type_is))]
fn write_dropped(
    alloc: Global,
    scope: &Scope,
    at: At,
    call: &Expr,
    function: &mut Function,
) -> Result<(), NoMemory>
    ensures { OnOk result (function.new ≡ gen_dropped (tree_of call.now) at scope.now function.old) }
{
    write_expr(alloc, scope, call, &mut Shape::new(alloc), function)?;
    if is_known(&call.ty) {
        act(function, at, Instr::Drop)
    } else {
        Ok(())
    }
}

/// The method of a receiver.
fn method_of(receiver: &Expr, name: &ByteText, arguments: &[Expr]) -> Option<Method>
    ensures { result ≡ signature_of (type_of (tree_of receiver.now)) name.now (tree_count (trees_of arguments.now)) }
{
    signature(&receiver.ty, name, arguments.len() as u64)
}

/// A method that stands alone.
fn write_method(
    alloc: Global,
    scope: &Scope,
    at: At,
    call: &Expr,
    receiver: &Expr,
    name: &ByteText,
    arguments: &[Expr],
    function: &mut Function,
) -> Result<(), NoMemory>
    ensures { OnOk result (function.new ≡ gen_changed (signature_of (type_of (tree_of receiver.now)) name.now (tree_count (trees_of arguments.now))) (tree_of call.now) (tree_of receiver.now) (trees_of arguments.now) at scope.now function.old) }
{
    match method_of(receiver, name, arguments) {
        Some(Method::Change(what)) => {
            write_mutator(alloc, scope, at, receiver, what, arguments, function)
        }
        Some(Method::Plain(_)) | Some(Method::File(_)) | None => {
            write_dropped(alloc, scope, at, call, function)
        }
    }
}

/// A call that stands alone.
pub fn write_call(
    alloc: Global,
    scope: &Scope,
    at: At,
    call: &Expr,
    function: &mut Function,
) -> Result<(), NoMemory>
    ensures { OnOk result (function.new ≡ gen_call (tree_of call.now) at scope.now function.old) }
{
    match &call.form {
        Form::Method(receiver, name, arguments) => write_method(
            alloc,
            scope,
            at,
            call,
            receiver.get(),
            name,
            arguments.as_slice(),
            function,
        ),
        Form::Number(_)
        | Form::Text(_)
        | Form::Bool(_)
        | Form::Name(_)
        | Form::Call(_, _)
        | Form::Group(_)
        | Form::List(_)
        | Form::Map(_)
        | Form::Item(_, _)
        | Form::Key(_, _)
        | Form::Prefix(_, _)
        | Form::Binary(_, _, _)
        | Form::Choice(_, _, _)
        | Form::Dependency(_, _) => write_dropped(alloc, scope, at, call, function),
    }
}
