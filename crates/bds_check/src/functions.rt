//! The walk through a function's parameters and body.
ghost use Rattle.std.specs.Prelude.{◌≡◌, [], IfOk, None, take};
ghost use Rattle.bds_tree.specs.StmtView.{block_of, function_of};
ghost use Rattle.bds_check.specs.Answers.{LeavesBody, LeavesFunction};
ghost use Rattle.bds_check_names.specs.Scopes as scopes;
ghost use Rattle.bds_check_typing.specs.StmtWalk as walk;
ghost use Rattle.bds_check_typing.specs.Program as program;

use bds_check_names::{
    Functions, Locals, Names, are_too_many, block_slots, in_function, is_known, variable,
};
use bds_check_rules::{CheckFault, Rule, block_ends};
use bds_check_stmts::walk_block;
use bds_tree::{Function, Parameter};
use bds_value::{MAX_PARAMETERS, NoMemory, copy_ty};
use std::alloc::Global;

/// Declares the parameters of a function.
fn declare_parameters(
    alloc: Global,
    locals: &mut Locals,
    parameters: &[Parameter],
) -> Result<(), NoMemory>
    ensures { IfOk result (λ _. locals.new ≡ program.declare_parameters locals.old parameters.now) }
{
    for parameter in parameters {
        let variable = variable(alloc, &parameter.name, &parameter.ty)?;
        locals.declare_in(alloc, 0, variable)?;
    }
    Ok(())
}

/// A parameter has the name of an earlier one, which made no local of its own.
fn any_twice(locals: &Locals, parameters: &[Parameter]) -> bool
    requires { locals.now ≡ program.declare_parameters [] parameters.now }
    ensures { result ≡ program.any_twice parameters.now }
{
    locals.len() < parameters.len()
}

/// The least rule that a function breaks behind the functions before it, so many; of its parameters
/// it is told whether two have one name.
fn function_rule(
    functions: &Functions,
    before: usize,
    twice: bool,
    function: &Function,
) -> Option<Rule>
    requires { twice ≡ program.any_twice function.now.parameters }
    ensures { result ≡ program.function_breaks (take before functions.now) (function_of function.now) }
{
    let count = function.parameters.len();
    if twice {
        Some(Rule::TwiceDeclared)
    } else if functions.is_among_first(before, &function.name) {
        Some(Rule::TwiceFunction)
    } else if is_known(&function.result) && !block_ends(&function.body) {
        Some(Rule::NoReturn)
    } else if count > MAX_PARAMETERS as usize {
        Some(Rule::TooManyParameters)
    } else if are_too_many(count, block_slots(&function.body)) {
        Some(Rule::TooManyLocals)
    } else {
        None
    }
}

/// The body of a function, where its parameters are in force.
fn walk_function_body(
    alloc: Global,
    names: &mut Names,
    function: &mut Function,
) -> Result<(), CheckFault>
    requires { names.old.locals ≡ [] }
    ensures fits { LeavesBody result (function_of function.new) (function_of function.old)
        (walk.judge_block (block_of function.old.body) (program.with_parameters names.old function.old.parameters)
        (scopes.in_function function.old.result)) }
    ensures names { IfOk result (λ _. names.new ≡ program.with_parameters names.old function.old.parameters) }
{
    declare_parameters(alloc, &mut names.locals, function.parameters.as_slice())?;
    let site = in_function(copy_ty(alloc, &function.result)?);
    walk_block(alloc, names, &site, &mut function.body)
}

/// A function behind its body; of its parameters it is told whether two have one name.
fn close_function(
    functions: &Functions,
    before: usize,
    twice: bool,
    function: &Function,
) -> Result<(), CheckFault>
    requires { twice ≡ program.any_twice function.now.parameters }
    ensures { LeavesFunction result (function_of function.now)
        (program.close_function (take before functions.now) (function_of function.now)
        (record { block = block_of function.now.body; broken = None })) }
{
    match function_rule(functions, before, twice, function) {
        Some(rule) => Err(CheckFault::Broken {
            rule,
            at: function.at,
        }),
        None => Ok(()),
    }
}

/// A function, which gets its types, behind the functions before it, so many.
pub fn walk_function(
    alloc: Global,
    names: &mut Names,
    before: usize,
    function: &mut Function,
) -> Result<(), CheckFault>
    requires { names.old.locals ≡ [] }
    ensures fits { LeavesFunction result (function_of function.new)
        (program.judge_function names.old (take before names.old.functions) (function_of function.old)) }
    ensures names { IfOk result (λ _. names.new ≡ names.old) }
{
    walk_function_body(alloc, names, function)?;
    let twice = any_twice(&names.locals, function.parameters.as_slice());
    names.locals = Locals::new(alloc);
    close_function(&names.functions, before, twice, function)
}
