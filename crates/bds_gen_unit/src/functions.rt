//! The code of declared functions.
ghost use Rattle.std.specs.Prelude.{◌≡◌, OnOk, IfOk, map};
ghost use Rattle.bds_tree.specs.StmtView.{part_of, function_of};
ghost use Rattle.bds_gen_stmt.specs.UnitCode.{parameter_locals};
ghost use Rattle.bds_gen_stmt.specs.FunctionCode.{types_of};
ghost use Rattle.bds_gen_stmt_code.specs.Bodies.{with_function};
ghost use Rattle.bds_gen_unit.specs.FunctionParts.{FunctionPushed, FunctionWritten, FunctionsWritten, opened};

use bds_code::{Function, Functions};
use bds_gen_stmt_code::{
    Parameters, Unfinished, add_parameter, begin_function, gen_block, no_parameters, slot_number,
    write_ending,
};
use bds_tree::{Function as Declared, Parameter, Part};
use bds_value::{Listed, NoMemory, Ty, copy_text, copy_ty};
use std::alloc::Global;
use std::mem;

/// The parameters of a declared function, by their slots.
fn parameters_of(alloc: Global, declared: &[Parameter]) -> Result<Parameters, NoMemory>
    ensures locals { IfOk result (λ ps. ps.locals ≡ parameter_locals declared.now 0) }
    ensures types { IfOk result (λ ps. ps.types ≡ types_of (parameter_locals declared.now 0)) }
{
    let mut parameters = no_parameters(alloc);
    for parameter in declared {
        add_parameter(alloc, &mut parameters, &parameter.name, &parameter.ty)?;
    }
    Ok(parameters)
}

/// A declared function is next.
fn open(alloc: Global, unit: &mut Unfinished, declared: &Declared) -> Result<(), NoMemory>
    ensures { OnOk result (unit.new ≡ opened (function_of declared.now) unit.old) }
{
    let Parameters { locals, types } = parameters_of(alloc, declared.parameters.as_slice())?;
    unit.body.first = slot_number(types.len())?;
    let name = copy_text(alloc, &declared.name)?;
    let ret = copy_ty(alloc, &declared.result)?;
    unit.body.function = begin_function(alloc, name, types, ret)?;
    unit.body.scope.locals = locals;
    unit.body.at_top = false;
    Ok(())
}

pub fn take_function(alloc: Global, unit: &mut Unfinished) -> Result<Function, NoMemory>
    ensures function { IfOk result (λ f. f ≡ unit.old.body.function) }
    ensures others { OnOk result (unit.new ≡ with_function unit.old unit.new.body.function) }
{
    let empty = begin_function(alloc, Listed::new(alloc), Listed::new(alloc), Ty::Void)?;
    Ok(mem::replace(&mut unit.body.function, empty))
}

/// The function that is declared there. The functions of its `par` blocks are finished too.
pub fn write_function(
    alloc: Global,
    unit: &mut Unfinished,
    declared: &Declared,
) -> Result<Function, NoMemory>
    ensures { IfOk result (λ f. FunctionWritten (function_of declared.now) unit.old unit.new f) }
{
    open(alloc, unit, declared)?;
    gen_block(alloc, unit, &declared.body)?;
    write_ending(alloc, &mut unit.body.function, declared.body.at)?;
    take_function(alloc, unit)
}

/// The function that a part declares, behind others.
fn push_function(
    alloc: Global,
    unit: &mut Unfinished,
    part: &Part,
    functions: &mut Functions,
) -> Result<(), NoMemory>
    ensures { OnOk result (FunctionPushed (part_of part.now) unit.old unit.new functions.old functions.new) }
{
    match part {
        Part::Function(declared) => {
            let function = write_function(alloc, unit, declared)?;
            functions.push(function)
        }
        Part::Include(_) => Ok(()),
        Part::Stmt(_) => Ok(()),
    }
}

/// The declared functions behind others.
pub fn write_functions(
    alloc: Global,
    unit: &mut Unfinished,
    parts: &[Part],
    functions: &mut Functions,
) -> Result<(), NoMemory>
    ensures { OnOk result (FunctionsWritten (map part_of parts.now) unit.old unit.new functions.old functions.new) }
{
    for part in parts {
        push_function(alloc, unit, part, functions)?;
    }
    Ok(())
}
