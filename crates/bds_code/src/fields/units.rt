//! Units read from their fields.
ghost use Rattle.std.specs.Prelude.{◌≡◌, IfOk};
ghost use Rattle.bds_value.specs.Reading.{Reads, all_at, many};
ghost use Rattle.bds_code.specs.UnitFields.{IsFieldUnit, UnitFits};
ghost use Rattle.bds_code.specs.UnitReading.{function_at, unit_at};

use crate::fields::code::read_code;
use crate::fields::reading::{read_labels, read_lines};
use crate::unit::{Function, Functions, Unit};
use bds_value::{
    FieldFault, Input, Listed, MAX_COUNT, are_bytes, read_count, read_text, read_texts, read_ty,
    read_types,
};
use std::alloc::Global;

fn read_function(alloc: Global, input: &mut Input) -> Result<Function, FieldFault>
    ensures read { Reads (function_at input.old) input.new result }
    ensures kept { input.new.bytes ≡ input.old.bytes }
{
    let name = read_text(alloc, input)?;
    let params = read_types(alloc, input)?;
    let locals = read_types(alloc, input)?;
    let ret = read_ty(alloc, input)?;
    let code = read_code(alloc, input)?;
    let labels = read_labels(alloc, input)?;
    let lines = read_lines(alloc, input, code.len())?;
    Ok(Function {
        name,
        params,
        locals,
        ret,
        code,
        labels,
        lines,
    })
}

fn read_functions(alloc: Global, input: &mut Input) -> Result<Functions, FieldFault>
    ensures read { Reads (all_at function_at input.old) input.new result }
    ensures kept { input.new.bytes ≡ input.old.bytes }
{
    let count = read_count(input, MAX_COUNT)?;
    read_counted_functions(alloc, input, count)
}

fn read_counted_functions(
    alloc: Global,
    input: &mut Input,
    count: u32,
) -> Result<Functions, FieldFault>
    ensures read { Reads (many function_at count input.old) input.new result }
    ensures kept { input.new.bytes ≡ input.old.bytes }
{
    let mut functions = Listed::new(alloc);
    for _ in 0..count {
        functions.push(read_function(alloc, input)?)?;
    }
    Ok(functions)
}

/// Reads a unit: its files, the types of its globals, and its functions.
pub fn read_unit(alloc: Global, input: &mut Input) -> Result<Unit, FieldFault>
    ensures read { Reads (unit_at input.old) input.new result }
    ensures legal { IfOk result (λ unit. IsFieldUnit unit × UnitFits unit) }
    ensures kept { input.new.bytes ≡ input.old.bytes }
{
    are_bytes(input.bytes.as_slice());
    read_parts(alloc, input)
}

fn read_parts(alloc: Global, input: &mut Input) -> Result<Unit, FieldFault>
    ensures read { Reads (unit_at input.old) input.new result }
    ensures kept { input.new.bytes ≡ input.old.bytes }
{
    let files = read_texts(alloc, input)?;
    let globals = read_types(alloc, input)?;
    let functions = read_functions(alloc, input)?;
    Ok(Unit {
        files,
        globals,
        functions,
    })
}
