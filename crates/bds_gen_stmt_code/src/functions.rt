//! Functions: their slots, their beginning and their end.
ghost use Rattle.std.specs.Prelude.{◌≡◌, ◌++◌, ◌∷◌, [], OnOk, IfOk, length};
ghost use Rattle.bds_value.specs.declared.value.Ty.TheVariants as types;
ghost use Rattle.bds_gen_expr.specs.Marks.{slot, put, written};
ghost use Rattle.bds_gen_expr.specs.Numbers.{numbered, visible_locals};
ghost use Rattle.bds_gen_stmt.specs.FunctionCode.{fresh, eight, ending, renumbered, types_of};
ghost use Rattle.bds_gen_stmt.specs.StmtCode.{loads_code};
ghost use Rattle.bds_gen_stmt_code.specs.Bodies.{begun};

use crate::body::{push_slot, slot_number};
use bds_check_names::{is_known, variable};
use bds_code::{Function, Instr};
use bds_gen_expr::{Locals, Numbered, act};
use bds_value::{At, ByteText, Listed, NoMemory, Shared, Ty, Types, copy_ty};
use std::alloc::Global;

/// Variables that are numbered from 0 on, and their types.
#[derive(Drop)]
pub struct Parameters {
    pub locals: Locals,
    pub types: Types,
}

/// No parameters.
pub fn no_parameters(alloc: Global) -> Parameters
    ensures locals { result.locals ≡ [] }
    ensures types { result.types ≡ [] }
{
    Parameters {
        locals: Locals::new(alloc),
        types: Listed::new(alloc),
    }
}

/// One more parameter.
pub fn add_parameter(
    alloc: Global,
    parameters: &mut Parameters,
    name: &ByteText,
    ty: &Ty,
) -> Result<(), NoMemory>
    ensures locals { OnOk result (parameters.new.locals ≡ parameters.old.locals ++ numbered name.now ty.now (length parameters.old.types) ∷ []) }
    ensures types { OnOk result (parameters.new.types ≡ parameters.old.types ++ ty.now ∷ []) }
{
    let number = slot_number(parameters.types.len())?;
    let copied = copy_ty(alloc, ty)?;
    parameters.types.push(copied)?;
    let variable = variable(alloc, name, ty)?;
    parameters.locals.push(alloc, Numbered { variable, number })
}

/// The locals in force that no later one of their name hides, numbered from 0 on.
#[tactic(auto, using(crate::proofs::Writing::visible_hidden, crate::proofs::Writing::visible_shown))]
pub fn visible(alloc: Global, locals: &Locals) -> Result<Parameters, NoMemory>
    ensures locals { IfOk result (λ p. p.locals ≡ renumbered (visible_locals locals.now) 0) }
    ensures types { IfOk result (λ p. p.types ≡ types_of (visible_locals locals.now)) }
{
    let mut parameters = no_parameters(alloc);
    let numbered = locals.as_slice();
    for i in 0..numbered.len() {
        let local = &numbered[i];
        if !locals.is_named_behind(i + 1, &local.variable.name) {
            let variable = &local.variable;
            add_parameter(alloc, &mut parameters, &variable.name, &variable.ty)?;
        }
    }
    Ok(parameters)
}

/// Pushes the locals in force that no later one of their name hides.
#[tactic(auto, using(crate::proofs::Writing::visible_hidden, crate::proofs::Writing::visible_shown))]
pub fn write_loads(locals: &Locals, at: At, function: &mut Function) -> Result<(), NoMemory>
    ensures { OnOk result (function.new ≡ written function.old (loads_code at (visible_locals locals.now))) }
{
    let numbered = locals.as_slice();
    for i in 0..numbered.len() {
        let local = &numbered[i];
        if !locals.is_named_behind(i + 1, &local.variable.name) {
            act(function, at, Instr::Load(local.number))?;
        }
    }
    Ok(())
}

fn push_files(alloc: Global, function: &mut Function) -> Result<(), NoMemory>
    ensures { OnOk result (function.new ≡ put function.old (slot (types.List types.Text))) }
{
    let text = Shared::of(alloc, Ty::Text)?;
    function.locals.push(Ty::List(text))
}

/// The slots that tasks need: outputs, inputs, cpus, whether it may fail, retries, name, whether it is
/// needed, and a spare one.
fn push_eight(alloc: Global, function: &mut Function) -> Result<(), NoMemory>
    ensures { OnOk result (function.new ≡ written function.old eight) }
{
    push_files(alloc, function)?;
    push_files(alloc, function)?;
    push_slot(alloc, function, &Ty::Int)?;
    push_slot(alloc, function, &Ty::Bool)?;
    push_slot(alloc, function, &Ty::Int)?;
    push_slot(alloc, function, &Ty::Text)?;
    push_slot(alloc, function, &Ty::Bool)?;
    push_slot(alloc, function, &Ty::Text)
}

fn empty_function(alloc: Global, name: ByteText, params: Types, ret: Ty) -> Function
    ensures { result ≡ fresh name params ret }
{
    Function {
        name,
        params,
        locals: Listed::new(alloc),
        ret,
        code: Listed::new(alloc),
        labels: Listed::new(alloc),
        lines: Listed::new(alloc),
    }
}

/// A function without code, with the slots that tasks need.
pub fn begin_function(
    alloc: Global,
    name: ByteText,
    params: Types,
    ret: Ty,
) -> Result<Function, NoMemory>
    ensures { IfOk result (λ f. f ≡ begun name params ret) }
{
    let mut function = empty_function(alloc, name, params, ret);
    push_eight(alloc, &mut function)?;
    Ok(function)
}

/// What a function ends with: a default, where it has a result.
pub fn write_ending(alloc: Global, function: &mut Function, at: At) -> Result<(), NoMemory>
    ensures { OnOk result (function.new ≡ written function.old (ending function.old.ret at)) }
{
    if is_known(&function.ret) {
        let ret = copy_ty(alloc, &function.ret)?;
        act(function, at, Instr::PushDefault(ret))?;
    }
    act(function, at, Instr::Return)
}
