//! The names in force at the beginning of the top level, and what a unit tells of names.
ghost use Rattle.std.specs.Prelude.{◌≡◌, ◌+◌, ◌∷◌, [], IfOk, codes, length, map};
ghost use Rattle.bds_value.specs.declared.value.Ty.TheVariants as types;
ghost use Rattle.bds_tree.specs.StmtView.{part_of};
ghost use Rattle.bds_gen_expr.specs.Numbers.{callees_from, numbered};
ghost use Rattle.bds_gen_stmt.specs.UnitCode.{function_names, first_scope};

use bds_check_names::variable;
use bds_gen_expr::{Callee, Callees, Globals, Locals, Numbered, Scope, counted};
use bds_tree::Part;
use bds_value::{ByteText, Listed, NoMemory, Shared, Texts, Ty, Types, copy_text, copy_ty};
use std::alloc::Global;

fn callee(alloc: Global, name: &ByteText, number: u32) -> Result<Callee, NoMemory>
    ensures { IfOk result (λ c. c ≡ record { name = name.now; number = number }) }
{
    let name = copy_text(alloc, name)?;
    Ok(Callee { name, number })
}

/// How many functions the parts declare.
fn function_count(parts: &[Part]) -> usize
    ensures { result ≡ length (function_names (map part_of parts.now)) }
{
    let mut count = 0;
    for part in parts {
        if let Part::Function(_) = part {
            count += 1;
        }
    }
    count
}

/// The number behind those of the declared functions, which come behind the top level.
pub fn first_par(parts: &[Part]) -> Result<u32, NoMemory>
    ensures { IfOk result (λ n. n ≡ length (function_names (map part_of parts.now)) + 1) }
{
    let count = counted(function_count(parts))?;
    match count.checked_add(1) {
        Some(number) => Ok(number),
        None => Err(NoMemory),
    }
}

/// The declared functions by their numbers, from 1 on.
fn callees(alloc: Global, parts: &[Part]) -> Result<Callees, NoMemory>
    ensures { IfOk result (λ cs. cs ≡ callees_from 1 (function_names (map part_of parts.now))) }
{
    let mut callees = Callees::new(alloc);
    let mut number: u32 = 1;
    for part in parts {
        if let Part::Function(function) = part {
            callees.push(alloc, callee(alloc, &function.name, number)?)?;
            number = match number.checked_add(1) {
                Some(next) => next,
                None => return Err(NoMemory),
            };
        }
    }
    Ok(callees)
}

/// The first global, which holds words.
fn args_global(alloc: Global) -> Result<Globals, NoMemory>
    ensures { IfOk result (λ gs. gs ≡ numbered (codes "args") (types.List types.Text) 0 ∷ []) }
{
    let mut name = Listed::new(alloc);
    name.append(b"args")?;
    let ty = Ty::List(Shared::of(alloc, Ty::Text)?);
    let variable = variable(alloc, &name, &ty)?;
    let mut globals = Globals::new(alloc);
    let number = 0;
    globals.push(alloc, Numbered { variable, number })?;
    Ok(globals)
}

/// What names stand for at the beginning of the top level.
pub fn first_scope(alloc: Global, parts: &[Part]) -> Result<Scope, NoMemory>
    ensures { IfOk result (λ scope. scope ≡ first_scope (map part_of parts.now)) }
{
    let globals = args_global(alloc)?;
    let functions = callees(alloc, parts)?;
    Ok(Scope {
        locals: Locals::new(alloc),
        globals,
        functions,
    })
}

pub fn copy_texts(alloc: Global, texts: &[ByteText]) -> Result<Texts, NoMemory>
    ensures { IfOk result (λ copies. copies ≡ texts.now) }
{
    let mut copies = Listed::new(alloc);
    for text in texts {
        copies.push(copy_text(alloc, text)?)?;
    }
    Ok(copies)
}

/// The types of globals, by their numbers.
pub fn global_types(alloc: Global, globals: &[Numbered]) -> Result<Types, NoMemory>
    ensures { IfOk result (λ ts. ts ≡ map (λ g. g.variable.ty) globals.now) }
{
    let mut types = Listed::new(alloc);
    for global in globals {
        types.push(copy_ty(alloc, &global.variable.ty)?)?;
    }
    Ok(types)
}
