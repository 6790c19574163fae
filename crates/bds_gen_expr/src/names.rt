//! The names that code is made of, as plain lists, and the code of one expression under them.
ghost use Rattle.std.specs.Prelude.{◌≡◌, ◌≤◌, ◌++◌, OnOk, OnErr, IfOk, length, reverse};
ghost use Rattle.bds_value.specs.declared.TheConstants.{MAX_COUNT, MAX_GLOBALS, MAX_SLOTS};
ghost use Rattle.bds_code.specs.Row.{slot_ty};
ghost use Rattle.bds_tree.specs.View.{tree_of};
ghost use Rattle.bds_gen_expr.specs.Indexes.{named_slot};
ghost use Rattle.bds_gen_expr.specs.ExprCode.{expr_code};
ghost use Rattle.bds_gen_expr.specs.Grown.{Grown};
ghost use Rattle.bds_gen_expr.specs.Marks.{written};
ghost use Rattle.bds_gen_expr.specs.Numbers.{numbered, callee, numbered_from, callees_from};
ghost use Rattle.bds_gen_expr.specs.Scope.{scope_of};

use crate::callees::Callees;
use crate::exprs::write_expr;
use crate::globals::Globals;
use crate::locals::Locals;
use crate::scope::{Callee, Numbered, Scope};
use bds_check_names::variable;
use bds_code::{Function, Shape, slot};
use bds_tree::Expr;
use bds_value::{ByteText, NoMemory, Texts, Ty, Types, copy_text};
use std::alloc::Global;

/// The numbers of slots, globals and functions: the place of each name. A slot that isn't in force has
/// the empty name. Of equal names the last counts, and a local before a global.
#[derive(Drop)]
pub struct Names {
    /// Of each parameter and local of the function.
    pub locals: Texts,
    pub globals: Texts,
    /// The types of the globals.
    pub types: Types,
    pub functions: Texts,
}

fn with_number(alloc: Global, name: &ByteText, ty: &Ty, number: u16) -> Result<Numbered, NoMemory>
    ensures { IfOk result (λ n. n ≡ numbered name.now ty.now number) }
{
    let variable = variable(alloc, name, ty)?;
    Ok(Numbered { variable, number })
}

/// One more local with the type of a slot, where the function has that.
fn push_slot(
    alloc: Global,
    locals: &mut Locals,
    name: &ByteText,
    function: &Function,
    number: u16,
) -> Result<(), NoMemory>
    ensures { OnOk result (locals.new ≡ locals.old ++ named_slot name.now (slot_ty function.now number) number) }
{
    match slot(function, number) {
        Some(ty) => locals.push(alloc, with_number(alloc, name, ty, number)?),
        None => Ok(()),
    }
}

/// The slots of a function.
fn locals_of(alloc: Global, names: &[ByteText], function: &Function) -> Result<Locals, NoMemory>
    requires { length names.now ≤ MAX_SLOTS }
    ensures { IfOk result (λ locals. locals ≡ numbered_from 0 names.now (function.now.params ++ function.now.locals)) }
{
    let mut locals = Locals::new(alloc);
    for i in 0..names.len() {
        push_slot(alloc, &mut locals, &names[i], function, i as u16)?;
    }
    Ok(locals)
}

/// The globals, the last first.
fn globals_of(alloc: Global, names: &[ByteText], types: &[Ty]) -> Result<Globals, NoMemory>
    requires most { length names.now ≤ MAX_GLOBALS }
    requires same { length names.now ≡ length types.now }
    ensures { IfOk result (λ globals. globals ≡ reverse (numbered_from 0 names.now types.now)) }
{
    let mut globals = Globals::new(alloc);
    for i in (0..names.len()).rev() {
        let global = with_number(alloc, &names[i], &types[i], i as u16)?;
        globals.push(alloc, global)?;
    }
    Ok(globals)
}

fn callee(alloc: Global, name: &ByteText, number: u32) -> Result<Callee, NoMemory>
    ensures { IfOk result (λ c. c ≡ callee name.now number) }
{
    let name = copy_text(alloc, name)?;
    Ok(Callee { name, number })
}

/// The functions, the last first.
fn callees_of(alloc: Global, names: &[ByteText]) -> Result<Callees, NoMemory>
    requires { length names.now ≤ MAX_COUNT }
    ensures { IfOk result (λ callees. callees ≡ reverse (callees_from 0 names.now)) }
{
    let mut callees = Callees::new(alloc);
    for i in (0..names.len()).rev() {
        let callee = callee(alloc, &names[i], i as u32)?;
        callees.push(alloc, callee)?;
    }
    Ok(callees)
}

/// What these names stand for in a function.
pub fn scope_of(alloc: Global, names: &Names, function: &Function) -> Result<Scope, NoMemory>
    requires slots { length names.now.locals ≤ MAX_SLOTS }
    requires globals { length names.now.globals ≤ MAX_GLOBALS }
    requires types { length names.now.globals ≡ length names.now.types }
    requires functions { length names.now.functions ≤ MAX_COUNT }
    ensures { IfOk result (λ scope. scope ≡ scope_of names.now function.now) }
{
    let locals = locals_of(alloc, names.locals.as_slice(), function)?;
    let globals = globals_of(alloc, names.globals.as_slice(), names.types.as_slice())?;
    let functions = callees_of(alloc, names.functions.as_slice())?;
    Ok(Scope {
        locals,
        globals,
        functions,
    })
}

/// Puts the code of an expression behind what a function has. `shape` are the operands below it. After a
/// refused call the function's lists have their old ones at the front.
pub fn gen_expr(
    alloc: Global,
    expr: &Expr,
    names: &Names,
    shape: &Types,
    function: &mut Function,
) -> Result<(), NoMemory>
    requires slots { length names.now.locals ≤ MAX_SLOTS }
    requires globals { length names.now.globals ≤ MAX_GLOBALS }
    requires types { length names.now.globals ≡ length names.now.types }
    requires functions { length names.now.functions ≤ MAX_COUNT }
    ensures code { OnOk result (function.new ≡ written function.old (expr_code (tree_of expr.now) (scope_of names.now function.old) (length function.old.code) (reverse shape.now))) }
    ensures err { OnErr result (Grown function.old function.new) }
{
    let scope = scope_of(alloc, names, function)?;
    let mut operands = Shape::of(alloc, shape.as_slice())?;
    write_expr(alloc, &scope, expr, &mut operands, function)?;
    Ok(())
}
