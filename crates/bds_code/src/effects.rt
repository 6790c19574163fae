//! What an instruction does to the types of the operands.
ghost use Rattle.std.specs.Prelude.{◌≡◌, ◌<◌, ◌≤◌, ◌++◌, length, reverse, take, slice_get, Some, OnOk, OnErr, [], ◌∷◌};
ghost use Rattle.std.specs.Option.{option_to_list};
ghost use Rattle.bds_code.specs.Effects.{Swaps, ChangesShape, LeavesFront};
ghost use Rattle.bds_code.specs.Row.{row, task_parts};
ghost use Rattle.bds_code.specs.Operands.{swapped};

use crate::instr::Instr;
use crate::methods::method;
use crate::operands::{Exchange, give, give_list, give_map, swap, swap_list, take_all, take_list};
use crate::rows::{
    add_item, ask, call, drop_any, equal, join_lists, leave, less, load, make_list, make_map, show,
    slot, spawn, store, take_entry, take_item, variable,
};
use crate::unit::{Function, Unit};
use crate::updates::update;
use bds_value::{NoMemory, Ty, Types};
use std::alloc::Global;

/// Why an instruction can't follow: the operands aren't what it takes, or the thing of a number
/// isn't there.
#[derive(Debug, Drop)]
pub enum EffectFault {
    Needs,
    Number(u32),
    NoMemory,
}

/// Takes the parts of a task.
fn take_task(alloc: Global, shape: &[Ty], gives: &Ty) -> Result<Exchange, EffectFault>
    ensures { Swaps (swapped task_parts gives.now (reverse shape.now)) shape.now result }
{
    let parts = [Ty::Int, Ty::Bool, Ty::Int, Ty::Text, Ty::Text];
    let count = take_all(shape, shape.len(), &parts)?;
    let count = take_list(shape, count, &Ty::Text)?;
    let keeps = take_list(shape, count, &Ty::Text)?;
    give(alloc, keeps, gives)
}

/// Takes one list of texts.
fn take_texts(alloc: Global, shape: &[Ty], gives: &Ty) -> Result<Exchange, EffectFault>
    ensures { Swaps (swapped (Ty.List Ty.Text ∷ []) gives.now (reverse shape.now)) shape.now result }
{
    let keeps = take_list(shape, shape.len(), &Ty::Text)?;
    give(alloc, keeps, gives)
}

/// Takes two lists of texts.
fn take_two_texts(alloc: Global, shape: &[Ty]) -> Result<Exchange, EffectFault>
    ensures { Swaps (swapped (Ty.List Ty.Text ∷ Ty.List Ty.Text ∷ []) Ty.Bool (reverse shape.now)) shape.now result }
{
    let count = take_list(shape, shape.len(), &Ty::Text)?;
    let keeps = take_list(shape, count, &Ty::Text)?;
    give(alloc, keeps, &Ty::Bool)
}

/// Takes a list of texts, and gives another.
fn swap_texts(alloc: Global, shape: &[Ty]) -> Result<Exchange, EffectFault>
    ensures { Swaps (swapped (Ty.List Ty.Text ∷ []) (Ty.List Ty.Text) (reverse shape.now)) shape.now result }
{
    let keeps = take_list(shape, shape.len(), &Ty::Text)?;
    give_list(alloc, keeps, &Ty::Text)
}

/// What becomes of the operands by an instruction.
fn exchange(
    alloc: Global,
    unit: &Unit,
    function: &Function,
    instr: &Instr,
    shape: &[Ty],
) -> Result<Exchange, EffectFault>
    ensures { Swaps (row unit.now function.now instr.now (reverse shape.now)) shape.now result }
{
    match instr {
        Instr::PushBool(_) => swap(alloc, shape, &[], &Ty::Bool),
        Instr::PushInt(_) => swap(alloc, shape, &[], &Ty::Int),
        Instr::PushText(_) => swap(alloc, shape, &[], &Ty::Text),
        Instr::PushDefault(ty) => swap(alloc, shape, &[], ty),
        Instr::Load(i) => load(alloc, shape, slot(function, *i), *i),
        Instr::Store(i) => store(shape, slot(function, *i), *i),
        Instr::LoadGlobal(i) => load(alloc, shape, variable(unit, function, true, *i), *i),
        Instr::StoreGlobal(i) => store(shape, variable(unit, function, true, *i), *i),
        Instr::Drop => drop_any(shape),
        Instr::Add | Instr::Sub | Instr::Mul | Instr::Div | Instr::Rem => {
            swap(alloc, shape, &[Ty::Int, Ty::Int], &Ty::Int)
        }
        Instr::Neg => swap(alloc, shape, &[Ty::Int], &Ty::Int),
        Instr::Not => swap(alloc, shape, &[Ty::Bool], &Ty::Bool),
        Instr::Show | Instr::Blank => show(alloc, shape),
        Instr::Concat => swap(alloc, shape, &[Ty::Text, Ty::Text], &Ty::Text),
        Instr::ListAdd => add_item(alloc, shape),
        Instr::ListCat => join_lists(alloc, shape),
        Instr::Equal | Instr::NotEqual => equal(alloc, shape),
        Instr::Less | Instr::LessEqual | Instr::Greater | Instr::GreaterEqual => less(alloc, shape),
        Instr::MakeList(ty, n) => make_list(alloc, shape, ty, *n),
        Instr::MakeMap(ty, n) => make_map(alloc, shape, ty, *n),
        Instr::Item => take_item(alloc, shape),
        Instr::Key => take_entry(alloc, shape),
        Instr::Update(global, i, kinds, what) => {
            update(
                shape,
                variable(unit, function, *global, *i),
                *i,
                kinds,
                *what,
            )
        }
        Instr::Jump(_) | Instr::Tick | Instr::WaitAll | Instr::SaveHere => {
            swap(alloc, shape, &[], &Ty::Void)
        }
        Instr::JumpUnless(_) => swap(alloc, shape, &[Ty::Bool], &Ty::Void),
        Instr::Call(callee) => call(alloc, unit, shape, *callee),
        Instr::Return => leave(shape, &function.ret),
        Instr::Method(number) => method(alloc, shape, *number),
        Instr::FileRead | Instr::Sys => swap(alloc, shape, &[Ty::Text], &Ty::Text),
        Instr::FileWrite => swap(alloc, shape, &[Ty::Text, Ty::Text], &Ty::Void),
        Instr::FileRemove | Instr::Out | Instr::Stop | Instr::Save => {
            swap(alloc, shape, &[Ty::Text], &Ty::Void)
        }
        Instr::FileStamp(question) => ask(alloc, shape, *question),
        Instr::Exit => swap(alloc, shape, &[Ty::Int], &Ty::Void),
        Instr::OutOfDate => take_two_texts(alloc, shape),
        Instr::NewTask => take_task(alloc, shape, &Ty::Text),
        Instr::Declare => take_task(alloc, shape, &Ty::Void),
        Instr::Goal => swap_texts(alloc, shape),
        Instr::Spawn(callee) => spawn(alloc, unit, shape, *callee),
        Instr::Wait => take_texts(alloc, shape, &Ty::Void),
    }
}

/// Keeps so many of the first operands.
fn cut(shape: &mut Types, keeps: usize)
    requires { keeps ≤ length shape.old }
    ensures { shape.new ≡ take keeps shape.old }
{
    while shape.len() > keeps {
        let last = shape.len() - 1;
        shape.remove(last);
    }
}

/// Puts a type in the place of the operands from a place on. A refused call leaves them.
fn replace(shape: &mut Types, keeps: usize, ty: Ty) -> Result<(), NoMemory>
    requires { keeps ≤ length shape.old }
    ensures ok { OnOk result (shape.new ≡ take keeps shape.old ++ ty ∷ []) }
    ensures err { OnErr result (shape.new ≡ shape.old) }
{
    if keeps == shape.len() {
        return shape.push(ty);
    }
    shape.set(keeps, ty);
    cut(shape, keeps + 1);
    Ok(())
}

/// Changes the operands. A refused call leaves them.
fn apply(shape: &mut Types, exchange: Exchange) -> Result<(), NoMemory>
    requires { exchange.keeps ≤ length shape.old }
    ensures ok { OnOk result (shape.new ≡ take exchange.keeps shape.old ++ option_to_list exchange.gives) }
    ensures err { OnErr result (shape.new ≡ shape.old) }
{
    let Exchange { keeps, gives } = exchange;
    match gives {
        Some(ty) => replace(shape, keeps, ty),
        None => {
            cut(shape, keeps);
            Ok(())
        }
    }
}

/// Changes the types of the operands as the row of an instruction says, where it stands in a
/// function. A refused call leaves them.
pub fn effect_in(
    alloc: Global,
    unit: &Unit,
    function: &Function,
    instr: &Instr,
    shape: &mut Types,
) -> Result<(), EffectFault>
    ensures change { ChangesShape (row unit.now function.now instr.now (reverse shape.old)) shape.old shape.new result }
    ensures front { OnOk result (LeavesFront shape.old shape.new) }
{
    let exchange = exchange(alloc, unit, function, instr, shape.as_slice())?;
    match apply(shape, exchange) {
        Ok(()) => Ok(()),
        Err(_) => Err(EffectFault::NoMemory),
    }
}

/// Changes the types of the operands as the row of an instruction says, where it stands in the
/// function of a number. `Number` names the first slot, global, function, method, question on a
/// file or change of the instruction that isn't there. `Needs` comes where all are there and the
/// operands aren't those that the row takes. A refused call leaves the types as they were.
pub fn effect(
    alloc: Global,
    unit: &Unit,
    function: u32,
    instr: &Instr,
    shape: &mut Types,
) -> Result<(), EffectFault>
    requires { function < length unit.now.functions }
    ensures { (f : Function) → slice_get unit.now.functions function ≡ Some f
        → ChangesShape (row unit.now f instr.now (reverse shape.old)) shape.old shape.new result }
{
    effect_in(
        alloc,
        unit,
        &unit.functions.as_slice()[function as usize],
        instr,
        shape,
    )
}
