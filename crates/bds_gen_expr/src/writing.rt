//! Instructions and labels behind what a function has.
ghost use Rattle.std.specs.Prelude.{◌≡◌, ◌≤◌, ◌<◌, ◌+◌, ◌++◌, ◌∷◌, [], List, IfOk, OnOk, OnErr, length, take, if◌then◌else◌};
ghost use Rattle.bds_value.specs.declared.value.Ty.{Ty as AnyTy};
ghost use Rattle.bds_gen_expr.specs.Grown.{Grown, Turned};
ghost use Rattle.bds_gen_expr.specs.Marks.{is_last, labelled};
ghost use Rattle.bds_gen_expr.specs.Gen.{act, mark, patched, begin_other, end_at};

use bds_code::{Function, Instr, Labels, Shape};
use bds_value::{At, NoMemory, Ty, copy_ty};
use std::alloc::Global;

/// One more instruction.
pub fn act(function: &mut Function, at: At, instr: Instr) -> Result<(), NoMemory>
    ensures code { OnOk result (function.new ≡ act function.old at instr) }
    ensures longer { OnOk result (length function.new.code ≡ length function.old.code + 1) }
    ensures kept { Grown function.old function.new }
{
    function.code.push(instr)?;
    function.lines.push(at)
}

/// Another instruction at a place of the code.
pub fn patch(function: &mut Function, place: usize, instr: Instr)
    requires { place < length function.old.code }
    ensures code { function.new ≡ patched function.old place instr }
    ensures same { length function.new.code ≡ length function.old.code }
{
    function.code.set(place, instr);
}

/// So many instructions; more than 32 bits count find no memory.
pub fn counted(number: usize) -> Result<u32, NoMemory>
    ensures { IfOk result (λ n. n ≡ number) }
{
    match u32::try_from(number) {
        Ok(counted) => Ok(counted),
        Err(_) => Err(NoMemory),
    }
}

/// The place so many instructions behind the last one; more than 32 bits count find no memory.
pub fn place_behind(function: &Function, more: u32) -> Result<u32, NoMemory>
    ensures { IfOk result (λ place. place ≡ length function.now.code + more) }
{
    match counted(function.code.len())?.checked_add(more) {
        Some(place) => Ok(place),
        None => Err(NoMemory),
    }
}

/// The last label is at this place.
#[tactic(auto, using(crate::proofs::Lasts::place_of_last, crate::proofs::Lasts::none_last))]
fn is_last(labels: &[(u32, Shape)], place: u32) -> bool
    ensures { result ≡ is_last labels.now place }
{
    match labels.last() {
        Some(label) => label.0 == place,
        None => false,
    }
}

fn put_label(alloc: Global, labels: &mut Labels, place: u32, shape: &Shape) -> Result<(), NoMemory>
    ensures ok { OnOk result (labels.new ≡ labelled labels.old place shape.now) }
    ensures err { OnErr result (labels.new ≡ labels.old) }
{
    if is_last(labels.as_slice(), place) {
        Ok(())
    } else {
        let shape = shape.share(alloc)?;
        labels.push((place, shape))
    }
}

/// A label with these operands, where there is none yet.
pub fn mark(alloc: Global, function: &mut Function, shape: &Shape) -> Result<(), NoMemory>
    ensures code { OnOk result (function.new ≡ mark function.old shape.now) }
    ensures kept { Grown function.old function.new }
{
    let place = counted(function.code.len())?;
    put_label(alloc, &mut function.labels, place, shape)
}

/// One more operand.
pub fn push_ty(alloc: Global, shape: &mut Shape, ty: &Ty) -> Result<(), NoMemory>
    ensures { OnOk result (shape.new ≡ shape.old ++ ty.now ∷ []) }
{
    let ty = copy_ty(alloc, ty)?;
    shape.push(alloc, ty)
}

/// Takes away the operands behind so many.
pub fn forget(shape: &mut Shape, before: usize)
    ensures { shape.new ≡ take before shape.old }
{
    shape.cut(before);
}

/// A label with these operands and one more of a type.
#[tactic(auto, using(crate::proofs::Growing::growing))]
pub fn mark_with(
    alloc: Global,
    function: &mut Function,
    shape: &mut Shape,
    ty: &Ty,
) -> Result<(), NoMemory>
    ensures code { OnOk result (function.new ≡ mark function.old (shape.old ++ ty.now ∷ [])) }
    ensures shape { OnOk result (shape.new ≡ shape.old) }
    ensures kept { Grown function.old function.new }
{
    let before = shape.len();
    push_ty(alloc, shape, ty)?;
    mark(alloc, function, shape)?;
    forget(shape, before);
    Ok(())
}

/// The second of two ways begins behind a jump over it; the test at a place leads to it.
#[tactic(auto, using(crate::proofs::Growing::growing))]
pub fn begin_other(
    alloc: Global,
    function: &mut Function,
    at: At,
    test: usize,
    shape: &Shape,
) -> Result<(), NoMemory>
    requires { test < length function.old.code }
    ensures code { OnOk result (function.new ≡ begin_other function.old test at shape.now) }
    ensures longer { OnOk result (length function.old.code < length function.new.code) }
    ensures kept { Turned test function.old function.new }
{
    let other = place_behind(function, 1)?;
    act(function, at, Instr::Jump(0))?;
    mark(alloc, function, shape)?;
    patch(function, test, Instr::JumpUnless(other));
    Ok(())
}

/// Two ways end here, with one more operand of a type; the jump at a place leads here.
#[tactic(auto, using(crate::proofs::Growing::growing))]
pub fn end_at(
    alloc: Global,
    function: &mut Function,
    jump: usize,
    shape: &mut Shape,
    ty: &Ty,
) -> Result<(), NoMemory>
    requires { jump < length function.old.code }
    ensures code { OnOk result (function.new ≡ end_at function.old jump (shape.old ++ ty.now ∷ [])) }
    ensures shape { OnOk result (shape.new ≡ shape.old) }
    ensures kept { Turned jump function.old function.new }
{
    let end = place_behind(function, 0)?;
    mark_with(alloc, function, shape, ty)?;
    patch(function, jump, Instr::Jump(end));
    Ok(())
}
