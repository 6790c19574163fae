//! Places that are changed, and calls that stand alone.
ghost use Rattle.std.specs.Prelude.{◌≡◌, ◌++◌, ◌∷◌, [], map, OnOk, IfOk};
ghost use Rattle.bds_tree.specs.StmtTree.{step_after, step_before};
ghost use Rattle.bds_tree.specs.StmtView.{suffix_of, place_of, step_of};
ghost use Rattle.bds_tree.specs.View.{tree_of};
ghost use Rattle.bds_code.specs.UpdateRows.{step_ty};
ghost use Rattle.bds_gen_expr.specs.Gen.{gen};
ghost use Rattle.bds_gen_stmt.specs.PlaceCode as place_code;
ghost use Rattle.bds_gen_stmt.specs.PlaceCode.{kind_of, kinds_of, step_number};
ghost use Rattle.bds_gen_stmt_code.specs.GenParts as parts;
ghost use Rattle.bds_gen_stmt_code.specs.GenParts.{steps_above, gen_suffix, gen_suffixes, gen_step, gen_change};

use bds_code::{Function, Instr, Kinds, Shape};
use bds_gen_expr::{Scope, act, write_expr};
use bds_tree::{Expr, Place, Step, StepOp, Suffix, UpdateOp};
use bds_value::change_numbers::{ADD, DIVIDE, MULTIPLY, REMAINDER, SUBTRACT};
use bds_value::{At, ByteText, Listed, NoMemory, Ty};
use std::alloc::Global;

/// What changes the place of a variable to which the steps below lead.
pub fn update_of(scope: &Scope, name: &ByteText, kinds: Kinds, what: u8) -> Instr
    ensures { result ≡ parts.update_of scope.now name.now kinds what }
{
    match scope.locals.slot_of(name) {
        Some(slot) => Instr::Update(false, slot, kinds, what),
        None => match scope.globals.number_of(name) {
            Some(global) => Instr::Update(true, global, kinds, what),
            None => Instr::Update(true, 0, kinds, what),
        },
    }
}

fn step_ty(key: bool) -> Ty
    ensures { result ≡ step_ty key }
{
    if key { Ty::Text } else { Ty::Int }
}

/// A step to a part, which is left below.
pub fn write_step(
    alloc: Global,
    scope: &Scope,
    expr: &Expr,
    key: bool,
    shape: &mut Shape,
    kinds: &mut Kinds,
    function: &mut Function,
) -> Result<(), NoMemory>
    ensures code { OnOk result (function.new ≡ gen (tree_of expr.now) scope.now shape.old function.old) }
    ensures shape { OnOk result (shape.new ≡ shape.old ++ step_ty key ∷ []) }
    ensures kinds { OnOk result (kinds.new ≡ kinds.old ++ key ∷ []) }
{
    write_expr(alloc, scope, expr, shape, function)?;
    shape.push(alloc, step_ty(key))?;
    kinds.push(key)
}

fn write_suffix(
    alloc: Global,
    scope: &Scope,
    suffix: &Suffix,
    shape: &mut Shape,
    kinds: &mut Kinds,
    function: &mut Function,
) -> Result<(), NoMemory>
    ensures code { OnOk result (function.new ≡ gen_suffix (suffix_of suffix.now) scope.now shape.old function.old) }
    ensures shape { OnOk result (shape.new ≡ shape.old ++ step_ty (kind_of (suffix_of suffix.now)) ∷ []) }
    ensures kinds { OnOk result (kinds.new ≡ kinds.old ++ kind_of (suffix_of suffix.now) ∷ []) }
{
    match suffix {
        Suffix::Item(index) => write_step(alloc, scope, index, false, shape, kinds, function),
        Suffix::Key(key) => write_step(alloc, scope, key, true, shape, kinds, function),
    }
}

fn write_suffixes(
    alloc: Global,
    scope: &Scope,
    suffixes: &[Suffix],
    shape: &mut Shape,
    kinds: &mut Kinds,
    function: &mut Function,
) -> Result<(), NoMemory>
    ensures code { OnOk result (function.new ≡ gen_suffixes (map suffix_of suffixes.now) scope.now shape.old function.old) }
    ensures shape { OnOk result (shape.new ≡ steps_above (map kind_of (map suffix_of suffixes.now)) shape.old) }
    ensures kinds { OnOk result (kinds.new ≡ kinds.old ++ map kind_of (map suffix_of suffixes.now)) }
{
    for suffix in suffixes {
        write_suffix(alloc, scope, suffix, shape, kinds, function)?;
    }
    Ok(())
}

/// The steps of a place; they are left below, and nothing is read yet.
pub fn write_steps(
    alloc: Global,
    scope: &Scope,
    place: &Place,
    shape: &mut Shape,
    function: &mut Function,
) -> Result<Kinds, NoMemory>
    ensures code { OnOk result (function.new ≡ gen_suffixes (place_of place.now).suffixes scope.now shape.old function.old) }
    ensures shape { OnOk result (shape.new ≡ steps_above (kinds_of (place_of place.now)) shape.old) }
    ensures kinds { IfOk result (λ kinds. kinds ≡ kinds_of (place_of place.now)) }
{
    let mut kinds = Listed::new(alloc);
    write_suffixes(
        alloc,
        scope,
        place.suffixes.as_slice(),
        shape,
        &mut kinds,
        function,
    )?;
    Ok(kinds)
}

/// The number of the change of an update.
pub fn change_number(op: UpdateOp) -> u8
    ensures { result ≡ place_code.change_number op }
{
    match op {
        UpdateOp::Add => ADD,
        UpdateOp::Sub => SUBTRACT,
        UpdateOp::Mul => MULTIPLY,
        UpdateOp::Div => DIVIDE,
        UpdateOp::Rem => REMAINDER,
    }
}

fn step_number(op: StepOp) -> u8
    ensures { result ≡ step_number op }
{
    match op {
        StepOp::Increment => ADD,
        StepOp::Decrement => SUBTRACT,
    }
}

/// A place that takes the value of an expression by a change of this number.
pub fn write_change(
    alloc: Global,
    scope: &Scope,
    at: At,
    place: &Place,
    what: u8,
    value: &Expr,
    function: &mut Function,
) -> Result<(), NoMemory>
    ensures { OnOk result (function.new ≡ gen_change (place_of place.now) what (tree_of value.now) at scope.now function.old) }
{
    let mut shape = Shape::new(alloc);
    let kinds = write_steps(alloc, scope, place, &mut shape, function)?;
    write_expr(alloc, scope, value, &mut shape, function)?;
    act(function, at, update_of(scope, &place.name, kinds, what))
}

fn write_count(
    alloc: Global,
    scope: &Scope,
    at: At,
    place: &Place,
    op: StepOp,
    function: &mut Function,
) -> Result<(), NoMemory>
    ensures after { OnOk result (function.new ≡ gen_step (step_after (place_of place.now) op) at scope.now function.old) }
    ensures before { OnOk result (function.new ≡ gen_step (step_before op (place_of place.now)) at scope.now function.old) }
{
    let mut shape = Shape::new(alloc);
    let kinds = write_steps(alloc, scope, place, &mut shape, function)?;
    act(function, at, Instr::PushInt(1))?;
    act(
        function,
        at,
        update_of(scope, &place.name, kinds, step_number(op)),
    )
}

/// One more or one less.
pub fn write_step_line(
    alloc: Global,
    scope: &Scope,
    at: At,
    step: &Step,
    function: &mut Function,
) -> Result<(), NoMemory>
    ensures { OnOk result (function.new ≡ gen_step (step_of step.now) at scope.now function.old) }
{
    match step {
        Step::After(place, op) => write_count(alloc, scope, at, place, *op, function),
        Step::Before(op, place) => write_count(alloc, scope, at, place, *op, function),
    }
}
