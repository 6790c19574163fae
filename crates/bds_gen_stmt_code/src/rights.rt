//! What stands before and behind the right side of a line, and what has none.
ghost use Rattle.std.specs.Prelude.{◌≡◌, true, false, [], OnOk, IfOk};
ghost use Rattle.bds_tree.specs.StmtView.{act_of, act_form_of, line_of, place_of};
ghost use Rattle.bds_check_size.specs.ParSize.{is_par};
ghost use Rattle.bds_gen_stmt.specs.PlaceCode.{kinds_of};
ghost use Rattle.bds_gen_stmt_code.specs.GenParts.{steps_above};
ghost use Rattle.bds_gen_stmt_code.specs.GenStmts.{has_no_right, plain_act, plain_line, stepped_to, taken, declared_with, returned, dropped};

use crate::body::{Unfinished, declare};
use crate::lines::{
    declare_default, drop_given, end_with, write_leap, write_simple, write_simple_act,
};
use crate::places::{update_of, write_steps};
use bds_code::{Instr, Kinds, Shape};
use bds_gen_expr::act;
use bds_tree::{Act, ActForm, Line, Place};
use bds_value::{At, ByteText, NoMemory, Ty};
use std::alloc::Global;

/// The steps of a place, which are left below. Gives their types and kinds.
#[tactic(auto, unfolding(crate::specs::GenStmts::stepped_to))]
pub fn begin_taking(
    alloc: Global,
    unit: &mut Unfinished,
    place: &Place,
    shape: &mut Shape,
) -> Result<Kinds, NoMemory>
    requires { shape.old ≡ [] }
    ensures unit { OnOk result (unit.new ≡ stepped_to (place_of place.now) unit.old) }
    ensures shape { OnOk result (shape.new ≡ steps_above (kinds_of (place_of place.now)) []) }
    ensures kinds { IfOk result (λ kinds. kinds ≡ kinds_of (place_of place.now)) }
{
    let body = &mut unit.body;
    write_steps(alloc, &body.scope, place, shape, &mut body.function)
}

/// A place takes what stands on the right.
#[tactic(auto, unfolding(crate::specs::GenStmts::taken))]
pub fn end_taking(
    unit: &mut Unfinished,
    at: At,
    place: &Place,
    kinds: Kinds,
    what: u8,
) -> Result<(), NoMemory>
    requires { kinds ≡ kinds_of (place_of place.now) }
    ensures { OnOk result (unit.new ≡ taken (place_of place.now) what at unit.old) }
{
    let update = update_of(&unit.body.scope, &place.name, kinds, what);
    act(&mut unit.body.function, at, update)
}

/// A new variable takes what stands on the right.
#[tactic(auto, unfolding(crate::specs::GenStmts::declared_with))]
pub fn declare_with(
    alloc: Global,
    unit: &mut Unfinished,
    at: At,
    name: &ByteText,
    ty: &Ty,
) -> Result<(), NoMemory>
    ensures { OnOk result (unit.new ≡ declared_with at name.now ty.now unit.old) }
{
    declare(alloc, &mut unit.body, at, name, ty)
}

/// What stands on the right is returned.
#[tactic(auto, unfolding(crate::specs::GenStmts::returned))]
pub fn write_return(alloc: Global, unit: &mut Unfinished, at: At) -> Result<(), NoMemory>
    ensures { OnOk result (unit.new ≡ returned at unit.old) }
{
    end_with(alloc, at, Instr::Return, &mut unit.body.function)
}

/// What an act gives isn't used.
#[tactic(auto, unfolding(crate::specs::GenStmts::dropped))]
pub fn drop_act(unit: &mut Unfinished, at: At, act: &Act) -> Result<(), NoMemory>
    ensures { OnOk result (unit.new ≡ dropped (act_of act.now) at unit.old) }
{
    drop_given(at, act, &mut unit.body.function)
}

/// A line that has no right side and is no act.
#[tactic(auto, unfolding(crate::specs::GenStmts::plain_line))]
pub fn write_plain(
    alloc: Global,
    unit: &mut Unfinished,
    at: At,
    line: &Line,
) -> Result<(), NoMemory>
    requires { has_no_right (line_of line.now) ≡ true }
    ensures unit { OnOk result (unit.new ≡ plain_line (line_of line.now) at unit.old) }
    ensures plain { has_no_right (line_of line.now) ≡ true }
{
    let body = &mut unit.body;
    match line {
        Line::Declare(ty, name, None) => declare_default(alloc, body, at, name, ty),
        Line::Break => write_leap(alloc, body, at, true),
        Line::Continue => write_leap(alloc, body, at, false),
        Line::Return(None) => end_with(alloc, at, Instr::Return, &mut body.function),
        Line::Declare(_, _, Some(_))
        | Line::Infer(_, _)
        | Line::Assign(_, _)
        | Line::Update(_, _, _)
        | Line::Return(Some(_))
        | Line::Alone(_)
        | Line::Step(_)
        | Line::Call(_)
        | Line::Print(_)
        | Line::Println(_)
        | Line::Error(_)
        | Line::Exit(_)
        | Line::Wait(_)
        | Line::Checkpoint(_) => write_simple(alloc, &body.scope, at, line, &mut body.function),
    }
}

/// An act but a `par` block.
#[tactic(auto, unfolding(crate::specs::GenStmts::plain_act))]
pub fn write_plain_act(
    alloc: Global,
    unit: &mut Unfinished,
    at: At,
    form: &ActForm,
    shape: &mut Shape,
) -> Result<(), NoMemory>
    requires { is_par (act_form_of form.now) ≡ false }
    ensures unit { OnOk result (unit.new ≡ plain_act (act_form_of form.now) at shape.old unit.old) }
    ensures plain { is_par (act_form_of form.now) ≡ false }
{
    let body = &mut unit.body;
    let first = body.first;
    write_simple_act(
        alloc,
        &body.scope,
        at,
        first,
        form,
        shape,
        &mut body.function,
    )
}
