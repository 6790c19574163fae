//! What begins and what ends a `switch` and its cases.
ghost use Rattle.std.specs.Prelude.{◌≡◌, ◌++◌, ◌+◌, ◌∷◌, [], Option, OnOk, IfOk, length};
ghost use Rattle.std.specs.Option.{option_map};
ghost use Rattle.bds_tree.specs.StmtView.{case_of, cases_of};
ghost use Rattle.bds_tree.specs.Tree.{type_of};
ghost use Rattle.bds_tree.specs.View.{tree_of};
ghost use Rattle.bds_code.specs.declared.instr.Instr.TheVariants as instr;
ghost use Rattle.bds_check_rules.specs.StmtBreaks as breaks;
ghost use Rattle.bds_check_rules.specs.StmtBreaks.{any_default};
ghost use Rattle.bds_gen_expr.specs.Gen.{act as one_more, gen};
ghost use Rattle.bds_gen_stmt_code.specs.Bodies.{slots_of, in_body};
ghost use Rattle.bds_gen_stmt_code.specs.GenSwitches.{compared, gen_label, label_jump, gen_labels, label_jumps, jump_to, other_behind, arrived, kept, compared_all, open_jump, switch_closed, switch_begun, switch_opened, case_begun, switch_ended};
ghost use Rattle.bds_gen_stmt_code.specs.Leaps.{led_out, going_on};

use crate::body::{Body, Leap, Leaps, Unfinished, here, next_slot, push_slot, turn};
use crate::jumps::end_jump;
use bds_code::{Function, Instr, Shape};
use bds_gen_expr::{Scope, act, place_behind, write_expr};
use bds_tree::{Case, Expr};
use bds_value::{At, Listed, NoMemory, Numbers};
use std::alloc::Global;
use std::mem;

/// A `switch` whose cases are written: for each case the place of the jump to it, the place of the jump
/// behind all labels, and the jumps of what is around.
#[derive(Drop)]
pub struct OpenedSwitch {
    /// That of `default` is not among them.
    pub jumps: Numbers,
    pub other: u32,
    pub around: Leaps,
}

/// Compares a label with the value of its `switch`. Gives the place of the jump to its case.
fn compare(alloc: Global, function: &mut Function, at: At, slot: u16) -> Result<u32, NoMemory>
    ensures code { OnOk result (function.new ≡ compared function.old at slot) }
    ensures place { IfOk result (λ n. n ≡ length function.old.code + 3) }
{
    let jump = place_behind(function, 3)?;
    let next = place_behind(function, 4)?;
    act(function, at, Instr::Load(slot))?;
    act(function, at, Instr::Equal)?;
    act(function, at, Instr::JumpUnless(next))?;
    act(function, at, Instr::Jump(0))?;
    here(alloc, function)?;
    Ok(jump)
}

/// A label, if there is one, with its test. Gives the place of the jump to its case.
fn write_label(
    alloc: Global,
    scope: &Scope,
    function: &mut Function,
    at: At,
    slot: u16,
    label: &Option<Expr>,
) -> Result<u32, NoMemory>
    ensures code { OnOk result (function.new ≡ gen_label (option_map tree_of label.now) at slot scope.now function.old) }
    ensures place { IfOk result (λ n. n ≡ label_jump (option_map tree_of label.now) scope.now function.old) }
{
    match label {
        Some(label) => {
            write_expr(alloc, scope, label, &mut Shape::new(alloc), function)?;
            compare(alloc, function, at, slot)
        }
        None => Ok(0),
    }
}

/// All labels with their tests, and the places of the jumps to their cases.
fn write_labels(
    alloc: Global,
    scope: &Scope,
    function: &mut Function,
    at: At,
    slot: u16,
    cases: &[Case],
    jumps: &mut Numbers,
) -> Result<(), NoMemory>
    ensures code { OnOk result (function.new ≡ gen_labels (cases_of cases.now) at slot scope.now function.old) }
    ensures jumps { OnOk result (jumps.new ≡ jumps.old ++ label_jumps (cases_of cases.now) at slot scope.now function.old) }
{
    for case in cases {
        let jump = write_label(alloc, scope, function, at, slot, &case.label)?;
        jumps.push(jump)?;
    }
    Ok(())
}

/// The value of a `switch` and the slot that keeps it.
fn keep_value(
    alloc: Global,
    scope: &Scope,
    function: &mut Function,
    at: At,
    value: &Expr,
) -> Result<u16, NoMemory>
    ensures code { OnOk result (function.new ≡ kept (gen (tree_of value.now) scope.now [] function.old) at (type_of (tree_of value.now))) }
    ensures slot { IfOk result (λ n. n ≡ slots_of (gen (tree_of value.now) scope.now [] function.old)) }
{
    write_expr(alloc, scope, value, &mut Shape::new(alloc), function)?;
    let slot = next_slot(function)?;
    push_slot(alloc, function, &value.ty)?;
    act(function, at, Instr::Store(slot))?;
    Ok(slot)
}

/// The value, the labels, and the jump behind them. Gives the place of that jump.
fn write_tests(
    alloc: Global,
    scope: &Scope,
    function: &mut Function,
    at: At,
    value: &Expr,
    cases: &[Case],
    jumps: &mut Numbers,
) -> Result<u32, NoMemory>
    ensures code { OnOk result (function.new ≡ one_more (compared_all (gen (tree_of value.now) scope.now [] function.old) at (type_of (tree_of value.now)) (cases_of cases.now) scope.now) at (instr.Jump 0)) }
    ensures jumps { OnOk result (jumps.new ≡ jumps.old ++ label_jumps (cases_of cases.now) at (slots_of (gen (tree_of value.now) scope.now [] function.old)) scope.now (kept (gen (tree_of value.now) scope.now [] function.old) at (type_of (tree_of value.now)))) }
    ensures other { IfOk result (λ n. n ≡ length (compared_all (gen (tree_of value.now) scope.now [] function.old) at (type_of (tree_of value.now)) (cases_of cases.now) scope.now).code + 0) }
{
    let slot = keep_value(alloc, scope, function, at, value)?;
    write_labels(alloc, scope, function, at, slot, cases, jumps)?;
    let other = place_behind(function, 0)?;
    act(function, at, Instr::Jump(0))?;
    Ok(other)
}

/// The value of a `switch` and its labels.
#[tactic(auto, unfolding(crate::specs::GenSwitches::switch_begun, crate::specs::GenSwitches::switch_opened))]
pub fn begin_switch(
    alloc: Global,
    unit: &mut Unfinished,
    at: At,
    value: &Expr,
    cases: &[Case],
) -> Result<OpenedSwitch, NoMemory>
    ensures unit { OnOk result (unit.new ≡ switch_begun (tree_of value.now) (cases_of cases.now) at unit.old) }
    ensures opened { IfOk result (λ opened. opened ≡ switch_opened (tree_of value.now) (cases_of cases.now) at unit.old) }
{
    let body = &mut unit.body;
    let mut jumps = Listed::new(alloc);
    let other = write_tests(
        alloc,
        &body.scope,
        &mut body.function,
        at,
        value,
        cases,
        &mut jumps,
    )?;
    let around = mem::replace(&mut body.leaps, Listed::new(alloc));
    Ok(OpenedSwitch {
        jumps,
        other,
        around,
    })
}

/// The jump that leads to a case: its own, or for `default` the one behind all labels, which only the
/// first has.
pub fn jump_of(label: &Option<Expr>, own: u32, other: &mut Option<u32>) -> Option<u32>
    ensures jump { result ≡ jump_to (option_map tree_of label.now) own other.old }
    ensures other { other.new ≡ other_behind (option_map tree_of label.now) other.old }
{
    match label {
        Some(_) => Some(own),
        None => other.take(),
    }
}

/// A jump leads here, if there is one.
fn arrive(alloc: Global, function: &mut Function, jump: Option<u32>) -> Result<(), NoMemory>
    ensures { OnOk result (function.new ≡ arrived jump function.old) }
{
    match jump {
        Some(jump) => end_jump(alloc, function, jump as usize),
        None => here(alloc, function),
    }
}

/// A case begins, to which a jump leads.
#[tactic(auto, unfolding(crate::specs::GenSwitches::case_begun))]
pub fn begin_case(alloc: Global, unit: &mut Unfinished, jump: Option<u32>) -> Result<(), NoMemory>
    ensures { OnOk result (unit.new ≡ case_begun jump unit.old) }
{
    arrive(alloc, &mut unit.body.function, jump)
}

/// The jumps that end a `switch` lead to its end.
fn lead_out(function: &mut Function, leaps: &[Leap], end: u32)
    ensures { function.new ≡ led_out end leaps.now function.old }
{
    for i in (0..leaps.len()).rev() {
        set_end(function, &leaps[i], end);
    }
}

fn set_end(function: &mut Function, leap: &Leap, end: u32)
    ensures { function.new ≡ led_out end (leap.now ∷ []) function.old }
{
    if leap.ends {
        turn(function, leap.place as usize, Instr::Jump(end));
    }
}

/// The other jumps go on with the loop around it.
fn go_on(around: &mut Leaps, leaps: &[Leap]) -> Result<(), NoMemory>
    ensures { OnOk result (around.new ≡ around.old ++ going_on leaps.now) }
{
    for leap in leaps {
        if !leap.ends {
            around.push(*leap)?;
        }
    }
    Ok(())
}

fn close(alloc: Global, body: &mut Body, jump: Option<u32>, around: Leaps) -> Result<(), NoMemory>
    ensures { OnOk result (body.new ≡ switch_closed body.old jump around) }
{
    let leaps = mem::replace(&mut body.leaps, around);
    let end = place_behind(&body.function, 0)?;
    lead_out(&mut body.function, leaps.as_slice(), end);
    go_on(&mut body.leaps, leaps.as_slice())?;
    arrive(alloc, &mut body.function, jump)
}

fn is_default(case: &Case) -> bool
    ensures { result ≡ breaks.is_default (case_of case.now) }
{
    match &case.label {
        None => true,
        Some(_) => false,
    }
}

fn has_default(cases: &[Case]) -> bool
    ensures { result ≡ any_default (cases_of cases.now) }
{
    for case in cases {
        if is_default(case) {
            return true;
        }
    }
    false
}

/// A `switch` ends; without `default` the jump behind its labels leads here.
#[tactic(auto, unfolding(crate::specs::GenSwitches::switch_ended))]
pub fn end_switch(
    alloc: Global,
    unit: &mut Unfinished,
    cases: &[Case],
    opened: OpenedSwitch,
) -> Result<(), NoMemory>
    ensures { OnOk result (unit.new ≡ switch_ended (cases_of cases.now) opened unit.old) }
{
    let OpenedSwitch { other, around, .. } = opened;
    let jump = if has_default(cases) {
        None
    } else {
        Some(other)
    };
    close(alloc, &mut unit.body, jump, around)
}
