//! The rules that a statement breaks.
ghost use Rattle.std.specs.Prelude.{◌≡◌, IfOk, None};
ghost use Rattle.std.specs.Option.{option_map};
ghost use Rattle.bds_tree.specs.StmtView.{small_form_of, stmt_form_of, line_of, place_of, right_of, act_of};
ghost use Rattle.bds_tree.specs.StmtTree.{to_maybe_right};
ghost use Rattle.bds_tree.specs.View.{tree_of};
ghost use Rattle.bds_value.specs.declared.value.Ty.TheVariants as Ty;
ghost use Rattle.bds_check_rules.specs.declared.rules.Rule.TheVariants as Rule;
ghost use Rattle.bds_check_rules.specs.Pieces.{when};
ghost use Rattle.bds_check_rules.specs.StmtBreaks as breaks;

use crate::breaks::files_rule;
use crate::place_rules::{place_ty, stepped};
use crate::rules::Rule;
use crate::switch_rules::switch_rule;
use bds_check_names::{Names, Site, differ, is_declared, is_known, sum_ty};
use bds_tree::{Act, ActForm, Expr, Line, Place, RightSide, SmallForm, StmtForm, UpdateOp};
use bds_value::{ByteText, NoMemory, Shared, Ty, copy_ty, same_ty};
use std::alloc::Global;

/// The type of an act; `dep` has none.
pub fn act_type(alloc: Global, act: &Act) -> Result<Ty, NoMemory>
    ensures { IfOk result (λ t. t ≡ breaks.act_type (act_of act.now)) }
{
    match &act.form {
        ActForm::Dep(_, _) => Ok(Ty::Void),
        ActForm::Goal(_) => Ok(Ty::List(Shared::of(alloc, Ty::Text)?)),
        _ => Ok(Ty::Text),
    }
}

pub fn right_type(alloc: Global, right: &RightSide) -> Result<Ty, NoMemory>
    ensures { IfOk result (λ t. t ≡ breaks.right_type (right_of right.now)) }
{
    match right {
        RightSide::Expr(expr) => copy_ty(alloc, &expr.ty),
        RightSide::Act(act) => act_type(alloc, act),
    }
}

fn wrong_if(is_wrong: bool) -> Option<Rule>
    ensures { result ≡ when is_wrong Rule.WrongType None }
{
    if is_wrong {
        Some(Rule::WrongType)
    } else {
        None
    }
}

/// This type is wanted and another is there.
fn wrong_rule(wanted: &Ty, given: &Ty) -> Option<Rule>
    ensures { result ≡ breaks.wrong_rule wanted.now given.now }
{
    wrong_if(differ(wanted, given))
}

fn twice_rule(names: &Names, site: &Site, name: &ByteText, others: Option<Rule>) -> Option<Rule>
    ensures { result ≡ breaks.twice_rule names.now site.now name.now others }
{
    if is_declared(names, site, name) {
        Some(Rule::TwiceDeclared)
    } else {
        others
    }
}

fn update_rule(
    alloc: Global,
    op: UpdateOp,
    place: &Ty,
    given: &Ty,
) -> Result<Option<Rule>, NoMemory>
    ensures { IfOk result (λ rule. rule ≡ breaks.update_rule op place.now given.now) }
{
    match op {
        UpdateOp::Add => {
            let sum = sum_ty(alloc, place, given)?;
            Ok(wrong_if(is_known(place) && is_known(given) && !same_ty(&sum, place)))
        }
        _ => Ok(wrong_if(differ(&Ty::Int, place) || differ(&Ty::Int, given))),
    }
}

fn assign_rule(
    alloc: Global,
    names: &Names,
    place: &Place,
    given: &Ty,
) -> Result<Option<Rule>, NoMemory>
    ensures { IfOk result (λ rule. rule ≡ breaks.wrong_rule (breaks.place_ty names.now (place_of place.now)) given.now) }
{
    let ty = place_ty(alloc, names, place)?;
    Ok(wrong_rule(&ty, given))
}

fn change_rule(
    alloc: Global,
    names: &Names,
    place: &Place,
    op: UpdateOp,
    given: &Ty,
) -> Result<Option<Rule>, NoMemory>
    ensures { IfOk result (λ rule. rule ≡ breaks.update_rule op (breaks.place_ty names.now (place_of place.now)) given.now) }
{
    let ty = place_ty(alloc, names, place)?;
    update_rule(alloc, op, &ty, given)
}

fn step_rule(alloc: Global, names: &Names, place: &Place) -> Result<Option<Rule>, NoMemory>
    ensures { IfOk result (λ rule. rule ≡ breaks.wrong_rule Ty.Int (breaks.place_ty names.now (place_of place.now))) }
{
    let ty = place_ty(alloc, names, place)?;
    Ok(wrong_rule(&Ty::Int, &ty))
}

/// The least rule that a part of the head of a loop breaks.
pub fn small_rule(
    alloc: Global,
    names: &Names,
    site: &Site,
    form: &SmallForm,
) -> Result<Option<Rule>, NoMemory>
    ensures { IfOk result (λ rule. rule ≡ breaks.small_breaks names.now site.now (small_form_of form.now)) }
{
    match form {
        SmallForm::Declare(_, name, None) => Ok(twice_rule(names, site, name, None)),
        SmallForm::Declare(ty, name, Some(value)) => {
            Ok(twice_rule(names, site, name, wrong_rule(ty, &value.ty)))
        }
        SmallForm::Infer(name, _) => Ok(twice_rule(names, site, name, None)),
        SmallForm::Assign(place, value) => assign_rule(alloc, names, place, &value.ty),
        SmallForm::Update(place, op, value) => change_rule(alloc, names, place, *op, &value.ty),
        SmallForm::Step(step) => step_rule(alloc, names, stepped(step)),
        SmallForm::Call(_) => Ok(None),
    }
}

fn declare_rule(
    alloc: Global,
    names: &Names,
    site: &Site,
    ty: &Ty,
    name: &ByteText,
    right: &Option<RightSide>,
) -> Result<Option<Rule>, NoMemory>
    ensures { IfOk result (λ rule. rule ≡ breaks.declare_rule names.now site.now ty.now name.now (breaks.maybe_right_type (to_maybe_right (option_map right_of right.now)))) }
{
    match right {
        None => Ok(twice_rule(names, site, name, None)),
        Some(right) => {
            let given = right_type(alloc, right)?;
            Ok(twice_rule(names, site, name, wrong_rule(ty, &given)))
        }
    }
}

fn return_rule(
    alloc: Global,
    site: &Site,
    right: &Option<RightSide>,
) -> Result<Option<Rule>, NoMemory>
    ensures { IfOk result (λ rule. rule ≡ breaks.return_rule site.now.returns (breaks.maybe_right_type (to_maybe_right (option_map right_of right.now)))) }
{
    match (&site.returns, right) {
        (None, _) => Ok(Some(Rule::ReturnOutside)),
        (Some(ty), None) => Ok(wrong_if(is_known(ty))),
        (Some(ty), Some(right)) => {
            let given = right_type(alloc, right)?;
            Ok(wrong_if(!is_known(ty) || differ(ty, &given)))
        }
    }
}

fn break_rule(site: &Site) -> Option<Rule>
    ensures { result ≡ breaks.break_rule site.now }
{
    if site.may_break {
        None
    } else {
        Some(Rule::BreakOutside)
    }
}

fn continue_rule(site: &Site) -> Option<Rule>
    ensures { result ≡ breaks.continue_rule site.now }
{
    if site.in_loop {
        None
    } else {
        Some(Rule::BreakOutside)
    }
}

fn maybe_files_rule(expr: &Option<Expr>) -> Option<Rule>
    ensures { result ≡ breaks.maybe_files_rule (option_map tree_of expr.now) }
{
    match expr {
        None => None,
        Some(expr) => files_rule(&expr.ty),
    }
}

fn maybe_wrong_rule(wanted: &Ty, expr: &Option<Expr>) -> Option<Rule>
    ensures { result ≡ breaks.maybe_wrong_rule wanted.now (option_map tree_of expr.now) }
{
    match expr {
        None => None,
        Some(expr) => wrong_rule(wanted, &expr.ty),
    }
}

fn line_rule(
    alloc: Global,
    names: &Names,
    site: &Site,
    line: &Line,
) -> Result<Option<Rule>, NoMemory>
    ensures { IfOk result (λ rule. rule ≡ breaks.line_breaks names.now site.now (line_of line.now)) }
{
    match line {
        Line::Declare(ty, name, right) => declare_rule(alloc, names, site, ty, name, right),
        Line::Infer(name, _) => Ok(twice_rule(names, site, name, None)),
        Line::Assign(place, right) => {
            let given = right_type(alloc, right)?;
            assign_rule(alloc, names, place, &given)
        }
        Line::Update(place, op, right) => {
            let given = right_type(alloc, right)?;
            change_rule(alloc, names, place, *op, &given)
        }
        Line::Step(step) => step_rule(alloc, names, stepped(step)),
        Line::Call(_) => Ok(None),
        Line::Print(_) => Ok(None),
        Line::Println(_) => Ok(None),
        Line::Error(text) => Ok(wrong_rule(&Ty::Text, &text.ty)),
        Line::Exit(status) => Ok(wrong_rule(&Ty::Int, &status.ty)),
        Line::Break => Ok(break_rule(site)),
        Line::Continue => Ok(continue_rule(site)),
        Line::Return(right) => return_rule(alloc, site, right),
        Line::Wait(ids) => Ok(maybe_files_rule(ids)),
        Line::Checkpoint(path) => Ok(maybe_wrong_rule(&Ty::Text, path)),
        Line::Alone(_) => Ok(None),
    }
}

/// The expression isn't a list of such items.
fn each_rule(ty: &Ty, list: &Ty) -> Option<Rule>
    ensures { result ≡ breaks.wrong_rule (Ty.List ty.now) list.now }
{
    match list {
        Ty::List(item) => wrong_if(!same_ty(ty, item.get())),
        list => wrong_if(is_known(list)),
    }
}

/// The least rule that a statement breaks, where these names are in force before it.
pub fn stmt_rule(
    alloc: Global,
    names: &Names,
    site: &Site,
    form: &StmtForm,
) -> Result<Option<Rule>, NoMemory>
    ensures { IfOk result (λ rule. rule ≡ breaks.stmt_breaks names.now site.now (stmt_form_of form.now)) }
{
    match form {
        StmtForm::Block(_) => Ok(None),
        StmtForm::Empty => Ok(None),
        StmtForm::Line(line) => line_rule(alloc, names, site, line),
        StmtForm::If(condition, _, _) => Ok(wrong_rule(&Ty::Bool, &condition.ty)),
        StmtForm::While(condition, _) => Ok(wrong_rule(&Ty::Bool, &condition.ty)),
        StmtForm::For(_, condition, _, _) => Ok(maybe_wrong_rule(&Ty::Bool, condition)),
        StmtForm::Each(ty, _, list, _) => Ok(each_rule(ty, &list.ty)),
        StmtForm::Switch(value, cases) => Ok(switch_rule(&value.ty, cases.as_slice())),
    }
}
