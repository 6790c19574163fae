//! The rules that a `switch` breaks, behind its cases.
ghost use Rattle.std.specs.Prelude.{◌≡◌};
ghost use Rattle.std.specs.Option.{option_map};
ghost use Rattle.bds_tree.specs.StmtView.{case_of, cases_of};
ghost use Rattle.bds_tree.specs.View.{tree_of};
ghost use Rattle.bds_check_rules.specs.StmtBreaks as breaks;

use crate::rules::Rule;
use bds_check_names::{differ, is_known};
use bds_tree::{Case, Expr};
use bds_value::{Ty, is_plain};

/// The label has another type than the value.
fn is_wrong_label(ty: &Ty, label: &Option<Expr>) -> bool
    ensures { result ≡ breaks.is_wrong_label ty.now (option_map tree_of label.now) }
{
    match label {
        None => false,
        Some(label) => differ(ty, &label.ty),
    }
}

fn any_wrong_case(ty: &Ty, cases: &[Case]) -> bool
    ensures { result ≡ breaks.any_wrong_case ty.now (cases_of cases.now) }
{
    for case in cases {
        if is_wrong_label(ty, &case.label) {
            return true;
        }
    }
    false
}

fn is_default(case: &Case) -> bool
    ensures { result ≡ breaks.is_default (case_of case.now) }
{
    match &case.label {
        None => true,
        Some(_) => false,
    }
}

fn are_two_defaults(cases: &[Case]) -> bool
    ensures { result ≡ breaks.are_two_defaults (cases_of cases.now) }
{
    let mut has_default = false;
    for case in cases {
        if is_default(case) {
            if has_default {
                return true;
            }
            has_default = true;
        }
    }
    false
}

/// The least rule that a `switch` breaks, whose value has this type.
pub fn switch_rule(ty: &Ty, cases: &[Case]) -> Option<Rule>
    ensures { result ≡ breaks.switch_rule ty.now (cases_of cases.now) }
{
    if is_known(ty) && !is_plain(ty) || any_wrong_case(ty, cases) {
        Some(Rule::WrongType)
    } else if are_two_defaults(cases) {
        Some(Rule::TwoDefaults)
    } else {
        None
    }
}
