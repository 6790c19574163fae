//! The rules that an option of a task or rule breaks.
ghost use Rattle.std.specs.Prelude.{◌≡◌, IfOk};
ghost use Rattle.bds_tree.specs.StmtView.{settings_of, setting_form_of};
ghost use Rattle.bds_tree.specs.View.{tree_of};
ghost use Rattle.bds_tree.specs.StmtTree as tree;
ghost use Rattle.bds_tree.specs.Tree.{type_of};
ghost use Rattle.std.specs.List.{list_any};
ghost use Rattle.std.specs.Str.{bytes_eq};
ghost use Rattle.bds_check_rules.specs.StmtBreaks as breaks;

use crate::rules::Rule;
use bds_check_names::{Seen, differ};
use bds_tree::{Expr, Form, Setting, SettingForm};
use bds_value::{ByteText, NoMemory, Ty, copy_text};
use std::alloc::Global;

/// `a <- b` without parentheses around it.
fn is_dependency(expr: &Expr) -> bool
    ensures { result ≡ breaks.is_dependency (tree_of expr.now) }
{
    match &expr.form {
        Form::Dependency(_, _) => true,
        _ => false,
    }
}

/// The type of an option.
fn option_type(name: &ByteText) -> Option<Ty>
    ensures { result ≡ breaks.option_type name.now }
{
    if name.as_slice() == b"cpus".as_slice() {
        Some(Ty::Int)
    } else if name.as_slice() == b"canFail".as_slice() {
        Some(Ty::Bool)
    } else if name.as_slice() == b"retry".as_slice() {
        Some(Ty::Int)
    } else if name.as_slice() == b"taskName".as_slice() {
        Some(Ty::Text)
    } else {
        None
    }
}

fn was_seen(seen: &Seen, name: &ByteText) -> bool
    ensures { result ≡ list_any (λ y. bytes_eq y name.now) seen.now.names }
{
    for other in seen.names.as_slice() {
        if other.as_slice() == name.as_slice() {
            return true;
        }
    }
    false
}

fn named_rule(seen: &Seen, name: &ByteText, value: &Expr) -> Option<Rule>
    ensures { result ≡ breaks.named_rule (list_any (λ y. bytes_eq y name.now) seen.now.names) (breaks.option_type name.now) (type_of (tree_of value.now)) }
{
    match option_type(name) {
        None => Some(Rule::UnknownOption),
        Some(ty) => {
            if was_seen(seen, name) {
                Some(Rule::TwiceOption)
            } else if differ(&ty, &value.ty) {
                Some(Rule::WrongType)
            } else {
                None
            }
        }
    }
}

fn plain_rule(of_dep: bool, seen: &Seen, expr: &Expr) -> Option<Rule>
    ensures { result ≡ breaks.setting_breaks of_dep seen.now (tree.setting_plain (tree_of expr.now)) }
{
    if is_dependency(expr) {
        if seen.dependency {
            Some(Rule::TwoDeps)
        } else {
            None
        }
    } else if of_dep {
        Some(Rule::UnknownOption)
    } else if differ(&Ty::Bool, &expr.ty) {
        Some(Rule::WrongType)
    } else {
        None
    }
}

/// The least rule that an option breaks behind those that were seen.
pub fn setting_rule(of_dep: bool, seen: &Seen, form: &SettingForm) -> Option<Rule>
    ensures { result ≡ breaks.setting_breaks of_dep seen.now (setting_form_of form.now) }
{
    match form {
        SettingForm::Named(name, value) => named_rule(seen, name, value),
        SettingForm::Plain(expr) => plain_rule(of_dep, seen, expr),
    }
}

pub fn see(alloc: Global, seen: &mut Seen, form: &SettingForm) -> Result<(), NoMemory>
    ensures { IfOk result (λ _. seen.new ≡ breaks.seen_behind seen.old (setting_form_of form.now)) }
{
    match form {
        SettingForm::Named(name, _) => seen.names.push(copy_text(alloc, name)?),
        SettingForm::Plain(expr) => {
            seen.dependency = seen.dependency || is_dependency(expr);
            Ok(())
        }
    }
}

fn is_dependency_setting(form: &SettingForm) -> bool
    ensures { result ≡ (breaks.seen_behind breaks.none_seen (setting_form_of form.now)).dependency }
{
    match form {
        SettingForm::Named(_, _) => false,
        SettingForm::Plain(expr) => is_dependency(expr),
    }
}

/// One of the options is a dependency.
pub fn any_dependency(options: &[Setting]) -> bool
    ensures { result ≡ breaks.any_dependency (settings_of options.now) }
{
    for setting in options {
        if is_dependency_setting(&setting.form) {
            return true;
        }
    }
    false
}
