//! The sizes of tasks and rules.
ghost use Rattle.std.specs.Prelude.{◌≡◌, ◌+◌, ◌≤◌, true, if◌then◌else◌};
ghost use Rattle.bds_tree.specs.StmtView.{settings_of, setting_form_of};
ghost use Rattle.bds_check_rules.specs.StmtBreaks.{commands_of};
ghost use Rattle.bds_tree.specs.StmtTree.{setting_plain};
ghost use Rattle.bds_tree.specs.View.{tree_of};
ghost use Rattle.bds_check_size.specs.ExprSize.{files_size};
ghost use Rattle.bds_check_size.specs.StmtSize as sizes;
ghost use Rattle.bds_gen_expr.specs.Scope.{types_in};
ghost use Rattle.bds_gen_size.specs.Capped.{capped};

use crate::exprs::{expr_size, files_size};
use crate::pieces::pieces_size;
use bds_check_rules::any_dependency;
use bds_check_size::{has_condition, has_option};
use bds_gen_expr::Scope;
use bds_tree::{Body, Command, Expr, Form, Setting, SettingForm};

/// Commands behind the first, each on a line.
fn further_size(scope: &Scope, commands: &[Command]) -> u64
    ensures { result ≡ capped (sizes.further_commands_size (types_in scope.now) commands.now) }
{
    let mut sum: u64 = 0;
    for command in commands {
        let size = pieces_size(scope, command.text.as_slice());
        sum = sum.saturating_add(size).saturating_add(3);
    }
    sum
}

fn commands_size(scope: &Scope, commands: &[Command]) -> u64
    ensures { result ≡ capped (sizes.commands_size (types_in scope.now) commands.now) }
{
    match commands {
        [] => 0,
        [command, rest @ ..] => {
            pieces_size(scope, command.text.as_slice()).saturating_add(further_size(scope, rest))
        }
    }
}

/// The commands of a task or a rule.
fn body_size(scope: &Scope, body: &Body) -> u64
    ensures { result ≡ capped (sizes.commands_size (types_in scope.now) (commands_of body.now)) }
{
    match body {
        Body::Sys(command) => pieces_size(scope, command.text.as_slice()),
        Body::Block(commands) => commands_size(scope, commands.as_slice()),
    }
}

/// Outputs and inputs; a task asks whether they are out of date.
fn dependency_size(scope: &Scope, of_dep: bool, outs: &Expr, ins: &Expr) -> u64
    ensures { result ≡ capped (files_size (types_in scope.now) (tree_of outs.now) + 1 + (files_size (types_in scope.now) (tree_of ins.now) + 1) + (if of_dep then 0 else 7)) }
{
    let files = files_size(scope, outs).saturating_add(files_size(scope, ins));
    if of_dep {
        files.saturating_add(2)
    } else {
        files.saturating_add(9)
    }
}

/// A condition or a dependency.
fn plain_size(scope: &Scope, of_dep: bool, expr: &Expr) -> u64
    ensures { result ≡ capped (sizes.setting_size (types_in scope.now) of_dep (setting_plain (tree_of expr.now))) }
{
    match &expr.form {
        Form::Dependency(outs, ins) => dependency_size(scope, of_dep, outs.get(), ins.get()),
        _ => expr_size(scope, expr).saturating_add(4),
    }
}

fn setting_size(scope: &Scope, of_dep: bool, form: &SettingForm) -> u64
    ensures { result ≡ capped (sizes.setting_size (types_in scope.now) of_dep (setting_form_of form.now)) }
{
    match form {
        SettingForm::Named(_, value) => expr_size(scope, value).saturating_add(1),
        SettingForm::Plain(expr) => plain_size(scope, of_dep, expr),
    }
}

/// The options of a task or a rule.
fn settings_size(scope: &Scope, of_dep: bool, settings: &[Setting]) -> u64
    ensures { result ≡ capped (sizes.settings_size (types_in scope.now) of_dep (settings_of settings.now)) }
{
    let mut sum: u64 = 0;
    for setting in settings {
        sum = sum.saturating_add(setting_size(scope, of_dep, &setting.form));
    }
    sum
}

fn unless_size(there: bool) -> u64
    ensures { result ≡ sizes.unless_size there }
{
    if there { 0 } else { 2 }
}

/// What options are before any is evaluated: at most twelve.
fn defaults_size(settings: &[Setting]) -> u64
    ensures same { result ≡ sizes.defaults_size (settings_of settings.now) }
    ensures few { result ≤ 12 }
{
    let files = unless_size(any_dependency(settings));
    let cpus = unless_size(has_option(settings, b"cpus"));
    let can_fail = unless_size(has_option(settings, b"canFail"));
    let retry = unless_size(has_option(settings, b"retry"));
    let name = unless_size(has_option(settings, b"taskName"));
    files + files + cpus + can_fail + retry + name
}

/// `task`
pub fn task_size(scope: &Scope, settings: &[Setting], body: &Body) -> u64
    ensures { result ≡ capped (sizes.task_size (types_in scope.now) (settings_of settings.now) body.now) }
{
    let size = defaults_size(settings)
        .saturating_add(settings_size(scope, false, settings))
        .saturating_add(body_size(scope, body))
        .saturating_add(7);
    if has_condition(settings) {
        size.saturating_add(6)
    } else {
        size
    }
}

/// `dep`
pub fn rule_size(scope: &Scope, settings: &[Setting], body: &Body) -> u64
    ensures { result ≡ capped (sizes.defaults_size (settings_of settings.now) + sizes.settings_size (types_in scope.now) true (settings_of settings.now) + 6 + sizes.commands_size (types_in scope.now) (commands_of body.now) + 1) }
{
    defaults_size(settings)
        .saturating_add(settings_size(scope, true, settings))
        .saturating_add(body_size(scope, body))
        .saturating_add(7)
}
