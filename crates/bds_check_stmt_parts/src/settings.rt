//! The walk through the options of a task or rule.
ghost use Rattle.std.specs.Prelude.{◌≡◌, None, map};
ghost use Rattle.bds_tree.specs.StmtView.{setting_of, settings_of, setting_form_of};
ghost use Rattle.bds_check_rules.specs.StmtBreaks as breaks;
ghost use Rattle.bds_check_typing.specs.Answers.{Fits};
ghost use Rattle.bds_check_typing.specs.StmtParts as walk;
ghost use Rattle.bds_check_stmt_parts.specs.InPlace.{bare_setting, bare_setting_form, LeavesSetting, LeavesSettingForm};
ghost use Rattle.bds_check_stmt_parts.specs.InPlace.{LeavesSettings};

use bds_check_names::{Asked, Names, Seen};
use bds_check_rules::{CheckFault, see, setting_rule};
use bds_check_walk::walk;
use bds_tree::{Options, Setting, SettingForm};
use bds_value::Listed;
use std::alloc::Global;

fn walk_setting_form(alloc: Global, names: &Names, form: &mut SettingForm) -> Result<(), CheckFault>
    ensures fits { LeavesSettingForm result (setting_form_of form.new)
        (walk.judge_setting_form (setting_form_of form.old) names.now) }
    ensures kept { bare_setting_form (setting_form_of form.new) ≡ bare_setting_form (setting_form_of form.old) }
{
    match form {
        SettingForm::Named(_, value) => walk(alloc, names, &Asked::Value, value),
        SettingForm::Plain(value) => walk(alloc, names, &Asked::Value, value),
    }
}

fn walk_setting(
    alloc: Global,
    names: &Names,
    of_dep: bool,
    seen: &Seen,
    setting: &mut Setting,
) -> Result<(), CheckFault>
    ensures fits { LeavesSetting result (setting_of setting.new)
        (walk.judge_setting (setting_of setting.old) names.now of_dep seen.now) }
    ensures kept { bare_setting (setting_of setting.new) ≡ bare_setting (setting_of setting.old) }
{
    walk_setting_form(alloc, names, &mut setting.form)?;
    close_setting(of_dep, seen, setting)
}

/// An option behind its expression.
fn close_setting(of_dep: bool, seen: &Seen, setting: &Setting) -> Result<(), CheckFault>
    ensures { LeavesSetting result (setting_of setting.now) (walk.close_setting setting.now.at of_dep seen.now
        (record { form = setting_form_of setting.now.form; broken = None })) }
{
    match setting_rule(of_dep, seen, &setting.form) {
        Some(rule) => Err(CheckFault::Broken {
            rule,
            at: setting.at,
        }),
        None => Ok(()),
    }
}

/// An option that is seen behind others.
fn walk_next(
    alloc: Global,
    names: &Names,
    of_dep: bool,
    seen: &mut Seen,
    setting: &mut Setting,
) -> Result<(), CheckFault>
    ensures fits { Fits result (walk.judge_setting (setting_of setting.old) names.now of_dep seen.old).broken
        (λ _. (setting_of setting.new ≡ (walk.judge_setting (setting_of setting.old) names.now of_dep seen.old).setting)
        × (seen.new ≡ breaks.seen_behind seen.old (setting_form_of setting.old.form))) }
    ensures kept { bare_setting (setting_of setting.new) ≡ bare_setting (setting_of setting.old) }
{
    walk_setting(alloc, names, of_dep, seen, setting)?;
    Ok(see(alloc, seen, &setting.form)?)
}

/// The options of a `dep`, or else of a task.
pub fn walk_settings(
    alloc: Global,
    names: &Names,
    of_dep: bool,
    options: &mut Options,
) -> Result<(), CheckFault>
    ensures fits { LeavesSettings result (settings_of options.new)
        (walk.judge_settings (settings_of options.old) names.now of_dep breaks.none_seen) }
    ensures kept { map bare_setting (settings_of options.new) ≡ map bare_setting (settings_of options.old) }
{
    let mut seen = Seen {
        names: Listed::new(alloc),
        dependency: false,
    };
    for i in 0..options.len() {
        walk_next(alloc, names, of_dep, &mut seen, options.at_mut(i))?;
    }
    Ok(())
}
