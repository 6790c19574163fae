//! Which options a task or a rule has.
ghost use Rattle.std.specs.Prelude.{◌≡◌};
ghost use Rattle.bds_check_size.specs.StmtSize as sizes;
ghost use Rattle.bds_tree.specs.StmtView.{settings_of, setting_form_of};

use bds_tree::{Setting, SettingForm};

fn is_option(form: &SettingForm, name: &[u8]) -> bool
    ensures { result ≡ sizes.is_option name.now (setting_form_of form.now) }
{
    match form {
        SettingForm::Named(other, _) => name == other.as_slice(),
        SettingForm::Plain(_) => false,
    }
}

/// An option of this name is there.
pub fn has_option(settings: &[Setting], name: &[u8]) -> bool
    ensures { result ≡ sizes.has_option name.now (settings_of settings.now) }
{
    for setting in settings {
        if is_option(&setting.form, name) {
            return true;
        }
    }
    false
}

fn is_condition(form: &SettingForm) -> bool
    ensures { result ≡ sizes.is_condition (setting_form_of form.now) }
{
    match form {
        SettingForm::Named(_, _) => false,
        SettingForm::Plain(_) => true,
    }
}

/// A condition or a dependency is there.
pub fn has_condition(settings: &[Setting]) -> bool
    ensures { result ≡ sizes.has_condition (settings_of settings.now) }
{
    for setting in settings {
        if is_condition(&setting.form) {
            return true;
        }
    }
    false
}
