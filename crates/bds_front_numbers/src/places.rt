//! The number of a file at each node of places, small statements, options and commands.
ghost use Rattle.std.specs.Prelude.{◌≡◌, map};
ghost use Rattle.std.specs.Option.{option_map};
ghost use Rattle.bds_tree.specs.StmtView.{suffix_of, place_of, step_of, small_form_of, small_of, setting_form_of, setting_of, settings_of};
ghost use Rattle.bds_check_typing.specs.Remade.{option_with};
ghost use Rattle.bds_front_numbers.specs.InFile.{suffix_in, place_in, step_in, small_form_in, small_in, setting_form_in, setting_in, command_in, body_in};

use crate::exprs::{number_at, number_expr, number_some};
use bds_tree::{
    Body, Command, Commands, Options, Place, Setting, SettingForm, Small, SmallForm, Step, Suffix,
    Suffixes,
};
use bds_value::Boxed;

fn number_suffix(file: u32, suffix: &mut Suffix)
    ensures { suffix_of suffix.new ≡ suffix_in file (suffix_of suffix.old) }
{
    match suffix {
        Suffix::Item(index) => number_expr(file, index),
        Suffix::Key(key) => number_expr(file, key),
    }
}

fn number_suffixes(file: u32, suffixes: &mut Suffixes)
    ensures { map suffix_of suffixes.new ≡ map (suffix_in file) (map suffix_of suffixes.old) }
{
    for i in 0..suffixes.len() {
        number_suffix(file, suffixes.at_mut(i));
    }
}

/// Numbers each node of a place.
pub fn number_place(file: u32, place: &mut Place)
    ensures { place_of place.new ≡ place_in file (place_of place.old) }
{
    number_at(file, &mut place.at);
    number_suffixes(file, &mut place.suffixes);
}

/// Numbers each node of a step.
pub fn number_step(file: u32, step: &mut Step)
    ensures { step_of step.new ≡ step_in file (step_of step.old) }
{
    match step {
        Step::After(place, _) => number_place(file, place),
        Step::Before(_, place) => number_place(file, place),
    }
}

fn number_small_form(file: u32, form: &mut SmallForm)
    ensures { small_form_of form.new ≡ small_form_in file (small_form_of form.old) }
{
    match form {
        SmallForm::Declare(_, _, value) => number_some(file, value),
        SmallForm::Infer(_, value) => number_expr(file, value),
        SmallForm::Assign(place, value) => {
            number_place(file, place);
            number_expr(file, value);
        }
        SmallForm::Update(place, _, value) => {
            number_place(file, place);
            number_expr(file, value);
        }
        SmallForm::Step(step) => number_step(file, step),
        SmallForm::Call(call) => number_expr(file, call),
    }
}

fn number_boxed(file: u32, small: &mut Boxed<Small>)
    ensures { small_of small.new ≡ small_in file (small_of small.old) }
{
    let small = small.get_mut();
    number_at(file, &mut small.at);
    number_small_form(file, &mut small.form);
}

/// Numbers each node of a part of a head that may be missing.
pub fn number_small(file: u32, small: &mut Option<Boxed<Small>>)
    ensures { option_map small_of small.new ≡ option_with (small_in file) (option_map small_of small.old) }
{
    match small {
        None => {}
        Some(small) => number_boxed(file, small),
    }
}

fn number_setting_form(file: u32, form: &mut SettingForm)
    ensures { setting_form_of form.new ≡ setting_form_in file (setting_form_of form.old) }
{
    match form {
        SettingForm::Named(_, value) => number_expr(file, value),
        SettingForm::Plain(value) => number_expr(file, value),
    }
}

fn number_setting(file: u32, setting: &mut Setting)
    ensures { setting_of setting.new ≡ setting_in file (setting_of setting.old) }
{
    number_at(file, &mut setting.at);
    number_setting_form(file, &mut setting.form);
}

/// Numbers each node of options.
pub fn number_settings(file: u32, settings: &mut Options)
    ensures { settings_of settings.new ≡ map (setting_in file) (settings_of settings.old) }
{
    for i in 0..settings.len() {
        number_setting(file, settings.at_mut(i));
    }
}

/// Numbers each node of options that may be missing.
pub fn number_options(file: u32, options: &mut Option<Options>)
    ensures { option_map settings_of options.new ≡ option_with (map (setting_in file)) (option_map settings_of options.old) }
{
    match options {
        None => {}
        Some(settings) => number_settings(file, settings),
    }
}

fn number_command(file: u32, command: &mut Command)
    ensures { command.new ≡ command_in file command.old }
{
    number_at(file, &mut command.at);
}

fn number_commands(file: u32, commands: &mut Commands)
    ensures { commands.new ≡ map (command_in file) commands.old }
{
    for i in 0..commands.len() {
        number_command(file, commands.at_mut(i));
    }
}

/// Numbers the commands of a task or a rule.
pub fn number_body(file: u32, body: &mut Body)
    ensures { body.new ≡ body_in file body.old }
{
    match body {
        Body::Sys(command) => number_command(file, command),
        Body::Block(commands) => number_commands(file, commands),
    }
}
