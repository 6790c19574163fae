//! Whether the parts of a statement that hold no statement are legal.

ghost use Rattle.std.specs.Prelude.{◌≡◌, map};
ghost use Rattle.std.specs.Option.{option_map};
ghost use Rattle.bds_value.specs.Types.{fits_within};
ghost use Rattle.bds_spell.specs.Fits.{below};
ghost use Rattle.bds_tree.specs.StmtShape.{is_plain};
ghost use Rattle.bds_spell.specs.StmtFits.{result_fits, suffix_fits, suffixes_fit, place_fits, step_fits, small_form_fits, small_fits, setting_fits, settings_fit, maybe_settings_fit, commands_fit, body_fits, parameters_fit, are_plain, has_no_files};
ghost use Rattle.bds_tree.specs.StmtView.{suffix_of, place_of, step_of, small_form_of, small_of, setting_of, settings_of};

use crate::fit_expr::{fits_below, is_call, is_first, maybe_fits};
use bds_tree::{
    Body, Command, Options, Parameter, Piece, Place, Setting, SettingForm, Small, SmallForm, Step,
    Suffix,
};
use bds_value::{Boxed, Texts, Ty, fits_within, is_void};

/// Whether a type has no `Void`, and nests at most so deep one below.
pub fn type_fits_below(ty: &Ty, most: u8) -> bool
    ensures { result ≡ below (fits_within ty.now) most }
{
    0 < most && fits_within(ty, (most - 1) as u32)
}

/// Whether the result of a function, which may be `void`, nests at most so deep.
pub fn result_fits(ty: &Ty, most: u8) -> bool
    ensures { result ≡ result_fits ty.now most }
{
    is_void(ty) || fits_within(ty, most as u32)
}

fn suffix_fits(suffix: &Suffix, most: u8) -> bool
    ensures { result ≡ suffix_fits (suffix_of suffix.now) most }
{
    match suffix {
        Suffix::Item(index) => fits_below(index, most),
        Suffix::Key(key) => fits_below(key, most),
    }
}

fn suffixes_fit(suffixes: &[Suffix], most: u8) -> bool
    ensures { result ≡ suffixes_fit (map suffix_of suffixes.now) most }
{
    for suffix in suffixes {
        if !suffix_fits(suffix, most) {
            return false;
        }
    }
    true
}

pub fn place_fits(place: &Place, most: u8) -> bool
    ensures { result ≡ place_fits (place_of place.now) most }
{
    is_first(place.at) && suffixes_fit(place.suffixes.as_slice(), most)
}

pub fn step_fits(step: &Step, most: u8) -> bool
    ensures { result ≡ step_fits (step_of step.now) most }
{
    match step {
        Step::After(place, _) => place_fits(place, most),
        Step::Before(_, place) => place_fits(place, most),
    }
}

fn small_form_fits(form: &SmallForm, most: u8) -> bool
    ensures { result ≡ small_form_fits (small_form_of form.now) most }
{
    match form {
        SmallForm::Declare(ty, _, start) => type_fits_below(ty, most) && maybe_fits(start, most),
        SmallForm::Infer(_, value) => fits_below(value, most),
        SmallForm::Assign(place, value) => place_fits(place, most) && fits_below(value, most),
        SmallForm::Update(place, _, value) => place_fits(place, most) && fits_below(value, most),
        SmallForm::Step(step) => step_fits(step, most),
        SmallForm::Call(call) => is_call(call) && fits_below(call, most),
    }
}

pub fn small_fits(small: &Option<Boxed<Small>>, most: u8) -> bool
    ensures { result ≡ small_fits (option_map small_of small.now) most }
{
    match small {
        Some(small) => is_first(small.get().at) && small_form_fits(&small.get().form, most),
        None => true,
    }
}

fn setting_fits(setting: &Setting, most: u8) -> bool
    ensures { result ≡ setting_fits (setting_of setting.now) most }
{
    is_first(setting.at)
        && match &setting.form {
            SettingForm::Named(_, value) => fits_below(value, most),
            SettingForm::Plain(value) => fits_below(value, most),
        }
}

pub fn settings_fit(settings: &[Setting], most: u8) -> bool
    ensures { result ≡ settings_fit (settings_of settings.now) most }
{
    for setting in settings {
        if !setting_fits(setting, most) {
            return false;
        }
    }
    true
}

pub fn maybe_settings_fit(settings: &Option<Options>, most: u8) -> bool
    ensures { result ≡ maybe_settings_fit (option_map settings_of settings.now) most }
{
    match settings {
        Some(settings) => settings_fit(settings.as_slice(), most),
        None => true,
    }
}

fn commands_fit(commands: &[Command]) -> bool
    ensures { result ≡ commands_fit commands.now }
{
    for command in commands {
        if !is_first(command.at) {
            return false;
        }
    }
    true
}

pub fn body_fits(body: &Body) -> bool
    ensures { result ≡ body_fits body.now }
{
    match body {
        Body::Sys(command) => is_first(command.at),
        Body::Block(commands) => commands_fit(commands.as_slice()),
    }
}

pub fn parameters_fit(parameters: &[Parameter], most: u8) -> bool
    ensures { result ≡ parameters_fit parameters.now most }
{
    for parameter in parameters {
        if !fits_within(&parameter.ty, most as u32) {
            return false;
        }
    }
    true
}

fn is_plain(piece: &Piece) -> bool
    ensures { result ≡ is_plain piece.now }
{
    matches!(piece, Piece::Plain(_))
}

pub fn are_plain(pieces: &[Piece]) -> bool
    ensures { result ≡ are_plain pieces.now }
{
    for piece in pieces {
        if !is_plain(piece) {
            return false;
        }
    }
    true
}

pub fn has_no_files(files: &Texts) -> bool
    ensures { result ≡ has_no_files files.now }
{
    files.as_slice().is_empty()
}
