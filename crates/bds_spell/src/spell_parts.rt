//! The tokens of the parts of a statement that hold no statement.

ghost use Rattle.std.specs.Prelude.{◌≡◌, ◌++◌, ◌∷◌, [], OnOk, true, map};
ghost use Rattle.std.specs.Option.{option_map};
ghost use Rattle.bds_tree.specs.View.{tree_of};
ghost use Rattle.bds_tree.specs.StmtView.{suffix_of, place_of, step_of, small_form_of, small_of, setting_of, settings_of};
ghost use Rattle.bds_tree.specs.Words.{words};
ghost use Rattle.bds_spell.specs.StmtWords.{type_words, maybe_words, suffixes_words, place_words, step_op_words, step_words, update_op_words, start_words, small_form_words, small_words, setting_words, settings_words, maybe_settings_words, command_words, commands_words, body_words, parameter_words, parameters_words};

use crate::spell_expr::{put, put_comma, put_expr, put_name, put_text};
use bds_tree::{
    Body, Command, Expr, Options, Parameter, Place, Setting, SettingForm, Small, SmallForm, Step,
    StepOp, Suffix, Tokens, UpdateOp, Word, copy_pieces,
};
use bds_value::{Boxed, NoMemory, Ty};
use std::alloc::Global;

pub fn put_type(ty: &Ty, out: &mut Tokens, line: u32) -> Result<(), NoMemory>
    ensures { OnOk result (words out.new ≡ words out.old ++ type_words ty.now) }
{
    match ty {
        Ty::Bool => put(out, line, Word::Bool),
        Ty::Int => put(out, line, Word::Int),
        Ty::Text => put(out, line, Word::String),
        Ty::Void => put(out, line, Word::Void),
        Ty::List(item) => {
            put_type(item.get(), out, line)?;
            put(out, line, Word::OpenSquare)?;
            put(out, line, Word::CloseSquare)
        }
        Ty::Map(item) => {
            put_type(item.get(), out, line)?;
            put(out, line, Word::OpenValue)?;
            put(out, line, Word::CloseValue)
        }
    }
}

pub fn put_maybe(expr: &Option<Expr>, alloc: Global, out: &mut Tokens) -> Result<(), NoMemory>
    ensures { OnOk result (words out.new ≡ words out.old ++ maybe_words (option_map tree_of expr.now)) }
{
    match expr {
        Some(expr) => put_expr(expr, alloc, out),
        None => Ok(()),
    }
}

fn put_start(
    expr: &Option<Expr>,
    alloc: Global,
    out: &mut Tokens,
    line: u32,
) -> Result<(), NoMemory>
    ensures { OnOk result (words out.new ≡ words out.old ++ start_words (option_map tree_of expr.now)) }
{
    match expr {
        Some(expr) => {
            put(out, line, Word::Assign)?;
            put_expr(expr, alloc, out)
        }
        None => Ok(()),
    }
}

fn put_suffix(suffix: &Suffix, alloc: Global, out: &mut Tokens, line: u32) -> Result<(), NoMemory>
    ensures { OnOk result (words out.new ≡ words out.old ++ suffixes_words (suffix_of suffix.now ∷ [])) }
{
    match suffix {
        Suffix::Item(index) => {
            put(out, line, Word::OpenSquare)?;
            put_expr(index, alloc, out)?;
            put(out, line, Word::CloseSquare)
        }
        Suffix::Key(key) => {
            put(out, line, Word::OpenValue)?;
            put_expr(key, alloc, out)?;
            put(out, line, Word::CloseValue)
        }
    }
}

pub fn put_place(place: &Place, alloc: Global, out: &mut Tokens) -> Result<(), NoMemory>
    ensures { OnOk result (words out.new ≡ words out.old ++ place_words (place_of place.now)) }
{
    let line = place.at.line;
    put_name(alloc, out, line, &place.name)?;
    for suffix in place.suffixes.as_slice() {
        put_suffix(suffix, alloc, out, line)?;
    }
    Ok(())
}

fn step_word(op: StepOp) -> Word
    ensures { result ∷ [] ≡ step_op_words op }
{
    match op {
        StepOp::Increment => Word::Increment,
        StepOp::Decrement => Word::Decrement,
    }
}

pub fn update_word(op: UpdateOp) -> Word
    ensures { result ∷ [] ≡ update_op_words op }
{
    match op {
        UpdateOp::Add => Word::AddAssign,
        UpdateOp::Sub => Word::SubAssign,
        UpdateOp::Mul => Word::MulAssign,
        UpdateOp::Div => Word::DivAssign,
        UpdateOp::Rem => Word::RemAssign,
    }
}

pub fn put_step(step: &Step, alloc: Global, out: &mut Tokens) -> Result<(), NoMemory>
    ensures { OnOk result (words out.new ≡ words out.old ++ step_words (step_of step.now)) }
{
    match step {
        Step::After(place, op) => {
            put_place(place, alloc, out)?;
            put(out, place.at.line, step_word(*op))
        }
        Step::Before(op, place) => {
            put(out, place.at.line, step_word(*op))?;
            put_place(place, alloc, out)
        }
    }
}

fn put_small_form(
    form: &SmallForm,
    alloc: Global,
    out: &mut Tokens,
    line: u32,
) -> Result<(), NoMemory>
    ensures { OnOk result (words out.new ≡ words out.old ++ small_form_words (small_form_of form.now)) }
{
    match form {
        SmallForm::Declare(ty, name, start) => {
            put_type(ty, out, line)?;
            put_name(alloc, out, line, name)?;
            put_start(start, alloc, out, line)
        }
        SmallForm::Infer(name, value) => {
            put_name(alloc, out, line, name)?;
            put(out, line, Word::Declare)?;
            put_expr(value, alloc, out)
        }
        SmallForm::Assign(place, value) => {
            put_place(place, alloc, out)?;
            put(out, line, Word::Assign)?;
            put_expr(value, alloc, out)
        }
        SmallForm::Update(place, op, value) => {
            put_place(place, alloc, out)?;
            put(out, line, update_word(*op))?;
            put_expr(value, alloc, out)
        }
        SmallForm::Step(step) => put_step(step, alloc, out),
        SmallForm::Call(call) => put_expr(call, alloc, out),
    }
}

pub fn put_small(
    small: &Option<Boxed<Small>>,
    alloc: Global,
    out: &mut Tokens,
) -> Result<(), NoMemory>
    ensures { OnOk result (words out.new ≡ words out.old ++ small_words (option_map small_of small.now)) }
{
    match small {
        Some(small) => put_small_form(&small.get().form, alloc, out, small.get().at.line),
        None => Ok(()),
    }
}

fn put_setting(setting: &Setting, alloc: Global, out: &mut Tokens) -> Result<(), NoMemory>
    ensures { OnOk result (words out.new ≡ words out.old ++ setting_words (setting_of setting.now)) }
{
    match &setting.form {
        SettingForm::Named(name, value) => {
            put_name(alloc, out, setting.at.line, name)?;
            put(out, setting.at.line, Word::Declare)?;
            put_expr(value, alloc, out)
        }
        SettingForm::Plain(value) => put_expr(value, alloc, out),
    }
}

/// Options with commas between, and the parenthesis that closes them.
pub fn put_settings(
    settings: &[Setting],
    alloc: Global,
    out: &mut Tokens,
    line: u32,
) -> Result<(), NoMemory>
    ensures { OnOk result (words out.new ≡ words out.old ++ settings_words true (settings_of settings.now)) }
{
    let mut first = true;
    for setting in settings {
        put_comma(out, line, first)?;
        put_setting(setting, alloc, out)?;
        first = false;
    }
    put(out, line, Word::CloseRound)
}

pub fn put_maybe_settings(
    settings: &Option<Options>,
    alloc: Global,
    out: &mut Tokens,
    line: u32,
) -> Result<(), NoMemory>
    ensures { OnOk result (words out.new ≡ words out.old ++ maybe_settings_words (option_map settings_of settings.now)) }
{
    match settings {
        Some(settings) => {
            put(out, line, Word::OpenRound)?;
            put_settings(settings.as_slice(), alloc, out, line)
        }
        None => Ok(()),
    }
}

pub fn put_sys(command: &Command, alloc: Global, out: &mut Tokens) -> Result<(), NoMemory>
    ensures { OnOk result (words out.new ≡ words out.old ++ command_words command.now) }
{
    let text = copy_pieces(alloc, &command.text)?;
    put(out, command.at.line, Word::Sys(text))
}

fn put_commands(
    commands: &[Command],
    alloc: Global,
    out: &mut Tokens,
    line: u32,
) -> Result<(), NoMemory>
    ensures { OnOk result (words out.new ≡ words out.old ++ commands_words commands.now) }
{
    for command in commands {
        put_sys(command, alloc, out)?;
        put(out, line, Word::Semicolon)?;
    }
    put(out, line, Word::CloseBlock)
}

pub fn put_body(body: &Body, alloc: Global, out: &mut Tokens, line: u32) -> Result<(), NoMemory>
    ensures { OnOk result (words out.new ≡ words out.old ++ body_words body.now) }
{
    match body {
        Body::Sys(command) => put_sys(command, alloc, out),
        Body::Block(commands) => {
            put(out, line, Word::OpenBlock)?;
            put_commands(commands.as_slice(), alloc, out, line)
        }
    }
}

pub fn put_parameters(
    parameters: &[Parameter],
    alloc: Global,
    out: &mut Tokens,
    line: u32,
) -> Result<(), NoMemory>
    ensures { OnOk result (words out.new ≡ words out.old ++ parameters_words true parameters.now) }
{
    let mut first = true;
    for parameter in parameters {
        put_comma(out, line, first)?;
        put_type(&parameter.ty, out, line)?;
        put_name(alloc, out, line, &parameter.name)?;
        first = false;
    }
    put(out, line, Word::CloseRound)
}
