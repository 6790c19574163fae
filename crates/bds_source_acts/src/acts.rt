//! The terms of the options and commands of tasks and rules.
ghost use Rattle.std.specs.Prelude.{◌≡◌, IfOk, false, map};
ghost use Rattle.std.specs.Option.{option_map};
ghost use Rattle.bds_tree.specs.StmtView.{act_form_of, setting_of, setting_form_of, settings_of};
ghost use Rattle.bds_tree.specs.View.{tree_of};
ghost use Rattle.bds_meaning.specs.OpeningActs as acts;
ghost use Rattle.bds_meaning.specs.OpeningExpressions as expressions;
ghost use Rattle.bds_meaning.specs.Term as meaning;
ghost use Rattle.bds_meaning.specs.Work as work;
ghost use Rattle.bds_source_acts.specs.Acts.{is_par, plain_act};
ghost use Rattle.bds_source_terms.specs.View as view;
ghost use Rattle.bds_source_terms.specs.View.{term_of, making_of, work_of};

use crate::commands::body_term;
use bds_check_names::Names;
use bds_source_exprs::{expr_term, expr_terms, files_of, text_term};
use bds_source_terms::{Action, Choice, Choices, Making, Term, Work, asked, let_go};
use bds_tree::{ActForm, Body, Expr, Form, Options, Setting, SettingForm};
use bds_value::sharing::list_of;
use bds_value::{At, Boxed, ByteText, Listed, NoMemory, Ty, Value, copy_text};
use std::alloc::Global;

/// What an option of a name sets.
fn choice_of(name: &ByteText) -> Choice
    ensures { view.setting_of result ≡ acts.setting_of name.now }
{
    let name = name.as_slice();
    if name == b"cpus".as_slice() {
        Choice::Processors
    } else if name == b"canFail".as_slice() {
        Choice::CanFail
    } else if name == b"retry".as_slice() {
        Choice::Retries
    } else {
        Choice::TaskName
    }
}

/// An option before others.
fn settle_before(
    choice: Choice,
    value: Term,
    mut choices: Choices,
    behind: Boxed<Term>,
) -> Result<Term, NoMemory>
    ensures { IfOk result (λ t. term_of t ≡ meaning.Settle (view.setting_of choice) (term_of value) (view.settled_of (map (λ c. (c.0, term_of c.1)) choices) (term_of behind))) }
{
    match choices.push((choice, value)) {
        Ok(()) => Ok(Term::Settle(choices, behind)),
        Err(fault) => Err(fault),
    }
}

/// An option before what is none.
fn settle_first(alloc: Global, choice: Choice, value: Term, rest: Term) -> Result<Term, NoMemory>
    ensures { IfOk result (λ t. term_of t ≡ meaning.Settle (view.setting_of choice) (term_of value) (term_of rest)) }
{
    match Boxed::of(alloc, rest) {
        Ok(behind) => settle_before(choice, value, Listed::new(alloc), behind),
        Err(fault) => {
            let_go(value);
            Err(fault)
        }
    }
}

/// An option before others, which stand in one list, or before what is none.
fn settle(alloc: Global, choice: Choice, value: Term, rest: Term) -> Result<Term, NoMemory>
    ensures { IfOk result (λ t. term_of t ≡ meaning.Settle (view.setting_of choice) (term_of value) (term_of rest)) }
{
    match rest {
        Term::Settle(choices, behind) => settle_before(choice, value, choices, behind),
        rest => settle_first(alloc, choice, value, rest),
    }
}

/// In a task the files are compared, in a rule they aren't.
fn weighed(alloc: Global, making: Making, at: At, rest: Term) -> Result<Term, NoMemory>
    ensures { IfOk result (λ t. term_of t ≡ acts.weighed_in (making_of making) at (term_of rest)) }
{
    match making {
        Making::AsTask => match Boxed::of(alloc, rest) {
            Ok(rest) => Ok(Term::Weigh(at, rest)),
            Err(fault) => Err(fault),
        },
        Making::AsRule => Ok(rest),
    }
}

/// An option of an expression.
fn settle_with(
    alloc: Global,
    names: &Names,
    choice: Choice,
    value: &Expr,
    rest: Term,
) -> Result<Term, NoMemory>
    ensures { IfOk result (λ t. term_of t ≡ meaning.Settle (view.setting_of choice) (expressions.term_of names.now (tree_of value.now)) (term_of rest)) }
{
    match expr_term(alloc, names, value) {
        Ok(value) => settle(alloc, choice, value, rest),
        Err(fault) => {
            let_go(rest);
            Err(fault)
        }
    }
}

/// An option of files.
fn settle_files(
    alloc: Global,
    names: &Names,
    at: At,
    choice: Choice,
    files: &Expr,
    rest: Term,
) -> Result<Term, NoMemory>
    ensures { IfOk result (λ t. term_of t ≡ meaning.Settle (view.setting_of choice) (expressions.files_term names.now at (tree_of files.now)) (term_of rest)) }
{
    match files_of(alloc, names, at, files) {
        Ok(files) => settle(alloc, choice, files, rest),
        Err(fault) => {
            let_go(rest);
            Err(fault)
        }
    }
}

/// Outputs, and inputs behind them.
fn settle_both(
    alloc: Global,
    names: &Names,
    at: At,
    outputs: &Expr,
    inputs: &Expr,
    rest: Term,
) -> Result<Term, NoMemory>
    ensures { IfOk result (λ t. term_of t ≡ meaning.Settle work.Outputs (expressions.files_term names.now at (tree_of outputs.now)) (meaning.Settle work.Inputs (expressions.files_term names.now at (tree_of inputs.now)) (term_of rest))) }
{
    match settle_files(alloc, names, at, Choice::Inputs, inputs, rest) {
        Ok(rest) => settle_files(alloc, names, at, Choice::Outputs, outputs, rest),
        Err(fault) => Err(fault),
    }
}

/// An option without a name: the dependency, or a condition.
fn plain_setting(
    alloc: Global,
    names: &Names,
    at: At,
    making: Making,
    expr: &Expr,
    rest: Term,
) -> Result<Term, NoMemory>
    ensures { IfOk result (λ t. term_of t ≡ acts.plain_setting names.now at (making_of making) (tree_of expr.now) (term_of rest)) }
{
    match &expr.form {
        Form::Dependency(outputs, inputs) => match weighed(alloc, making, at, rest) {
            Ok(rest) => settle_both(alloc, names, at, outputs.get(), inputs.get(), rest),
            Err(fault) => Err(fault),
        },
        Form::Name(_)
        | Form::Item(_, _)
        | Form::Key(_, _)
        | Form::Number(_)
        | Form::Text(_)
        | Form::Bool(_)
        | Form::Call(_, _)
        | Form::Group(_)
        | Form::List(_)
        | Form::Map(_)
        | Form::Method(_, _, _)
        | Form::Prefix(_, _)
        | Form::Binary(_, _, _)
        | Form::Choice(_, _, _) => settle_with(alloc, names, Choice::Condition, expr, rest),
    }
}

fn setting_term(
    alloc: Global,
    names: &Names,
    making: Making,
    setting: &Setting,
    rest: Term,
) -> Result<Term, NoMemory>
    ensures { IfOk result (λ t. term_of t ≡ acts.setting_term names.now setting.now.at (making_of making) (setting_form_of setting.now.form) (term_of rest)) }
{
    match &setting.form {
        SettingForm::Named(name, value) => {
            settle_with(alloc, names, choice_of(name), value, rest)
        }
        SettingForm::Plain(value) => {
            plain_setting(alloc, names, setting.at, making, value, rest)
        }
    }
}

/// Options in the order of the text, and what comes behind them.
fn settings_term(
    alloc: Global,
    names: &Names,
    making: Making,
    settings: &[Setting],
    rest: Term,
) -> Result<Term, NoMemory>
    ensures { IfOk result (λ t. term_of t ≡ acts.settings_term names.now (making_of making) (settings_of settings.now) (term_of rest)) }
{
    let mut term = rest;
    for i in (0..settings.len()).rev() {
        term = setting_term(alloc, names, making, &settings[i], term)?;
    }
    Ok(term)
}

/// The values of options that aren't there.
fn unset(alloc: Global) -> Result<Work, NoMemory>
    ensures { IfOk result (λ made. work_of made ≡ work.unset) }
{
    let outs = list_of(alloc, Ty::Text, Listed::new(alloc))?;
    let ins = list_of(alloc, Ty::Text, Listed::new(alloc))?;
    Ok(Work {
        outs,
        ins,
        cpus: Value::Int(1),
        can_fail: Value::Bool(false),
        retry: Value::Int(0),
        name: Value::Text(Listed::new(alloc)),
        needed: true,
    })
}

fn make(alloc: Global, making: Making, at: At, command: Term) -> Result<Term, NoMemory>
    ensures { IfOk result (λ t. term_of t ≡ meaning.Make (making_of making) at work.unset (term_of command)) }
{
    match Boxed::of(alloc, command) {
        Ok(command) => match unset(alloc) {
            Ok(work) => Ok(Term::Make(making, at, work, command)),
            Err(fault) => {
                drop(command);
                Err(fault)
            }
        },
        Err(fault) => Err(fault),
    }
}

/// The options of a task, of which there may be none.
fn some_settings(options: &Option<Options>) -> &[Setting]
    ensures { settings_of result.now ≡ acts.some_settings (option_map settings_of options.now) }
{
    match options {
        Some(settings) => settings.as_slice(),
        None => &[],
    }
}

/// A task or a rule.
fn making_term(
    alloc: Global,
    names: &Names,
    at: At,
    making: Making,
    settings: &[Setting],
    body: &Body,
) -> Result<Term, NoMemory>
    ensures { IfOk result (λ t. term_of t ≡ acts.making_term names.now at (making_of making) (settings_of settings.now) body.now) }
{
    match body_term(alloc, names, at, body) {
        Ok(command) => {
            match make(alloc, making, at, command) {
                Ok(made) => settings_term(alloc, names, making, settings, made),
                Err(fault) => Err(fault),
            }
        }
        Err(fault) => Err(fault),
    }
}

fn spawn_call(alloc: Global, name: ByteText, at: At, operands: Term) -> Result<Term, NoMemory>
    ensures { IfOk result (λ t. term_of t ≡ meaning.SpawnCall name at (term_of operands)) }
{
    match Boxed::of(alloc, operands) {
        Ok(operands) => Ok(Term::SpawnCall(name, at, operands)),
        Err(fault) => Err(fault),
    }
}

/// An act but a `par` block.
pub fn plain_act(alloc: Global, names: &Names, at: At, form: &ActForm) -> Result<Term, NoMemory>
    requires { is_par (act_form_of form.now) ≡ false }
    ensures term { IfOk result (λ t. term_of t ≡ plain_act names.now at (act_form_of form.now)) }
    ensures plain { is_par (act_form_of form.now) ≡ false }
{
    match form {
        ActForm::Sys(pieces) => match text_term(alloc, names, at, pieces.as_slice()) {
            Ok(command) => asked(alloc, Action::CommandRun, at, command),
            Err(fault) => Err(fault),
        },
        ActForm::Task(options, body) => {
            making_term(
                alloc,
                names,
                at,
                Making::AsTask,
                some_settings(options),
                body,
            )
        }
        ActForm::Dep(options, body) => {
            making_term(alloc, names, at, Making::AsRule, options.as_slice(), body)
        }
        ActForm::Goal(expr) => match files_of(alloc, names, at, expr) {
            Ok(files) => asked(alloc, Action::Achieved, at, files),
            Err(fault) => Err(fault),
        },
        ActForm::ParCall(name, arguments) => match copy_text(alloc, name) {
            Ok(name) => match expr_terms(alloc, names, arguments.as_slice()) {
                Ok(operands) => spawn_call(alloc, name, at, operands),
                Err(fault) => Err(fault),
            },
            Err(fault) => Err(fault),
        },
        ActForm::ParBlock(_) => unreachable!(),
    }
}
